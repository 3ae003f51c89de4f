// Second copies of messages, over whole runs.
#![tactic(auto)]

ghost use Rattle.law.specs.Law.{CopiesChangeNothing};

// A second copy of a message that was answered with a reply changes nothing but the clock, however much later it comes.
pub fn copies_stand()
    ensures { CopiesChangeNothing }
{}
