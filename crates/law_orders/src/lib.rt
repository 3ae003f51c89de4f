// Orders in plain words, above the equations.
#![tactic(auto)]

ghost use Rattle.law_orders.specs.Statements.{RefusedLeaves, IgnoredLeaves, SilentLeaves, RestsUnmet, AmendsUnmet, AlwaysLeft};

// A refused call leaves everything as it was.
pub fn refused_leaves()
    ensures { RefusedLeaves }
{}

// An ignored message leaves everything as it was.
pub fn ignored_leaves()
    ensures { IgnoredLeaves }
{}

// A message whose answer counts no reply leaves everything but the clock as it was.
pub fn silent_leaves()
    ensures { SilentLeaves }
{}

// What rests of a newcomer meets no order.
pub fn rests_unmet()
    ensures { RestsUnmet }
{}

// An order that is amended in its book meets no order.
pub fn amends_unmet()
    ensures { AmendsUnmet }
{}

// In every run something is left of every live order.
pub fn always_left()
    ensures { AlwaysLeft }
{}
