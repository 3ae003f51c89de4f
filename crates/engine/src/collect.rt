// Collect: the waiting messages of both lines are gone, or those of neither.
ghost use Rattle.std.specs.Prelude.{◌≡◌};
ghost use Rattle.line.specs.Meaning.{collects};
ghost use Rattle.engine.specs.Calls.{unless, collect_fault, collect_done};

use crate::checks::refuse_if;
use crate::engine::Engine;
use line::line::{Line, MOST_GONE};
use line::refusal::Refusal;
use rules::fault::Fault;
use store::store::Store;

impl<S: Store, L: Line> Engine<S, L> {
    pub(crate) fn check_collect(&self) -> Result<(), Fault>
        ensures { result ≡ unless (collect_fault self.now.market.host) tt }
    {
        let fits = can_collect(&self.market.feed) && can_collect(&self.market.replies);
        refuse_if(!fits, Fault::Line(Refusal::TooManyGone))
    }

    pub(crate) fn run_collect(&mut self)
        ensures { self.new.market.host ≡ collect_done self.old.market.host }
    {
        let _ = self.market.feed.collect();
        let _ = self.market.replies.collect();
    }
}

fn can_collect<L: Line>(line: &L) -> bool
    ensures { result ≡ collects (L.Line.meaning line.now) }
{
    line.gone() + line.waiting() as u64 <= MOST_GONE
}
