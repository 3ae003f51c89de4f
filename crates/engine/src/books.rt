// What the calls that change a book have in common.
ghost use Rattle.std.specs.Prelude.{◌≡◌};
ghost use Rattle.engine.specs.Calls.{unless, book_fault};

use crate::checks::refuse_if;
use crate::engine::Engine;
use line::line::Line;
use market::time::Time;
use rules::fault::Fault;
use store::store::Store;

impl<S: Store, L: Line> Engine<S, L> {
    // Why a book cannot be changed, given whether the change itself is allowed.
    pub(crate) fn check_book(&self, time: u64, code: u32, allowed: bool) -> Result<Time, Fault>
        ensures { result ≡ unless (book_fault self.now.market.host time code allowed) time }
    {
        let time = Time::try_from(time)?;
        self.check_clock(time)?;
        refuse_if(!(self.market.phase.is_running() && allowed), Fault::Phase)?;
        refuse_if(self.market.books.find(code).is_none(), Fault::Book)?;
        self.check_feed_places()?;
        Ok(time)
    }
}
