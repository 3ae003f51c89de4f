// Begin: the feed tells what is loaded, and the day's messages start.
ghost use Rattle.std.specs.Prelude.{◌≡◌};
ghost use Rattle.engine.specs.Calls.{unless, begin_fault, begin_done};

use crate::checks::refuse_if;
use crate::engine::Engine;
use line::line::Line;
use market::time::Time;
use rules::fault::Fault;
use store::store::Store;

impl<S: Store, L: Line> Engine<S, L> {
    pub(crate) fn check_begin(&self, time: u64) -> Result<Time, Fault>
        ensures { result ≡ unless (begin_fault self.now.market.host time) time }
    {
        let time = Time::try_from(time)?;
        self.check_clock(time)?;
        refuse_if(!self.market.phase.is_loading(), Fault::Phase)?;
        let needed = self.market.announcement_places();
        refuse_if(self.market.feed.free() < needed, Fault::FeedPlaces)?;
        Ok(time)
    }

    // Does a begin that nothing refuses.
    pub(crate) fn run_begin(&mut self, time: Time)
        ensures { self.new.market.host ≡ begin_done self.old.market.host time }
    {
        let changes = self.market.announcement();
        self.market.clock = u64::from(time);
        self.market.publish_all(time, changes.as_slice());
    }
}
