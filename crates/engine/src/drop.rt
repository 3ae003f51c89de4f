// Drop: an account is gone, and its orders with it.
ghost use Rattle.std.specs.Prelude.{◌≡◌};
ghost use Rattle.engine.specs.Calls.{unless, drop_fault, drop_done};
ghost use Rattle.engine.specs.Sweep.{swept};

use crate::checks::refuse_if;
use crate::engine::Engine;
use line::line::Line;
use market::time::Time;
use ouch::letters::CancelReason;
use rules::fault::Fault;
use store::store::Store;
use store::withdraw::next_of;

impl<S: Store, L: Line> Engine<S, L> {
    pub(crate) fn check_drop(&self, time: u64, account: u8) -> Result<Time, Fault>
        ensures { result ≡ unless (drop_fault self.now.market.host time account) time }
    {
        let time = Time::try_from(time)?;
        self.check_account(account)?;
        self.check_clock(time)?;
        refuse_if(!self.market.phase.is_running(), Fault::Phase)?;
        self.check_feed_places()?;
        self.check_reply_places()?;
        Ok(time)
    }

    // Does a drop that nothing refuses.
    pub(crate) fn run_drop(&mut self, time: Time, account: u8)
        ensures { self.new.market.host ≡ drop_done self.old.market.host time account }
    {
        self.market.clock = u64::from(time);
        self.sweep(time, account);
    }

    // Cancels the account's orders, oldest first.
    fn sweep(&mut self, time: Time, account: u8)
        ensures { self.new.market.host ≡ swept self.old.market.host time account }
    {
        let mut start = 0;
        while let Some((place, _)) = next_of(&self.market.store, account, start) {
            self.market.withdraw(time, place, CancelReason::LoggedOff);
            start = place;
        }
    }
}
