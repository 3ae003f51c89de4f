// Message: what an account sends is read, and done.
ghost use Rattle.std.specs.Prelude.{◌≡◌, ◌≤◌, ◌^◌};
ghost use Rattle.ouch.specs.Inbound.{asked};
ghost use Rattle.engine.specs.Calls.{unless, spent, message_fault, message_done};

use crate::checks::refuse_if;
use crate::engine::Engine;
use line::line::Line;
use market::market::GREATEST_NUMBER;
use market::time::Time;
use orders::answer::answer;
use ouch::inbound::Inbound;
use rules::fault::Fault;
use store::store::Store;

impl<S: Store, L: Line> Engine<S, L> {
    pub(crate) fn check_message(&self, time: u64, account: u8) -> Result<Time, Fault>
        ensures { result ≡ unless (message_fault self.now.market.host time account) time }
    {
        let time = Time::try_from(time)?;
        self.check_account(account)?;
        self.check_clock(time)?;
        refuse_if(!self.market.phase.takes_messages(), Fault::Phase)?;
        refuse_if(self.is_spent(), Fault::Numbers)?;
        self.check_feed_places()?;
        self.check_reply_places()?;
        Ok(time)
    }

    // Whether the number of the next order or of the next match is too great.
    fn is_spent(&self) -> bool
        ensures { result ≡ spent self.now.market.host }
    {
        self.market.next_order > GREATEST_NUMBER || self.market.next_match > GREATEST_NUMBER
    }

    // Does a message that nothing refuses.
    pub(crate) fn run_message(&mut self, time: Time, account: u8, message: Inbound<'_>)
        requires orders { self.old.market.host.next_order ≤ 2 ^ 63 }
        requires matches { self.old.market.host.next_match ≤ 2 ^ 63 }
        ensures { self.new.market.host ≡ message_done self.old.market.host time account (asked message.entry) }
    {
        self.market.clock = u64::from(time);
        answer(&mut self.market, time, account, message);
    }
}
