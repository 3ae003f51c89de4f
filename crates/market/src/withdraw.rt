// An order leaves the book: its account is told, and so is the feed.
ghost use Rattle.std.specs.Prelude.{◌≡◌};
ghost use Rattle.market.specs.Changes.{canceled_reply, replied, withdrawn};

use crate::change::Change;
use crate::market::Market;
use crate::time::Time;
use line::line::Line;
use ouch::letters::CancelReason;
use ouch::replies::Canceled;
use ouch::reply::Reply;
use store::record::Record;
use store::store::Store;

impl<S: Store, L: Line> Market<S, L> {
    // The order at a place is canceled with all that is left of it.
    pub fn withdraw(&mut self, time: Time, place: usize, reason: CancelReason)
        ensures { self.new.host ≡ withdrawn self.old.host time place reason }
    {
        self.reply_canceled(time, self.record_at(place), reason);
        self.publish(time, Change::Withdraw(place));
    }

    // An order's account is told that all that is left of it is canceled.
    pub fn reply_canceled(&mut self, time: Time, order: Record, reason: CancelReason)
        ensures { self.new.host ≡ replied self.old.host order.account (canceled_reply time order reason) }
    {
        let reply = Reply::Canceled(Canceled {
            time: time.into(),
            token: order.token,
            quantity: order.left,
            reason,
        });
        self.reply(order.account, reply);
    }
}
