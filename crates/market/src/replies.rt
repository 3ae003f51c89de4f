// What an account is told.
ghost use Rattle.std.specs.Prelude.{◌≡◌};
ghost use Rattle.market.specs.Changes.{replied};

use crate::market::Market;
use line::line::Line;
use ouch::reply::Reply;
use store::store::Store;

impl<S: Store, L: Line> Market<S, L> {
    // A reply to an account.
    pub fn reply(&mut self, account: u8, reply: Reply)
        ensures { self.new.host ≡ replied self.old.host account reply }
    {
        let frame = reply.encode(account);
        let _ = self.replies.take(frame.bytes());
    }
}
