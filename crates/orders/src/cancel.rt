// Cancel: a live order leaves the book at its account's wish. Any other token is ignored.
ghost use Rattle.std.specs.Prelude.{◌≡◌};
ghost use Rattle.orders.specs.Orders.{canceled};

use line::line::Line;
use market::market::Market;
use market::time::Time;
use ouch::inbound::Cancel;
use ouch::letters::CancelReason;
use store::store::Store;

pub fn cancel_order<S: Store, L: Line>(
    market: &mut Market<S, L>,
    time: Time,
    account: u8,
    message: Cancel,
)
    ensures { market.new.host ≡ canceled market.old.host time account message }
{
    if let Some(place) = market.store.find(account, message.token) {
        market.withdraw(time, place, CancelReason::User);
    }
}
