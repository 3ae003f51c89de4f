// What an account asks, done.
ghost use Rattle.std.specs.Prelude.{◌≡◌, ◌≤◌, ◌^◌};
ghost use Rattle.ouch.specs.Inbound.{asked};
ghost use Rattle.orders.specs.Orders.{answered};

use crate::cancel::cancel_order;
use crate::enter::enter_order;
use crate::replace::replace_order;
use line::line::Line;
use market::market::Market;
use market::time::Time;
use ouch::inbound::Inbound;
use store::store::Store;

// Functions of the market: methods of a struct that lends it would say `self.market.new` in each clause.
// The numbers are at most 2^63 when a message comes, but may pass that by those that it takes: no type can hold the bound,
// so each function asks for it.
pub fn answer<S: Store, L: Line>(
    market: &mut Market<S, L>,
    time: Time,
    account: u8,
    message: Inbound<'_>,
)
    requires orders { market.old.host.next_order ≤ 2 ^ 63 }
    requires matches { market.old.host.next_match ≤ 2 ^ 63 }
    ensures { market.new.host ≡ answered market.old.host time account (asked message.entry) }
{
    match message {
        Inbound::Enter(order) => enter_order(market, time, account, order),
        Inbound::Replace(order) => replace_order(market, time, account, order),
        Inbound::Cancel(order) => cancel_order(market, time, account, order),
    }
}
