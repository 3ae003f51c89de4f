// A reply that takes the next order number, and says whether the order lives.
ghost use Rattle.std.specs.Prelude.{◌≡◌, ◌≤◌, ◌^◌};
ghost use Rattle.orders.specs.Orders.{dead_or, numbered};

use line::line::Line;
use market::market::Market;
use ouch::letters::OrderState;
use ouch::reply::Reply;
use store::store::Store;

// A function: an impl of `From<bool>` is refused, since both types are other crates'.
pub(crate) fn dead_or(dead: bool) -> OrderState
    ensures { result ≡ dead_or dead }
{
    if dead {
        OrderState::Dead
    } else {
        OrderState::Live
    }
}

pub(crate) fn reply_numbered<S: Store, L: Line>(
    market: &mut Market<S, L>,
    account: u8,
    reply: Reply,
)
    requires orders { market.old.host.next_order ≤ 2 ^ 63 }
    ensures { market.new.host ≡ numbered market.old.host account reply }
{
    market.reply(account, reply);
    market.next_order += 1;
}
