// Replace: a live order gets a new token, number, quantity and yield, or is canceled for a reason.
ghost use Rattle.std.specs.Prelude.{◌≡◌, ◌≤◌, ◌||◌, ◌==◌, ◌^◌};
ghost use Rattle.market.specs.Changes.{record_at};
ghost use Rattle.matching.specs.Matching.{is_dead, meeting_quantity};
ghost use Rattle.orders.specs.Orders.{replacement, replaced_reply, granted, rejudged, reason_at, replaced_at, replaced};

use crate::number::{dead_or, reply_numbered};
use line::line::Line;
use market::change::Change;
use market::market::Market;
use market::time::Time;
use matching::meeting::{is_dead, meeting_quantity};
use matching::placing::place_order;
use ouch::inbound::Replace;
use ouch::letters::CancelReason;
use ouch::replies::Replaced;
use ouch::reply::Reply;
use rules::reasons::{balance, replace_reason};
use rules::tables::GROUP;
use store::record::Record;
use store::store::Store;

// The order that a Replace makes of another: it keeps side, book and what it has executed.
fn replacement<S: Store, L: Line>(market: &Market<S, L>, order: Record, message: Replace) -> Record
    ensures { result ≡ replacement market.now.host order message }
{
    Record {
        number: market.next_order,
        token: message.replacement,
        rate: message.price,
        left: balance(order.executed, message),
        ..order
    }
}

fn replaced_reply(time: Time, message: Replace, order: Record, dead: bool) -> Reply
    ensures { result ≡ replaced_reply time message order dead }
{
    Reply::Replaced(Replaced {
        time: time.into(),
        token: message.replacement,
        side: order.side,
        quantity: order.left,
        code: order.book,
        group: GROUP,
        price: message.price,
        force: message.force,
        display: message.display,
        number: order.number,
        minimum: message.minimum,
        state: dead_or(dead),
        previous: message.existing,
    })
}

// Why the order at a place cannot be replaced.
fn reason_at<S: Store, L: Line>(
    market: &Market<S, L>,
    order: Record,
    message: Replace,
) -> Option<CancelReason>
    ensures { result ≡ reason_at market.now.host message order }
{
    let book = market.books.find_or_blank(order.book);
    replace_reason(market.phase, &market.rows, book, order.executed, message)
}

// Whether nothing of the order is wanted any more, or it is dead as a newcomer would be.
fn dies(message: Replace, order: Record, meeting: u64) -> bool
    ensures { result ≡ (order.left == 0 || is_dead message.force message.display message.minimum meeting) }
{
    order.left == 0 || is_dead(message.force, message.display, message.minimum, meeting)
}

// The new token becomes the account's last, and the account is told the balance before any matching. Dead: the order
// leaves the book. Nothing meets: it is amended. Else it leaves the book and comes back as a newcomer.
fn grant<S: Store, L: Line>(
    market: &mut Market<S, L>,
    time: Time,
    message: Replace,
    place: usize,
    order: Record,
)
    requires orders { market.old.host.next_order ≤ 2 ^ 63 }
    requires matches { market.old.host.next_match ≤ 2 ^ 63 }
    ensures { market.new.host ≡ granted market.old.host time message place order (meeting_quantity order market.old.host.orders) }
{
    let meeting = meeting_quantity(&market.store, order);
    let dead = dies(message, order, meeting);
    market
        .accounts
        .accept(usize::from(order.account), message.replacement);
    reply_numbered(
        market,
        order.account,
        replaced_reply(time, message, order, dead),
    );
    if dead {
        market.publish(time, Change::Withdraw(place));
    } else if meeting == 0 {
        market.publish(time, Change::Amend(place, order));
    } else {
        market.publish(time, Change::Withdraw(place));
        place_order(market, time, order, message.force);
    }
}

// The order at a place is canceled for a reason, or replaced.
fn replace_at<S: Store, L: Line>(
    market: &mut Market<S, L>,
    time: Time,
    place: usize,
    message: Replace,
)
    requires orders { market.old.host.next_order ≤ 2 ^ 63 }
    requires matches { market.old.host.next_match ≤ 2 ^ 63 }
    ensures { market.new.host ≡ rejudged market.old.host time message place (reason_at market.old.host message (record_at place market.old.host.orders)) }
{
    let order = market.record_at(place);
    match reason_at(market, order, message) {
        Some(reason) => market.withdraw(time, place, reason),
        None => {
            let new = replacement(market, order, message);
            grant(market, time, message, place, new);
        }
    }
}

// Ignored if the existing token is not live or the new one is not above the account's last.
pub fn replace_order<S: Store, L: Line>(
    market: &mut Market<S, L>,
    time: Time,
    account: u8,
    message: Replace,
)
    requires orders { market.old.host.next_order ≤ 2 ^ 63 }
    requires matches { market.old.host.next_match ≤ 2 ^ 63 }
    ensures { market.new.host ≡ replaced market.old.host time account message }
{
    let Some(place) = market.store.find(account, message.existing) else {
        return;
    };
    if message.replacement > market.accounts.last_token(usize::from(account)) {
        replace_at(market, time, place, message);
    }
}
