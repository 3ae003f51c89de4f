// Enter: a new order is ignored, rejected for a reason, accepted dead, or enters the book.
ghost use Rattle.std.specs.Prelude.{◌≡◌, ◌≤◌, ◌^◌};
ghost use Rattle.ouch.specs.Inbound.{entered as asked};
ghost use Rattle.orders.specs.Orders.{newcomer, accepted_reply, rejected_reply, full, accepted, judged, entered};

use crate::number::{dead_or, reply_numbered};
use fields::letters::Side;
use line::line::Line;
use market::market::Market;
use market::time::Time;
use matching::meeting::{is_dead, meeting_quantity};
use matching::placing::place_order;
use ouch::inbound::Enter;
use ouch::letters::RejectReason;
use ouch::replies::{Accepted, Rejected};
use ouch::reply::Reply;
use rules::reasons::enter_reason;
use store::record::Record;
use store::store::{Records, Store};

// The order that an Enter asks for.
fn newcomer<S: Store, L: Line>(market: &Market<S, L>, account: u8, message: Enter<'_>) -> Record
    ensures { result ≡ newcomer market.now.host account (asked message.entry) }
{
    Record {
        number: market.next_order,
        account,
        token: message.token,
        // where the letter is wrong, the order was rejected
        side: Side::try_from(message.side).unwrap_or(Side::Buy),
        book: message.code,
        rate: message.price,
        left: message.quantity,
        executed: 0,
    }
}

// What was entered, said back, with the order's number and state.
fn accepted_reply(time: Time, message: Enter<'_>, order: Record, dead: bool) -> Reply
    ensures { result ≡ accepted_reply time (asked message.entry) order dead }
{
    // Arrays go in through locals: straight from a field the check does not take them.
    let reference = *message.reference;
    let group = message.group;
    Reply::Accepted(Accepted {
        time: time.into(),
        token: message.token,
        reference,
        side: order.side,
        quantity: message.quantity,
        code: message.code,
        group,
        price: message.price,
        force: message.force,
        firm: message.firm,
        display: message.display,
        capacity: message.capacity,
        number: order.number,
        minimum: message.minimum,
        state: dead_or(dead),
        classification: message.classification,
        margin: message.margin,
    })
}

fn rejected_reply(time: Time, message: Enter<'_>, reason: RejectReason) -> Reply
    ensures { result ≡ rejected_reply time (asked message.entry) reason }
{
    Reply::Rejected(Rejected {
        time: time.into(),
        token: message.token,
        reason,
    })
}

// Whether the store has no place for one more order.
fn is_full<S: Store, L: Line>(market: &Market<S, L>) -> bool
    ensures { result ≡ full market.now.host }
{
    market.store.len() >= market.store.capacity()
}

// A dead order is only answered; a live one enters the book.
fn accept<S: Store, L: Line>(
    market: &mut Market<S, L>,
    time: Time,
    message: Enter<'_>,
    order: Record,
)
    requires orders { market.old.host.next_order ≤ 2 ^ 63 }
    requires matches { market.old.host.next_match ≤ 2 ^ 63 }
    ensures { market.new.host ≡ accepted market.old.host time (asked message.entry) order }
{
    let meeting = meeting_quantity(&market.store, order);
    let dead = is_dead(message.force, message.display, message.minimum, meeting);
    reply_numbered(
        market,
        order.account,
        accepted_reply(time, message, order, dead),
    );
    if !dead {
        place_order(market, time, order, message.force);
    }
}

// A token that is not above the account's last is ignored; any other becomes the last, also where the order is
// rejected, so that a second copy of the message is ignored.
pub fn enter_order<S: Store, L: Line>(
    market: &mut Market<S, L>,
    time: Time,
    account: u8,
    message: Enter<'_>,
)
    requires orders { market.old.host.next_order ≤ 2 ^ 63 }
    requires matches { market.old.host.next_match ≤ 2 ^ 63 }
    ensures { market.new.host ≡ entered market.old.host time account (asked message.entry) }
{
    let number = usize::from(account);
    if message.token <= market.accounts.last_token(number) {
        return;
    }
    let reason = enter_reason(
        market.phase,
        &market.rows,
        &market.books,
        is_full(market),
        &message,
    );
    market.accounts.accept(number, message.token);
    match reason {
        Some(reason) => market.reply(account, rejected_reply(time, message, reason)),
        None => {
            let order = newcomer(market, account, message);
            accept(market, time, message, order);
        }
    }
}
