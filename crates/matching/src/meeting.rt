// Whether a newcomer meets a resting order, and how much it meets in all.
ghost use Rattle.std.specs.Prelude.{◌≡◌, if◌then◌else◌};
ghost use Rattle.matching.specs.Matching.{meets, is_met, meeting_quantity, is_dead};
ghost use Rattle.store.specs.Best.{opposite};

use fields::letters::Side;
use rules::reasons::{is_immediate, is_post_only};
use store::orders::Orders;
use store::record::Record;
use store::store::Store;

// A function: `Side` is of the messages, which know of no other side.
pub fn opposite(side: Side) -> Side
    ensures { result ≡ opposite side }
{
    match side {
        Side::Buy => Side::Sell,
        Side::Sell => Side::Buy,
    }
}

// A buy and a sell meet when the buy's yield is at or below the sell's; `own` is the newcomer's.
pub fn meets(side: Side, own: i32, other: i32) -> bool
    ensures { result ≡ meets side own other }
{
    match side {
        Side::Buy => own <= other,
        Side::Sell => other <= own,
    }
}

// In its book, on the other side, at a yield that meets.
fn is_met(newcomer: Record, order: Record) -> bool
    ensures { result ≡ is_met newcomer order }
{
    order.book == newcomer.book
        && order.side == opposite(newcomer.side)
        && meets(newcomer.side, newcomer.rate, order.rate)
}

// What a newcomer meets in an order: all that is left of it, or nothing.
fn met_in(newcomer: Record, order: Record) -> u32
    ensures { result ≡ (if is_met newcomer order then order.left else 0) }
{
    if is_met(newcomer, order) {
        order.left
    } else {
        0
    }
}

// What is left in all the orders that a newcomer meets. The sum of 4,096 quantities of 32 bits fits 64. A loop, since a
// closure that is summed over would have to promise those 32 bits in clauses of its own.
pub fn meeting_quantity<S: Store>(store: &S, newcomer: Record) -> u64
    ensures { result ≡ meeting_quantity newcomer (S.Records.list store.now) }
{
    let mut meeting = 0;
    for order in Orders::of(store) {
        meeting += u64::from(met_in(newcomer, order));
    }
    meeting
}

// Three terms of an Enter or a Replace: a struct of them would be made for this question alone.
// An immediate order is dead when nothing meets it, or less than its minimum; a post-only order when anything does.
pub fn is_dead(force: u32, display: u8, minimum: u32, meeting: u64) -> bool
    ensures { result ≡ is_dead force display minimum meeting }
{
    if is_immediate(force) {
        meeting == 0 || meeting < u64::from(minimum)
    } else {
        is_post_only(display) && meeting > 0
    }
}
