// How an order is judged: the first reason that applies rejects an Enter, and cancels the order of a Replace.
ghost use Rattle.std.specs.Prelude.{◌≡◌, ◌&&◌, ◌||◌, ◌==◌};
ghost use Rattle.ouch.specs.Inbound.{entered};
ghost use Rattle.rules.specs.Reasons.{immediate, for_day, post_only, bad_force, bad_display, bad_lots, bad_minimum, bad_letters, known_book, enter_reason, balance, bad_total, replace_reason};

use crate::phase::Phase;
use crate::tables::{Book, Books, GROUP, TickRows};
use fields::letters::Side;
use ouch::inbound::{Enter, Replace};
use ouch::letters::{CancelReason, RejectReason};

#[cfg(test)]
mod tests;

// The two times in force.
pub const IMMEDIATE: u32 = 0;

pub const FOR_DAY: u32 = 99_999;

// The two displays.
pub const POST_ONLY: u8 = b'P';

pub const BLANK: u8 = b' ';

// The greatest quantity of an order.
pub const GREATEST_QUANTITY: u32 = 2_000_000;

// The one firm, and the one cash margin type.
const FIRM: u32 = 0;

const MARGIN: u8 = b'1';

// ---- what is asked of both

// Each test is one comparison under the rule's name; one function over the constants would say no more.
pub fn is_immediate(force: u32) -> bool
    ensures { result ≡ immediate force }
{
    force == IMMEDIATE
}

pub fn is_for_day(force: u32) -> bool
    ensures { result ≡ for_day force }
{
    force == FOR_DAY
}

pub fn is_post_only(display: u8) -> bool
    ensures { result ≡ post_only display }
{
    display == POST_ONLY
}

fn bad_force(force: u32) -> bool
    ensures { result ≡ bad_force force }
{
    !is_immediate(force) && !is_for_day(force)
}

// An order cannot be both immediate and post-only.
fn bad_display(display: u8, force: u32) -> bool
    ensures { result ≡ bad_display display force }
{
    let post_only = is_post_only(display);
    !(post_only || display == BLANK) || post_only && is_immediate(force)
}

fn bad_lots(book: Book, quantity: u32) -> bool
    ensures { result ≡ bad_lots book quantity }
{
    !quantity.is_multiple_of(book.lot) || quantity > GREATEST_QUANTITY
}

// A minimum is for immediate orders, and at most the quantity.
fn bad_minimum(minimum: u32, force: u32, quantity: u32) -> bool
    ensures { result ≡ bad_minimum minimum force quantity }
{
    is_for_day(force) && minimum != 0 || minimum > quantity
}

// ---- Enter

// Whether the letter of the side, the capacity or the classification is not a listed one.
fn bad_letters(order: &Enter<'_>) -> bool
    ensures { result ≡ bad_letters (entered order.now) }
{
    Side::try_from(order.side).is_err()
        || !matches!(order.capacity, b'A' | b'P')
        || !matches!(order.classification, b'1' | b'3' | b'4' | b'5' | b'6')
}

// Whether the book is loaded, and the group named is its own.
fn known_book(books: &Books, order: &Enter<'_>) -> bool
    ensures { result ≡ known_book books.now (entered order.now) }
{
    books.find(order.code).is_some() && order.group == GROUP
}

fn bad_quantity(book: Book, quantity: u32) -> bool
    ensures { result ≡ (quantity == 0 || bad_lots book quantity) }
{
    quantity == 0 || bad_lots(book, quantity)
}

// Only an order for the day may come to rest in the store.
fn lacks_place(full: bool, force: u32) -> bool
    ensures { result ≡ (for_day force && full) }
{
    is_for_day(force) && full
}

// Why an order cannot be entered; `full` says that the store has no place for one more. A reason is what the account is
// told, and no fault of the call: an Option, and no Result. Phase, rows and books are the market's fields, and a Replace
// takes the book alone: a struct of them would be made for each call only to be taken apart.
pub fn enter_reason(
    phase: Phase,
    rows: &TickRows,
    books: &Books,
    full: bool,
    order: &Enter<'_>,
) -> Option<RejectReason>
    ensures { result ≡ enter_reason phase rows.now books.now full (entered order.now) }
{
    let book = books.find_or_blank(order.code);
    if !phase.in_session() {
        Some(RejectReason::NotNow)
    } else if !known_book(books, order) {
        Some(RejectReason::Book)
    } else if book.is_suspended() {
        Some(RejectReason::Halted)
    } else if order.firm != FIRM {
        Some(RejectReason::Firm)
    } else if bad_letters(order) {
        Some(RejectReason::Other)
    } else if order.margin != MARGIN {
        Some(RejectReason::Margin)
    } else if bad_force(order.force) {
        Some(RejectReason::OrderType)
    } else if bad_display(order.display, order.force) {
        Some(RejectReason::Display)
    } else if rows.refuses_yield(book, order.price) {
        Some(RejectReason::Price)
    } else if bad_quantity(book, order.quantity) {
        Some(RejectReason::Quantity)
    } else if bad_minimum(order.minimum, order.force, order.quantity) {
        Some(RejectReason::Minimum)
    } else if lacks_place(full, order.force) {
        Some(RejectReason::Other)
    } else {
        None
    }
}

// ---- Replace

// What is wanted of an order besides what it has executed.
pub fn balance(executed: u32, order: Replace) -> u32
    ensures { result ≡ balance executed order }
{
    order.quantity.saturating_sub(executed)
}

// The total of an order is not below what it has executed, and is in lots where something is wanted besides.
fn bad_total(book: Book, executed: u32, total: u32) -> bool
    ensures { result ≡ bad_total book executed total }
{
    total < executed || total > executed && bad_lots(book, total)
}

// Why the order of a book that has executed so much cannot be replaced.
pub fn replace_reason(
    phase: Phase,
    rows: &TickRows,
    book: Book,
    executed: u32,
    order: Replace,
) -> Option<CancelReason>
    ensures { result ≡ replace_reason phase rows.now book executed order }
{
    if !phase.in_session() || book.is_suspended() {
        Some(CancelReason::NotNow)
    } else if bad_force(order.force) {
        Some(CancelReason::OrderType)
    } else if bad_display(order.display, order.force) {
        Some(CancelReason::Display)
    } else if rows.refuses_yield(book, order.price) {
        Some(CancelReason::Price)
    } else if bad_total(book, executed, order.quantity) {
        Some(CancelReason::Quantity)
    } else if bad_minimum(order.minimum, order.force, balance(executed, order)) {
        Some(CancelReason::Minimum)
    } else {
        None
    }
}
