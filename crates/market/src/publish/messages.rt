// The feed message that tells a change.
ghost use Rattle.std.specs.Prelude.{◌≡◌, []};
ghost use Rattle.market.specs.Changes.{told, event_group};

use crate::change::Change;
use crate::market::Market;
use fields::letters::{BookState, Event};
use itch::feed::FeedMessage;
use itch::mark::Mark;
use itch::messages::{
    Directory, OrderAdded, OrderDeleted, OrderExecuted, OrderReplaced, SystemEvent, TickSize,
    TradingState,
};
use line::line::Line;
use rules::tables::{Book, GROUP, TickRow};
use store::record::Record;
use store::store::Store;

// The group of an event that concerns the whole system.
const WHOLE_SYSTEM: [u8; 4] = *b"    ";

// Yields are in thousandths of a percent.
const DECIMALS: u32 = 3;

// The order number that tells a reference yield: no order has it.
const NO_ORDER: u64 = 0;

impl<S: Store, L: Line> Market<S, L> {
    // The message that tells a change which is still to be made.
    pub(super) fn message_of(&self, nanos: u32, change: Change) -> FeedMessage
        ensures { result ≡ told self.now.host.orders nanos change }
    {
        match change {
            Change::Event(event) => event_message(nanos, event),
            Change::Tick(row) => row_message(nanos, row),
            Change::Directory(book) => book_message(nanos, book),
            Change::State(code, state) => state_message(nanos, code, state),
            Change::Reference(code, rate) => reference_message(nanos, code, rate),
            Change::Rest(order) => order_message(nanos, order),
            Change::Execute(place, quantity, matched) => FeedMessage::Executed(OrderExecuted {
                nanos,
                number: self.record_at(place).number,
                quantity,
                matched,
            }),
            Change::Withdraw(place) => FeedMessage::Deleted(OrderDeleted {
                nanos,
                number: self.record_at(place).number,
            }),
            Change::Amend(place, order) => FeedMessage::Replaced(OrderReplaced {
                nanos,
                original: self.record_at(place).number,
                number: order.number,
                quantity: order.left,
                price: order.rate,
            }),
        }
    }
}

fn event_group(event: Event) -> [u8; 4]
    ensures { result ≡ event_group event }
{
    match event {
        Event::StartOfMessages | Event::EndOfMessages => WHOLE_SYSTEM,
        _ => GROUP,
    }
}

fn event_message(nanos: u32, event: Event) -> FeedMessage
    ensures { result ≡ told [] nanos (Change.Event event) }
{
    FeedMessage::Event(SystemEvent {
        nanos,
        group: event_group(event),
        event,
    })
}

fn row_message(nanos: u32, row: TickRow) -> FeedMessage
    ensures { result ≡ told [] nanos (Change.Tick row) }
{
    FeedMessage::Tick(TickSize {
        nanos,
        table: row.table,
        size: row.size,
        start: row.start,
    })
}

fn book_message(nanos: u32, book: Book) -> FeedMessage
    ensures { result ≡ told [] nanos (Change.Directory book) }
{
    // An array goes in through a local: straight from a field the check does not take it.
    let isin = book.isin;
    FeedMessage::Directory(Directory {
        nanos,
        code: book.code,
        isin,
        group: GROUP,
        lot: book.lot,
        table: book.table,
        decimals: DECIMALS,
        upper: book.upper,
        lower: book.lower,
    })
}

fn state_message(nanos: u32, code: u32, state: BookState) -> FeedMessage
    ensures { result ≡ told [] nanos (Change.State code state) }
{
    FeedMessage::State(TradingState {
        nanos,
        code,
        group: GROUP,
        state,
    })
}

fn reference_message(nanos: u32, code: u32, rate: i32) -> FeedMessage
    ensures { result ≡ told [] nanos (Change.Reference code rate) }
{
    FeedMessage::Added(OrderAdded {
        nanos,
        number: NO_ORDER,
        mark: Mark::Blank,
        quantity: 0,
        code,
        group: GROUP,
        price: rate,
    })
}

fn order_message(nanos: u32, order: Record) -> FeedMessage
    ensures { result ≡ told [] nanos (Change.Rest order) }
{
    FeedMessage::Added(OrderAdded {
        nanos,
        number: order.number,
        mark: Mark::from(order.side),
        quantity: order.left,
        code: order.book,
        group: GROUP,
        price: order.rate,
    })
}
