// What the feed tells at the start of the day, as a list of changes.
ghost use Rattle.std.specs.Prelude.{◌≡◌, ◌+◌, ◌*◌, cond, length};
ghost use Rattle.market.specs.Changes.{announcement};
ghost use Rattle.rules.specs.Tables.{suspended};

use crate::change::Change;
use crate::market::Market;
use fields::letters::{BookState, Event};
use line::line::Line;
use rules::table::Table;
use rules::tables::{Book, MOST_BOOKS, MOST_ROWS};
use store::store::Store;

// What is told before the rows and books: the second, and the start of messages.
const TOLD_FIRST: usize = 2;

// What is told of a book: that it trades today, its reference yield, and its state.
const TOLD_OF_BOOK: usize = 3;

// The start of messages, the rows, and what is told of the books.
const MOST_CHANGES: usize = 1 + MOST_ROWS + TOLD_OF_BOOK * MOST_BOOKS;

pub type Announcement = Table<Change, MOST_CHANGES>;

const START: Change = Change::Event(Event::StartOfMessages);

impl<S: Store, L: Line> Market<S, L> {
    // The start of messages, the tick rows, the books, their reference yields, and the state of each book that trades.
    pub fn announcement(&self) -> Announcement
        ensures { result ≡ announcement self.now.host }
    {
        let books = self.books.as_slice();
        let mut changes = Table::new(START);
        changes.push(START);
        changes.extend_with(self.rows.as_slice(), |row| Some(Change::Tick(row)));
        changes.extend_with(books, |book| Some(Change::Directory(book)));
        changes.extend_with(
            books,
            |book| Some(Change::Reference(book.code, book.reference)),
        );
        changes.extend_with(books, state_where_trading);
        changes
    }

    // The places on the feed for all that: three a book, whether it trades or not.
    pub fn announcement_places(&self) -> usize
        ensures { result ≡ 2 + length self.now.host.rows + 3 * length self.now.host.books }
    {
        TOLD_FIRST + self.rows.len() + TOLD_OF_BOOK * self.books.len()
    }
}

// The state of a book is told where it trades.
fn state_where_trading(book: Book) -> Option<Change>
    ensures { result ≡ cond (suspended book) None (Some (Change.State book.code BookState.Trading)) }
{
    match book.state {
        BookState::Trading => Some(Change::State(book.code, BookState::Trading)),
        BookState::Suspended => None,
    }
}
