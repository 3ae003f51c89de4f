// What is loaded before a day begins.
ghost use Rattle.std.specs.Prelude.{◌≡◌};
ghost use Rattle.rules.specs.Tables.{account_at, suspended};

use crate::table::Table;
use fields::letters::BookState;

// From `start` on, the yields of a tick table go in steps of `size`.
#[derive(Clone, Copy)]
pub struct TickRow {
    pub table: u32,
    pub size: u32,
    pub start: i32,
}

// A book as it is handed in. Its state is a letter, which may be wrong. A type beside `Book`, and not one over the state:
// what is handed in and what is loaded are never taken for each other.
#[derive(Clone, Copy)]
pub struct Listing {
    pub code: u32,
    pub isin: [u8; 12],
    pub lot: u32,
    pub table: u32,
    pub upper: i32,
    pub lower: i32,
    pub state: u8,
    pub reference: i32,
}

// A book that is loaded.
#[derive(Clone, Copy)]
pub struct Book {
    pub code: u32,
    pub isin: [u8; 12],
    pub lot: u32,
    pub table: u32,
    pub upper: i32,
    pub lower: i32,
    pub state: BookState,
    pub reference: i32,
}

// An account: its name and the last token that it used, 0 at first.
#[derive(Clone, Copy)]
pub struct Account {
    pub name: [u8; 12],
    pub last: u32,
}

// The group of every book.
pub const GROUP: [u8; 4] = *b"DJGB";

// How many tick rows, books and accounts a day can have.
pub const MOST_ROWS: usize = 16;

pub const MOST_BOOKS: usize = 32;

pub const MOST_ACCOUNTS: usize = 16;

// The tick rows, in load order.
pub type TickRows = Table<TickRow, MOST_ROWS>;

// The books, in load order.
pub type Books = Table<Book, MOST_BOOKS>;

// The accounts, numbered from 0 in load order.
pub type Accounts = Table<Account, MOST_ACCOUNTS>;

// What a place of a table holds before a record is filled in.
pub const NO_ROW: TickRow = TickRow {
    table: 0,
    size: 0,
    start: 0,
};

pub const NO_BOOK: Book = Book {
    code: 0,
    isin: [b' '; 12],
    lot: 0,
    table: 0,
    upper: 0,
    lower: 0,
    state: BookState::Suspended,
    reference: 0,
};

pub const NO_ACCOUNT: Account = Account {
    name: [b' '; 12],
    last: 0,
};

impl Book {
    pub fn is_suspended(self) -> bool
        ensures { result ≡ suspended self }
    {
        matches!(self.state, BookState::Suspended)
    }
}

impl Accounts {
    // The account of a number; one with a blank name stands in for one that is not loaded.
    pub fn at(&self, k: usize) -> Account
        ensures { result ≡ account_at k self.now }
    {
        self.as_slice().get(k).copied().unwrap_or(NO_ACCOUNT)
    }
}
