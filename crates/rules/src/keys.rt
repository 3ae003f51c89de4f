// The keys under which tick rows, books and accounts are found.
ghost use Rattle.std.specs.Prelude.{◌≡◌, is_some};
ghost use Rattle.std.specs.List.{find};
ghost use Rattle.rules.specs.Loading.{is_row, of_table};
ghost use Rattle.rules.specs.Tables.{is_book, is_account, book_under, book_or};

use crate::register::{Keyed, Register};
use crate::table::Table;
use crate::tables::{Account, Book, Books, NO_BOOK, TickRow};

// A tick table has one row for a start.
#[derive(Clone, Copy)]
pub struct TickKey {
    pub table: u32,
    pub start: i32,
}

// A tick table, whichever of its rows.
#[derive(Clone, Copy)]
pub struct TickTable(pub u32);

impl Keyed<TickKey> for TickRow {
    ghost has = { λ r k. is_row k.table k.start r };

    fn has_key(&self, key: &TickKey) -> bool {
        self.table == key.table && self.start == key.start
    }
}

impl Keyed<TickTable> for TickRow {
    ghost has = { λ r k. of_table k.0 r };

    fn has_key(&self, key: &TickTable) -> bool {
        self.table == key.0
    }
}

impl Keyed<u32> for Book {
    ghost has = { λ b code. is_book code b };

    fn has_key(&self, key: &u32) -> bool {
        self.code == *key
    }
}

impl Keyed<[u8; 12]> for Account {
    ghost has = { λ a name. is_account name a };

    fn has_key(&self, key: &[u8; 12]) -> bool {
        self.name == *key
    }
}

impl<T: Copy, const N: usize> Table<T, N> {
    // Whether a record of the table has the key.
    pub fn has<K>(&self, key: &K) -> bool
    where
        T: Keyed<K>,
        ensures { result ≡ is_some (find (λ x. T.has x key.now) self.now) }
    {
        Register::over(self.as_slice()).find(key).is_some()
    }
}

impl Books {
    pub fn find(&self, code: u32) -> Option<Book>
        ensures { result ≡ book_under code self.now }
    {
        Register::over(self.as_slice()).find(&code).copied()
    }

    // A suspended book with nothing in it stands in for one that is not loaded.
    pub fn find_or_blank(&self, code: u32) -> Book
        ensures { result ≡ book_or code self.now }
    {
        self.find(code).unwrap_or(NO_BOOK)
    }
}
