// What may be loaded, and what it becomes.
ghost use Rattle.std.specs.Prelude.{◌≡◌, ◌||◌, is_some, int_lt};
ghost use Rattle.std.specs.List.{find};
ghost use Rattle.rules.specs.Ticks.{int_same};
ghost use Rattle.rules.specs.Loading.{no_yield, of_table, row_refused, book_refused, book_of, account_refused, account_of};

use crate::keys::{TickKey, TickTable};
use crate::tables::{Account, Accounts, Book, Books, Listing, TickRow, TickRows};
use fields::letters::BookState;

#[cfg(test)]
mod tests;

// The number that stands for no yield in the formats, by which a limit or a reference is told.
const NO_YIELD: i32 = 0x7fff_ffff;

impl TickRows {
    // Whether a row cannot be loaded besides these.
    pub fn refuses(&self, row: TickRow) -> bool
        ensures { result ≡ row_refused self.now row }
    {
        let key = TickKey {
            table: row.table,
            start: row.start,
        };
        self.is_full() || self.has(&key) || row.size == 0
    }

    fn has_table(&self, table: u32) -> bool
        ensures { result ≡ is_some (find (of_table table) self.now) }
    {
        self.has(&TickTable(table))
    }
}

impl Books {
    // Whether a book cannot be loaded besides these, after these rows.
    pub fn refuses(&self, rows: &TickRows, listing: Listing) -> bool
        ensures { result ≡ book_refused rows.now self.now listing }
    {
        self.is_full()
            || self.has(&listing.code)
            || listing.lot == 0
            || !rows.has_table(listing.table)
            || listing.has_bad_limits()
            || BookState::try_from(listing.state).is_err()
    }
}

impl Listing {
    // Whether the limits are out of order, or the upper one is no yield.
    fn has_bad_limits(self) -> bool
        ensures { result ≡ (int_lt self.upper self.lower || int_same self.upper no_yield) }
    {
        self.upper < self.lower || self.upper == NO_YIELD
    }

    // The book that is loaded. Where the state is wrong, no book is: `refuses` comes first.
    pub fn book(self) -> Book
        ensures { result ≡ book_of self }
    {
        let Listing {
            code,
            isin,
            lot,
            table,
            upper,
            lower,
            state,
            reference,
        } = self;
        Book {
            code,
            isin,
            lot,
            table,
            upper,
            lower,
            state: BookState::try_from(state).unwrap_or(BookState::Suspended),
            reference,
        }
    }
}

impl Accounts {
    // Whether an account cannot be loaded besides these.
    pub fn refuses(&self, name: [u8; 12]) -> bool
        ensures { result ≡ account_refused self.now name }
    {
        self.is_full() || self.has(&name)
    }
}

impl Account {
    // An account that has used no token.
    pub fn new(name: [u8; 12]) -> Account
        ensures { result ≡ account_of name }
    {
        Account { name, last: 0 }
    }
}
