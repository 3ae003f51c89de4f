// The yields that a book takes: within its limits, and on a tick of its table.
ghost use Rattle.std.specs.Prelude.{◌≡◌, ◌&&◌, ◌-ℤ◌, ◌==◌, int_le};
ghost use Rattle.rules.specs.Ticks.{multiple, higher, tick_row, on_tick, within_limits, bad_yield};

use crate::tables::{Book, TickRow, TickRows};

#[cfg(test)]
mod tests;

// How far a yield is above a start. The difference of two yields has its sign, and may need 33 bits.
fn distance(rate: i32, start: i32) -> i64
    ensures { result ≡ rate -ℤ start }
{
    i64::from(rate) - i64::from(start)
}

impl TickRow {
    // Whether a yield is a whole number of steps from the row's start.
    pub fn allows(self, rate: i32) -> bool
        ensures { result ≡ multiple (rate -ℤ self.start) self.size }
    {
        distance(rate, self.start)
            .unsigned_abs()
            .is_multiple_of(u64::from(self.size))
    }

    // Whether the row is of a table, and starts at or below a yield.
    fn reaches(self, table: u32, rate: i32) -> bool
        ensures { result ≡ (self.table == table && int_le self.start rate) }
    {
        self.table == table && self.start <= rate
    }

    // The row that starts higher; this one where both start alike. The guard says which of the two stays.
    fn or_higher(self, other: Option<TickRow>) -> TickRow
        ensures { result ≡ higher self other }
    {
        match other {
            Some(row) if self.start < row.start => row,
            _ => self,
        }
    }
}

impl TickRows {
    // The row of a table for a yield: the greatest start at or below it.
    pub fn row_for(&self, table: u32, rate: i32) -> Option<TickRow>
        ensures { result ≡ tick_row table rate self.now }
    {
        self.as_slice()
            .iter()
            .rev()
            .filter(|row| row.reaches(table, rate))
            .fold(None, |best, row| Some(row.or_higher(best)))
    }

    fn has_tick(&self, table: u32, rate: i32) -> bool
        ensures { result ≡ on_tick rate (tick_row table rate self.now) }
    {
        self.row_for(table, rate)
            .is_some_and(|row| row.allows(rate))
    }

    // Whether a yield is outside a book's limits, without a tick row, or off tick.
    pub fn refuses_yield(&self, book: Book, rate: i32) -> bool
        ensures { result ≡ bad_yield self.now book rate }
    {
        !book.is_within_limits(rate) || !self.has_tick(book.table, rate)
    }
}

impl Book {
    // Two comparisons: with the range's `contains` the proof did not close.
    fn is_within_limits(self, rate: i32) -> bool
        ensures { result ≡ within_limits self rate }
    {
        self.lower <= rate && rate <= self.upper
    }
}
