// The orders of any list of records, oldest priority first.
ghost use Rattle.std.specs.Prelude.{◌≡◌};
ghost use Rattle.std.specs.Iterator.{YieldsFirst, item_count};

use crate::record::{Record, Step};
use crate::store::Records;
use std::marker::Model;

// An iterator that walks by the list's cursors, seen as the list of the orders that are left.
#[derive(Drop)]
pub struct Orders<'a, R: Records> {
    records: &'a R,
    // asked of the records once: a store may have to count them
    len: usize,
    place: usize,
    cursor: usize,
}

impl<'a, R: Records> Model for Orders<'a, R> {
    ghost use Rattle.std.specs.Prelude.{◌≡◌, ℕ, List, drop, length};
    ghost use Rattle.store.specs.declared.record.Record.{Record};

    ghost Value = { List Record };

    ghost view = { λ o. drop o.place (R.Records.list o.records.now) };

    ghost invariant = { λ o. (o.len ≡ length (R.Records.list o.records.now)) × (o.cursor ≡ R.Records.spot o.records.now o.place) };
}

impl<'a, R: Records> Orders<'a, R> {
    pub fn of(records: &'a R) -> Orders<'a, R>
        ensures { result ≡ R.Records.list records.now }
    {
        Orders {
            records,
            len: records.len(),
            place: 0,
            cursor: records.start(),
        }
    }
}

impl<'a, R: Records> Iterator for Orders<'a, R> {
    type Item = Record;

    ghost next_gives = { YieldsFirst (λ left. left) };

    ghost remaining = { item_count (λ left. left) };

    fn next(&mut self) -> Option<Record> {
        if self.place >= self.len {
            return None;
        }
        let Step { order, next } = self.records.step(self.place, self.cursor);
        self.place += 1;
        self.cursor = next;
        Some(order)
    }
}
