// A table of at most N records in load order: the front of an array, as far as it is filled.
// Fixed memory: the array stands in the table, so that making and filling one allocates nothing.
use std::marker::Model;

mod accounts;
mod books;
mod calls;

#[derive(Drop)]
pub struct Table<T, const N: usize> {
    all: [T; N],
    count: usize,
}

// Clauses see the records that are filled in, in load order.
impl<T, const N: usize> Model for Table<T, N> {
    ghost use Rattle.std.specs.Prelude.{◌≤◌, List, take};

    ghost Value = { List T };

    ghost view = { λ t. take t.count t.all };

    ghost invariant = { λ t. t.count ≤ N };
}
