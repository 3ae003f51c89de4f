// A table of turns on an empty store of four places.
use crate::calls::{Answer, BOOK, Call, Order, Turn};
use fields::letters::Side;

pub const PLACES: usize = 4;

// How many turns it takes to fill the store.
pub const FULL: usize = 8;

// Order 2 gets the later number 6 where it stands, and stays ahead of order 3, its equal in yield.
pub const TURNS: [Turn<'static>; 27] = [
    Turn(Call::Best(BOOK, Side::Buy), Answer::Absent, &[]),
    Turn(
        Call::Append(Order(1, 0, 7, Side::Buy, 745)),
        Answer::Done,
        &[1],
    ),
    Turn(
        Call::Append(Order(2, 1, 7, Side::Buy, 744)),
        Answer::Done,
        &[1, 2],
    ),
    Turn(
        Call::Append(Order(3, 0, 8, Side::Buy, 744)),
        Answer::Done,
        &[1, 2, 3],
    ),
    Turn(Call::Best(BOOK, Side::Buy), Answer::Place(1), &[1, 2, 3]),
    Turn(Call::Best(BOOK, Side::Sell), Answer::Absent, &[1, 2, 3]),
    Turn(Call::Best(BOOK + 1, Side::Buy), Answer::Absent, &[1, 2, 3]),
    Turn(
        Call::Append(Order(4, 1, 8, Side::Sell, -1)),
        Answer::Done,
        &[1, 2, 3, 4],
    ),
    Turn(
        Call::Append(Order(5, 2, 7, Side::Sell, 0)),
        Answer::Refused(21),
        &[1, 2, 3, 4],
    ),
    Turn(Call::Read(3), Answer::Read(4), &[1, 2, 3, 4]),
    Turn(Call::Read(4), Answer::Refused(20), &[1, 2, 3, 4]),
    Turn(Call::Find(1, 7), Answer::Place(1), &[1, 2, 3, 4]),
    Turn(Call::Find(1, 8), Answer::Place(3), &[1, 2, 3, 4]),
    Turn(Call::Find(2, 7), Answer::Absent, &[1, 2, 3, 4]),
    Turn(
        Call::Rewrite(1, Order(6, 1, 9, Side::Buy, 744)),
        Answer::Done,
        &[1, 6, 3, 4],
    ),
    Turn(
        Call::Rewrite(4, Order(7, 1, 10, Side::Buy, 744)),
        Answer::Refused(20),
        &[1, 6, 3, 4],
    ),
    Turn(Call::Find(1, 7), Answer::Absent, &[1, 6, 3, 4]),
    Turn(Call::Best(BOOK, Side::Buy), Answer::Place(1), &[1, 6, 3, 4]),
    Turn(Call::Remove(0), Answer::Done, &[6, 3, 4]),
    Turn(Call::Remove(3), Answer::Refused(20), &[6, 3, 4]),
    Turn(Call::Best(BOOK, Side::Buy), Answer::Place(0), &[6, 3, 4]),
    Turn(
        Call::Append(Order(7, 2, 7, Side::Sell, 0)),
        Answer::Done,
        &[6, 3, 4, 7],
    ),
    Turn(
        Call::Best(BOOK, Side::Sell),
        Answer::Place(3),
        &[6, 3, 4, 7],
    ),
    Turn(Call::Remove(3), Answer::Done, &[6, 3, 4]),
    Turn(Call::Best(BOOK, Side::Sell), Answer::Place(2), &[6, 3, 4]),
    Turn(Call::Remove(0), Answer::Done, &[3, 4]),
    Turn(Call::Best(BOOK, Side::Buy), Answer::Place(0), &[3, 4]),
];
