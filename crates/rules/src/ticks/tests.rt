// Yields around two rows of a table, at the limits, and as far apart as they can be.
use crate::tables::{Book, NO_BOOK, NO_ROW, TickRow, TickRows};

const BOOK: Book = Book {
    table: 7,
    upper: 0x7fff_fffe,
    lower: -1_000,
    ..NO_BOOK
};

// Steps of 5 from -100 on, and of 2 from 1 on; the other table allows every yield.
fn loaded_rows() -> TickRows {
    let mut rows = TickRows::new(NO_ROW);
    let first = TickRow {
        table: 7,
        size: 5,
        start: -100,
    };
    rows.push(TickRow {
        size: 2,
        start: 1,
        ..first
    });
    rows.push(first);
    rows.push(TickRow {
        table: 8,
        size: 1,
        start: -2_000,
    });
    rows
}

#[test]
fn yields(rt: HostRuntime) {
    let rows = loaded_rows();
    let cases = [
        (-101, true, "below each start"),
        (-100, false, "a start"),
        (-97, true, "off tick"),
        (-95, false, "a step on"),
        (0, false, "the lower row's last"),
        (1, false, "the higher row's start"),
        (5, false, "a tick of both"),
        (10, true, "a tick of the lower row alone"),
        (0x7fff_fffd, false, "far from the start"),
        (0x7fff_ffff, true, "above the upper limit"),
        (-1_001, true, "below the lower limit"),
    ];
    for (rate, refused, why) in cases {
        assert_eq!(rt; rows.refuses_yield(BOOK, rate), refused, "{}", why);
    }
}

#[test]
fn limits(rt: HostRuntime) {
    let rows = loaded_rows();
    let narrow = Book {
        upper: 5,
        lower: -95,
        ..BOOK
    };
    assert!(rt; !rows.refuses_yield(narrow, 5), "the upper limit");
    assert!(rt; !rows.refuses_yield(narrow, -95), "the lower limit");
    assert!(rt; rows.refuses_yield(narrow, 7), "above");
    assert!(rt; rows.refuses_yield(narrow, -100), "below");
    assert!(rt;
        rows.refuses_yield(Book { table: 9, ..narrow }, 0),
        "no row"
    );
}
