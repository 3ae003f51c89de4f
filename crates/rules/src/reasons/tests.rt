// Each reason alone, and the first of two.
use super::{BLANK, FOR_DAY, IMMEDIATE, POST_ONLY, enter_reason, replace_reason};
use crate::phase::Phase;
use crate::tables::{Book, Books, GROUP, NO_BOOK, NO_ROW, TickRow, TickRows};
use fields::letters::BookState;
use ouch::inbound::{Enter, Replace};

// The letter where there is no reason, so that a table holds letters alone.
const NONE: u8 = b'-';

const TRADES: u32 = 1;

const HALTED: u32 = 2;

const BOOK: Book = Book {
    code: TRADES,
    lot: 10,
    table: 7,
    upper: 900,
    lower: -900,
    state: BookState::Trading,
    ..NO_BOOK
};

// What a test asks of the order: price, time in force, display, quantity and minimum.
type Terms = (i32, u32, u8, u32, u32);

const PLAIN: Terms = (-5, FOR_DAY, BLANK, 100, 0);

fn loaded_rows() -> TickRows {
    let mut rows = TickRows::new(NO_ROW);
    rows.push(TickRow {
        table: 7,
        size: 5,
        start: -900,
    });
    rows
}

fn loaded_books() -> Books {
    let mut books = Books::new(NO_BOOK);
    books.push(BOOK);
    books.push(Book {
        code: HALTED,
        state: BookState::Suspended,
        ..BOOK
    });
    books
}

fn entered(code: u32, firm: u32, side: u8, margin: u8, terms: Terms, full: bool) -> u8 {
    let order = Enter {
        token: 1,
        reference: b"REFERENCE ",
        side,
        quantity: terms.3,
        code,
        group: GROUP,
        price: terms.0,
        force: terms.1,
        firm,
        display: terms.2,
        capacity: b'A',
        minimum: terms.4,
        classification: b'1',
        margin,
    };
    let reason = enter_reason(
        Phase::Session,
        &loaded_rows(),
        &loaded_books(),
        full,
        &order,
    );
    reason.map_or(NONE, u8::from)
}

// The order has executed 35.
fn replaced(phase: Phase, terms: Terms) -> u8 {
    let order = Replace {
        existing: 1,
        replacement: 2,
        quantity: terms.3,
        price: terms.0,
        force: terms.1,
        display: terms.2,
        minimum: terms.4,
    };
    replace_reason(phase, &loaded_rows(), BOOK, 35, order).map_or(NONE, u8::from)
}

#[test]
fn who_enters(rt: HostRuntime) {
    let cases = [
        (TRADES, 0, b'S', b'1', NONE, "nothing wrong"),
        (9, 0, b'S', b'1', b'S', "no such book"),
        (HALTED, 0, b'S', b'1', b'H', "suspended"),
        (HALTED, 1, b'S', b'1', b'H', "the first of two"),
        (TRADES, 1, b'S', b'1', b'L', "a firm"),
        (TRADES, 0, b's', b'1', b'O', "no side"),
        (TRADES, 0, b'S', 1, b'G', "no margin type"),
    ];
    for (code, firm, side, margin, letter, why) in cases {
        assert_eq!(rt;
            entered(code, firm, side, margin, PLAIN, false),
            letter,
            "{}",
            why
        );
    }
}

// What each says of the terms: Enter, and Replace.
#[test]
fn what_is_asked(rt: HostRuntime) {
    let cases = [
        (PLAIN, NONE, NONE, "nothing wrong"),
        ((-5, 1, BLANK, 100, 0), b'Y', b'Y', "no time in force"),
        ((-5, FOR_DAY, b'A', 100, 0), b'D', b'D', "no display"),
        ((-5, FOR_DAY, POST_ONLY, 100, 0), NONE, NONE, "post-only"),
        (
            (-5, IMMEDIATE, POST_ONLY, 100, 0),
            b'D',
            b'D',
            "post-only at once",
        ),
        ((-4, FOR_DAY, BLANK, 100, 0), b'X', b'X', "off tick"),
        ((-5, FOR_DAY, BLANK, 0, 0), b'Z', b'Z', "nothing"),
        (
            (-5, FOR_DAY, BLANK, 35, 0),
            b'Z',
            NONE,
            "no lots, and what is executed",
        ),
        ((-5, FOR_DAY, BLANK, 45, 0), b'Z', b'Z', "no lots"),
        (
            (-5, FOR_DAY, BLANK, 2_000_000, 0),
            NONE,
            NONE,
            "the greatest quantity",
        ),
        ((-5, FOR_DAY, BLANK, 2_000_010, 0), b'Z', b'Z', "too much"),
        (
            (-5, FOR_DAY, BLANK, 100, 1),
            b'N',
            b'N',
            "a minimum for the day",
        ),
        (
            (-5, IMMEDIATE, BLANK, 100, 65),
            NONE,
            NONE,
            "the balance as minimum",
        ),
        (
            (-5, IMMEDIATE, BLANK, 100, 66),
            NONE,
            b'N',
            "above the balance",
        ),
        (
            (-5, IMMEDIATE, BLANK, 100, 101),
            b'N',
            b'N',
            "above the whole",
        ),
    ];
    for (terms, enters, replaces, why) in cases {
        assert_eq!(rt;
            entered(TRADES, 0, b'B', b'1', terms, false),
            enters,
            "{}",
            why
        );
        assert_eq!(rt; replaced(Phase::Session, terms), replaces, "{}", why);
    }
}

#[test]
fn when_and_where(rt: HostRuntime) {
    let at_once = (-5, IMMEDIATE, BLANK, 100, 0);
    assert_eq!(rt; replaced(Phase::Open, PLAIN), b'R', "no session");
    assert_eq!(rt;
        entered(TRADES, 0, b'B', b'1', PLAIN, true),
        b'O',
        "no place"
    );
    assert_eq!(rt;
        entered(TRADES, 0, b'B', b'1', at_once, true),
        NONE,
        "no place wanted"
    );
}
