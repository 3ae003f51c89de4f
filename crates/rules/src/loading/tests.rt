// What is refused, and what is not, beside one row, one book and one account.
use crate::tables::{
    Account, Accounts, Books, Listing, NO_ACCOUNT, NO_BOOK, NO_ROW, TickRow, TickRows,
};

const ROW: TickRow = TickRow {
    table: 7,
    size: 5,
    start: -100,
};

const LISTING: Listing = Listing {
    code: 1,
    isin: *b"JP1234567890",
    lot: 10,
    table: 7,
    upper: 900,
    lower: -900,
    state: b'T',
    reference: 0,
};

fn loaded_rows() -> TickRows {
    let mut rows = TickRows::new(NO_ROW);
    rows.push(ROW);
    rows
}

fn loaded_books() -> Books {
    let mut books = Books::new(NO_BOOK);
    books.push(LISTING.book());
    books
}

#[test]
fn rows(rt: HostRuntime) {
    let mut rows = loaded_rows();
    let next = TickRow { start: 0, ..ROW };
    assert!(rt; rows.refuses(ROW), "its table has a row with its start");
    assert!(rt; !rows.refuses(TickRow { table: 8, ..ROW }), "another table");
    assert!(rt; rows.refuses(TickRow { size: 0, ..next }), "no size");
    assert!(rt; !rows.refuses(next), "another start");
    for _ in 0..16 {
        if !rows.is_full() {
            rows.push(ROW);
        }
    }
    assert!(rt; rows.refuses(next), "no place");
}

#[test]
fn books(rt: HostRuntime) {
    let rows = loaded_rows();
    let books = loaded_books();
    let next = Listing { code: 2, ..LISTING };
    let cases = [
        (next, false, "a new code"),
        (LISTING, true, "its code is loaded"),
        (Listing { lot: 0, ..next }, true, "no lot"),
        (Listing { table: 8, ..next }, true, "no such table"),
        (
            Listing {
                upper: -900,
                ..next
            },
            false,
            "equal limits",
        ),
        (
            Listing {
                upper: -901,
                ..next
            },
            true,
            "limits out of order",
        ),
        (
            Listing {
                upper: 0x7fff_ffff,
                ..next
            },
            true,
            "no yield",
        ),
        (
            Listing {
                state: b't',
                ..next
            },
            true,
            "no state",
        ),
    ];
    for (listing, refused, why) in cases {
        assert_eq!(rt; books.refuses(&rows, listing), refused, "{}", why);
    }
}

#[test]
fn accounts(rt: HostRuntime) {
    let mut accounts = Accounts::new(NO_ACCOUNT);
    accounts.push(Account::new(*b"MEMBER  0001"));
    assert!(rt; accounts.refuses(*b"MEMBER  0001"), "its name is loaded");
    assert!(rt; !accounts.refuses(*b"MEMBER  0002"), "a new name");
    for _ in 0..16 {
        if !accounts.is_full() {
            accounts.push(NO_ACCOUNT);
        }
    }
    assert!(rt; accounts.refuses(*b"MEMBER  0002"), "no place");
}
