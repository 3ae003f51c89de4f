// The row: its capacities, from none to past the greatest, and the table of turns.
use crate::calls::{check_list, check_turns};
use crate::turns::{FULL, PLACES, TURNS};
use std::alloc::{AllocError, Global};
use std::test::Fail;
use store::record::{NO_RECORD, Refusal};
use store::row::Row;
use store::store::{Records, Store};
use store::withdraw::withdraw_all;

// A row over a table of this length.
fn row(heap: Global, length: usize) -> Result<Row, AllocError> {
    Ok(Row::over(vec![in heap; NO_RECORD; length]?))
}

#[test]
fn has_the_tables_length_up_to_the_greatest_as_capacity(rt: HostRuntime) -> Result<(), Fail> {
    for (length, capacity) in [(0, 0), (1, 1), (4096, 4096), (5000, 4096)] {
        let mut store = row(rt.alloc(), length)?;
        assert_eq!(rt; store.capacity(), capacity);
        for _ in 0..capacity {
            store.append(NO_RECORD)?;
        }
        assert_eq!(rt; store.append(NO_RECORD), Err(Refusal::Full));
        assert_eq!(rt; store.len(), capacity);
    }
    Ok(())
}

#[test]
fn answers_each_call(rt: HostRuntime) -> Result<(), Fail> {
    let mut store = row(rt.alloc(), PLACES)?;
    check_turns(&rt, &mut store, &TURNS)
}

#[test]
fn hands_on_an_accounts_orders_oldest_first(rt: HostRuntime) -> Result<(), Fail> {
    let mut live = row(rt.alloc(), PLACES)?;
    let mut withdrawn = row(rt.alloc(), PLACES)?;
    check_turns(&rt, &mut live, &TURNS[0..FULL])?;
    assert!(rt; withdrawn.len() + live.len() <= withdrawn.capacity());
    withdraw_all(&mut live, 0, &mut withdrawn);
    check_list(&rt, &live, &[2, 4])?;
    check_list(&rt, &withdrawn, &[1, 3])
}
