// Calls on any store, each held to its answer and to the list after it.
use fields::letters::Side;
use std::process::Abort;
use std::test::Fail;
use store::record::{Record, Refusal};
use store::store::Store;

// The book that every order of a table stands in.
pub const BOOK: u32 = 3;

// An order's number, account, token, side and yield.
#[derive(Clone, Copy)]
pub struct Order(pub u64, pub u8, pub u32, pub Side, pub i32);

impl Order {
    pub fn record(self) -> Record {
        let Order(number, account, token, side, rate) = self;
        Record {
            number,
            account,
            token,
            side,
            book: BOOK,
            rate,
            left: 2000,
            executed: 0,
        }
    }
}

#[derive(Clone, Copy)]
pub enum Call {
    Append(Order),
    Read(usize),
    Rewrite(usize, Order),
    Remove(usize),
    // an account's token
    Find(u8, u32),
    // of a book and side
    Best(u32, Side),
}

#[derive(Clone, Copy, PartialEq, Debug)]
// One type for the answers of all calls, so that a table holds them; refusals by their numbers.
pub enum Answer {
    Done,
    // a refusal's number
    Refused(u8),
    // an order's number
    Read(u64),
    Place(usize),
    Absent,
}

// One turn: a call, its answer, and the numbers of the orders in the list after it.
#[derive(Clone, Copy)]
pub struct Turn<'a>(pub Call, pub Answer, pub &'a [u64]);

fn done(answer: Result<(), Refusal>) -> Answer {
    match answer {
        Ok(()) => Answer::Done,
        Err(refusal) => Answer::Refused(u8::from(refusal)),
    }
}

fn read(answer: Result<Record, Refusal>) -> Answer {
    match answer {
        Ok(order) => Answer::Read(order.number),
        Err(refusal) => Answer::Refused(u8::from(refusal)),
    }
}

fn place(answer: Option<usize>) -> Answer {
    match answer {
        Some(k) => Answer::Place(k),
        None => Answer::Absent,
    }
}

fn make<S: Store>(store: &mut S, call: Call) -> Answer {
    match call {
        Call::Append(order) => done(store.append(order.record())),
        Call::Read(k) => read(store.read(k)),
        Call::Rewrite(k, order) => done(store.rewrite(k, order.record())),
        Call::Remove(k) => done(store.remove(k)),
        Call::Find(account, token) => place(store.find(account, token)),
        Call::Best(book, side) => place(store.best(book, side)),
    }
}

// Whether a store's list is the orders of these numbers.
pub fn check_list<S: Store>(rt: &impl Abort, store: &S, numbers: &[u64]) -> Result<(), Fail> {
    assert_eq!(rt; store.len(), numbers.len());
    for (k, number) in numbers.iter().enumerate() {
        assert_eq!(rt; store.read(k)?.number, *number);
    }
    Ok(())
}

// Makes the calls of a table in turn.
pub fn check_turns<S: Store>(rt: &impl Abort, store: &mut S, turns: &[Turn]) -> Result<(), Fail> {
    let capacity = store.capacity();
    for turn in turns {
        let Turn(call, answer, after) = *turn;
        assert_eq!(rt; make(store, call), answer);
        check_list(rt, store, after)?;
        assert_eq!(rt; store.capacity(), capacity);
    }
    Ok(())
}
