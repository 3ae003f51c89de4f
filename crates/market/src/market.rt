// What the engine holds, over any store and any line. The engine keeps it to itself; the rules of orders change it.
use line::line::Line;
use rules::phase::Phase;
use rules::tables::{Accounts, Books, TickRows};
use std::marker::Model;
use store::store::Store;

// The greatest number of an order or match to start with.
pub const GREATEST_NUMBER: u64 = 0x8000_0000_0000_0000;

// The parts are public: each has its own calls, and a method of the market for each would only say them again.
#[derive(Drop)]
pub struct Market<S: Store, L: Line> {
    pub store: S,
    pub feed: L,
    pub replies: L,
    pub phase: Phase,
    // the time of the last accepted call that has one, 0 at first
    pub clock: u64,
    // the second that the feed told last
    pub second: Option<u64>,
    pub rows: TickRows,
    pub books: Books,
    pub accounts: Accounts,
    pub next_order: u64,
    pub next_match: u64,
}

impl<S: Store, L: Line> Model for Market<S, L> {
    ghost use Rattle.market.specs.Host.{Held};

    ghost Value = { Held L };

    ghost view = { λ m. record {
      host = record {
        orders = S.Records.list m.store;
        room = S.Records.room m.store;
        feed = L.Line.meaning m.feed;
        replies = L.Line.meaning m.replies;
        phase = m.phase;
        clock = m.clock;
        second = m.second;
        rows = m.rows;
        books = m.books;
        accounts = m.accounts;
        next_order = m.next_order;
        next_match = m.next_match;
      };
      feed = m.feed;
      replies = m.replies;
    } };
}
