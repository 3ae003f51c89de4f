// What is counted: the live orders, what is loaded, and what an accepted call answers, the messages that it added to each
// line.
ghost use Rattle.std.specs.Prelude.{◌≡◌, ◌-◌, ◌≤◌, length};
ghost use Rattle.market.specs.Bounds.{Bounds, counts};
ghost use Rattle.market.specs.Host.{live};

use crate::market::Market;
use line::line::Line;
use store::store::{Records, Store};

// How many orders are live, and how many tick rows, books and accounts are loaded.
#[derive(Clone, Copy)]
pub struct Counts {
    pub orders: usize,
    pub rows: usize,
    pub books: usize,
    pub accounts: usize,
}

impl<S: Store, L: Line> Market<S, L> {
    // How many orders are live: as few as a store holds.
    pub fn live(&self) -> usize
        ensures count { result ≡ live self.now.host }
        ensures few { result ≤ 4096 }
    {
        self.store.len()
    }

    // How many of each there are. Says too within which bounds a market is, and that its host shows the lines as they
    // are: a caller sees the host alone.
    pub fn counts(&self) -> Counts
        ensures value { result ≡ counts self.now.host }
        ensures bounds { Bounds self.now.host }
        ensures feed { self.now.host.feed ≡ L.Line.meaning self.now.feed }
        ensures replies { self.now.host.replies ≡ L.Line.meaning self.now.replies }
    {
        Counts {
            orders: self.live(),
            rows: self.rows.len(),
            books: self.books.len(),
            accounts: self.accounts.len(),
        }
    }

    // How many messages wait on the feed and for the accounts.
    pub fn waiting(&self) -> (u64, u64)
        ensures { result ≡ (length self.now.host.feed.waiting, length self.now.host.replies.waiting) }
    {
        (self.feed.waiting() as u64, self.replies.waiting() as u64)
    }

    // How many more wait than before.
    pub fn added(&self, before: (u64, u64)) -> (u64, u64)
        ensures { result ≡ (length self.now.host.feed.waiting - before.0, length self.now.host.replies.waiting - before.1) }
    {
        let (feed, replies) = self.waiting();
        (
            feed.saturating_sub(before.0),
            replies.saturating_sub(before.1),
        )
    }
}
