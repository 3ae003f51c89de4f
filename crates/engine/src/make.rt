// An engine is made of a store and two lines.
ghost use Rattle.std.specs.Prelude.{◌≡◌, Ok};
ghost use Rattle.market.specs.Host.{fresh_line, first_number, parts_answer, made};

use crate::engine::Engine;
use line::line::Line;
use line::refusal::Refusal;
use market::market::{GREATEST_NUMBER, Market};
use rules::phase::Phase;
use rules::table::Table;
use rules::tables::{NO_ACCOUNT, NO_BOOK, NO_ROW};
use store::store::{Records, Store};

// Whether an engine can be made of these parts. The maker needs it passed.
pub fn check_parts<S: Store, L: Line>(
    store: &S,
    feed: &L,
    replies: &L,
    first_order: u64,
    first_match: u64,
) -> Result<(), Refusal>
    ensures { result ≡ parts_answer (S.Records.list store.now) (L.Line.meaning feed.now) (L.Line.meaning replies.now) first_order first_match }
{
    if store.len() == 0
        && is_fresh(feed)
        && is_fresh(replies)
        && is_first(first_order)
        && is_first(first_match)
    {
        Ok(())
    } else {
        Err(Refusal::Parts)
    }
}

// Whether a line has nothing waiting and nothing gone.
fn is_fresh<L: Line>(line: &L) -> bool
    ensures { result ≡ fresh_line (L.Line.meaning line.now) }
{
    line.waiting() == 0 && line.gone() == 0
}

fn is_first(number: u64) -> bool
    ensures { result ≡ first_number number }
{
    (1..=GREATEST_NUMBER).contains(&number)
}

impl<S: Store, L: Line> Engine<S, L> {
    // An engine with nothing loaded.
    pub fn new(store: S, feed: L, replies: L, first_order: u64, first_match: u64) -> Self
        requires { parts_answer (S.Records.list store) (L.Line.meaning feed) (L.Line.meaning replies) first_order first_match ≡ Ok tt }
        ensures { result.market.host ≡ made (S.Records.room store) (L.Line.meaning feed) (L.Line.meaning replies) first_order first_match }
    {
        Engine {
            market: Market {
                store,
                feed,
                replies,
                phase: Phase::Loading,
                clock: 0,
                second: None,
                rows: Table::new(NO_ROW),
                books: Table::new(NO_BOOK),
                accounts: Table::new(NO_ACCOUNT),
                next_order: first_order,
                next_match: first_match,
            },
        }
    }
}
