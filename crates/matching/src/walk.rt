// All executions of a newcomer, the best order first.
ghost use Rattle.std.specs.Prelude.{◌≡◌, ◌≤◌, ◌^◌};
ghost use Rattle.matching.specs.Matching.{best_met, walked, matched};

use crate::execution::execute;
use crate::meeting::{meets, opposite};
use line::line::Line;
use market::market::Market;
use market::time::Time;
use store::record::Record;
use store::store::Store;

// The place of the best opposite order, if the newcomer meets it.
pub fn best_met<S: Store, L: Line>(market: &Market<S, L>, newcomer: Record) -> Option<usize>
    ensures { result ≡ best_met market.now.host newcomer }
{
    let place = market.store.best(newcomer.book, opposite(newcomer.side))?;
    meets(newcomer.side, newcomer.rate, market.record_at(place).rate).then_some(place)
}

// A function of the market, as all here: methods of a struct that lends it would say `self.market.new` in each clause. The
// bound ends with the first match number taken: no type holds it.
// The newcomer executes while something meets it and something is left of it. Answers it as it is then.
pub fn walk<S: Store, L: Line>(market: &mut Market<S, L>, time: Time, newcomer: Record) -> Record
    requires matches { market.old.host.next_match ≤ 2 ^ 63 }
    ensures { walked market.new.host result ≡ matched market.old.host time newcomer }
{
    // The store bounds the orders, and so the match numbers that the walk takes.
    let _ = market.live();
    let mut newcomer = newcomer;
    while newcomer.left > 0 {
        let Some(place) = best_met(market, newcomer) else {
            return newcomer;
        };
        newcomer = execute(market, time, newcomer, place);
    }
    newcomer
}
