// A newcomer enters the book: it executes, and what is left of it rests or is canceled.
ghost use Rattle.std.specs.Prelude.{◌≡◌, ◌≤◌, ◌^◌};
ghost use Rattle.matching.specs.Matching.{walked, settled, placed};

use crate::walk::walk;
use line::line::Line;
use market::change::Change;
use market::market::Market;
use market::time::Time;
use ouch::letters::CancelReason;
use rules::reasons::is_immediate;
use store::record::Record;
use store::store::Store;

// What is left of a newcomer is canceled if it is immediate, and rests if it is for the day: the rule's two ends, side by
// side.
fn settle<S: Store, L: Line>(
    market: &mut Market<S, L>,
    time: Time,
    newcomer: Record,
    immediate: bool,
)
    ensures { market.new.host ≡ settled (walked market.old.host newcomer) time immediate }
{
    if newcomer.left == 0 {
        return;
    }
    if immediate {
        market.reply_canceled(time, newcomer, CancelReason::Immediate);
    } else {
        market.publish(time, Change::Rest(newcomer));
    }
}

// A newcomer of this time in force enters the book. The bound ends with the first match number taken: no type holds it.
pub fn place_order<S: Store, L: Line>(
    market: &mut Market<S, L>,
    time: Time,
    newcomer: Record,
    force: u32,
)
    requires matches { market.old.host.next_match ≤ 2 ^ 63 }
    ensures { market.new.host ≡ placed market.old.host time newcomer force }
{
    let rest = walk(market, time, newcomer);
    settle(market, time, rest, is_immediate(force));
}
