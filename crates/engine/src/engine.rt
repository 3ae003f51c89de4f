// The engine over any store and any line. Nothing but its calls changes what it holds. It has no model besides the
// market's: with one the proofs of the calls did not close.
use line::line::Line;
use market::market::Market;
use store::store::Store;

#[derive(Drop)]
pub struct Engine<S: Store, L: Line> {
    pub(crate) market: Market<S, L>,
}
