// How much an engine holds.
ghost use Rattle.std.specs.Prelude.{◌≡◌};
ghost use Rattle.market.specs.Bounds.{Bounds, counts};

use crate::engine::Engine;
use line::line::Line;
use market::count::Counts;
use store::store::Store;

impl<S: Store, L: Line> Engine<S, L> {
    // How many orders are live, and how many tick rows, books and accounts are loaded. Says too within which bounds an
    // engine is, and that its host shows the lines as they are: a caller sees the host alone.
    pub fn counts(&self) -> Counts
        ensures value { result ≡ counts self.now.market.host }
        ensures bounds { Bounds self.now.market.host }
        ensures feed { self.now.market.host.feed ≡ L.Line.meaning self.now.market.feed }
        ensures replies { self.now.market.host.replies ≡ L.Line.meaning self.now.market.replies }
    {
        self.market.counts()
    }
}
