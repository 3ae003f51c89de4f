// Reference: a book's reference yield, told also where it is the same.
ghost use Rattle.std.specs.Prelude.{◌≡◌};
ghost use Rattle.engine.specs.Calls.{reference_done};

use crate::engine::Engine;
use line::line::Line;
use market::change::Change;
use market::time::Time;
use store::store::Store;

impl<S: Store, L: Line> Engine<S, L> {
    // Does a reference that nothing refuses.
    pub(crate) fn run_reference(&mut self, time: Time, code: u32, rate: i32)
        ensures { self.new.market.host ≡ reference_done self.old.market.host time code rate }
    {
        self.market.clock = u64::from(time);
        self.market.publish(time, Change::Reference(code, rate));
    }
}
