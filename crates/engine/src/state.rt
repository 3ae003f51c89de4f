// State: a book trades or is suspended.
ghost use Rattle.std.specs.Prelude.{◌≡◌};
ghost use Rattle.engine.specs.Calls.{stated, state_done};

use crate::engine::Engine;
use fields::letters::BookState;
use line::line::Line;
use market::change::Change;
use market::time::Time;
use store::store::Store;

impl<S: Store, L: Line> Engine<S, L> {
    // Does a state that nothing refuses.
    pub(crate) fn run_state(&mut self, time: Time, code: u32, letter: u8)
        ensures { self.new.market.host ≡ state_done self.old.market.host time code letter }
    {
        // Read again, with a default that the check has excluded: it tells other faults before the letter's.
        let state = BookState::try_from(letter).unwrap_or(BookState::Suspended);
        self.market.clock = u64::from(time);
        self.set_state(time, code, state);
    }

    // The feed tells a state only where it changes.
    fn set_state(&mut self, time: Time, code: u32, state: BookState)
        ensures { self.new.market.host ≡ stated self.old.market.host time code state }
    {
        let present = self.market.books.find_or_blank(code).state;
        if present != state {
            self.market.publish(time, Change::State(code, state));
        }
    }
}
