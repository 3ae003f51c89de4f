// Load: a tick row, a book or an account, before the day begins.
ghost use Rattle.std.specs.Prelude.{◌≡◌, not, [], ◌∷◌};
ghost use Rattle.rules.specs.Phases.{is_loading};
ghost use Rattle.rules.specs.Tests.{test, first_of};
ghost use Rattle.engine.specs.Calls.{unless};

use crate::checks::refuse_if;
use crate::engine::Engine;
use line::line::Line;
use rules::fault::Fault;
use store::store::Store;

impl<S: Store, L: Line> Engine<S, L> {
    // Whether a record can be loaded, given whether what is loaded refuses it.
    pub(crate) fn check_load(&self, refused: bool) -> Result<(), Fault>
        ensures { result ≡ unless (first_of (test (not (is_loading self.now.market.host.phase)) Fault.Phase ∷ test refused Fault.Load ∷ [])) tt }
    {
        refuse_if(!self.market.phase.is_loading(), Fault::Phase)?;
        refuse_if(refused, Fault::Load)
    }
}
