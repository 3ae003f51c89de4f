// What a change does to what the engine holds.
ghost use Rattle.std.specs.Prelude.{◌≡◌};
ghost use Rattle.market.specs.Changes.{changed, record_at, lessened, keeps_place};

use crate::change::Change;
use crate::market::Market;
use line::line::Line;
use store::record::{NO_RECORD, Record};
use store::store::{Records, Store};

impl<S: Store, L: Line> Market<S, L> {
    // Makes a change.
    pub(super) fn apply(&mut self, change: Change)
        ensures { self.new.host ≡ changed self.old.host change }
    {
        match change {
            Change::Event(event) => {
                let _ = self.phase.step(u8::from(event));
            }
            Change::Tick(_) | Change::Directory(_) => {}
            Change::State(code, state) => self.books.set_state(code, state),
            Change::Reference(code, rate) => self.books.set_reference(code, rate),
            Change::Rest(order) => {
                let _ = self.store.append(order);
            }
            Change::Execute(place, quantity, _) => self.execute_at(place, quantity),
            Change::Withdraw(place) => {
                let _ = self.store.remove(place);
            }
            Change::Amend(place, order) => self.amend_at(place, order),
        }
    }

    // A blank order past the end, so that a change can be told of any place.
    pub fn record_at(&self, place: usize) -> Record
        ensures { result ≡ record_at place self.now.host.orders }
    {
        self.store.read(place).unwrap_or(NO_RECORD)
    }

    // The order at a place executes a quantity, and is gone where nothing is left of it.
    fn execute_at(&mut self, place: usize, quantity: u32)
        ensures { self.new.host ≡ changed self.old.host (Change.Execute place quantity 0) }
    {
        let order = self.record_at(place);
        if order.left <= quantity {
            let _ = self.store.remove(place);
        } else {
            let _ = self.store.rewrite(place, lessened(order, quantity));
        }
    }

    // An order takes the place of the one at a place, or goes to the end.
    fn amend_at(&mut self, place: usize, order: Record)
        ensures { self.new.host ≡ changed self.old.host (Change.Amend place order) }
    {
        if keeps_place(self.record_at(place), order) {
            let _ = self.store.rewrite(place, order);
        } else {
            let _ = self.store.remove(place);
            let _ = self.store.append(order);
        }
    }
}

// An order after an execution.
pub fn lessened(order: Record, quantity: u32) -> Record
    ensures { result ≡ lessened quantity order }
{
    Record {
        left: order.left.saturating_sub(quantity),
        executed: order.executed.saturating_add(quantity),
        ..order
    }
}

fn keeps_place(old: Record, new: Record) -> bool
    ensures { result ≡ keeps_place old new }
{
    new.rate == old.rate && new.left <= old.left
}
