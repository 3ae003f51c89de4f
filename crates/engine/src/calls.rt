// The calls, each as an equation with what it does to the host. A load has three kinds.
#![tactic(auto, unfolding(crate::specs::Calls::load_row, crate::specs::Calls::load_book, crate::specs::Calls::load_account, crate::specs::Calls::begin, crate::specs::Calls::message, crate::specs::Calls::drop, crate::specs::Calls::event, crate::specs::Calls::state, crate::specs::Calls::reference, crate::specs::Calls::collect))]

ghost use Rattle.std.specs.Prelude.{◌≡◌};
ghost use Rattle.market.specs.Host.{Host};
ghost use Rattle.engine.specs.Calls.{outcome, load_row, load_book, load_account, begin, message, drop, event, state, reference, collect};

use crate::engine::Engine;
use fields::letters::BookState;
use line::line::Line;
use ouch::inbound::Inbound;
use rules::fault::Fault;
use rules::tables::{Account, Listing, TickRow};
use store::store::Store;

pub trait Exchange {
    ghost host: { Self → Host };

    fn load_row(&mut self, row: TickRow) -> Result<(u64, u64), Fault>
        ensures { outcome result (host self.new) ≡ load_row (host self.old) row };

    fn load_book(&mut self, book: Listing) -> Result<(u64, u64), Fault>
        ensures { outcome result (host self.new) ≡ load_book (host self.old) book };

    fn load_account(&mut self, name: [u8; 12]) -> Result<(u64, u64), Fault>
        ensures { outcome result (host self.new) ≡ load_account (host self.old) name };

    fn begin(&mut self, time: u64) -> Result<(u64, u64), Fault>
        ensures { outcome result (host self.new) ≡ begin (host self.old) time };

    fn message(&mut self, time: u64, account: u8, bytes: &[u8]) -> Result<(u64, u64), Fault>
        ensures { outcome result (host self.new) ≡ message (host self.old) time account bytes.now };

    fn drop_account(&mut self, time: u64, account: u8) -> Result<(u64, u64), Fault>
        ensures { outcome result (host self.new) ≡ drop (host self.old) time account };

    fn event(&mut self, time: u64, letter: u8) -> Result<(u64, u64), Fault>
        ensures { outcome result (host self.new) ≡ event (host self.old) time letter };

    fn state(&mut self, time: u64, code: u32, letter: u8) -> Result<(u64, u64), Fault>
        ensures { outcome result (host self.new) ≡ state (host self.old) time code letter };

    fn reference(&mut self, time: u64, code: u32, rate: i32) -> Result<(u64, u64), Fault>
        ensures { outcome result (host self.new) ≡ reference (host self.old) time code rate };

    fn collect(&mut self) -> Result<(u64, u64), Fault>
        ensures { outcome result (host self.new) ≡ collect (host self.old) };
}

// A load adds no message to either line.
const NO_MESSAGES: (u64, u64) = (0, 0);

// Each call counts for itself what it adds: no bound can be a closure over an engine, since a market's model reads its
// own bounds.
impl<S: Store, L: Line> Exchange for Engine<S, L> {
    ghost host = { λ e. e.market.host };

    fn load_row(&mut self, row: TickRow) -> Result<(u64, u64), Fault> {
        self.check_load(self.market.rows.refuses(row))?;
        self.market.rows.push(row);
        Ok(NO_MESSAGES)
    }

    fn load_book(&mut self, book: Listing) -> Result<(u64, u64), Fault> {
        self.check_load(self.market.books.refuses(&self.market.rows, book))?;
        self.market.books.push(book.book());
        Ok(NO_MESSAGES)
    }

    fn load_account(&mut self, name: [u8; 12]) -> Result<(u64, u64), Fault> {
        self.check_load(self.market.accounts.refuses(name))?;
        self.market.accounts.push(Account::new(name));
        Ok(NO_MESSAGES)
    }

    fn begin(&mut self, time: u64) -> Result<(u64, u64), Fault> {
        let time = self.check_begin(time)?;
        let before = self.market.waiting();
        self.run_begin(time);
        Ok(self.market.added(before))
    }

    // What the bytes ask is asked of the message layer first.
    fn message(&mut self, time: u64, account: u8, bytes: &[u8]) -> Result<(u64, u64), Fault> {
        let message = Inbound::read(bytes)?;
        let time = self.check_message(time, account)?;
        let before = self.market.waiting();
        self.run_message(time, account, message);
        Ok(self.market.added(before))
    }

    fn drop_account(&mut self, time: u64, account: u8) -> Result<(u64, u64), Fault> {
        let time = self.check_drop(time, account)?;
        let before = self.market.waiting();
        self.run_drop(time, account);
        Ok(self.market.added(before))
    }

    fn event(&mut self, time: u64, letter: u8) -> Result<(u64, u64), Fault> {
        let time = self.check_event(time, letter)?;
        let before = self.market.waiting();
        self.run_event(time, letter);
        Ok(self.market.added(before))
    }

    fn state(&mut self, time: u64, code: u32, letter: u8) -> Result<(u64, u64), Fault> {
        let allowed = BookState::try_from(letter).is_ok();
        let time = self.check_book(time, code, allowed)?;
        let before = self.market.waiting();
        self.run_state(time, code, letter);
        Ok(self.market.added(before))
    }

    fn reference(&mut self, time: u64, code: u32, rate: i32) -> Result<(u64, u64), Fault> {
        let time = self.check_book(time, code, true)?;
        let before = self.market.waiting();
        self.run_reference(time, code, rate);
        Ok(self.market.added(before))
    }

    fn collect(&mut self) -> Result<(u64, u64), Fault> {
        self.check_collect()?;
        let before = self.market.waiting();
        self.run_collect();
        Ok(self.market.added(before))
    }
}
