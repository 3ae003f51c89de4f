// Words for what messages say by a letter.
ghost use Rattle.std.specs.Prelude.{◌≡◌, ℕ, List};
ghost use Rattle.readable.specs.Words.{side_word, event_word, state_word, day_event_word, order_state_word, liquidity_word, cancel_word, reject_word};

use fields::letters::{BookState, Event};
use itch::mark::Mark;
use ouch::letters::{CancelReason, DayEvent, Liquidity, OrderState, RejectReason};

// What is shown by a word. A trait of its own: an impl of `Display` for another crate's type is refused.
pub trait Worded {
    ghost text: { Self → List ℕ };

    fn word(self) -> &'static str
        ensures { result.now ≡ text self };
}

impl Worded for Mark {
    ghost text = { side_word };

    fn word(self) -> &'static str {
        match self {
            Mark::Buy => "buy",
            Mark::Sell => "sell",
            Mark::Blank => "none",
        }
    }
}

impl Worded for Event {
    ghost text = { event_word };

    fn word(self) -> &'static str {
        match self {
            Event::StartOfMessages => "start-of-messages",
            Event::StartOfSystemHours => "start-of-system-hours",
            Event::StartOfMarketHours => "start-of-market-hours",
            Event::EndOfMarketHours => "end-of-market-hours",
            Event::EndOfSystemHours => "end-of-system-hours",
            Event::EndOfMessages => "end-of-messages",
        }
    }
}

impl Worded for BookState {
    ghost text = { state_word };

    fn word(self) -> &'static str {
        match self {
            BookState::Trading => "trading",
            BookState::Suspended => "suspended",
        }
    }
}

impl Worded for DayEvent {
    ghost text = { day_event_word };

    fn word(self) -> &'static str {
        match self {
            DayEvent::StartOfDay => "start-of-day",
            DayEvent::EndOfDay => "end-of-day",
        }
    }
}

// The states of orders and the reasons of replies go by letter and word.
impl Worded for OrderState {
    ghost text = { order_state_word };

    fn word(self) -> &'static str {
        match self {
            OrderState::Live => "L:live",
            OrderState::Dead => "D:dead",
        }
    }
}

impl Worded for Liquidity {
    ghost text = { liquidity_word };

    fn word(self) -> &'static str {
        match self {
            Liquidity::Added => "added",
            Liquidity::Removed => "removed",
        }
    }
}

impl Worded for CancelReason {
    ghost text = { cancel_word };

    fn word(self) -> &'static str {
        match self {
            CancelReason::User => "U:user",
            CancelReason::LoggedOff => "L:logged-off",
            CancelReason::Immediate => "I:immediate",
            CancelReason::NotNow => "R:not-now",
            CancelReason::OrderType => "Y:time-in-force",
            CancelReason::Display => "D:display",
            CancelReason::Price => "X:yield",
            CancelReason::Quantity => "Z:quantity",
            CancelReason::Minimum => "N:minimum",
        }
    }
}

impl Worded for RejectReason {
    ghost text = { reject_word };

    fn word(self) -> &'static str {
        match self {
            RejectReason::NotNow => "R:not-now",
            RejectReason::Book => "S:book",
            RejectReason::Halted => "H:halted",
            RejectReason::Firm => "L:firm",
            RejectReason::Other => "O:other",
            RejectReason::Margin => "G:margin",
            RejectReason::OrderType => "Y:time-in-force",
            RejectReason::Display => "D:display",
            RejectReason::Price => "X:yield",
            RejectReason::Quantity => "Z:quantity",
            RejectReason::Minimum => "N:minimum",
        }
    }
}
