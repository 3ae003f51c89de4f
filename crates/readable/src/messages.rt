// The lines of the messages of the feed and of its snapshots: the letter, the time, and each field by its name.
ghost use Rattle.std.specs.Prelude.{Some};
ghost use Rattle.readable.specs.Lines.{book_text, terms_text, seconds_line, event_line, tick_line, directory_line, state_line, added_line, executed_line, deleted_line, replaced_line, end_line};

use crate::bytes::Text;
use crate::rate::{Rate, Thousandths};
use crate::time::{Moment, Second};
use crate::words::Worded;
use itch::messages::{
    Directory, EndOfSnapshot, OrderAdded, OrderDeleted, OrderExecuted, OrderReplaced, Seconds,
    SystemEvent, TickSize, TradingState,
};
use std::fmt;

// The book that a message speaks of, by its code and its group.
#[derive(Clone, Copy)]
pub struct Book<'a>(pub u32, pub &'a [u8]);

impl fmt::Display for Book<'_> {
    ghost output = { λ b. Some (book_text b.0 b.1.now) };

    fn fmt<W: fmt::Write>(&self, f: &mut fmt::Formatter<W>) -> fmt::Result {
        write!(f, "code={} group={}", self.0, Text(self.1))
    }
}

// How a directory message's book trades. A part of its own: the proof of one write with all the fields stays open.
#[derive(Clone, Copy)]
struct Terms(Directory);

impl fmt::Display for Terms {
    ghost output = { λ t. Some (terms_text t.0) };

    fn fmt<W: fmt::Write>(&self, f: &mut fmt::Formatter<W>) -> fmt::Result {
        let m = self.0;
        write!(
            f,
            "lot={} table={} decimals={} upper={} lower={}",
            m.lot,
            m.table,
            m.decimals,
            Rate(m.upper),
            Rate(m.lower)
        )
    }
}

// A message, and the second that was told last before it. A method for its moment would be as long as the moment.
#[derive(Clone, Copy)]
pub struct At<M> {
    pub second: Second,
    pub message: M,
}

impl fmt::Display for At<Seconds> {
    ghost output = { λ l. Some (seconds_line l.message) };

    fn fmt<W: fmt::Write>(&self, f: &mut fmt::Formatter<W>) -> fmt::Result {
        let seconds = self.message.seconds;
        write!(f, "T {} seconds={seconds}", Second(Some(seconds)))
    }
}

impl fmt::Display for At<SystemEvent> {
    ghost output = { λ l. Some (event_line l.second.0 l.message) };

    fn fmt<W: fmt::Write>(&self, f: &mut fmt::Formatter<W>) -> fmt::Result {
        let m = self.message;
        let time = Moment(self.second, m.nanos);
        write!(
            f,
            "S {time} group={} event={}",
            Text(&m.group),
            m.event.word()
        )
    }
}

impl fmt::Display for At<TickSize> {
    ghost output = { λ l. Some (tick_line l.second.0 l.message) };

    fn fmt<W: fmt::Write>(&self, f: &mut fmt::Formatter<W>) -> fmt::Result {
        let m = self.message;
        let time = Moment(self.second, m.nanos);
        write!(
            f,
            "L {time} table={} size={} start={}",
            m.table,
            Thousandths(m.size),
            Rate(m.start)
        )
    }
}

impl fmt::Display for At<Directory> {
    ghost output = { λ l. Some (directory_line l.second.0 l.message) };

    fn fmt<W: fmt::Write>(&self, f: &mut fmt::Formatter<W>) -> fmt::Result {
        let m = self.message;
        let time = Moment(self.second, m.nanos);
        let book = Book(m.code, &m.group);
        write!(f, "R {time} {book} isin={} {}", Text(&m.isin), Terms(m))
    }
}

impl fmt::Display for At<TradingState> {
    ghost output = { λ l. Some (state_line l.second.0 l.message) };

    fn fmt<W: fmt::Write>(&self, f: &mut fmt::Formatter<W>) -> fmt::Result {
        let m = self.message;
        let time = Moment(self.second, m.nanos);
        let book = Book(m.code, &m.group);
        write!(f, "H {time} {book} state={}", m.state.word())
    }
}

impl fmt::Display for At<OrderAdded> {
    ghost output = { λ l. Some (added_line l.second.0 l.message) };

    fn fmt<W: fmt::Write>(&self, f: &mut fmt::Formatter<W>) -> fmt::Result {
        let m = self.message;
        let time = Moment(self.second, m.nanos);
        let book = Book(m.code, &m.group);
        write!(
            f,
            "A {time} order={} side={} quantity={} {book} yield={}",
            m.number,
            m.mark.word(),
            m.quantity,
            Rate(m.price)
        )
    }
}

impl fmt::Display for At<OrderExecuted> {
    ghost output = { λ l. Some (executed_line l.second.0 l.message) };

    fn fmt<W: fmt::Write>(&self, f: &mut fmt::Formatter<W>) -> fmt::Result {
        let m = self.message;
        let time = Moment(self.second, m.nanos);
        write!(
            f,
            "E {time} order={} quantity={} match={}",
            m.number, m.quantity, m.matched
        )
    }
}

impl fmt::Display for At<OrderDeleted> {
    ghost output = { λ l. Some (deleted_line l.second.0 l.message) };

    fn fmt<W: fmt::Write>(&self, f: &mut fmt::Formatter<W>) -> fmt::Result {
        let m = self.message;
        let time = Moment(self.second, m.nanos);
        write!(f, "D {time} order={}", m.number)
    }
}

impl fmt::Display for At<OrderReplaced> {
    ghost output = { λ l. Some (replaced_line l.second.0 l.message) };

    fn fmt<W: fmt::Write>(&self, f: &mut fmt::Formatter<W>) -> fmt::Result {
        let m = self.message;
        let time = Moment(self.second, m.nanos);
        write!(
            f,
            "U {time} original={} order={} quantity={} yield={}",
            m.original,
            m.number,
            m.quantity,
            Rate(m.price)
        )
    }
}

impl fmt::Display for At<EndOfSnapshot> {
    ghost output = { λ l. Some (end_line l.second.0 l.message) };

    fn fmt<W: fmt::Write>(&self, f: &mut fmt::Formatter<W>) -> fmt::Result {
        let sequence = self.message.sequence;
        write!(f, "G {} sequence={sequence}", self.second)
    }
}
