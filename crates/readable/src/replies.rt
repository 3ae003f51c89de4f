// The lines of the replies: the letter, the time, and each field by its name.
ghost use Rattle.std.specs.Prelude.{Some};
ghost use Rattle.readable.specs.ReplyLines.{letter_text, offer_text, instructions_text, standing_text, replacement_text, deal_text, day_line, accepted_line, replaced_line, canceled_line, executed_line, rejected_line, reply_line};

use crate::bytes::Text;
use crate::messages::Book;
use crate::rate::Rate;
use crate::time::Time;
use crate::words::Worded;
use fields::letters::Side;
use itch::mark::Mark;
use ouch::replies::{Accepted, Canceled, Executed, Rejected, Replaced, SystemEvent};
use ouch::reply::Reply;
use std::fmt;

// A letter as it came: nothing where it is a space.
#[derive(Clone, Copy)]
struct Letter(u8);

impl fmt::Display for Letter {
    ghost output = { λ l. Some (letter_text l.0) };

    fn fmt<W: fmt::Write>(&self, f: &mut fmt::Formatter<W>) -> fmt::Result {
        write!(f, "{}", Text(&[self.0]))
    }
}

// What an order offers, in which book and at which yield. Two replies name its fields once each: a conversion would be longer.
#[derive(Clone, Copy)]
struct Offer<'a> {
    side: Side,
    quantity: u32,
    book: Book<'a>,
    price: i32,
}

impl fmt::Display for Offer<'_> {
    ghost output = { λ o. Some (offer_text o.side o.quantity o.book.0 o.book.1.now o.price) };

    fn fmt<W: fmt::Write>(&self, f: &mut fmt::Formatter<W>) -> fmt::Result {
        let side = Mark::from(self.side).word();
        write!(
            f,
            "side={side} quantity={} {} yield={}",
            self.quantity,
            self.book,
            Rate(self.price)
        )
    }
}

// An accepted order's instructions.
#[derive(Clone, Copy)]
struct Instructions(Accepted);

impl fmt::Display for Instructions {
    ghost output = { λ i. Some (instructions_text i.0) };

    fn fmt<W: fmt::Write>(&self, f: &mut fmt::Formatter<W>) -> fmt::Result {
        let m = self.0;
        write!(
            f,
            "force={} firm={} display={} capacity={}",
            m.force,
            m.firm,
            Letter(m.display),
            Letter(m.capacity)
        )
    }
}

// What it is accepted as.
#[derive(Clone, Copy)]
struct Standing(Accepted);

impl fmt::Display for Standing {
    ghost output = { λ s. Some (standing_text s.0) };

    fn fmt<W: fmt::Write>(&self, f: &mut fmt::Formatter<W>) -> fmt::Result {
        let m = self.0;
        write!(
            f,
            "order={} minimum={} state={} classification={} margin={}",
            m.number,
            m.minimum,
            m.state.word(),
            Letter(m.classification),
            Letter(m.margin)
        )
    }
}

// What an order that replaced another is now.
#[derive(Clone, Copy)]
struct Replacement(Replaced);

impl fmt::Display for Replacement {
    ghost output = { λ r. Some (replacement_text r.0) };

    fn fmt<W: fmt::Write>(&self, f: &mut fmt::Formatter<W>) -> fmt::Result {
        let m = self.0;
        write!(
            f,
            "force={} display={} order={} minimum={} state={} previous={}",
            m.force,
            Letter(m.display),
            m.number,
            m.minimum,
            m.state.word(),
            m.previous
        )
    }
}

// An execution: at which yield, and with whom.
#[derive(Clone, Copy)]
struct Deal(Executed);

impl fmt::Display for Deal {
    ghost output = { λ d. Some (deal_text d.0) };

    fn fmt<W: fmt::Write>(&self, f: &mut fmt::Formatter<W>) -> fmt::Result {
        let m = self.0;
        write!(
            f,
            "yield={} liquidity={} counterparty={} match={}",
            Rate(m.price),
            m.liquidity.word(),
            Text(&m.counterparty),
            m.matched
        )
    }
}

// What an account is told.
#[derive(Clone, Copy)]
pub struct Told<M>(pub M);

impl fmt::Display for Told<SystemEvent> {
    ghost output = { λ t. Some (day_line t.0) };

    fn fmt<W: fmt::Write>(&self, f: &mut fmt::Formatter<W>) -> fmt::Result {
        let m = self.0;
        write!(f, "S {} event={}", Time(m.time), m.event.word())
    }
}

impl fmt::Display for Told<Accepted> {
    ghost output = { λ t. Some (accepted_line t.0) };

    fn fmt<W: fmt::Write>(&self, f: &mut fmt::Formatter<W>) -> fmt::Result {
        let m = self.0;
        let offer = Offer {
            side: m.side,
            quantity: m.quantity,
            book: Book(m.code, &m.group),
            price: m.price,
        };
        write!(
            f,
            "A {} token={} reference={} {offer} {} {}",
            Time(m.time),
            m.token,
            Text(&m.reference),
            Instructions(m),
            Standing(m)
        )
    }
}

impl fmt::Display for Told<Replaced> {
    ghost output = { λ t. Some (replaced_line t.0) };

    fn fmt<W: fmt::Write>(&self, f: &mut fmt::Formatter<W>) -> fmt::Result {
        let m = self.0;
        let offer = Offer {
            side: m.side,
            quantity: m.quantity,
            book: Book(m.code, &m.group),
            price: m.price,
        };
        write!(
            f,
            "U {} token={} {offer} {}",
            Time(m.time),
            m.token,
            Replacement(m)
        )
    }
}

impl fmt::Display for Told<Canceled> {
    ghost output = { λ t. Some (canceled_line t.0) };

    fn fmt<W: fmt::Write>(&self, f: &mut fmt::Formatter<W>) -> fmt::Result {
        let m = self.0;
        write!(
            f,
            "C {} token={} quantity={} reason={}",
            Time(m.time),
            m.token,
            m.quantity,
            m.reason.word()
        )
    }
}

impl fmt::Display for Told<Executed> {
    ghost output = { λ t. Some (executed_line t.0) };

    fn fmt<W: fmt::Write>(&self, f: &mut fmt::Formatter<W>) -> fmt::Result {
        let m = self.0;
        write!(
            f,
            "e {} token={} quantity={} {}",
            Time(m.time),
            m.token,
            m.quantity,
            Deal(m)
        )
    }
}

impl fmt::Display for Told<Rejected> {
    ghost output = { λ t. Some (rejected_line t.0) };

    fn fmt<W: fmt::Write>(&self, f: &mut fmt::Formatter<W>) -> fmt::Result {
        let m = self.0;
        write!(
            f,
            "J {} token={} reason={}",
            Time(m.time),
            m.token,
            m.reason.word()
        )
    }
}

impl fmt::Display for Told<Reply> {
    ghost output = { λ t. Some (reply_line t.0) };

    fn fmt<W: fmt::Write>(&self, f: &mut fmt::Formatter<W>) -> fmt::Result {
        // Each arm is another type's line.
        match self.0 {
            Reply::SystemEvent(m) => write!(f, "{}", Told(m)),
            Reply::Accepted(m) => write!(f, "{}", Told(m)),
            Reply::Replaced(m) => write!(f, "{}", Told(m)),
            Reply::Canceled(m) => write!(f, "{}", Told(m)),
            Reply::Executed(m) => write!(f, "{}", Told(m)),
            Reply::Rejected(m) => write!(f, "{}", Told(m)),
        }
    }
}
