// The line of a packet.
ghost use Rattle.std.specs.Prelude.{Some};
ghost use Rattle.readable.specs.Packets.{carried};
ghost use Rattle.readable.specs.PacketLines.{feed_line, unknown_line, packet_line, OneLine, UnknownNames};

use crate::bytes::{Hex, Spelling};
use crate::messages::At;
use crate::packet::{LENGTH_BYTES, Packet};
use crate::replies::Told;
use crate::time::Second;
use itch::feed::FeedMessage;
use std::fmt;

impl fmt::Display for At<FeedMessage> {
    ghost output = { λ l. Some (feed_line l.second.0 l.message) };

    fn fmt<W: fmt::Write>(&self, f: &mut fmt::Formatter<W>) -> fmt::Result {
        let second = self.second;
        // Each arm is another type's line.
        match self.message {
            FeedMessage::Seconds(message) => write!(f, "{}", At { second, message }),
            FeedMessage::Event(message) => write!(f, "{}", At { second, message }),
            FeedMessage::Tick(message) => write!(f, "{}", At { second, message }),
            FeedMessage::Directory(message) => write!(f, "{}", At { second, message }),
            FeedMessage::State(message) => write!(f, "{}", At { second, message }),
            FeedMessage::Added(message) => write!(f, "{}", At { second, message }),
            FeedMessage::Executed(message) => write!(f, "{}", At { second, message }),
            FeedMessage::Deleted(message) => write!(f, "{}", At { second, message }),
            FeedMessage::Replaced(message) => write!(f, "{}", At { second, message }),
            FeedMessage::EndOfSnapshot(message) => write!(f, "{}", At { second, message }),
        }
    }
}

// A packet that is not known, by all its bytes.
#[derive(Clone, Copy)]
struct Unknown<'a>(&'a [u8]);

impl fmt::Display for Unknown<'_> {
    ghost output = { λ p. Some (unknown_line p.0.now) };

    fn fmt<W: fmt::Write>(&self, f: &mut fmt::Formatter<W>) -> fmt::Result {
        let (size, rest) = self.0.split_at(self.0.len().min(LENGTH_BYTES));
        write!(f, "? {}{}", Hex("", size), Hex(" ", rest))
    }
}

// A packet, and the second that was told last before it.
#[derive(Clone, Copy)]
pub struct Line<'a> {
    pub second: Second,
    pub packet: Packet<'a>,
}

impl fmt::Display for Line<'_> {
    ghost output = { λ l. Some (packet_line l.second.0 (carried l.packet)) };

    fn fmt<W: fmt::Write>(&self, f: &mut fmt::Formatter<W>) -> fmt::Result {
        let second = self.second;
        match self.packet {
            Packet::Feed(message) => write!(f, "{}", At { second, message }),
            Packet::Reply(account, reply) => write!(f, "account={account} {}", Told(reply)),
            Packet::Fault(text) => write!(f, "+ {}", Spelling(text)),
            Packet::Unknown(bytes) => write!(f, "{}", Unknown(bytes)),
        }
    }
}

// A line stays one line, and that of an unknown packet names all its bytes.
pub fn lines_stand()
    ensures one { OneLine }
    ensures names { UnknownNames }
{}
