// A packet of the host: two bytes with the number of bytes that follow, a letter, and what it carries.
ghost use Rattle.std.specs.Prelude.{◌≡◌};
ghost use Rattle.std.specs.Option.{option_map};
ghost use Rattle.readable.specs.Packets.{carried, packet_of, message_of, second_after, PacketsTell};

use crate::time::Second;
use itch::feed::FeedMessage;
use ouch::reply::Reply;

// A packet begins with its length, which does not count itself.
pub(crate) const LENGTH_BYTES: usize = 2;

const MESSAGE_LETTER: u8 = b'S';

const FAULT_LETTER: u8 = b'+';

// Accounts are numbered from 0 to below this. Said here too: the reader stands on the messages alone.
const ACCOUNTS: u8 = 16;

// A reply comes with its account's number; an unknown packet is kept whole.
#[derive(Clone, Copy)]
pub enum Packet<'a> {
    Feed(FeedMessage),
    Reply(u8, Reply),
    Fault(&'a [u8]),
    Unknown(&'a [u8]),
}

impl<'a> Packet<'a> {
    // What the bytes of a packet carry.
    pub fn of(bytes: &'a [u8]) -> Packet<'a>
        ensures { carried result ≡ packet_of bytes.now }
    {
        let unknown = Packet::Unknown(bytes);
        match bytes {
            [_, _, MESSAGE_LETTER, payload @ ..] => Packet::message(payload).unwrap_or(unknown),
            [_, _, FAULT_LETTER, text @ ..] => Packet::Fault(text),
            _ => unknown,
        }
    }

    // The message of the feed, or else the reply to one of the accounts, that a payload is.
    fn message(payload: &[u8]) -> Option<Packet<'a>>
        ensures { option_map carried result ≡ message_of payload.now }
    {
        // A feed message is tried first: what follows is of replies alone.
        if let Some(message) = FeedMessage::decode(payload) {
            return Some(Packet::Feed(message));
        }
        let (account, reply) = Reply::decode_addressed(payload)?;
        (account < ACCOUNTS).then_some(Packet::Reply(account, reply))
    }

    // The second told last, once the packet has come.
    pub fn second_after(&self, before: Second) -> Second
        ensures { result.0 ≡ second_after before.0 (carried self.now) }
    {
        match self {
            Packet::Feed(FeedMessage::Seconds(m)) => Second(Some(m.seconds)),
            _ => before,
        }
    }
}

// A packet with the bytes of a message or a reply is read as it, and one with a fault as its text.
pub fn packets_stand()
    ensures { PacketsTell }
{}
