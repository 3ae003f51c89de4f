// Why a call is refused. A message's fault stands inside the engine's, and the engine's inside the file's.
ghost use Rattle.std.specs.Prelude.{◌≡◌};
ghost use Rattle.rules.specs.Faults.{number, file_number, engine_layer, layer_of, place_of};
ghost use Rattle.rules.specs.declared.fault.Fault.TheVariants.{Message as in_engine};
ghost use Rattle.rules.specs.declared.fault.FileFault.TheVariants.{Engine as in_file};

use line::refusal::Refusal;
use ouch::inbound::MessageFault;

#[derive(Clone, Copy)]
pub enum Fault {
    // the message's bytes are no Enter, Replace or Cancel
    Message(MessageFault),
    // the time is not of the day
    Time,
    // the account is not loaded
    Account,
    // the time is below that of the last accepted call
    Clock,
    // the call or its letter is not allowed in the phase
    Phase,
    // the book is not loaded
    Book,
    // the next order or match number is above 2^63
    Numbers,
    // system hours cannot end while an order is live
    LiveOrders,
    // too few free places on the feed, or on a snapshot's line
    FeedPlaces,
    // too few free places for replies
    ReplyPlaces,
    // what was to be loaded does not fit what is loaded
    Load,
    // a line refuses to be collected
    Line(Refusal),
}

// Why a record of a day file is refused.
#[derive(Clone, Copy)]
pub enum FileFault {
    // the tag is unknown, or the length is not the tag's
    Malformed,
    // the file ends inside a record
    Truncated,
    // the call that the record makes is refused
    Engine(Fault),
}

// The layer that a fault belongs to.
#[derive(Clone, Copy)]
pub enum Layer {
    File,
    Message,
    Engine,
}

impl From<MessageFault> for Fault {
    ghost from_gives = { λ f r. r ≡ in_engine f };

    fn from(fault: MessageFault) -> Fault {
        Fault::Message(fault)
    }
}

impl From<Fault> for FileFault {
    ghost from_gives = { λ f r. r ≡ in_file f };

    fn from(fault: Fault) -> FileFault {
        FileFault::Engine(fault)
    }
}

// The number by which the fault goes.
impl From<Fault> for u8 {
    ghost from_gives = { λ f n. n ≡ number f };

    fn from(fault: Fault) -> u8 {
        match fault {
            Fault::Message(f) => u8::from(f),
            Fault::Time => 6,
            Fault::Account => 7,
            Fault::Clock => 8,
            Fault::Phase => 9,
            Fault::Book => 10,
            Fault::Numbers => 11,
            Fault::LiveOrders => 12,
            Fault::FeedPlaces => 13,
            Fault::ReplyPlaces => 14,
            Fault::Load => 15,
            Fault::Line(refusal) => u8::from(refusal),
        }
    }
}

impl From<FileFault> for u8 {
    ghost from_gives = { λ f n. n ≡ file_number f };

    fn from(fault: FileFault) -> u8 {
        match fault {
            FileFault::Malformed => 1,
            FileFault::Truncated => 2,
            FileFault::Engine(f) => u8::from(f),
        }
    }
}

impl Fault {
    pub fn layer(self) -> Layer
        ensures { result ≡ engine_layer self }
    {
        match self {
            Fault::Message(_) => Layer::Message,
            _ => Layer::Engine,
        }
    }
}

// A message stands behind its record's tag, length, time and account.
const BEFORE_MESSAGE: u128 = 1 + 2 + 8 + 1;

impl FileFault {
    pub fn layer(self) -> Layer
        ensures { result ≡ layer_of self }
    {
        match self {
            FileFault::Engine(f) => f.layer(),
            _ => Layer::File,
        }
    }

    // The byte that the fault names, where the record's tag is at a place of the file.
    pub fn place(self, at: u64) -> u128
        ensures { result ≡ place_of at self }
    {
        match self.layer() {
            Layer::Message => u128::from(at) + BEFORE_MESSAGE,
            Layer::File | Layer::Engine => u128::from(at),
        }
    }
}
