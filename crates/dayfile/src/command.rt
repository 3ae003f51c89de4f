// A record of the day file, read from its bytes.
ghost use Rattle.std.specs.Prelude.{◌≡◌, ◌+◌, ◌≤◌, length};
ghost use Rattle.std.specs.Option.{ok_or};
ghost use Rattle.rules.specs.declared.fault.FileFault.TheVariants.{Malformed};
ghost use Rattle.dayfile.specs.Records.{header, tag_of, first_tag, value_length, length_read, value_read, wanted, record_read};
ghost use Rattle.dayfile.specs.Framing.{Framed, RecordsSound};

use fields::field::at;
use rules::fault::FileFault;
use rules::tables::{Listing, TickRow};

// The kind of a record, which its first byte tells.
#[derive(Clone, Copy)]
pub enum Tag {
    Row,
    Book,
    Account,
    Begin,
    Event,
    State,
    Reference,
    Drop,
}

// What a record asks of the host.
#[derive(Clone, Copy)]
pub enum Command {
    Row(TickRow),
    Book(Listing),
    Account([u8; 12]),
    Begin { time: u64 },
    Event { time: u64, letter: u8 },
    // a book's state, as a letter
    State { time: u64, code: u32, letter: u8 },
    // a book's reference yield
    Reference { time: u64, code: u32, rate: i32 },
    // an account's orders, by its number
    Drop { time: u64, account: u8 },
}

// The bytes of tag and length, before the value.
const HEADER: usize = 3;

impl TryFrom<u8> for Tag {
    type Error = FileFault;

    ghost try_from_gives = { λ b r. r ≡ ok_or (tag_of b) Malformed };

    fn try_from(b: u8) -> Result<Tag, FileFault> {
        match b {
            1 => Ok(Tag::Row),
            2 => Ok(Tag::Book),
            3 => Ok(Tag::Account),
            4 => Ok(Tag::Begin),
            6 => Ok(Tag::Event),
            7 => Ok(Tag::State),
            8 => Ok(Tag::Reference),
            10 => Ok(Tag::Drop),
            _ => Err(FileFault::Malformed),
        }
    }
}

impl Tag {
    // The tag of the record that begins with these bytes.
    fn read(bytes: &[u8]) -> Result<Tag, FileFault>
        ensures { result ≡ first_tag bytes.now }
    {
        let first = bytes.first().ok_or(FileFault::Truncated)?;
        Tag::try_from(*first)
    }

    // The bytes of its value.
    pub fn length(self) -> usize
        ensures { result ≡ value_length self }
    {
        match self {
            Tag::Row => 12,
            Tag::Book => 37,
            Tag::Account => 12,
            Tag::Begin => 8,
            Tag::Event => 9,
            Tag::State => 13,
            Tag::Reference => 16,
            Tag::Drop => 9,
        }
    }

    // The length of a record's value, where it is stated whole and is this tag's.
    fn length_read(self, bytes: &[u8]) -> Result<usize, FileFault>
        ensures { result ≡ length_read self bytes.now }
    {
        if bytes.len() < HEADER {
            return Err(FileFault::Truncated);
        }
        let stated = usize::from(at::<u16>(bytes, 1));
        if stated != self.length() {
            return Err(FileFault::Malformed);
        }
        Ok(stated)
    }

    // What a value of this tag asks; it starts behind the header.
    fn value(self, bytes: &[u8]) -> Command
        requires { header + value_length self ≤ length bytes.now }
        ensures { result ≡ value_read self bytes.now }
    {
        match self {
            Tag::Row => Command::Row(TickRow {
                table: at(bytes, 3),
                size: at(bytes, 7),
                start: at(bytes, 11),
            }),
            Tag::Book => Command::Book(Listing {
                code: at(bytes, 3),
                isin: at(bytes, 7),
                lot: at(bytes, 19),
                table: at(bytes, 23),
                upper: at(bytes, 27),
                lower: at(bytes, 31),
                state: at(bytes, 35),
                reference: at(bytes, 36),
            }),
            Tag::Account => Command::Account(at(bytes, 3)),
            Tag::Begin => Command::Begin { time: at(bytes, 3) },
            Tag::Event => Command::Event {
                time: at(bytes, 3),
                letter: at(bytes, 11),
            },
            Tag::State => Command::State {
                time: at(bytes, 3),
                code: at(bytes, 11),
                letter: at(bytes, 15),
            },
            Tag::Reference => Command::Reference {
                time: at(bytes, 3),
                code: at(bytes, 11),
                rate: at(bytes, 15),
            },
            Tag::Drop => Command::Drop {
                time: at(bytes, 3),
                account: at(bytes, 11),
            },
        }
    }
}

// How many bytes the record has that begins with these bytes, as far as they tell.
#[tactic(auto, using(crate::specs::FramingLemmas::framed), unfolding(crate::specs::Records::wanted))]
pub fn wanted(bytes: &[u8]) -> usize
    ensures value { result ≡ wanted bytes.now }
    ensures framed { Framed bytes.now }
{
    let Ok(tag) = Tag::read(bytes) else {
        return 1;
    };
    // The two cases of the definition, side by side.
    match tag.length_read(bytes) {
        Ok(length) => HEADER + length,
        Err(_) => HEADER,
    }
}

impl Command {
    // What the first record of the bytes asks, or why it is refused.
    #[tactic(auto, unfolding(crate::specs::Records::record_read))]
    pub fn read(bytes: &[u8]) -> Result<Command, FileFault>
        ensures { result ≡ record_read bytes.now }
    {
        let tag = Tag::read(bytes)?;
        let length = tag.length_read(bytes)?;
        if bytes.len() < HEADER + length {
            return Err(FileFault::Truncated);
        }
        Ok(tag.value(bytes))
    }
}

// The records have the lengths stated, and are read back from their bytes.
pub fn records_stand()
    ensures { RecordsSound }
{}
