// What every kind of message has: a letter, and fields behind it.
ghost use Rattle.std.specs.Prelude.{◌≡◌, ℕ, ◌+◌, length};
ghost use Rattle.fields.specs.Layout.{Format, Fitting, sizes, encode, decode, apply, read_at};

use crate::frame::Frame;

pub trait Message {
    ghost format: { Format Self };

    // Each impl says its letter and its length for clauses too: a default cannot cite another ghost member.
    ghost LETTER: { ℕ };

    ghost LENGTH: { ℕ };

    const LETTER: u8;

    // How many bytes it has, its letter among them.
    const LENGTH: usize;

    fn encode(self) -> Frame
        ensures bytes { result ≡ encode format self }
        ensures fits { Fitting format self };

    // The message of the fields that stand behind the letter, where each letter among them stands for something.
    fn read(bytes: &[u8]) -> Option<Self>
        requires { length bytes.now ≡ LENGTH }
        ensures { result ≡ apply format.fields format.made (read_at format.fields 1 bytes.now) };

    // The message that the bytes are, where they are one.
    final fn decode(bytes: &[u8]) -> Option<Self>
        ensures { result ≡ decode format bytes.now }
    {
        if bytes.len() != Self::LENGTH || bytes[0] != Self::LETTER {
            return None;
        }
        Self::read(bytes)
    }

    ghost letter_is: { LETTER ≡ format.letter };

    ghost length_is: { LENGTH ≡ 1 + sizes format.fields };
}
