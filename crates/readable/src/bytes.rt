// Bytes one after another, as text or by their hexadecimal digits.
ghost use Rattle.std.specs.Prelude.{◌≡◌, ◌∷◌, [], Some};
ghost use Rattle.readable.specs.Hex.{hex_digit};
ghost use Rattle.readable.specs.Spelling.{printable, spelt, spelling, hex_bytes, unpadded, field_text, TextTells};

use std::fmt;

// Whether a byte of a text stands for itself.
fn is_printable(byte: u8) -> bool
    ensures { result ≡ printable byte }
{
    matches!(byte, b' '..=b'~') && byte != b'\\'
}

// The last hexadecimal digit of a number, as a text of its own: in long dumps `{:02X}` takes nearly twice as long.
fn digit(n: u8) -> &'static str
    ensures { result.now ≡ hex_digit n ∷ [] }
{
    const DIGITS: [&str; 16] = [
        "0", "1", "2", "3", "4", "5", "6", "7", "8", "9", "A", "B", "C", "D", "E", "F",
    ];
    DIGITS[usize::from(n % 16)]
}

// A byte of a text, by its two digits where it does not stand for itself.
#[derive(Clone, Copy)]
struct Spelt(u8);

impl fmt::Display for Spelt {
    ghost output = { λ b. Some (spelt b.0) };

    fn fmt<W: fmt::Write>(&self, f: &mut fmt::Formatter<W>) -> fmt::Result {
        let byte = self.0;
        if is_printable(byte) {
            write!(f, "{}", byte as char)
        } else {
            write!(f, "\\x{}{}", digit(byte / 16), digit(byte))
        }
    }
}

// A text, byte by byte.
#[derive(Clone, Copy)]
pub struct Spelling<'a>(pub &'a [u8]);

impl fmt::Display for Spelling<'_> {
    ghost output = { λ t. Some (spelling t.0.now) };

    fn fmt<W: fmt::Write>(&self, f: &mut fmt::Formatter<W>) -> fmt::Result {
        for &byte in self.0 {
            write!(f, "{}", Spelt(byte))?;
        }
        Ok(())
    }
}

// Bytes by their two digits, each behind the same lead.
#[derive(Clone, Copy)]
pub struct Hex<'a>(pub &'static str, pub &'a [u8]);

impl fmt::Display for Hex<'_> {
    ghost output = { λ h. Some (hex_bytes h.0.now h.1.now) };

    fn fmt<W: fmt::Write>(&self, f: &mut fmt::Formatter<W>) -> fmt::Result {
        for &byte in self.1 {
            write!(f, "{}{}{}", self.0, digit(byte / 16), digit(byte))?;
        }
        Ok(())
    }
}

// A text without the spaces that fill its field up.
#[tactic(auto, using(crate::proofs::Padding::front_space, crate::proofs::Padding::front_solid))]
fn unpadded(text: &[u8]) -> &[u8]
    ensures { result.now ≡ unpadded text.now }
{
    let mut text = text;
    while let [front @ .., b' '] = text {
        text = front;
    }
    text
}

// A text field, without the spaces that fill it up.
#[derive(Clone, Copy)]
pub struct Text<'a>(pub &'a [u8]);

impl fmt::Display for Text<'_> {
    ghost output = { λ t. Some (field_text t.0.now) };

    fn fmt<W: fmt::Write>(&self, f: &mut fmt::Formatter<W>) -> fmt::Result {
        write!(f, "{}", Spelling(unpadded(self.0)))
    }
}

// Texts for the same field that are shown alike are alike.
pub fn texts_stand()
    ensures { TextTells }
{}
