// Units of a byte stream whose front tells how long they are: the records of a day file, the packets of a transport.
// A unit is read whole before it is looked at, and no byte of the next one is read with it.
#![tactic(auto)]

ghost use Rattle.std.specs.Prelude.{◌≡◌, ℕ, ◌+◌, ◌≤◌, List, ◌++◌, length, vec_len};
ghost use Rattle.framing.specs.Unit.{Reached, Added};

use std::io;
use std::io::{BufRead, BufReader, BufWriter, Read, Write};

pub trait Framed {
    // How many bytes a unit has that begins with these bytes, as far as they tell.
    ghost size: { List ℕ → ℕ };

    fn wanted(front: &[u8]) -> usize
        ensures { result ≡ size front.now };

    // What is known of the size is not taken back as the unit comes in.
    ghost grows: { (front more : List ℕ) → length front + length more ≤ size front → size front ≤ size (front ++ more) };
}

// How far a unit came in. Two cases with names: the contract speaks of each.
#[derive(Clone, Copy, PartialEq)]
pub enum Fill {
    // it is whole
    Whole,
    // the input ended before it was
    Ended,
}

// The next unit of the input, behind nothing else in `unit`. Before it waits for input it lets the output go, so that
// whoever reads the output sees all that earlier units caused.
pub fn read_unit<F: Framed, R: Read, W: Write + Drop>(
    input: &mut BufReader<R>,
    output: &mut BufWriter<W>,
    unit: &mut Vec<u8>,
) -> io::Result<Fill>
    ensures { Reached F.Framed.size unit.new.items result }
{
    unit.clear();
    loop {
        let missing = F::wanted(unit.as_slice()).saturating_sub(unit.len());
        if missing == 0 {
            return Ok(Fill::Whole);
        }
        if input.buffer().is_empty() {
            output.flush()?;
        }
        if add_piece(input, missing, unit)? == 0 {
            return Ok(Fill::Ended);
        }
    }
}

// At most `most` bytes of what the input holds, behind those of the unit; answers how many came, 0 at the end.
fn add_piece<R: Read>(
    input: &mut BufReader<R>,
    most: usize,
    unit: &mut Vec<u8>,
) -> io::Result<usize>
    ensures { Added most unit.old.items unit.new.items result }
{
    let held = input.fill_buf()?;
    let n = held.len().min(most);
    unit.extend_from_slice(&held[0..n])?;
    input.consume(n);
    Ok(n)
}
