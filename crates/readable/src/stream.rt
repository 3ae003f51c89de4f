// A stream of packets that comes in pieces, and the lines of those that have come whole.
ghost use Rattle.std.specs.Prelude.{◌≡◌, [], ◌++◌, IfOk, Some, string_bytes, OnOk};
ghost use Rattle.readable.specs.Packets.{packet_of, second_after};
ghost use Rattle.readable.specs.Streams.{wanted, line_of, ShownWhole, SoFar, GoesOn, CutOnce, FramedCut, truncation, truncated_line};

use crate::line::Line;
use crate::packet::{LENGTH_BYTES, Packet};
use crate::time::Second;
use fields::field::at;
use std::alloc::Global;
use std::{fmt, io};

// How many bytes the packet at the front of a stream has, as far as the bytes that have come tell.
pub fn wanted(bytes: &[u8]) -> usize
    ensures { result ≡ wanted bytes.now }
{
    if bytes.len() < LENGTH_BYTES {
        return LENGTH_BYTES;
    }
    LENGTH_BYTES + usize::from(at::<u16>(bytes, 0))
}

// The line of a packet goes behind `text`, and `second` follows what the packet tells.
fn show_packet(bytes: &[u8], second: &mut Second, text: &mut String) -> fmt::Result
    ensures line { OnOk result (string_bytes text.new ≡ string_bytes text.old ++ line_of second.old.0 bytes.now) }
    ensures second { OnOk result (second.new.0 ≡ second_after second.old.0 (packet_of bytes.now)) }
{
    let packet = Packet::of(bytes);
    let line = Line {
        second: *second,
        packet,
    };
    writeln!(text, "{line}")?;
    *second = packet.second_after(*second);
    Ok(())
}

// The same of each packet that has come whole. Answers how many bytes they have.
fn show_whole(bytes: &[u8], second: &mut Second, text: &mut String) -> Result<usize, fmt::Error>
    ensures { IfOk result (λ n. ShownWhole bytes.now second.old.0 (string_bytes text.old) n second.new.0 (string_bytes text.new)) }
{
    let mut rest = bytes;
    while let Some((packet, behind)) = rest.split_at_checked(wanted(rest)) {
        show_packet(packet, second, text)?;
        rest = behind;
    }
    Ok(bytes.len() - rest.len())
}

// What a stream has of a packet that has not come whole.
#[derive(Clone, Copy)]
pub struct Truncated {
    have: usize,
    whole: usize,
}

impl fmt::Display for Truncated {
    ghost output = { λ t. Some (truncated_line t) };

    fn fmt<W: fmt::Write>(&self, f: &mut fmt::Formatter<W>) -> fmt::Result {
        write!(f, "truncated: {} of {} bytes", self.have, self.whole)
    }
}

// The bytes that belong to no whole packet yet, and the second told last.
#[derive(Drop)]
pub struct Stream {
    pending: Vec<u8>,
    second: Second,
}

impl Stream {
    pub fn new(heap: Global) -> Stream
        ensures { SoFar [] result [] }
    {
        Stream {
            pending: Vec::new(heap),
            second: Second(None),
        }
    }

    // Some bytes more have come: the lines of the packets that are whole by now go behind `text`.
    pub fn take(&mut self, bytes: &[u8], text: &mut String) -> io::Result<()>
        ensures { OnOk result (GoesOn self.old bytes.now (string_bytes text.old) self.new (string_bytes text.new)) }
    {
        self.pending.extend_from_slice(bytes)?;
        let shown = show_whole(self.pending.as_slice(), &mut self.second, text)?;
        self.pending.drain(..shown);
        if shown > 0 {
            // What is left is shorter than a packet, however large the piece was.
            self.pending.shrink_to_fit();
        }
        Ok(())
    }

    // The packet that is missing bytes where the stream ends here, if one is.
    pub fn truncated(&self) -> Option<Truncated>
        ensures { result ≡ truncation self.now.pending.items }
    {
        if self.pending.is_empty() {
            return None;
        }
        Some(Truncated {
            have: self.pending.len(),
            whole: wanted(self.pending.as_slice()),
        })
    }
}

// A stream is cut into packets in one way, and packets laid one behind another are cut into just those.
pub fn streams_stand()
    ensures once { CutOnce }
    ensures framed { FramedCut }
{}
