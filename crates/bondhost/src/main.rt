// The host as a program: a day file on standard input, Soup packets on standard output.
#![tactic(auto)]

ghost use Rattle.std.specs.Prelude.{◌≡◌, min, [], IfOk};
ghost use Rattle.market.specs.Host.{made as engine_made};
ghost use Rattle.line.specs.Meaning.{fresh, places};
ghost use Rattle.line.specs.SoupMeaning.{soup_meaning};

use anyhow::anyhow;
use dayfile::packet::fault_packet;
use dayfile::playing::play_record;
use dayfile::stream::DayFile;
use engine::engine::Engine;
use engine::make::check_parts;
use framing::read_unit;
use line::line::Line;
use line::soup::Soup;
use rules::fault::FileFault;
use std::alloc::{AllocError, Global};
use std::io;
use std::io::{BufReader, BufWriter, ErrorKind, Read, Write};
use std::process::ExitCode;
use store::record::NO_RECORD;
use store::row::Row;
use store::store::Records;

// How many orders the store holds, and how many messages can wait on each line.
const ORDERS: usize = 256;

const FEED_PLACES: usize = 300;

const REPLY_PLACES: usize = 550;

// The bytes of both lines' buffers.
const FEED_BYTES: usize = FEED_PLACES * <Soup as Line>::SHARE;

const REPLY_BYTES: usize = REPLY_PLACES * <Soup as Line>::SHARE;

// The numbers of the day's first order and first match.
const FIRST_NUMBER: u64 = 1;

type Host = Engine<Row, Soup>;

// A fault is told by its packet; only what keeps the program from reading or writing is reported besides.
fn main(rt: HostRuntime) -> anyhow::Result<ExitCode> {
    let heap = rt.alloc();
    let mut host = new_host(heap)?;
    let mut input = BufReader::new(heap, rt.stdin())?;
    let mut output = BufWriter::new(heap, rt.stdout())?;
    play_day(heap, &mut host, &mut input, &mut output)
}

// An engine over a row and two Soup lines, with nothing loaded.
fn new_host(heap: Global) -> anyhow::Result<Host>
    ensures { IfOk result (λ h. h.market.host ≡ engine_made 256 (fresh 300 0) (fresh 550 0) 1 1) }
{
    let store = new_row(heap, ORDERS)?;
    let feed = new_line(heap, FEED_BYTES)?;
    let replies = new_line(heap, REPLY_BYTES)?;
    check_parts(&store, &feed, &replies, FIRST_NUMBER, FIRST_NUMBER).map_err(|_| anyhow!(
        "the engine's parts do not fit"
    ))?;
    Ok(Engine::new(store, feed, replies, FIRST_NUMBER, FIRST_NUMBER))
}

// An empty row for so many orders.
fn new_row(heap: Global, orders: usize) -> Result<Row, AllocError>
    ensures { IfOk result (λ s. (s.records.items ≡ []) × (s.capacity ≡ min orders 4096)) }
{
    Ok(Row::over(vec![in heap; NO_RECORD; orders]?))
}

// A line with nothing waiting and nothing gone, over a buffer of so many bytes.
fn new_line(heap: Global, bytes: usize) -> Result<Soup, AllocError>
    ensures { IfOk result (λ l. soup_meaning l ≡ fresh (places 83 bytes) 0) }
{
    Ok(Soup::new(vec![in heap; 0u8; bytes]?, 0))
}

// The records in turn, to the end of the input or to the first that is refused. The loop has a bound, since each one
// must be proved to end; no input is so long.
fn play_day<R: Read, W: Write + Drop>(
    heap: Global,
    host: &mut Host,
    input: &mut BufReader<R>,
    output: &mut BufWriter<W>,
) -> anyhow::Result<ExitCode> {
    let mut record = Vec::new(heap);
    let mut packets = vec![in heap; 0u8; FEED_BYTES + REPLY_BYTES]?;
    let mut at = 0u64;
    for _ in 0..u64::MAX {
        read_unit::<DayFile, R, W>(input, output, &mut record)?;
        if record.is_empty() {
            output.flush()?;
            return Ok(ExitCode::SUCCESS);
        }
        match play_record(host, record.as_slice(), packets.as_mut_slice()) {
            Ok((fed, replied)) => write_packets(
                output,
                packets.as_slice(),
                fed.saturating_add(replied),
            )?,
            Err(fault) => return end_in_fault(output, fault, at),
        }
        at = at.saturating_add(record.len() as u64);
    }
    Ok(ExitCode::SUCCESS)
}

// The first `count` bytes of the packets.
fn write_packets<W: Write>(output: &mut W, packets: &[u8], count: usize) -> io::Result<()> {
    let filled = packets.get(..count).ok_or_else(|| {
        io::Error::new(
            ErrorKind::OutOfMemory,
            "the packets do not fit their buffer",
        )
    })?;
    output.write_all(filled)
}

// The fault's packet is the last thing that is written.
fn end_in_fault<W: Write + Drop>(
    output: &mut BufWriter<W>,
    fault: FileFault,
    at: u64,
) -> anyhow::Result<ExitCode> {
    let packet = fault_packet(fault, at);
    output.write_all(packet.bytes())?;
    output.flush()?;
    Ok(ExitCode::FAILURE)
}
