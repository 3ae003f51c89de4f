// One turn of the program.
ghost use Rattle.std.specs.Prelude.{◌≡◌, length};
ghost use Rattle.dayfile.specs.Playing.{played, record_played};

use crate::taking::take_record;
use engine::calls::Exchange;
use engine::engine::Engine;
use line::line::Line;
use line::soup::Soup;
use rules::fault::FileFault;
use store::store::Store;

// The record's call is made, the packets that then wait are copied into the caller's bytes, feed first, and the lines
// are emptied. Answers how many bytes the packets have.
pub fn play_record<S: Store>(
    engine: &mut Engine<S, Soup>,
    bytes: &[u8],
    out: &mut [u8],
) -> Result<(usize, usize), FileFault>
    ensures { played result engine.new.market.host out.new ≡ record_played engine.old.market.host bytes.now out.old }
{
    take_record(engine, bytes)?;
    let lengths = engine.copy_out(out);
    engine.collect()?;
    Ok(lengths)
}
