// The records as the units of a stream: how many bytes one has, its first bytes tell.
ghost use Rattle.dayfile.specs.Records.{wanted};
ghost use Rattle.dayfile.specs.FramingLemmas.{framed};

use crate::command::wanted;
use framing::Framed;

pub struct DayFile;

impl Framed for DayFile {
    ghost size = { wanted };

    ghost grows = { λ front more h. (framed front).grows more };

    fn wanted(front: &[u8]) -> usize {
        wanted(front)
    }
}
