// The bytes of both lines, for the caller to send.
ghost use Rattle.std.specs.Prelude.{◌≡◌, ◌++◌, length};
ghost use Rattle.line.specs.Meaning.{over};

use crate::engine::Engine;
use line::line::Line;
use store::store::Store;

impl<S: Store, L: Line> Engine<S, L> {
    // The feed's filled front and then the replies' into the caller's bytes, as far as those reach; answers the length
    // of each.
    pub fn copy_out(&self, out: &mut [u8]) -> (usize, usize)
        ensures answer { result ≡ (length (L.Line.layout self.now.market.feed self.now.market.host.feed), length (L.Line.layout self.now.market.replies self.now.market.host.replies)) }
        ensures feed { self.now.market.host.feed ≡ L.Line.meaning self.now.market.feed }
        ensures replies { self.now.market.host.replies ≡ L.Line.meaning self.now.market.replies }
        ensures after { out.new ≡ over (L.Line.layout self.now.market.feed self.now.market.host.feed ++ L.Line.layout self.now.market.replies self.now.market.host.replies) out.old }
    {
        let fed = self.market.feed.copy_out(out);
        let start = fed.min(out.len());
        let replied = self.market.replies.copy_out(&mut out[start..]);
        (fed, replied)
    }
}
