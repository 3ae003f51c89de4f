// Reads the host's packets from standard input and writes a line for each to standard output.
#![tactic(auto)]

use readable::stream::{Stream, Truncated};
use std::alloc::Global;
use std::io;
use std::io::{Read, Write};
use std::process::ExitCode;

const PIECE: usize = 4096;

// Shows each piece of the input as it comes, before the next is waited for.
// Answers what is missing where the input ends inside a packet.
fn show<R: Read, W: Write>(
    heap: Global,
    input: &mut R,
    out: &mut W,
) -> io::Result<Option<Truncated>> {
    let mut stream = Stream::new(heap);
    let mut text = String::new(heap);
    let mut piece = [0u8; PIECE];
    // Each loop has a bound: no input takes that many reads.
    for _ in 0..u64::MAX {
        let n = input.read(&mut piece)?;
        if n == 0 {
            break;
        }
        stream.take(&piece[..n], &mut text)?;
        out.write_all(text.as_bytes())?;
        out.flush()?;
        text.clear();
    }
    Ok(stream.truncated())
}

fn main(rt: HostRuntime) -> io::Result<ExitCode> {
    let missing = show(rt.alloc(), &mut rt.stdin(), &mut rt.stdout())?;
    match missing {
        None => Ok(ExitCode::SUCCESS),
        Some(truncated) => {
            println!(rt; "{truncated}")?;
            Ok(ExitCode::FAILURE)
        }
    }
}

#[cfg(test)]
mod tests {
    use super::show;
    use readable::stream::Stream;
    use std::test::Fail;

    // An unknown packet, and the front of a second.
    const CUT_SHORT: [u8; 7] = [0, 1, b'Z', 0, 6, b'S', b'T'];

    #[test]
    fn empty(rt: HostRuntime) -> Result<(), Fail> {
        let mut input: &[u8] = &[];
        let mut out = Vec::new(rt.alloc());
        let missing = show(rt.alloc(), &mut input, &mut out)?;
        assert!(rt; missing.is_none());
        assert_eq!(rt; out.len(), 0);
        Ok(())
    }

    #[test]
    fn ends_inside_a_packet(rt: HostRuntime) -> Result<(), Fail> {
        let mut input: &[u8] = &CUT_SHORT;
        let mut out = Vec::new(rt.alloc());
        let missing = show(rt.alloc(), &mut input, &mut out)?.ok_or("whole")?;
        let told = format!(in rt.alloc(); "{missing}")?;
        assert_eq!(rt; told.as_str(), "truncated: 4 of 8 bytes");
        assert!(rt; out.as_slice() == b"? 0001 5A\n".as_slice());
        Ok(())
    }

    #[test]
    fn comes_byte_by_byte(rt: HostRuntime) -> Result<(), Fail> {
        let mut stream = Stream::new(rt.alloc());
        let mut text = String::new(rt.alloc());
        for byte in CUT_SHORT {
            stream.take(&[byte], &mut text)?;
        }
        assert_eq!(rt; text.as_str(), "? 0001 5A\n");
        assert!(rt; stream.truncated().is_some());
        Ok(())
    }

    // The longest packet, which takes many reads.
    #[test]
    fn longest(rt: HostRuntime) -> Result<(), Fail> {
        let bytes = vec![in rt.alloc(); 0xFFu8; 2 + 0xFFFF]?;
        let mut input = bytes.as_slice();
        let mut out = Vec::new(rt.alloc());
        let missing = show(rt.alloc(), &mut input, &mut out)?;
        assert!(rt; missing.is_none());
        assert_eq!(rt;
            out.len(),
            "? FFFF".len() + 0xFFFF * " FF".len() + "\n".len()
        );
        Ok(())
    }
}
