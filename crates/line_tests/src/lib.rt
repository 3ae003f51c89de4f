// A Soup line against packets that were written by hand, and each refusal with what it leaves.
#![tactic(auto)]

#[cfg(test)]
mod tests {
    use line::line::{Line, check_parts};
    use line::refusal::Refusal;
    use line::soup::Soup;
    use std::process::Abort;
    use std::test::Fail;

    // What stands in a caller's bytes before a call.
    const MARK: u8 = 9;

    const SHORTEST: [u8; 1] = [65];

    const LONGEST: [u8; 80] = [66; 80];

    const TOO_LONG: [u8; 81] = [67; 81];

    // The counts waiting, gone and free.
    fn counts(line: &Soup) -> (usize, u64, usize) {
        (line.waiting(), line.gone(), line.free())
    }

    // The filled front is these bytes, and what is past them in the caller's buffer is left.
    fn holds(rt: &impl Abort, line: &Soup, packets: &[u8]) {
        let mut out = [MARK; 100];
        let n = line.copy_out(&mut out);
        assert!(rt; n == packets.len() && n < 100);
        assert_eq!(rt; &out[0..n], packets);
        for b in &out[n..] {
            assert_eq!(rt; *b, MARK);
        }
    }

    // Messages of 0, 1, 80 and 81 bytes at a line of two places: the answer, and the counts after it.
    #[test]
    fn taken(rt: HostRuntime) -> Result<(), Fail> {
        let mut line = Soup::new(vec![in rt.alloc(); 0u8; 248]?, 7);
        let table: [(&[u8], Result<(), Refusal>, (usize, u64, usize)); 6] = [
            (&[], Err(Refusal::BadLength), (0, 7, 2)),
            (&TOO_LONG, Err(Refusal::BadLength), (0, 7, 2)),
            (&SHORTEST, Ok(()), (1, 7, 1)),
            (&LONGEST, Ok(()), (2, 7, 0)),
            (&SHORTEST, Err(Refusal::Full), (2, 7, 0)),
            (&TOO_LONG, Err(Refusal::BadLength), (2, 7, 0)),
        ];
        for (message, answer, after) in table {
            assert_eq!(rt; line.take(message), answer);
            assert_eq!(rt; counts(&line), after);
        }
        holds(
            &rt,
            &line,
            b"\x00\x02SA\x00\x51SBBBBBBBBBBBBBBBBBBBBBBBBBBBBBBBBBBBBBBBBBBBBBBBBBBBBBBBBBBBBBBBBBBBBBBBBBBBBBBBB",
        );
        Ok(())
    }

    // What was collected is gone, and its places take messages again, from the front of the buffer.
    #[test]
    fn collected(rt: HostRuntime) -> Result<(), Fail> {
        let mut line = Soup::new(vec![in rt.alloc(); 0u8; 166]?, 7);
        assert_eq!(rt; line.take(b"one"), Ok(()));
        assert_eq!(rt; line.take(b"two"), Ok(()));
        assert_eq!(rt; line.collect(), Ok(()));
        assert_eq!(rt; counts(&line), (0, 9, 2));
        holds(&rt, &line, b"");
        assert_eq!(rt; line.take(b"3"), Ok(()));
        assert_eq!(rt; counts(&line), (1, 9, 1));
        holds(&rt, &line, b"\x00\x02S3");
        Ok(())
    }

    // A line that would pass 2^63 messages gone collects nothing.
    #[test]
    fn too_many_gone(rt: HostRuntime) -> Result<(), Fail> {
        let most = 0x8000_0000_0000_0000;
        assert_eq!(rt; check_parts(most + 1), Err(Refusal::Parts));
        assert_eq!(rt; check_parts(most), Ok(()));
        let mut line = Soup::new(vec![in rt.alloc(); 0u8; 83]?, most);
        assert_eq!(rt; line.collect(), Ok(()));
        assert_eq!(rt; line.take(b"one"), Ok(()));
        assert_eq!(rt; line.collect(), Err(Refusal::TooManyGone));
        assert_eq!(rt; counts(&line), (1, most, 0));
        holds(&rt, &line, b"\x00\x04Sone");
        Ok(())
    }

    // A message is read into the front of the caller's bytes; where there is none, they stay.
    #[test]
    fn reading(rt: HostRuntime) -> Result<(), Fail> {
        let mut line = Soup::new(vec![in rt.alloc(); 0u8; 249]?, 0);
        assert_eq!(rt; line.take(b"one"), Ok(()));
        assert_eq!(rt; line.take(b"four"), Ok(()));
        let mut bytes = [MARK; 80];
        assert_eq!(rt; line.read(2, &mut bytes), Err(Refusal::NoMessage));
        assert_eq!(rt; bytes, [MARK; 80]);
        assert_eq!(rt; line.read(1, &mut bytes), Ok(4));
        assert_eq!(rt; &bytes[0..6], b"four\x09\x09".as_slice());
        assert_eq!(rt; line.read(0, &mut bytes), Ok(3));
        assert_eq!(rt; &bytes[0..6], b"oner\x09\x09".as_slice());
        assert_eq!(rt; counts(&line), (2, 0, 1));
        Ok(())
    }

    // A shorter buffer gets what it has room for; the answer is the whole length all the same.
    #[test]
    fn short_buffer(rt: HostRuntime) -> Result<(), Fail> {
        let mut line = Soup::new(vec![in rt.alloc(); 0u8; 83]?, 0);
        assert_eq!(rt; line.take(b"one"), Ok(()));
        let mut short = [MARK; 4];
        assert_eq!(rt; line.copy_out(&mut short), 6);
        assert_eq!(rt; &short, b"\x00\x04So");
        assert_eq!(rt; line.copy_out(&mut []), 6);
        Ok(())
    }

    // A buffer has a place for each whole share of 83 bytes, up to 65,535.
    #[test]
    fn places(rt: HostRuntime) {
        assert_eq!(rt; <Soup as Line>::SHARE, 83);
        let table = [
            (0, 0),
            (82, 0),
            (83, 1),
            (165, 1),
            (166, 2),
            (5_439_404, 65_534),
            (5_439_405, 65_535),
            (6_000_000, 65_535),
        ];
        for (bytes, places) in table {
            assert_eq!(rt; <Soup as Line>::places(bytes), places);
        }
    }

    // A buffer that is one byte short of a share has no place.
    #[test]
    fn no_places(rt: HostRuntime) -> Result<(), Fail> {
        let mut line = Soup::new(vec![in rt.alloc(); 0u8; 82]?, 7);
        assert_eq!(rt; line.take(&SHORTEST), Err(Refusal::Full));
        assert_eq!(rt; line.collect(), Ok(()));
        assert_eq!(rt; counts(&line), (0, 7, 0));
        holds(&rt, &line, b"");
        Ok(())
    }

    #[test]
    fn numbers(rt: HostRuntime) {
        let table = [
            (Refusal::Parts, 16),
            (Refusal::BadLength, 17),
            (Refusal::Full, 18),
            (Refusal::TooManyGone, 19),
            (Refusal::NoMessage, 20),
        ];
        for (refusal, number) in table {
            assert_eq!(rt; u8::from(refusal), number);
        }
    }
}
