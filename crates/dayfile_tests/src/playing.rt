// Whole days on an engine over a row and two Soup lines.
use dayfile::playing::play_record;
use engine::engine::Engine;
use engine::make::check_parts;
use line::soup::Soup;
use rules::fault::FileFault;
use std::test::Fail;
use store::record::NO_RECORD;
use store::row::Row;

// Begin at midnight.
const BEGIN: [u8; 11] = [4, 0, 8, 0, 0, 0, 0, 0, 0, 0, 0];

// The second 0, and the start of messages.
const TOLD: [u8; 21] = [
    0, 6, 83, 84, 0, 0, 0, 0, 0, 11, 83, 83, 0, 0, 0, 0, 32, 32, 32, 32, 79,
];

#[test]
fn a_day_with_nothing_loaded(rt: HostRuntime) -> Result<(), Fail> {
    let heap = rt.alloc();
    let store = Row::over(vec![in heap; NO_RECORD; 1]?);
    let feed = Soup::new(vec![in heap; 0u8; 166]?, 0);
    let replies = Soup::new(vec![in heap; 0u8; 83]?, 0);
    assert!(rt; check_parts(&store, &feed, &replies, 1, 1).is_ok());
    let mut host = Engine::new(store, feed, replies, 1, 1);
    let mut out = [7u8; 22];
    assert!(rt; matches!(play_record(&mut host, &BEGIN, &mut out), Ok((21, 0))));
    assert_eq!(rt; &out[0..21], TOLD.as_slice());
    assert!(rt; out[21] == 7);
    let again = play_record(&mut host, &BEGIN, &mut out);
    assert!(rt; matches!(again, Err(FileFault::Engine(_))));
    Ok(())
}
