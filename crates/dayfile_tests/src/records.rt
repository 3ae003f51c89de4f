// Records and faults by their bytes.
use dayfile::command::{Command, wanted};
use dayfile::packet::fault_packet;
use ouch::inbound::MessageFault;
use rules::fault::{Fault, FileFault};

const BEGIN: [u8; 11] = [4, 0, 8, 0, 0, 0, 0, 0, 0, 1, 2];

// The number of the fault, 0 where there is none, so that a table holds numbers alone.
fn number(bytes: &[u8]) -> u8 {
    match Command::read(bytes) {
        Ok(_) => 0,
        Err(fault) => u8::from(fault),
    }
}

#[test]
fn names_what_is_wrong(rt: HostRuntime) {
    let cases: [(&[u8], u8); 9] = [
        (&[], 2),
        (&[0], 1),
        (&[5, 0, 9], 1),
        (&[4], 2),
        (&[4, 0], 2),
        (&[4, 0, 9], 1),
        (&[4, 1, 8, 0, 0, 0, 0, 0, 0, 1, 2], 1),
        (&BEGIN[0..10], 2),
        (&BEGIN, 0),
    ];
    for (bytes, fault) in cases {
        assert_eq!(rt; number(bytes), fault);
    }
}

#[test]
fn wants_the_whole_record(rt: HostRuntime) {
    let cases: [(&[u8], usize); 8] = [
        (&[], 1),
        (&[11], 1),
        (&[1], 3),
        (&[4, 0, 9], 3),
        (&[1, 0, 12], 15),
        (&[2, 0, 37], 40),
        (&[3, 0, 12], 15),
        (&BEGIN, 11),
    ];
    for (bytes, length) in cases {
        assert_eq!(rt; wanted(bytes), length);
    }
}

#[test]
fn says_the_fault(rt: HostRuntime) {
    let phase = FileFault::Engine(Fault::Phase);
    assert_eq!(rt;
        fault_packet(phase, 11).bytes(),
        b"\x00\x0c+engine 9 11".as_slice()
    );
    let empty = FileFault::Engine(Fault::Message(MessageFault::Empty));
    assert_eq!(rt;
        fault_packet(empty, 1000).bytes(),
        b"\x00\x0f+message 3 1012".as_slice()
    );
    assert_eq!(rt;
        fault_packet(FileFault::Truncated, 0).bytes(),
        b"\x00\x09+file 2 0".as_slice()
    );
}
