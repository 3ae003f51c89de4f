// What an account asks.
use ouch::inbound::{Cancel, Enter, Inbound, Replace};
use std::test::Fail;

// Each message as an account would send it, and then with each byte telling its own place, whatever its letters stand for.
const MESSAGES: [(&[u8], Inbound<'static>); 6] = [
    (
        b"O\x00\x00\x00\x07REF-000001B\x00\x00\x17\x70\x00\x39\x11\xA3DJGB\xFF\xFF\xFE\x11\x00\x00\x00\x00\x00\x00\x00\x00 P\x00\x00\x0F\xA011",
        Inbound::Enter(Enter {
            token: 7,
            reference: b"REF-000001",
            side: b'B',
            quantity: 6_000,
            code: 3_740_067,
            group: *b"DJGB",
            price: -495,
            force: 0,
            firm: 0,
            display: b' ',
            capacity: b'P',
            minimum: 4_000,
            classification: b'1',
            margin: b'1',
        }),
    ),
    (
        b"O\x01\x02\x03\x04\x05\x06\x07\x08\x09\x0A\x0B\x0C\x0D\x0E\x0F\x10\x11\x12\x13\x14\x15\x16\x17\x18\x19\x1A\x1B\x1C\x1D\x1E\x1F\x20\x21\x22\x23\x24\x25\x26\x27\x28\x29\x2A\x2B\x2C\x2D\x2E\x2F",
        Inbound::Enter(Enter {
            token: 0x0102_0304,
            reference: b"\x05\x06\x07\x08\x09\x0A\x0B\x0C\x0D\x0E",
            side: 0x0F,
            quantity: 0x1011_1213,
            code: 0x1415_1617,
            group: *b"\x18\x19\x1A\x1B",
            price: 0x1C1D_1E1F,
            force: 0x2021_2223,
            firm: 0x2425_2627,
            display: 0x28,
            capacity: 0x29,
            minimum: 0x2A2B_2C2D,
            classification: 0x2E,
            margin: 0x2F,
        }),
    ),
    (
        b"U\x00\x00\x00\x08\x00\x00\x00\x09\x00\x00\x27\x10\xFF\xFF\xFE\x0C\x00\x01\x86\x9FP\x00\x00\x00\x00",
        Inbound::Replace(Replace {
            existing: 8,
            replacement: 9,
            quantity: 10_000,
            price: -500,
            force: 99_999,
            display: b'P',
            minimum: 0,
        }),
    ),
    (
        b"U\x01\x02\x03\x04\x05\x06\x07\x08\x09\x0A\x0B\x0C\x0D\x0E\x0F\x10\x11\x12\x13\x14\x15\x16\x17\x18\x19",
        Inbound::Replace(Replace {
            existing: 0x0102_0304,
            replacement: 0x0506_0708,
            quantity: 0x090A_0B0C,
            price: 0x0D0E_0F10,
            force: 0x1112_1314,
            display: 0x15,
            minimum: 0x1617_1819,
        }),
    ),
    (
        b"X\x00\x00\x00\x09\x00\x00\x00\x00",
        Inbound::Cancel(Cancel {
            token: 9,
            quantity: 0,
        }),
    ),
    (
        b"X\x01\x02\x03\x04\x05\x06\x07\x08",
        Inbound::Cancel(Cancel {
            token: 0x0102_0304,
            quantity: 0x0506_0708,
        }),
    ),
];

// Bytes that are refused, and by which number: none; a letter that is not O, U or X, whatever the length; a byte too few, a byte
// too many, the length of another message.
const REFUSED: [(&[u8], u8); 15] = [
    (b"", 3),
    (b"A", 4),
    (b"o", 4),
    (b"\x00\x00\x00\x00\x09\x00\x00\x00\x00", 4),
    (b"x\x00\x00\x00\x09\x00\x00\x00\x00", 4),
    (
        b"u\x00\x00\x00\x08\x00\x00\x00\x09\x00\x00\x27\x10\xFF\xFF\xFE\x0C\x00\x01\x86\x9FP\x00\x00\x00\x00",
        4,
    ),
    (b"O", 5),
    (
        b"O\x00\x00\x00\x07REF-000001B\x00\x00\x17\x70\x00\x39\x11\xA3DJGB\xFF\xFF\xFE\x11\x00\x00\x00\x00\x00\x00\x00\x00 P\x00\x00\x0F\xA01",
        5,
    ),
    (
        b"O\x00\x00\x00\x07REF-000001B\x00\x00\x17\x70\x00\x39\x11\xA3DJGB\xFF\xFF\xFE\x11\x00\x00\x00\x00\x00\x00\x00\x00 P\x00\x00\x0F\xA0111",
        5,
    ),
    (
        b"O\x00\x00\x00\x08\x00\x00\x00\x09\x00\x00\x27\x10\xFF\xFF\xFE\x0C\x00\x01\x86\x9FP\x00\x00\x00\x00",
        5,
    ),
    (
        b"U\x00\x00\x00\x08\x00\x00\x00\x09\x00\x00\x27\x10\xFF\xFF\xFE\x0C\x00\x01\x86\x9FP\x00\x00\x00",
        5,
    ),
    (
        b"U\x00\x00\x00\x08\x00\x00\x00\x09\x00\x00\x27\x10\xFF\xFF\xFE\x0C\x00\x01\x86\x9FP\x00\x00\x00\x00\x00",
        5,
    ),
    (b"U\x00\x00\x00\x09\x00\x00\x00\x00", 5),
    (b"X\x00\x00\x00\x09\x00\x00\x00", 5),
    (b"X\x00\x00\x00\x09\x00\x00\x00\x00\x00", 5),
];

#[test]
fn messages(rt: HostRuntime) {
    for (bytes, message) in MESSAGES {
        assert!(rt; Inbound::read(bytes) == Ok(message));
    }
}

#[test]
fn refusals(rt: HostRuntime) -> Result<(), Fail> {
    for (bytes, number) in REFUSED {
        let fault = Inbound::read(bytes).err().ok_or("not refused")?;
        assert_eq!(rt; u8::from(fault), number);
    }
    Ok(())
}
