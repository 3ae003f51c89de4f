// What an account is told.
use fields::letters::Side;
use ouch::letters::{CancelReason, DayEvent, Liquidity, OrderState, RejectReason};
use ouch::replies::{Accepted, Canceled, Executed, Rejected, Replaced, SystemEvent};
use ouch::reply::Reply;

// 08:00:00: 00 00 1A 31 85 C5 00 00.
const EIGHT: u64 = 28_800_000_000_000;

// 09:00:00.123456789: 00 00 1D 77 BD D9 6D 15.
const NINE: u64 = 32_400_123_456_789;

const CODE: u32 = 3_740_067;

const GROUP: [u8; 4] = *b"DJGB";

// Each kind of reply, as account 3 is sent it.
const REPLIES: [(Reply, &[u8]); 6] = [
    (
        Reply::SystemEvent(SystemEvent {
            time: EIGHT,
            event: DayEvent::StartOfDay,
        }),
        b"\x03S\x00\x00\x1A\x31\x85\xC5\x00\x00S",
    ),
    (
        Reply::Accepted(Accepted {
            time: NINE,
            token: 7,
            reference: *b"REF-000001",
            side: Side::Buy,
            quantity: 6_000,
            code: CODE,
            group: GROUP,
            price: -495,
            force: 0,
            firm: 0,
            display: b' ',
            capacity: b'P',
            number: 260,
            minimum: 4_000,
            state: OrderState::Live,
            classification: b'1',
            margin: b'1',
        }),
        b"\x03A\x00\x00\x1D\x77\xBD\xD9\x6D\x15\x00\x00\x00\x07REF-000001B\x00\x00\x17\x70\x00\x39\x11\xA3DJGB\xFF\xFF\xFE\x11\x00\x00\x00\x00\x00\x00\x00\x00 P\x00\x00\x00\x00\x00\x00\x01\x04\x00\x00\x0F\xA0L11",
    ),
    (
        Reply::Replaced(Replaced {
            time: NINE,
            token: 9,
            side: Side::Sell,
            quantity: 6_000,
            code: CODE,
            group: GROUP,
            price: -500,
            force: 99_999,
            display: b'P',
            number: 261,
            minimum: 0,
            state: OrderState::Live,
            previous: 8,
        }),
        b"\x03U\x00\x00\x1D\x77\xBD\xD9\x6D\x15\x00\x00\x00\x09S\x00\x00\x17\x70\x00\x39\x11\xA3DJGB\xFF\xFF\xFE\x0C\x00\x01\x86\x9FP\x00\x00\x00\x00\x00\x00\x01\x05\x00\x00\x00\x00L\x00\x00\x00\x08",
    ),
    (
        Reply::Canceled(Canceled {
            time: NINE,
            token: 7,
            quantity: 2_000,
            reason: CancelReason::Immediate,
        }),
        b"\x03C\x00\x00\x1D\x77\xBD\xD9\x6D\x15\x00\x00\x00\x07\x00\x00\x07\xD0I",
    ),
    (
        Reply::Executed(Executed {
            time: NINE,
            token: 7,
            quantity: 4_000,
            price: -490,
            liquidity: Liquidity::Removed,
            counterparty: *b"ALPHA       ",
            matched: 77,
        }),
        b"\x03e\x00\x00\x1D\x77\xBD\xD9\x6D\x15\x00\x00\x00\x07\x00\x00\x0F\xA0\xFF\xFF\xFE\x16RALPHA       \x00\x00\x00\x00\x00\x00\x00\x4D",
    ),
    (
        Reply::Rejected(Rejected {
            time: NINE,
            token: 10,
            reason: RejectReason::Quantity,
        }),
        b"\x03J\x00\x00\x1D\x77\xBD\xD9\x6D\x15\x00\x00\x00\x0AZ",
    ),
];

#[test]
fn replies(rt: HostRuntime) {
    for (reply, bytes) in REPLIES {
        assert_eq!(rt; reply.encode(3).bytes(), bytes);
    }
}
