// The messages of the feed against bytes that were written by hand.
#![tactic(auto)]

#[cfg(test)]
mod tests {
    use fields::letters::{BookState, Event};
    use itch::feed::FeedMessage;
    use itch::mark::Mark;
    use itch::messages::{
        Directory, EndOfSnapshot, OrderAdded, OrderDeleted, OrderExecuted, OrderReplaced, Seconds,
        SystemEvent, TickSize, TradingState,
    };
    use std::test::Fail;

    // A quarter of a second, in nanoseconds: 0E E6 B2 80.
    const QUARTER: u32 = 250_000_000;

    const CODE: u32 = 350;

    const GROUP: [u8; 4] = *b"DJGB";

    // Each kind of message; an event and an added order also as they speak of the whole system and of a reference yield.
    const MESSAGES: [(FeedMessage, &[u8]); 12] = [
        (
            FeedMessage::Seconds(Seconds { seconds: 28_800 }),
            b"T\x00\x00\x70\x80",
        ),
        (
            FeedMessage::Event(SystemEvent {
                nanos: 0,
                group: *b"    ",
                event: Event::StartOfMessages,
            }),
            b"S\x00\x00\x00\x00    O",
        ),
        (
            FeedMessage::Event(SystemEvent {
                nanos: QUARTER,
                group: GROUP,
                event: Event::StartOfMarketHours,
            }),
            b"S\x0E\xE6\xB2\x80DJGBQ",
        ),
        (
            FeedMessage::Tick(TickSize {
                nanos: QUARTER,
                table: 1,
                size: 5,
                start: -500,
            }),
            b"L\x0E\xE6\xB2\x80\x00\x00\x00\x01\x00\x00\x00\x05\xFF\xFF\xFE\x0C",
        ),
        (
            FeedMessage::Directory(Directory {
                nanos: QUARTER,
                code: CODE,
                isin: *b"JP1103500001",
                group: GROUP,
                lot: 2_000,
                table: 1,
                decimals: 3,
                upper: 1_250,
                lower: -500,
            }),
            b"R\x0E\xE6\xB2\x80\x00\x00\x01\x5EJP1103500001DJGB\x00\x00\x07\xD0\x00\x00\x00\x01\x00\x00\x00\x03\x00\x00\x04\xE2\xFF\xFF\xFE\x0C",
        ),
        (
            FeedMessage::State(TradingState {
                nanos: QUARTER,
                code: CODE,
                group: GROUP,
                state: BookState::Suspended,
            }),
            b"H\x0E\xE6\xB2\x80\x00\x00\x01\x5EDJGBV",
        ),
        (
            FeedMessage::Added(OrderAdded {
                nanos: QUARTER,
                number: 0,
                mark: Mark::Blank,
                quantity: 0,
                code: CODE,
                group: GROUP,
                price: 0x7FFF_FFFF,
            }),
            b"A\x0E\xE6\xB2\x80\x00\x00\x00\x00\x00\x00\x00\x00 \x00\x00\x00\x00\x00\x00\x01\x5EDJGB\x7F\xFF\xFF\xFF",
        ),
        (
            FeedMessage::Added(OrderAdded {
                nanos: QUARTER,
                number: 7,
                mark: Mark::Sell,
                quantity: 6_000,
                code: CODE,
                group: GROUP,
                price: 745,
            }),
            b"A\x0E\xE6\xB2\x80\x00\x00\x00\x00\x00\x00\x00\x07S\x00\x00\x17\x70\x00\x00\x01\x5EDJGB\x00\x00\x02\xE9",
        ),
        (
            FeedMessage::Executed(OrderExecuted {
                nanos: QUARTER,
                number: 7,
                quantity: 4_000,
                matched: 3,
            }),
            b"E\x0E\xE6\xB2\x80\x00\x00\x00\x00\x00\x00\x00\x07\x00\x00\x0F\xA0\x00\x00\x00\x00\x00\x00\x00\x03",
        ),
        (
            FeedMessage::Deleted(OrderDeleted {
                nanos: QUARTER,
                number: 7,
            }),
            b"D\x0E\xE6\xB2\x80\x00\x00\x00\x00\x00\x00\x00\x07",
        ),
        (
            FeedMessage::Replaced(OrderReplaced {
                nanos: QUARTER,
                original: 7,
                number: 9,
                quantity: 2_000,
                price: -12,
            }),
            b"U\x0E\xE6\xB2\x80\x00\x00\x00\x00\x00\x00\x00\x07\x00\x00\x00\x00\x00\x00\x00\x09\x00\x00\x07\xD0\xFF\xFF\xFF\xF4",
        ),
        (
            FeedMessage::EndOfSnapshot(EndOfSnapshot { sequence: 42 }),
            b"G\x00\x00\x00\x00\x00\x00\x00\x2A",
        ),
    ];

    // Bytes that are no message: none, an unknown letter, a byte too few or too many, a letter inside that stands for nothing.
    const STRANGE: [&[u8]; 9] = [
        b"",
        b"t\x00\x00\x70\x80",
        b"T\x00\x00\x70",
        b"T\x00\x00\x70\x80\x00",
        b"D\x00\x00\x70\x80",
        b"S\x00\x00\x00\x00    o",
        b"S\x00\x00\x00\x00DJGBX",
        b"H\x0E\xE6\xB2\x80\x00\x00\x01\x5EDJGBH",
        b"A\x0E\xE6\xB2\x80\x00\x00\x00\x00\x00\x00\x00\x07X\x00\x00\x17\x70\x00\x00\x01\x5EDJGB\x00\x00\x02\xE9",
    ];

    // A message is written as its bytes; what is read of them is written as they are, and of one fewer nothing is read.
    #[test]
    fn messages(rt: HostRuntime) -> Result<(), Fail> {
        for (message, bytes) in MESSAGES {
            assert_eq!(rt; message.encode().bytes(), bytes);
            let read = FeedMessage::decode(bytes).ok_or("no message")?;
            assert_eq!(rt; read.encode().bytes(), bytes);
            let (_, cut) = bytes.split_last().ok_or("no byte")?;
            assert!(rt; FeedMessage::decode(cut).is_none());
        }
        Ok(())
    }

    #[test]
    fn strange_bytes(rt: HostRuntime) {
        for bytes in STRANGE {
            assert!(rt; FeedMessage::decode(bytes).is_none());
        }
    }
}
