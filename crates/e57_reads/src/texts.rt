//! Single cases of columns of strings: what is asked for, what is told of a string that doesn't fit, and what stops a read.

use crate::fields::FIELD;
use crate::made::{NODE, add_packet, opened_section};
use crate::reader::{Reader, STAY, Shape};
use e57_base::{Fault, Kind, ReadFault};
use e57_column::{Stopped, TextsRead};
use std::alloc::{AllocError, Global};
use std::test::Fail;

// The column of strings of a section with these packets, which begin at place 80, or on page 1 if `gap` is 940. Behind them
// stands an index of these entries, if there are some.
fn opened(
    alloc: Global,
    gap: u16,
    packets: &[u8],
    entries: &[(u64, u64)],
    count: u64,
) -> Result<Reader, Fail> {
    let pages = opened_section(alloc, gap, packets, entries)?;
    let shape = Shape {
        count,
        fields: 1,
        field: 0,
        float: None,
    };
    Reader::texts(alloc, pages, shape)
}

// The column of the strings in one packet.
fn of_packet(alloc: Global, gap: u16, stream: &[u8], count: u64) -> Result<Reader, Fail> {
    let mut packets = b"".to_vec(alloc)?;
    add_packet(&mut packets, true, &[stream])?;
    opened(alloc, gap, &packets, &[], count)
}

// The column of the strings in two chunks: two records in the first one, at 80, and those in the second one, at 96.
fn of_chunks(alloc: Global, second: &[u8], count: u64) -> Result<Reader, Fail> {
    let mut packets = b"".to_vec(alloc)?;
    add_packet(&mut packets, true, &[b"\x06abc\0"])?;
    add_packet(&mut packets, true, &[second])?;
    opened(alloc, 0, &packets, &[(0, 80), (2, 96)], count)
}

// A step of a column: the record to go to; for how many bytes, eight at most, and for how many strings, four at most, there is
// room in a read then; the strings that are read, one behind the other; where they end; the length of the next one if it is
// told, or the fault that stops the step; and up to where packets are taken afterwards.
type Step = (
    u64,
    (usize, usize),
    &'static [u8],
    &'static [u64],
    Result<Option<u64>, ReadFault>,
    u64,
);

// The number of the first step that ends otherwise.
fn first_other(reader: &mut Reader, steps: &[Step]) -> Option<usize> {
    for (k, step) in steps.iter().enumerate() {
        if !ends_so(reader, step) {
            return Some(k);
        }
    }
    None
}

fn ends_so(reader: &mut Reader, step: &Step) -> bool {
    let (i, (room, places), text, text_ends, outcome, taken) = *step;
    let mut bytes = [0; 8];
    let mut ends = [UNTOUCHED; 4];
    let answer = match reader.go(i) {
        Ok(()) => reader.strings(&mut bytes[..room.min(8)], &mut ends[..places.min(4)]),
        Err(stopped) => Err(stopped),
    };
    bytes.starts_with(text)
        && are_ends(&ends, text_ends)
        && reader.taken() == taken
        && is_answer(reader, i, answer, text_ends.len(), outcome)
}

// Whether the answer is this count and this length, and the column stands so many records behind record `i`; or it is the
// fault, and the column isn't placed.
fn is_answer(
    reader: &Reader,
    i: u64,
    answer: Result<TextsRead, Stopped>,
    count: usize,
    outcome: Result<Option<u64>, ReadFault>,
) -> bool {
    match outcome {
        Ok(need) => answer == Ok(TextsRead { count, need }) && reader.stands_behind(i, count),
        Err(fault) => answer == Err(Stopped { done: count, fault }) && !reader.is_placed(),
    }
}

// What a buffer of ends holds before a read.
const UNTOUCHED: u64 = 999;

// Whether these ends stand at the front of a buffer, and the places behind them are as they were.
fn are_ends(ends: &[u64], wanted: &[u64]) -> bool {
    for (k, end) in ends.iter().enumerate() {
        if *end != *wanted.get(k).unwrap_or(&UNTOUCHED) {
            return false;
        }
    }
    true
}

fn refused(kind: Kind, a: u64, b: u64) -> Result<Option<u64>, ReadFault> {
    Err(ReadFault::Refused(Fault { kind, a, b }))
}

#[test]
fn nothing_is_asked_for_without_a_place_or_a_record(rt: HostRuntime) -> Result<(), Fail> {
    let mut reader = of_packet(rt.alloc(), 940, b"\x06abc\x02q", 2)?;
    let steps: [Step; 4] = [
        (0, (8, 0), b"", &[], Ok(None), 1020),
        (0, (0, 0), b"", &[], Ok(None), 1020),
        (2, (8, 4), b"", &[], Ok(None), 1020),
        (STAY, (0, 4), b"", &[], Ok(None), 1020),
    ];
    assert_eq!(rt; first_other(&mut reader, &steps), None);
    assert_eq!(rt; reader.into_source().asked(), [0].as_slice());
    let mut reader = of_packet(rt.alloc(), 940, b"\x06abc\x02q", 2)?;
    let steps: [Step; 2] = [
        (0, (0, 4), b"", &[], Ok(Some(3)), 1036),
        (STAY, (8, 0), b"", &[], Ok(None), 1036),
    ];
    assert_eq!(rt; first_other(&mut reader, &steps), None);
    assert_eq!(rt; reader.into_source().asked(), [0, 1].as_slice());
    Ok(())
}

#[test]
fn full_buffer_takes_empty_strings(rt: HostRuntime) -> Result<(), Fail> {
    let mut reader = of_packet(rt.alloc(), 0, b"\x06abc\0\0\x02q", 4)?;
    let steps: [Step; 5] = [
        (0, (3, 4), b"abc", &[3, 3, 3], Ok(None), 96),
        (STAY, (0, 4), b"", &[], Ok(Some(1)), 96),
        (STAY, (1, 1), b"q", &[1], Ok(None), 96),
        (1, (0, 4), b"", &[0, 0], Ok(None), 96),
        (0, (3, 2), b"abc", &[3, 3], Ok(None), 96),
    ];
    assert_eq!(rt; first_other(&mut reader, &steps), None);
    Ok(())
}

// The second chunk has "q" and "xyz". What is told of "q" is read there, and the column stands there.
#[test]
fn length_of_the_next_string_over_the_end_of_a_chunk(rt: HostRuntime) -> Result<(), Fail> {
    let mut reader = of_chunks(rt.alloc(), b"\x02q\x06xyz", 4)?;
    let steps: [Step; 7] = [
        (0, (3, 2), b"abc", &[3, 3], Ok(None), 96),
        (STAY, (0, 4), b"", &[], Ok(Some(1)), 112),
        (STAY, (8, 4), b"qxyz", &[1, 4], Ok(None), 112),
        (0, (3, 4), b"abc", &[3, 3], Ok(None), 112),
        (2, (2, 4), b"q", &[1], Ok(None), 112),
        (STAY, (2, 4), b"", &[], Ok(Some(3)), 112),
        (0, (8, 4), b"abcqxyz", &[3, 3, 4, 7], Ok(None), 112),
    ];
    assert_eq!(rt; first_other(&mut reader, &steps), None);
    Ok(())
}

// The second chunk has an empty string, record 2, and then the fault, whatever record behind it is sought.
#[test]
fn skipped_string_with_a_fault_in_a_later_chunk(rt: HostRuntime) -> Result<(), Fail> {
    let short = refused(Kind::StreamShort, 3, FIELD as u64);
    let limit = refused(Kind::StringLimit, 3, FIELD as u64);
    for (stream, fault, end) in [
        (b"\0\x06a".as_slice(), short, 156),
        (b"\0".as_slice(), short, 156),
        (b"\0\x03\0\0\x02\0\0\0\0".as_slice(), limit, 116),
    ] {
        let mut reader = of_chunks(rt.alloc(), stream, 6)?;
        let steps: [Step; 5] = [
            (4, (8, 4), b"", &[], fault, end),
            (5, (8, 4), b"", &[], fault, end),
            (3, (8, 4), b"", &[], fault, end),
            (2, (8, 4), b"", &[0], fault, end),
            (1, (8, 4), b"", &[0, 0], fault, end),
        ];
        assert_eq!(rt; first_other(&mut reader, &steps), None);
    }
    Ok(())
}

// A packet with a string and the first byte of another one, and then a faulty packet at 96. It is met by the second string's
// bytes alone.
#[test]
fn faulty_packet_is_not_met_until_a_string_needs_it(rt: HostRuntime) -> Result<(), Fail> {
    let faulty = refused(Kind::PacketType, NODE as u64, 96);
    let mut packets = b"".to_vec(rt.alloc())?;
    add_packet(&mut packets, true, &[b"\x06abc\x06d"])?;
    packets.extend_from_slice(b"\x03\0\x03\0")?;
    let mut reader = opened(rt.alloc(), 0, &packets, &[], 3)?;
    let steps: [Step; 6] = [
        (0, (8, 1), b"abc", &[3], Ok(None), 96),
        (STAY, (2, 1), b"", &[], Ok(Some(3)), 96),
        (STAY, (3, 1), b"", &[], faulty, 96),
        (0, (5, 4), b"abc", &[3], Ok(None), 96),
        (0, (6, 4), b"abc", &[3], faulty, 96),
        (2, (8, 4), b"", &[], faulty, 96),
    ];
    assert_eq!(rt; first_other(&mut reader, &steps), None);
    Ok(())
}

// Room for a string of 2^24 + 1 bytes.
fn room(alloc: Global) -> Result<Vec<u8>, AllocError> {
    vec![in alloc; 0; 16_777_217]
}

// What a read of one string into so many bytes of this room answers, of a stream that is a prefix alone.
fn read_one(
    alloc: Global,
    stream: &[u8],
    room: &mut [u8],
    places: usize,
) -> Result<Result<TextsRead, Stopped>, Fail> {
    let mut reader = of_packet(alloc, 0, stream, 1)?;
    let mut ends = [UNTOUCHED; 1];
    let places = places.min(room.len());
    match reader.go(0) {
        Ok(()) => Ok(reader.strings(&mut room[..places], &mut ends)),
        Err(stopped) => Ok(Err(stopped)),
    }
}

// A string of 2^24 + 1 bytes is refused by its prefix, also where there is room for it. One of 2^24 bytes isn't, and is short
// where there is room for it.
#[test]
fn longest_string(rt: HostRuntime) -> Result<(), Fail> {
    let over = b"\x03\0\0\x02\0\0\0\0".as_slice();
    let most = b"\x01\0\0\x02\0\0\0\0".as_slice();
    let stopped = |kind| {
        Err(Stopped {
            done: 0,
            fault: ReadFault::Refused(Fault {
                kind,
                a: 0,
                b: FIELD as u64,
            }),
        })
    };
    let need = Ok(TextsRead {
        count: 0,
        need: Some(16_777_216),
    });
    let mut room = room(rt.alloc())?;
    for (stream, places, wanted) in [
        (over, 16_777_217, stopped(Kind::StringLimit)),
        (over, 16_777_216, stopped(Kind::StringLimit)),
        (over, 0, stopped(Kind::StringLimit)),
        (most, 16_777_216, stopped(Kind::StreamShort)),
        (most, 16_777_215, need),
    ] {
        let answer = read_one(rt.alloc(), stream, &mut room, places)?;
        assert_eq!(rt; answer, wanted, "{stream:?} into {places} bytes");
    }
    Ok(())
}
