//! Single cases of columns of integers: where a column stands, which packets it takes, and what stops it.

use crate::fields::FIELD;
use crate::made::{NODE, add_packet, opened_section};
use crate::reader::{Reader, STAY, Shape};
use e57_base::{Fault, Kind, ReadFault};
use e57_column::Stopped;
use std::alloc::Global;
use std::test::Fail;

// A field of whole bytes, alone in its record.
fn alone(count: u64) -> Shape {
    Shape {
        count,
        fields: 1,
        field: 0,
        float: None,
    }
}

// The second of two fields, of which the first is the first Float field or isn't told.
fn beside(count: u64, float: Option<u16>) -> Shape {
    Shape {
        count,
        fields: 2,
        field: 1,
        float,
    }
}

// No index.
const NONE: &[(u64, u64)] = &[];

// The column of bytes of a section with these packets, which begin at place 80, or on page 1 if `gap` is 940. Behind them
// stands an index of these entries, if there are some.
fn opened(
    alloc: Global,
    gap: u16,
    packets: &[u8],
    entries: &[(u64, u64)],
    shape: Shape,
) -> Result<Reader, Fail> {
    let pages = opened_section(alloc, gap, packets, entries)?;
    Reader::numbers(alloc, pages, shape, -100, 155, 8)
}

// A step of a column: the record to go to; into how many places is read then, eight at most; the bytes that are read; the fault
// that stops the step; and up to where packets are taken afterwards.
type Step = (u64, usize, &'static [u8], Option<ReadFault>, u64);

// The number of the first step that ends otherwise.
fn first_other(reader: &mut Reader, steps: &[Step]) -> Option<usize> {
    for (k, step) in steps.iter().enumerate() {
        if !ends_so(reader, step) {
            return Some(k);
        }
    }
    None
}

fn ends_so(reader: &mut Reader, step: &Step) -> bool {
    let (i, places, bytes, fault, taken) = *step;
    let mut out = [UNTOUCHED; 8];
    let answer = match reader.go(i) {
        Ok(()) => reader.ints(&mut out[..places.min(8)]),
        Err(stopped) => Err(stopped),
    };
    are_bytes(&out, bytes)
        && reader.taken() == taken
        && is_answer(reader, i, answer, bytes.len(), fault)
}

// Whether the answer is this count, and the column stands so many records behind record `i`; or it is the fault, and the column
// isn't placed.
fn is_answer(
    reader: &Reader,
    i: u64,
    answer: Result<usize, Stopped>,
    done: usize,
    fault: Option<ReadFault>,
) -> bool {
    match fault {
        None => answer == Ok(done) && reader.stands_behind(i, done),
        Some(fault) => answer == Err(Stopped { done, fault }) && !reader.is_placed(),
    }
}

// What a buffer holds before a read.
const UNTOUCHED: i64 = 999;

// Whether the integers of these bytes stand at the front of a buffer, and the places behind them are as they were.
fn are_bytes(out: &[i64], bytes: &[u8]) -> bool {
    for (k, item) in out.iter().enumerate() {
        let wanted = match bytes.get(k) {
            Some(byte) => *byte as i64 - 100,
            None => UNTOUCHED,
        };
        if *item != wanted {
            return false;
        }
    }
    true
}

fn refused(kind: Kind, a: u64, b: u64) -> Option<ReadFault> {
    Some(ReadFault::Refused(Fault { kind, a, b }))
}

// Three records in a packet on page 1.
fn on_page_one(alloc: Global) -> Result<Reader, Fail> {
    let mut packets = b"".to_vec(alloc)?;
    add_packet(&mut packets, true, &[b"\x01\x02\x03"])?;
    opened(alloc, 940, &packets, NONE, alone(3))
}

#[test]
fn behind_the_last_record_no_page_is_asked_for(rt: HostRuntime) -> Result<(), Fail> {
    let mut reader = on_page_one(rt.alloc())?;
    let steps = [(3, 8, b"".as_slice(), None, 0), (STAY, 8, b"", None, 0)];
    assert_eq!(rt; first_other(&mut reader, &steps), None);
    assert_eq!(rt; reader.into_source().asked(), [0].as_slice());
    let mut reader = on_page_one(rt.alloc())?;
    let steps = [
        (3, 8, b"".as_slice(), None, 0),
        (1, 0, b"", None, 1020),
        (STAY, 8, b"\x02\x03", None, 1032),
        (STAY, 8, b"", None, 1032),
        (3, 8, b"", None, 1032),
    ];
    assert_eq!(rt; first_other(&mut reader, &steps), None);
    assert_eq!(rt; reader.into_source().asked(), [0, 1].as_slice());
    Ok(())
}

// A packet of a type that isn't known.
const FAULTY: &[u8] = b"\x03\0\x03\0";

// Four packets of one record each, at 80, 92, 104 and 116, and a faulty one at 128.
fn bytewise(alloc: Global, count: u64) -> Result<Reader, Fail> {
    let mut packets = b"".to_vec(alloc)?;
    for byte in 1..5u8 {
        add_packet(&mut packets, byte == 1, &[&[byte]])?;
    }
    packets.extend_from_slice(FAULTY)?;
    opened(alloc, 0, &packets, NONE, alone(count))
}

#[test]
fn seek_onward_stays_in_the_chunk_and_seek_back_enters_it_anew(
    rt: HostRuntime,
) -> Result<(), Fail> {
    let mut reader = bytewise(rt.alloc(), 5)?;
    let steps = [
        (0, 0, b"".as_slice(), None, 80),
        (STAY, 1, b"\x01", None, 92),
        (2, 0, b"", None, 92),
        (STAY, 1, b"\x03", None, 116),
        (3, 0, b"", None, 116),
        (STAY, 1, b"\x04", None, 128),
        (3, 0, b"", None, 80),
        (STAY, 1, b"\x04", None, 128),
        (1, 2, b"\x02\x03", None, 116),
        (3, 1, b"\x04", None, 128),
    ];
    assert_eq!(rt; first_other(&mut reader, &steps), None);
    Ok(())
}

#[test]
fn seek_after_a_refusal_enters_the_chunk_anew(rt: HostRuntime) -> Result<(), Fail> {
    let faulty = refused(Kind::PacketType, NODE as u64, 128);
    let mut reader = bytewise(rt.alloc(), 5)?;
    let steps = [
        (2, 8, b"\x03\x04".as_slice(), faulty, 128),
        (4, 0, b"", None, 80),
        (STAY, 8, b"", faulty, 128),
        (3, 1, b"\x04", None, 128),
        (STAY, 1, b"", faulty, 128),
        (0, 4, b"\x01\x02\x03\x04", None, 128),
    ];
    assert_eq!(rt; first_other(&mut reader, &steps), None);
    Ok(())
}

#[test]
fn faulty_packet_is_not_met_until_an_item_needs_it(rt: HostRuntime) -> Result<(), Fail> {
    let faulty = refused(Kind::PacketType, NODE as u64, 128);
    let mut reader = bytewise(rt.alloc(), 4)?;
    let steps = [
        (0, 8, b"\x01\x02\x03\x04".as_slice(), None, 128),
        (STAY, 8, b"", None, 128),
        (4, 8, b"", None, 128),
    ];
    assert_eq!(rt; first_other(&mut reader, &steps), None);
    let mut reader = bytewise(rt.alloc(), 5)?;
    let steps = [
        (0, 4, b"\x01\x02\x03\x04".as_slice(), None, 128),
        (STAY, 0, b"", None, 128),
        (STAY, 1, b"", faulty, 128),
    ];
    assert_eq!(rt; first_other(&mut reader, &steps), None);
    Ok(())
}

// A packet with one item of the Float field and three bytes beside it, and a faulty packet at 100.
fn one_counted(alloc: Global, float: Option<u16>) -> Result<Reader, Fail> {
    let mut packets = b"".to_vec(alloc)?;
    add_packet(&mut packets, true, &[b"\0\0\x80\x3f\0\0", b"\x01\x02\x03"])?;
    packets.extend_from_slice(FAULTY)?;
    opened(alloc, 0, &packets, NONE, beside(3, float))
}

// A record is counted by the Float field before it is read. So a faulty packet is met where that field needs it, also if the
// field's own stream has more items.
#[test]
fn faulty_packet_is_met_where_the_float_field_needs_it(rt: HostRuntime) -> Result<(), Fail> {
    let faulty = refused(Kind::PacketType, NODE as u64, 100);
    let mut counted = one_counted(rt.alloc(), Some(0))?;
    let steps = [
        (0, 1, b"\x01".as_slice(), None, 100),
        (STAY, 8, b"", faulty, 100),
        (1, 8, b"", faulty, 100),
        (0, 8, b"\x01", faulty, 100),
    ];
    assert_eq!(rt; first_other(&mut counted, &steps), None);
    let mut uncounted = one_counted(rt.alloc(), None)?;
    let steps = [(0, 8, b"\x01\x02\x03".as_slice(), None, 100)];
    assert_eq!(rt; first_other(&mut uncounted, &steps), None);
    Ok(())
}

// Two entries of the index name one place, so its stream is that of two chunks.
#[test]
fn two_chunks_at_one_place(rt: HostRuntime) -> Result<(), Fail> {
    let mut packets = b"".to_vec(rt.alloc())?;
    add_packet(&mut packets, true, &[b"\x0a\x0b\x0c"])?;
    let entries = [(0, 80), (1, 80)];
    let mut reader = opened(rt.alloc(), 0, &packets, &entries, alone(4))?;
    let steps = [
        (0, 8, b"\x0a\x0a\x0b\x0c".as_slice(), None, 92),
        (0, 1, b"\x0a", None, 92),
        (1, 0, b"", None, 80),
        (STAY, 1, b"\x0a", None, 92),
        (STAY, 1, b"\x0b", None, 92),
        (0, 0, b"", None, 80),
        (3, 1, b"\x0c", None, 92),
    ];
    assert_eq!(rt; first_other(&mut reader, &steps), None);
    Ok(())
}

// Two items of a Float field, cut into two packets, and two bytes beside them in the first one, which has `at` bytes of the
// Float field.
fn cut_at(alloc: Global, at: usize) -> Result<Reader, Fail> {
    let (first, second) = b"\0\0\x80\x3f\0\0\0\x40".split_at(at.min(8));
    let mut packets = b"".to_vec(alloc)?;
    add_packet(&mut packets, true, &[first, b"\x05\x06"])?;
    add_packet(&mut packets, false, &[second, b""])?;
    opened(alloc, 0, &packets, NONE, beside(2, Some(0)))
}

// The second read goes on in the chunk: no packet is taken back, and none beyond the first one.
#[test]
fn float_field_in_two_packets(rt: HostRuntime) -> Result<(), Fail> {
    for (at, end) in [
        (0, 92),
        (1, 96),
        (2, 96),
        (3, 96),
        (4, 96),
        (5, 100),
        (6, 100),
        (7, 100),
        (8, 100),
    ] {
        let mut reader = cut_at(rt.alloc(), at)?;
        let steps = [
            (0, 1, b"\x05".as_slice(), None, end),
            (STAY, 1, b"\x06", None, end),
            (1, 1, b"\x06", None, end),
        ];
        assert_eq!(rt; first_other(&mut reader, &steps), None, "cut at {at}");
    }
    Ok(())
}

// Two chunks, of two records and of one. Of the bytes beside the Float field one is missing at the end of the first chunk. The
// second chunk begins at 100.
fn short_chunk(alloc: Global, is_indexed: bool, float: Option<u16>) -> Result<Reader, Fail> {
    let mut packets = b"".to_vec(alloc)?;
    add_packet(&mut packets, true, &[b"\0\0\x80\x3f\0\0\0\x40", b"\x01"])?;
    add_packet(&mut packets, true, &[b"\0\0\x40\x40", b"\x03"])?;
    let entries = if is_indexed {
        &[(0, 80), (2, 100)][..]
    } else {
        NONE
    };
    opened(alloc, 0, &packets, entries, beside(3, float))
}

// The stream is short where an index or a Float field tells the chunks. With neither, the second chunk is the fault.
#[test]
fn chunk_that_ends_too_soon(rt: HostRuntime) -> Result<(), Fail> {
    let short = refused(Kind::StreamShort, 1, FIELD as u64);
    let restart = refused(Kind::RestartUnindexed, NODE as u64, 100);
    let found = (2, 8, b"\x03".as_slice(), None, 116);
    let none = (2, 8, b"".as_slice(), restart, 100);
    for (is_indexed, float, fault, last) in [
        (false, Some(0), short, found),
        (true, Some(0), short, found),
        (true, None, short, found),
        (false, None, restart, none),
    ] {
        let mut reader = short_chunk(rt.alloc(), is_indexed, float)?;
        let steps = [(0, 8, b"\x01".as_slice(), fault, 100), last];
        assert_eq!(rt; first_other(&mut reader, &steps), None);
    }
    Ok(())
}

// With neither a Float field nor a second chunk the stream is short.
#[test]
fn only_chunk_that_ends_too_soon(rt: HostRuntime) -> Result<(), Fail> {
    let short = refused(Kind::StreamShort, 2, FIELD as u64);
    let mut packets = b"".to_vec(rt.alloc())?;
    add_packet(&mut packets, true, &[b"\x01\x02"])?;
    let mut reader = opened(rt.alloc(), 0, &packets, NONE, alone(4))?;
    let steps = [
        (0, 8, b"\x01\x02".as_slice(), short, 92),
        (1, 1, b"\x02", None, 92),
    ];
    assert_eq!(rt; first_other(&mut reader, &steps), None);
    Ok(())
}
