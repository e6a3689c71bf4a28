//! Strings of streams of sample files in memory, cut into packets in several ways.

use crate::{StringsRead, read_strings, skip_strings};
use e57_base::{Fault, Kind, MemSource, ReadFault};
use e57_crc::crc32c;
use e57_page::{Pages, open_file};
use e57_section::{Packet, open_section};
use e57_stream::{Bytestream, Chunk, Stopped, Window};
use std::alloc::{AllocError, Global};
use std::test::Fail;

// The strings "", "abc" and "q".
const THREE: &[u8] = b"\0\x06abc\x02q";

// "abc" behind a prefix of eight bytes.
const LONG_PREFIX: &[u8] = b"\x07\0\0\0\0\0\0\0abc";

// "", and then the prefix of a string of 2^24 + 1 bytes.
const OVER: &[u8] = b"\0\x03\0\0\x02\0\0\0\0";

// The prefix of a string of 2^24 bytes.
const MOST: &[u8] = b"\x01\0\0\x02\0\0\0\0";

// "", and then a string of three bytes of which one is there.
const SHORT: &[u8] = b"\0\x06a";

// An empty packet.
const EMPTY: &[u8] = b"\x02\0\x03\0";

// Adds a data packet with these bytes of one stream.
fn add_packet(packets: &mut Vec<u8>, restart: u8, piece: &[u8]) -> Result<(), AllocError> {
    let count = piece.len();
    if count > 65_000 {
        return Ok(());
    }
    let length = (11 + count) / 4 * 4;
    packets.extend_from_slice(&[1, restart])?;
    packets.extend_from_slice(&(length as u16 - 1).to_le_bytes())?;
    packets.extend_from_slice(b"\x01\0")?;
    packets.extend_from_slice(&(count as u16).to_le_bytes())?;
    packets.extend_from_slice(piece)?;
    packets.extend_from_slice(&[0; 4][..length - 8 - count])
}

// The packets of a chunk with this stream, cut after every `step` bytes, with an empty packet and one with an empty stream
// behind each.
fn cut(alloc: Global, stream: &[u8], step: usize, apart: bool) -> Result<Vec<u8>, AllocError> {
    let mut packets = b"".to_vec(alloc)?;
    if step == 0 {
        return Ok(packets);
    }
    let mut restart = 1;
    for piece in stream.chunks(step) {
        add_packet(&mut packets, restart, piece)?;
        restart = 0;
        if apart {
            packets.extend_from_slice(EMPTY)?;
            add_packet(&mut packets, 0, b"")?;
        }
    }
    Ok(packets)
}

// The open file whose section has these packets.
fn opened(alloc: Global, packets: &[u8]) -> Result<Pages<MemSource>, Fail> {
    let length = if packets.len() < 1_000_000 {
        packets.len()
    } else {
        0
    };
    let count = (80 + length) / 1020 + 1;
    let size = (1024 * count as u64).to_le_bytes();
    let mut bytes = b"ASTM-E57\x01\0\0\0\0\0\0\0".to_vec(alloc)?;
    bytes.extend_from_slice(&size)?;
    bytes.extend_from_slice(&size)?;
    bytes.extend_from_slice(b"\0\0\0\0\0\0\0\0\0\x04\0\0\0\0\0\0\x01\0\0\0\0\0\0\0")?;
    bytes.extend_from_slice(&(32 + length as u64).to_le_bytes())?;
    bytes.extend_from_slice(b"\x50\0\0\0\0\0\0\0\0\0\0\0\0\0\0\0")?;
    bytes.extend_from_slice(packets)?;
    bytes.resize(1020 * count, 0)?;
    let mut file = b"".to_vec(alloc)?;
    for page in bytes.chunks(1020) {
        file.extend_from_slice(page)?;
        file.extend_from_slice(&crc32c(page).to_be_bytes())?;
    }
    let mut source = MemSource::new(alloc, 64)?;
    source.add("a.e57", file)?;
    match open_file("a.e57", source) {
        Ok(pages) => Ok(pages),
        Err((_, fault)) => Err(fault)?,
    }
}

// What two reads of `count` records answer, from record i on: one into `places` bytes, four at most, and one into `large`.
fn read_twice(
    alloc: Global,
    pages: &mut Pages<MemSource>,
    records: (u64, u64),
    places: usize,
    large: &mut [u8],
    ends: &mut [u64; 3],
) -> Result<(StringsRead, StringsRead), Stopped> {
    let (count, i) = records;
    if count == 0 || count > 100 || i >= count || places > 4 {
        return Err(stopped(ReadFault::Source));
    }
    let section = match open_section(pages, 1, 48, count, 1) {
        Ok(section) => section,
        Err(fault) => return Err(stopped(fault)),
    };
    let Ok(window) = Window::new(alloc) else {
        return Err(stopped(ReadFault::Source));
    };
    let Ok(mut packet) = Packet::new(alloc) else {
        return Err(stopped(ReadFault::Source));
    };
    let stream = Bytestream {
        section,
        fixed: None,
        field: 0,
        node: 2,
    };
    let mut chunk = Chunk {
        start: 0,
        until: count,
        entry: section.data_place,
        taken: section.data_place,
        fresh: true,
        at: 0,
        bit: 0,
        window,
    };
    if let Err(fault) = skip_strings(&stream, pages, &mut packet, &mut chunk, i) {
        return Err(stopped(fault));
    }
    let mut small = [0; 4];
    let first = match read_strings(
        &stream,
        pages,
        &mut packet,
        &mut chunk,
        &mut small[..places],
        0,
        ends,
    ) {
        Ok(read) => read,
        Err(stopped) => return Err(stopped),
    };
    match read_strings(&stream, pages, &mut packet, &mut chunk, large, 0, ends) {
        Ok(read) => Ok((first, read)),
        Err(stopped) => Err(stopped),
    }
}

fn stopped(fault: ReadFault) -> Stopped {
    Stopped { done: 99, fault }
}

// What was read, and the buffers afterwards.
#[derive(Clone, Copy, Debug, PartialEq, Eq)]
struct Seen {
    answers: Result<(StringsRead, StringsRead), Stopped>,
    bytes: [u8; 4],
    ends: [u64; 3],
}

// What is read of a stream that is cut after every `step` bytes.
fn read_cut(
    alloc: Global,
    stream: &[u8],
    step: usize,
    apart: bool,
    records: (u64, u64),
    places: usize,
) -> Result<Seen, Fail> {
    let packets = cut(alloc, stream, step, apart)?;
    let mut pages = opened(alloc, &packets)?;
    let mut bytes = *b"____";
    let mut ends = [7; 3];
    let answers = read_twice(alloc, &mut pages, records, places, &mut bytes, &mut ends);
    Ok(Seen {
        answers,
        bytes,
        ends,
    })
}

#[test]
fn strings_of_a_chunk(rt: HostRuntime) -> Result<(), Fail> {
    let read = |count, next, more, need| Ok((
        StringsRead { count, next },
        StringsRead {
            count: more,
            next: need,
        },
    ));
    let refused = |done, kind, a| Err(Stopped {
        done,
        fault: ReadFault::Refused(Fault { kind, a, b: 2 }),
    });
    let limit = Some(1 << 24);
    for (stream, records, places, answers, bytes, ends) in [
        (
            THREE,
            (3, 0),
            2,
            read(1, Some(3), 2, None),
            b"abcq",
            [3, 4, 7],
        ),
        (
            THREE,
            (3, 0),
            0,
            read(1, Some(3), 2, None),
            b"abcq",
            [3, 4, 7],
        ),
        (
            THREE,
            (3, 0),
            3,
            read(2, Some(1), 1, None),
            b"q___",
            [1, 3, 7],
        ),
        (THREE, (3, 0), 4, read(3, None, 0, None), b"____", [0, 3, 4]),
        (
            THREE,
            (3, 1),
            3,
            read(1, Some(1), 1, None),
            b"q___",
            [1, 7, 7],
        ),
        (
            THREE,
            (3, 2),
            0,
            read(0, Some(1), 1, None),
            b"q___",
            [1, 7, 7],
        ),
        (
            LONG_PREFIX,
            (1, 0),
            2,
            read(0, Some(3), 1, None),
            b"abc_",
            [3, 7, 7],
        ),
        (
            OVER,
            (2, 0),
            4,
            refused(1, Kind::StringLimit, 1),
            b"____",
            [0, 7, 7],
        ),
        (
            OVER,
            (3, 2),
            4,
            refused(99, Kind::StringLimit, 1),
            b"____",
            [7, 7, 7],
        ),
        (
            MOST,
            (1, 0),
            4,
            read(0, limit, 0, limit),
            b"____",
            [7, 7, 7],
        ),
        (
            SHORT,
            (3, 0),
            4,
            refused(1, Kind::StreamShort, 1),
            b"____",
            [0, 7, 7],
        ),
        (
            SHORT,
            (3, 0),
            2,
            refused(0, Kind::StreamShort, 1),
            b"a___",
            [0, 7, 7],
        ),
        (
            SHORT,
            (3, 2),
            4,
            refused(99, Kind::StreamShort, 1),
            b"____",
            [7, 7, 7],
        ),
    ] {
        let wanted = Seen {
            answers,
            bytes: *bytes,
            ends,
        };
        let whole = read_cut(rt.alloc(), stream, 100, false, records, places)?;
        let bytewise = read_cut(rt.alloc(), stream, 1, false, records, places)?;
        let apart = read_cut(rt.alloc(), stream, 1, true, records, places)?;
        assert_eq!(rt; (whole, bytewise, apart), (wanted, wanted, wanted));
    }
    Ok(())
}

// The stream of a string of 70,000 bytes and "q".
fn long_stream(alloc: Global) -> Result<Vec<u8>, AllocError> {
    let mut stream = 140_001u64.to_le_bytes().to_vec(alloc)?;
    for i in 0..70_000u32 {
        stream.push((i % 251) as u8)?;
    }
    stream.extend_from_slice(b"\x02q")?;
    Ok(stream)
}

// Whether these are the bytes of a string of so many bytes, and of "q".
fn are_both(stream: &[u8], bytes: &[u8], count: usize) -> bool {
    if stream.len() < 8 {
        return false;
    }
    let text = &stream[8..];
    if text.len() < count || bytes.len() <= count {
        return false;
    }
    text[..count] == bytes[..count] && bytes[count] == b'q'
}

// A string longer than a packet, and one behind it.
#[test]
fn long_string(rt: HostRuntime) -> Result<(), Fail> {
    let stream = long_stream(rt.alloc())?;
    let packets = cut(rt.alloc(), &stream, 65_000, true)?;
    let mut pages = opened(rt.alloc(), &packets)?;
    let mut bytes = vec![in rt.alloc(); 0; 80_000]?;
    let mut ends = [7; 3];
    let answers = read_twice(rt.alloc(), &mut pages, (2, 0), 4, &mut bytes, &mut ends);
    let wanted = (
        StringsRead {
            count: 0,
            next: Some(70_000),
        },
        StringsRead {
            count: 2,
            next: None,
        },
    );
    assert_eq!(rt; (answers, ends), (Ok(wanted), [70_000, 70_001, 7]));
    assert!(rt; are_both(&stream, &bytes, 70_000));
    Ok(())
}
