//! The smallest sample of another program, two points without an index: its section, its packet and the streams of it; and
//! each fault that a section and a packet can have, by its two numbers.

ghost use Rattle.std.specs.Prelude.{◌≡◌, length, IsSomeAnd};

use crate::made::{Edit, NODE, change, opened};
use e57_base::{Fault, Kind, MemSource, ReadFault};
use e57_layout::Section;
use e57_page::Pages;
use e57_section::{Loaded, Packet, load_packet, next_packet, open_section};
use std::alloc::Global;
use std::test::Fail;

// A section of 88 bytes from place 48 on: its header, and one data packet at place 80 with two records of seven fields.
const TWO_POINTS: &[u8] = b"\x01\0\0\0\0\0\0\0\x58\0\0\0\0\0\0\0\x50\0\0\0\0\0\0\0\0\0\0\0\0\0\0\0\
\x01\0\x37\0\x07\0\x08\0\x08\0\x08\0\x04\0\x02\0\x02\0\x02\0\
\0\0\x80\x3f\0\0\x80\xbf\0\0\0\x40\0\0\0\0\0\0\0\x3f\0\0\0\x40\x64\xf0\xff\0\xff\x01\0\x02\x10\x03\0\0";

// The streams of the packet, each behind its length: three of two numbers of 32 bits, one of two numbers of 12 bits, three of
// two bytes.
const STREAMS: &[u8; 41] =
    b"\x08\0\0\x80\x3f\0\0\x80\xbf\x08\0\0\0\x40\0\0\0\0\x08\0\0\0\x3f\0\0\0\x40\
\x04\x64\xf0\xff\0\x02\xff\x01\x02\0\x02\x02\x10\x03";

// The open file of two pages with some bytes changed.
fn sample(alloc: Global, edits: &[Edit]) -> Result<Pages<MemSource>, Fail> {
    let mut rest = TWO_POINTS.to_vec(alloc)?;
    rest.resize(1992, 0)?;
    opened(alloc, &rest, edits)
}

// A section, its first packet with its streams, and the place of the packet behind it.
#[derive(Clone, Copy, Debug, PartialEq, Eq)]
struct Found {
    section: Section,
    packet: Loaded,
    streams: [u8; 41],
    next: Option<u64>,
}

// The section of seven fields at a physical offset and its first packet; none where it has no packet.
fn read_first(
    alloc: Global,
    pages: &mut Pages<MemSource>,
    place: u64,
) -> Result<Option<Found>, ReadFault> {
    let section = open_section(pages, NODE, place, 2, 7)?;
    let at = section.data_place;
    if section.end - at < 4 {
        return Ok(None);
    }
    let Ok(mut buf) = Packet::new(alloc) else {
        return Err(ReadFault::Source);
    };
    let packet = load_packet(&section, pages, at, &mut buf)?;
    let (length, streams) = match packet {
        Loaded::Stream { length, .. } => (length, streams(&buf)),
        Loaded::Index { length } => (length, [0; 41]),
        Loaded::Empty { length } => (length, [0; 41]),
    };
    let next = next_packet(&section, at, length);
    Ok(Some(Found {
        section,
        packet,
        streams,
        next,
    }))
}

// The streams of a packet of seven fields, each behind its length.
fn streams(buf: &Packet) -> [u8; 41]
    requires { IsSomeAnd buf.now (λ streams. length streams ≡ 7) }
{
    let mut all = [0; 41];
    let mut at = 0usize;
    for f in 0..7u16 {
        let stream = buf.stream(f);
        change(&mut all, at, &[(stream.len() % 256) as u8]);
        change(&mut all, at.saturating_add(1), stream);
        at = at.saturating_add(1).saturating_add(stream.len());
    }
    all
}

// The section from place 48 to its end, its packet, the streams, and the place of the packet behind it.
fn expected(end: u64, packet: Loaded, streams: &[u8; 41], next: Option<u64>) -> Option<Found> {
    Some(Found {
        section: Section {
            node: NODE,
            fields: 7,
            start: 48,
            end,
            data_place: 80,
            index: 0,
            count: 2,
        },
        packet,
        streams: *streams,
        next,
    })
}

#[test]
fn two_points(rt: HostRuntime) -> Result<(), Fail> {
    let mut pages = sample(rt.alloc(), &[])?;
    let answer = read_first(rt.alloc(), &mut pages, 48);
    let packet = Loaded::Stream {
        length: 56,
        restart: false,
    };
    assert_eq!(rt; answer, Ok(expected(136, packet, STREAMS, None)));
    assert_eq!(rt; pages.into_source().asked(), [0].as_slice());
    Ok(())
}

// Changes that are no fault: of the section's length, of the packet's type, flags and length, of the last stream's length.
#[test]
fn other_sections_and_packets(rt: HostRuntime) -> Result<(), Fail> {
    let stream = |length, restart| Loaded::Stream { length, restart };
    let index = Loaded::Index { length: 56 };
    let empty = Loaded::Empty { length: 56 };
    let whole = stream(56, false);
    let mut longer = *STREAMS;
    longer[38] = 4;
    let none = [0; 41];
    for (at, byte, wanted) in [
        (57, 7, expected(1928, whole, STREAMS, Some(136))),
        (56, 91, expected(139, whole, STREAMS, None)),
        (56, 92, expected(140, whole, STREAMS, Some(136))),
        (80, 0, expected(136, index, &none, None)),
        (80, 2, expected(136, empty, &none, None)),
        (81, 1, expected(136, stream(56, true), STREAMS, None)),
        (81, 0xfe, expected(136, whole, STREAMS, None)),
        (98, 4, expected(136, whole, &longer, None)),
        (64, 133, None),
        (64, 136, None),
    ] {
        let mut pages = sample(rt.alloc(), &[(at, &[byte])])?;
        let answer = read_first(rt.alloc(), &mut pages, 48);
        assert_eq!(rt; answer, Ok(wanted), "with {byte} as byte {at}");
    }
    Ok(())
}

// A change of some bytes, the physical offset that is stated of the section, and the fault's kind and second number.
type Row = (usize, &'static [u8], u64, Kind, u64);

// The offsets that are no section's, with the file's first byte as it was; the section's length, id, and the place of its data;
// the packet's type, its length, the number of its streams, and their ends.
const FAULTS: &[Row] = &[
    (0, b"A", 1020, Kind::SectionPlace, 1020),
    (0, b"A", 1023, Kind::SectionPlace, 1023),
    (0, b"A", 2013, Kind::SectionPlace, 2013),
    (0, b"A", 2048, Kind::SectionPlace, 2048),
    (0, b"A", u64::MAX, Kind::SectionPlace, u64::MAX),
    (56, b"\x1f", 48, Kind::SectionPlace, 48),
    (56, b"\xc9\x07", 48, Kind::SectionPlace, 48),
    (57, b"\x08", 48, Kind::SectionPlace, 48),
    (63, b"\x80", 48, Kind::SectionPlace, 48),
    (48, b"\0", 48, Kind::SectionId, 0),
    (48, b"\x02", 48, Kind::SectionId, 2),
    (48, b"\xff", 48, Kind::SectionId, 255),
    (64, b"\x4f", 48, Kind::DataPlace, 79),
    (64, b"\x89", 48, Kind::DataPlace, 137),
    (64, b"\0", 48, Kind::DataPlace, 0),
    (64, b"\xfc\x03", 48, Kind::DataPlace, 1020),
    (71, b"\x80", 48, Kind::DataPlace, 0x8000_0000_0000_0050),
    (80, b"\x03", 48, Kind::PacketType, 80),
    (80, b"\xff", 48, Kind::PacketType, 80),
    (82, b"\x36", 48, Kind::PacketLength, 80),
    (82, b"\x3b", 48, Kind::PacketLength, 80),
    (83, b"\xff", 48, Kind::PacketLength, 80),
    (82, b"\x03", 48, Kind::DataShape, 80),
    (82, b"\x33", 48, Kind::DataShape, 80),
    (84, b"\x06", 48, Kind::DataShape, 80),
    (84, b"\x08", 48, Kind::DataShape, 80),
    (85, b"\x01", 48, Kind::DataShape, 80),
    (86, b"\x0b", 48, Kind::DataShape, 80),
    (98, b"\x05", 48, Kind::DataShape, 80),
    (99, b"\xff", 48, Kind::DataShape, 80),
];

#[test]
fn faults_of_section_and_packet(rt: HostRuntime) -> Result<(), Fail> {
    for (at, bytes, place, kind, b) in FAULTS {
        let mut pages = sample(rt.alloc(), &[(*at, bytes)])?;
        let answer = read_first(rt.alloc(), &mut pages, *place);
        let a = NODE as u64;
        let fault = Fault {
            kind: *kind,
            a,
            b: *b,
        };
        let wanted = Err(ReadFault::Refused(fault));
        assert_eq!(rt;
            answer,
            wanted,
            "with {bytes:?} at {at}, section at {place}"
        );
    }
    Ok(())
}
