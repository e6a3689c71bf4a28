//! Sections of the sample files, in memory, and each fault of a section or packet by its two numbers.

use crate::{Loaded, Packet, load_packet, next_packet, open_section};
use e57_base::{Fault, Kind, MemSource, ReadFault};
use e57_crc::crc32c;
use e57_page::{Pages, open_file};
use std::alloc::{AllocError, Global};
use std::test::Fail;

// A file of three pages: the front of the first behind its header, and that of the second.
const HEADER: &[u8; 48] =
    b"ASTM-E57\x01\0\0\0\0\0\0\0\0\x0c\0\0\0\0\0\0\0\x08\0\0\0\0\0\0\x40\x01\0\0\0\0\0\0\0\x04\0\0\0\0\0\0";

// A section with two data packets and an index: 104 bytes from place 48 on.
const INDEXED: &[u8] = b"\x01\0\0\0\0\0\0\0\x68\0\0\0\0\0\0\0\x50\0\0\0\0\0\0\0\x68\0\0\0\0\0\0\0\
\x01\x01\x0b\0\x01\0\x01\0\x15\0\0\0\x01\x01\x0b\0\x01\0\x01\0\xf0\0\0\0\
\0\0\x2f\0\x02\0\0\0\0\0\0\0\0\0\0\0\0\0\0\0\0\0\0\0\x50\0\0\0\0\0\0\0\x05\0\0\0\0\0\0\0\x5c\0\0\0\0\0\0\0";

// A section of four fields with one data packet and an index: 100 bytes from place 1020 on.
const STRINGS: &[u8] =
    b"\x01\0\0\0\0\0\0\0\x64\0\0\0\0\0\0\0\x20\x04\0\0\0\0\0\0\x44\x04\0\0\0\0\0\0\
\x01\x01\x23\0\x04\0\x02\0\0\0\x0c\0\x07\0\xf1\x01\0\0\x80\x3f\0\0\0\x40\0\0\0\0\0\x06abc\x02q\0\
\0\0\x1f\0\x01\0\0\0\0\0\0\0\0\0\0\0\0\0\0\0\0\0\0\0\x20\x04\0\0\0\0\0\0";

fn page(
    alloc: Global,
    front: &[u8],
    more: &[u8],
    edit: (usize, u8),
) -> Result<Vec<u8>, AllocError> {
    let mut page = front.to_vec(alloc)?;
    page.extend_from_slice(more)?;
    page.resize(1020, 0)?;
    if edit.0 < page.len() {
        page[edit.0] = edit.1;
    }
    let word = crc32c(&page);
    page.extend_from_slice(&word.to_be_bytes())?;
    Ok(page)
}

// The open file, with this byte of its first page changed, or this one of its second after its word was set.
fn opened(alloc: Global, edit: (usize, u8), wrong: (usize, u8)) -> Result<Pages<MemSource>, Fail> {
    let mut bytes = page(alloc, HEADER, INDEXED, edit)?;
    let mut second = page(alloc, STRINGS, &[], (1020, 0))?;
    if wrong.0 < second.len() {
        second[wrong.0] = wrong.1;
    }
    bytes.extend_from_slice(&second)?;
    bytes.extend_from_slice(&page(alloc, &[], &[], (1020, 0))?)?;
    let mut source = MemSource::new(alloc, 8)?;
    source.add("a.e57", bytes)?;
    match open_file("a.e57", source) {
        Ok(pages) => Ok(pages),
        Err((_, fault)) => Err(fault)?,
    }
}

// The first two packets of the section at an offset, and the last stream of the first.
fn packets(
    alloc: Global,
    pages: &mut Pages<MemSource>,
    place: u64,
    fields: u16,
) -> Result<(Loaded, usize, Option<Loaded>), ReadFault> {
    if fields == 0 || fields > 512 {
        return Err(ReadFault::Source);
    }
    let section = open_section(pages, 1, place, 12, fields)?;
    let at = section.data_place;
    let Ok(mut buf) = Packet::new(alloc) else {
        return Err(ReadFault::Source);
    };
    if section.end - at < 4 {
        return Err(ReadFault::Source);
    }
    let first = load_packet(&section, pages, at, &mut buf)?;
    let (length, last) = match first {
        Loaded::Stream { length, .. } => (length, buf.stream(fields - 1).len()),
        Loaded::Index { length } => (length, 0),
        Loaded::Empty { length } => (length, 0),
    };
    let Some(next) = next_packet(&section, at, length) else {
        return Ok((first, last, None));
    };
    let second = load_packet(&section, pages, next, &mut buf)?;
    Ok((first, last, Some(second)))
}

#[test]
fn sections_and_packets(rt: HostRuntime) -> Result<(), Fail> {
    let refused = |kind, a, b| Err(ReadFault::Refused(Fault { kind, a, b }));
    let stream = |length| Loaded::Stream {
        length,
        restart: true,
    };
    let index = |length| Some(Loaded::Index { length });
    for (edit, place, fields, wanted) in [
        ((1020, 0), 48, 1, Ok((stream(12), 1, Some(stream(12))))),
        ((1020, 0), 1024, 4, Ok((stream(36), 7, index(32)))),
        ((64, 92), 48, 1, Ok((stream(12), 1, index(48)))),
        (
            (80, 2),
            48,
            1,
            Ok((Loaded::Empty { length: 12 }, 0, Some(stream(12)))),
        ),
        (
            (81, 0xfe),
            48,
            1,
            Ok((
                Loaded::Stream {
                    length: 12,
                    restart: false,
                },
                1,
                Some(stream(12)),
            )),
        ),
        ((86, 4), 48, 1, Ok((stream(12), 4, Some(stream(12))))),
        ((1020, 0), 1020, 1, refused(Kind::SectionPlace, 1, 1020)),
        ((1020, 0), 3061, 1, refused(Kind::SectionPlace, 1, 3061)),
        ((56, 31), 48, 1, refused(Kind::SectionPlace, 1, 48)),
        ((58, 1), 48, 1, refused(Kind::SectionPlace, 1, 48)),
        ((48, 0), 48, 1, refused(Kind::SectionId, 1, 0)),
        ((64, 79), 48, 1, refused(Kind::DataPlace, 1, 79)),
        ((64, 153), 48, 1, refused(Kind::DataPlace, 1, 153)),
        ((80, 3), 48, 1, refused(Kind::PacketType, 1, 80)),
        ((92, 3), 48, 1, refused(Kind::PacketType, 1, 92)),
        ((94, 12), 48, 1, refused(Kind::PacketLength, 1, 92)),
        ((82, 75), 48, 1, refused(Kind::PacketLength, 1, 80)),
        ((82, 3), 48, 1, refused(Kind::DataShape, 1, 80)),
        ((84, 2), 48, 1, refused(Kind::DataShape, 1, 80)),
        ((86, 5), 48, 1, refused(Kind::DataShape, 1, 80)),
    ] {
        let mut pages = opened(rt.alloc(), edit, (1024, 0))?;
        let found = packets(rt.alloc(), &mut pages, place, fields);
        assert_eq!(rt; found, wanted, "with {} as byte {}", edit.1, edit.0);
    }
    let mut pages = opened(rt.alloc(), (1020, 0), (50, 1))?;
    assert_eq!(rt;
        packets(rt.alloc(), &mut pages, 1024, 4),
        refused(Kind::Page, 1, 0)
    );
    Ok(())
}
