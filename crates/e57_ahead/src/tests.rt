//! The chunks of records of two sections without an index, made by hand, in memory.

use crate::{Ahead, Covered};
use e57_base::{MemSource, ReadFault};
use e57_crc::crc32c;
use e57_layout::Fixed;
use e57_page::{Pages, open_file};
use e57_section::open_section;
use std::alloc::{AllocError, Global};
use std::test::Fail;

// The header of a file of two pages. Behind it stand a section header and three data packets with restart, whose one field
// has 7, 5 and 4 bytes of stream: 76 bytes from place 48 on.
const PARTS: &[u8] =
    b"ASTM-E57\x01\0\0\0\0\0\0\0\0\x08\0\0\0\0\0\0\0\x08\0\0\0\0\0\0\0\0\0\0\0\0\0\0\0\x04\0\0\0\0\0\0\
\x01\0\0\0\0\0\0\0\x4c\0\0\0\0\0\0\0\x50\0\0\0\0\0\0\0\0\0\0\0\0\0\0\0\
\x01\x01\x0f\0\x01\0\x07\0\0\0\x80\x3f\0\0\0\0\x01\x01\x0f\0\x01\0\x05\0\0\0\0\x40\0\0\0\0\
\x01\x01\x0b\0\x01\0\x04\0\0\0\x40\x40";

// A section header, from place 1020 on. The section has 368 bytes: two data packets with restart and an index packet.
const HEADER: &[u8] = b"\x01\0\0\0\0\0\0\0\x70\x01\0\0\0\0\0\0\x20\x04\0\0\0\0\0\0\0\0\0\0\0\0\0\0";

// Six streams of 40, 40, 16, 0, 64 and 40 bytes, which are 16 records: the head of a packet of 220 bytes.
const SIXTEEN: &[u8] = b"\x01\x01\xdb\0\x06\0\x28\0\x28\0\x10\0\0\0\x40\0\x28\0";

// The same of 4 records: the head of a packet of 68 bytes.
const FOUR: &[u8] = b"\x01\x01\x43\0\x06\0\x0a\0\x0a\0\x04\0\0\0\x10\0\x0a\0";

// The head of an index packet of 48 bytes.
const INDEX: &[u8] = b"\0\0\x2f\0\x02\0";

fn with_word(mut page: Vec<u8>) -> Result<Vec<u8>, AllocError> {
    page.resize(1020, 0)?;
    let word = crc32c(&page);
    page.extend_from_slice(&word.to_be_bytes())?;
    Ok(page)
}

fn opened(alloc: Global) -> Result<Pages<MemSource>, Fail> {
    let mut bytes = with_word(PARTS.to_vec(alloc)?)?;
    let mut second = HEADER.to_vec(alloc)?;
    second.extend_from_slice(SIXTEEN)?;
    second.resize(252, 0)?;
    second.extend_from_slice(FOUR)?;
    second.resize(320, 0)?;
    second.extend_from_slice(INDEX)?;
    bytes.extend_from_slice(&with_word(second)?)?;
    let mut source = MemSource::new(alloc, 64)?;
    source.add("a.e57", bytes)?;
    match open_file("a.e57", source) {
        Ok(pages) => Ok(pages),
        Err((_, fault)) => Err(fault)?,
    }
}

// The chunks of three records, found one after another.
fn found(
    alloc: Global,
    pages: &mut Pages<MemSource>,
    place: u64,
    count: u64,
    fields: u16,
    field: u16,
    asked: (u64, u64, u64),
) -> Result<(Covered, Covered, Covered), ReadFault> {
    let (a, b, c) = asked;
    if count == 0 || count > 100 || fields == 0 || fields > 100 || field >= fields {
        return Err(ReadFault::Source);
    }
    let section = open_section(pages, 1, place, count, fields)?;
    if section.index != 0 || a >= count || b >= count || c >= count {
        return Err(ReadFault::Source);
    }
    let Ok(mut ahead) = Ahead::open(alloc, &section, Fixed { field, bytes: 4 }) else {
        return Err(ReadFault::Source);
    };
    let first = ahead.find(pages, a)?;
    let second = ahead.find(pages, b)?;
    let third = ahead.find(pages, c)?;
    Ok((first, second, third))
}

#[test]
fn chunks_of_records(rt: HostRuntime) -> Result<(), Fail> {
    let chunk = |start, until, place| Covered {
        start,
        until,
        place,
    };
    for (place, count, fields, field, asked, wanted) in [
        (
            1024,
            20,
            6,
            4,
            (15, 16, 15),
            (chunk(0, 16, 1052), chunk(16, 20, 1272), chunk(0, 16, 1052)),
        ),
        (
            48,
            3,
            1,
            0,
            (0, 1, 2),
            (chunk(0, 1, 80), chunk(1, 2, 96), chunk(2, 3, 112)),
        ),
    ] {
        let mut pages = opened(rt.alloc())?;
        let answers = found(rt.alloc(), &mut pages, place, count, fields, field, asked);
        assert_eq!(rt; answers, Ok(wanted), "in the section at {}", place);
    }
    Ok(())
}
