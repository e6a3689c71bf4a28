//! Searches in the indexes of sample files in memory, and each fault of an index by its two numbers.

ghost use Rattle.std.specs.Prelude.{◌<◌, ◌≤◌};

use crate::{Found, IndexCursor, all_entries};
use e57_base::{Fault, Kind, MemSource, OpenFault, ReadFault};
use e57_crc::crc32c;
use e57_page::{Pages, open_file};
use e57_section::open_section;
use std::alloc::{AllocError, Global};
use std::test::Fail;

// A file of one page: its front.
const HEADER: &[u8; 48] =
    b"ASTM-E57\x01\0\0\0\0\0\0\0\0\x04\0\0\0\0\0\0\x40\0\0\0\0\0\0\0\x08\0\0\0\0\0\0\0\0\x04\0\0\0\0\0\0";

// A section with two data packets and an index of one packet, from place 48 on: the index at 104.
const ONE: &[u8] = b"\x01\0\0\0\0\0\0\0\x68\0\0\0\0\0\0\0\x50\0\0\0\0\0\0\0\x68\0\0\0\0\0\0\0\
\x01\x01\x0b\0\x01\0\x01\0\x15\0\0\0\x01\x01\x0b\0\x01\0\x01\0\xf0\0\0\0\
\0\0\x2f\0\x02\0\0\0\0\0\0\0\0\0\0\0\0\0\0\0\0\0\0\0\x50\0\0\0\0\0\0\0\x05\0\0\0\0\0\0\0\x5c\0\0\0\0\0\0\0";

// A section with three data packets and an index of two levels: the lower packets at 116 and 164, the root at 196.
const TWO: &[u8] = b"\x01\0\0\0\0\0\0\0\xc4\0\0\0\0\0\0\0\x50\0\0\0\0\0\0\0\xc4\0\0\0\0\0\0\0\
\x01\x01\x0b\0\x01\0\x01\0\x15\0\0\0\x01\x01\x0b\0\x01\0\x01\0\xf0\0\0\0\x01\x01\x0b\0\x01\0\x01\0\xf0\0\0\0\
\0\0\x2f\0\x02\0\0\0\0\0\0\0\0\0\0\0\0\0\0\0\0\0\0\0\x50\0\0\0\0\0\0\0\x02\0\0\0\0\0\0\0\x5c\0\0\0\0\0\0\0\
\0\0\x1f\0\x01\0\0\0\0\0\0\0\0\0\0\0\x05\0\0\0\0\0\0\0\x68\0\0\0\0\0\0\0\
\0\0\x2f\0\x02\0\x01\0\0\0\0\0\0\0\0\0\0\0\0\0\0\0\0\0\x74\0\0\0\0\0\0\0\x05\0\0\0\0\0\0\0\xa4\0\0\0\0\0\0\0";

// The open file with this section, with one byte changed before the page's word was set.
fn opened(alloc: Global, section: &[u8], edit: (usize, u8)) -> Result<Pages<MemSource>, Fail> {
    let mut page = HEADER.to_vec(alloc)?;
    page.extend_from_slice(section)?;
    page.resize(1020, 0)?;
    if edit.0 < page.len() {
        page[edit.0] = edit.1;
    }
    let word = crc32c(&page);
    page.extend_from_slice(&word.to_be_bytes())?;
    let mut source = MemSource::new(alloc, 8)?;
    source.add("a.e57", page)?;
    match open_file("a.e57", source) {
        Ok(pages) => Ok(pages),
        Err((_, fault)) => Err(fault)?,
    }
}

// The chunk of record i of 13, after that of record 0 was looked for.
fn found(alloc: Global, pages: &mut Pages<MemSource>, i: u64) -> Result<Found, ReadFault> {
    let section = open_section(pages, 1, 48, 13, 1)?;
    if section.index == 0 {
        return Err(ReadFault::Source);
    }
    if i >= section.count {
        return Err(ReadFault::Source);
    }
    let Ok(mut cursor) = IndexCursor::open(alloc, &section) else {
        return Err(ReadFault::Source);
    };
    let _first = cursor.find(pages, 0);
    cursor.find(pages, i)
}

#[test]
fn chunks_by_the_index(rt: HostRuntime) -> Result<(), Fail> {
    let chunk = |start, until, place| Ok(Found {
        start,
        until,
        place,
    });
    let refused = |kind, b| Err(ReadFault::Refused(Fault { kind, a: 1, b }));
    for (section, edit, i, wanted) in [
        (ONE, (1020, 0), 0, chunk(0, 5, 80)),
        (ONE, (1020, 0), 4, chunk(0, 5, 80)),
        (ONE, (1020, 0), 5, chunk(5, 13, 92)),
        (ONE, (1020, 0), 12, chunk(5, 13, 92)),
        (ONE, (104, 1), 0, refused(Kind::IndexShape, 104)),
        (ONE, (106, 46), 0, refused(Kind::IndexShape, 104)),
        (ONE, (106, 51), 0, refused(Kind::IndexShape, 104)),
        (ONE, (108, 0), 0, refused(Kind::IndexShape, 104)),
        (ONE, (108, 3), 0, refused(Kind::IndexShape, 104)),
        (ONE, (110, 6), 0, refused(Kind::IndexShape, 104)),
        (ONE, (110, 1), 0, refused(Kind::IndexShape, 80)),
        (ONE, (120, 1), 0, refused(Kind::IndexOrder, 104)),
        (ONE, (136, 0), 0, refused(Kind::IndexOrder, 104)),
        (ONE, (136, 13), 0, refused(Kind::IndexOrder, 104)),
        (ONE, (80, 3), 0, refused(Kind::IndexTarget, 0)),
        (ONE, (81, 0), 0, chunk(0, 5, 80)),
        (ONE, (93, 0), 4, chunk(0, 5, 80)),
        (ONE, (93, 0), 5, refused(Kind::IndexTarget, 5)),
        (ONE, (144, 79), 5, refused(Kind::IndexTarget, 5)),
        (ONE, (144, 94), 5, refused(Kind::IndexTarget, 5)),
        (ONE, (144, 149), 5, refused(Kind::IndexTarget, 5)),
        (TWO, (1020, 0), 0, chunk(0, 2, 80)),
        (TWO, (1020, 0), 2, chunk(2, 5, 92)),
        (TWO, (1020, 0), 4, chunk(2, 5, 92)),
        (TWO, (1020, 0), 5, chunk(5, 13, 104)),
        (TWO, (1020, 0), 12, chunk(5, 13, 104)),
        (TWO, (122, 1), 2, refused(Kind::IndexShape, 116)),
        (TWO, (122, 1), 5, chunk(5, 13, 104)),
        (TWO, (148, 5), 2, refused(Kind::IndexOrder, 116)),
        (TWO, (180, 4), 5, refused(Kind::IndexOrder, 164)),
        (TWO, (202, 6), 5, refused(Kind::IndexShape, 196)),
        (TWO, (236, 196), 5, refused(Kind::IndexShape, 196)),
        (TWO, (236, 116), 5, refused(Kind::IndexOrder, 116)),
    ] {
        let mut pages = opened(rt.alloc(), section, edit)?;
        let answer = found(rt.alloc(), &mut pages, i);
        assert_eq!(rt;
            answer,
            wanted,
            "record {i} with {} as byte {}",
            edit.1, edit.0
        );
    }
    Ok(())
}

// The number of all entries, and the last one's record and place.
fn gathered(alloc: Global, pages: &mut Pages<MemSource>) -> Result<(usize, u64, u64), OpenFault> {
    let section = open_section(pages, 1, 48, 13, 1)?;
    if section.index == 0 {
        return Err(OpenFault::Memory);
    }
    let entries = all_entries(alloc, pages, &section)?;
    if entries.len() == 0 {
        return Err(OpenFault::Memory);
    }
    let last = entries.get(entries.len() - 1);
    Ok((entries.len(), last.first, last.place))
}

#[test]
fn all_entries_of_the_index(rt: HostRuntime) -> Result<(), Fail> {
    let refused = |kind, b| Err(OpenFault::Refused(Fault { kind, a: 1, b }));
    for (section, edit, wanted) in [
        (ONE, (1020, 0), Ok((2, 5, 92))),
        (ONE, (104, 1), refused(Kind::IndexShape, 104)),
        (ONE, (106, 46), refused(Kind::IndexShape, 104)),
        (ONE, (106, 51), refused(Kind::IndexShape, 104)),
        (ONE, (108, 0), refused(Kind::IndexShape, 104)),
        (ONE, (108, 3), refused(Kind::IndexShape, 104)),
        (ONE, (110, 6), refused(Kind::IndexShape, 104)),
        (ONE, (110, 1), refused(Kind::IndexShape, 80)),
        (ONE, (120, 1), refused(Kind::IndexOrder, 104)),
        (ONE, (136, 0), refused(Kind::IndexOrder, 104)),
        (ONE, (136, 13), refused(Kind::IndexOrder, 104)),
        (ONE, (80, 3), refused(Kind::IndexTarget, 0)),
        (ONE, (81, 0), Ok((2, 5, 92))),
        (ONE, (93, 0), refused(Kind::IndexTarget, 5)),
        (ONE, (144, 79), refused(Kind::IndexTarget, 5)),
        (ONE, (144, 94), refused(Kind::IndexTarget, 5)),
        (ONE, (144, 149), refused(Kind::IndexTarget, 5)),
        (TWO, (1020, 0), Ok((3, 5, 104))),
        (TWO, (81, 0), Ok((3, 5, 104))),
        (TWO, (93, 0), refused(Kind::IndexTarget, 2)),
        (TWO, (105, 0), refused(Kind::IndexTarget, 5)),
        (TWO, (122, 1), refused(Kind::IndexShape, 116)),
        (TWO, (148, 5), refused(Kind::IndexOrder, 116)),
        (TWO, (180, 4), refused(Kind::IndexOrder, 164)),
        (TWO, (202, 6), refused(Kind::IndexShape, 196)),
        (TWO, (220, 116), Ok((3, 5, 104))),
        (TWO, (236, 196), refused(Kind::IndexShape, 196)),
        (TWO, (236, 116), refused(Kind::IndexOrder, 116)),
    ] {
        let mut pages = opened(rt.alloc(), section, edit)?;
        let answer = gathered(rt.alloc(), &mut pages);
        assert_eq!(rt; answer, wanted, "with {} as byte {}", edit.1, edit.0);
    }
    Ok(())
}
