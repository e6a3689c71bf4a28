//! Large indexes: two levels with 3,072 chunks, six levels, packets that are led to again and again.

ghost use Rattle.std.specs.Prelude.{◌≡◌, ◌*◌, ◌/◌, ◌≢◌};
ghost use Rattle.e57_section.specs.Opening.{LiesIn};

use crate::made::{FIRST, Made, SECTION, made_file};
use crate::{Found, IndexCursor, all_entries};
use e57_base::{Fault, Kind, MemSource, OpenFault, ReadFault};
use e57_layout::Section;
use e57_page::Pages;
use e57_section::open_section;
use std::alloc::Global;
use std::test::Fail;

// An index packet: its level, how many entries it has, the first entry's record and place, what is added to them.
fn made(level: u8, entries: u16, record: (u64, u64), place: (u64, u64)) -> Made {
    Made {
        level,
        entries,
        first: record.0,
        step: record.1,
        place: place.0,
        stride: place.1,
    }
}

// Two packets of level 0, with 2048 and 1024 chunks of 8 records, and the root.
fn two_levels() -> ([Made; 3], u64) {
    let packets = [
        made(0, 2048, (0, 8), (FIRST, 12)),
        made(0, 1024, (16_384, 8), (24_656, 12)),
        made(1, 2, (0, 16_384), (36_944, 32_784)),
    ];
    (packets, 86_128)
}

// The number of entries, and the last one's record and place, of a section with so many records.
fn gathered(
    alloc: Global,
    pages: &mut Pages<MemSource>,
    count: u64,
) -> Result<(usize, u64, u64), OpenFault> {
    if count == 0 || count > 1 << 40 {
        return Err(OpenFault::Memory);
    }
    let section = open_section(pages, 1, SECTION, count, 1)?;
    if section.index == 0 {
        return Err(OpenFault::Memory);
    }
    let entries = all_entries(alloc, pages, &section)?;
    if entries.len() == 0 {
        return Err(OpenFault::Memory);
    }
    let last = entries.get(entries.len() - 1);
    Ok((entries.len(), last.first, last.place))
}

// Finds the chunk of every eighth record, of so many; answers how many chunks were the right ones.
fn found_in_order(
    pages: &mut Pages<MemSource>,
    section: &Section,
    cursor: &mut IndexCursor,
    chunks: u64,
) -> Result<u64, ReadFault>
    requires same { cursor.old.section ≡ section.now }
    requires lies { LiesIn section.now (pages.old.length / 1024 * 1020) }
{
    let mut right = 0_u64;
    for k in 0..chunks {
        let i = k.wrapping_mul(8);
        if i >= section.count {
            return Ok(right);
        }
        let wanted = Found {
            start: i,
            until: i.wrapping_add(8),
            place: k.wrapping_mul(12).wrapping_add(FIRST),
        };
        if cursor.find(pages, i)? == wanted {
            right = right.wrapping_add(1);
        }
    }
    Ok(right)
}

// The same, from the opening of the section on.
fn in_order(alloc: Global, pages: &mut Pages<MemSource>, chunks: u64) -> Result<u64, OpenFault> {
    let section = open_section(pages, 1, SECTION, 24_576, 1)?;
    if section.index == 0 {
        return Err(OpenFault::Memory);
    }
    let mut cursor = IndexCursor::open(alloc, &section)?;
    Ok(found_in_order(pages, &section, &mut cursor, chunks)?)
}

// How many of these pages lie from the first number on and below the second.
fn among(asked: &[u64], low: u64, high: u64) -> u64 {
    let mut count = 0_u64;
    for &n in asked {
        if low <= n && n < high {
            count = count.wrapping_add(1);
        }
    }
    count
}

#[test]
fn searches_in_order(rt: HostRuntime) -> Result<(), Fail> {
    let (packets, root) = two_levels();
    let mut pages = made_file(rt.alloc(), 3072, &packets, root, usize::MAX)?;
    assert_eq!(rt; in_order(rt.alloc(), &mut pages, 3000), Ok(3000));
    let source = pages.into_source();
    let asked = source.asked();
    // The lower packets have the pages 36 to 84, the root page 84.
    assert_eq!(rt;
        among(asked, 36, 84),
        48,
        "the pages of the lower packets, each once"
    );
    assert_eq!(rt;
        among(asked, 84, 85),
        1,
        "the root's page, once for both of them"
    );
    assert_eq!(rt;
        among(asked, 1, 36),
        35,
        "the pages of the chunks, each once"
    );
    Ok(())
}

#[test]
fn all_of_a_large_index(rt: HostRuntime) -> Result<(), Fail> {
    let (packets, root) = two_levels();
    let last = 80 + 3071 * 12;
    let physical = last / 1020 * 1024 + last % 1020;
    let mut pages = made_file(rt.alloc(), 3072, &packets, root, usize::MAX)?;
    assert_eq!(rt;
        gathered(rt.alloc(), &mut pages, 24_576),
        Ok((3072, 24_568, physical))
    );
    let mut wrong = made_file(rt.alloc(), 3072, &packets, root, 50 * 1024 + 7)?;
    let page = Fault {
        kind: Kind::Page,
        a: 50,
        b: 0,
    };
    assert_eq!(rt;
        gathered(rt.alloc(), &mut wrong, 24_576),
        Err(OpenFault::Refused(page))
    );
    let mut again = made_file(rt.alloc(), 3072, &packets, root, 50 * 1024 + 7)?;
    assert_eq!(rt;
        in_order(rt.alloc(), &mut again, 1),
        Err(OpenFault::Refused(page))
    );
    Ok(())
}

// One chunk, and an index packet of one entry for each level below the seventh; the root has the highest level.
fn tower(alloc: Global, levels: u8) -> Result<Pages<MemSource>, Fail> {
    let mut packets = Vec::new(alloc);
    let mut place = FIRST;
    let mut next = 92;
    for level in 0..levels {
        packets.push(made(level, 1, (0, 0), (place, 0)))?;
        place = next;
        next = next.wrapping_add(32);
    }
    made_file(alloc, 1, &packets, place, usize::MAX)
}

#[test]
fn six_levels(rt: HostRuntime) -> Result<(), Fail> {
    let mut six = tower(rt.alloc(), 6)?;
    assert_eq!(rt; gathered(rt.alloc(), &mut six, 13), Ok((1, 0, 80)));
    let mut seven = tower(rt.alloc(), 7)?;
    let shape = Fault {
        kind: Kind::IndexShape,
        a: 1,
        b: 284,
    };
    assert_eq!(rt;
        gathered(rt.alloc(), &mut seven, 13),
        Err(OpenFault::Refused(shape))
    );
    Ok(())
}

// An index of so many levels. Each packet has 2048 entries, which all lead to the same packet, or the same chunk. A packet's
// records are so many times as far from each other as those of the packet below it.
fn again_and_again(alloc: Global, levels: u8, times: u64) -> Result<Pages<MemSource>, Fail> {
    let mut packets = Vec::new(alloc);
    let mut place = FIRST;
    let mut next = 92;
    let mut step = 1_u64;
    for level in 0..levels {
        packets.push(made(level, 2048, (0, step), (place, 0)))?;
        place = next;
        next = next.wrapping_add(32_784);
        step = step.wrapping_mul(times);
    }
    made_file(alloc, 1, &packets, place, usize::MAX)
}

#[test]
fn packets_led_to_again(rt: HostRuntime) -> Result<(), Fail> {
    // 2048^3 paths: the packet of level 0, at 92, is led to with record 2048 next.
    let mut three = again_and_again(rt.alloc(), 3, 2048)?;
    let order = |b| Err(OpenFault::Refused(Fault {
        kind: Kind::IndexOrder,
        a: 1,
        b,
    }));
    assert_eq!(rt; gathered(rt.alloc(), &mut three, 1 << 40), order(92));
    let source = three.into_source();
    assert_eq!(rt;
        among(source.asked(), 0, 100),
        97,
        "each of the 97 pages once"
    );
    // 2048^6 paths: the packet of level 4 has more records than lie between two entries of the root.
    let mut six = again_and_again(rt.alloc(), 6, 1)?;
    let offset = (92 + 4 * 32_784) / 1020 * 1024 + (92 + 4 * 32_784) % 1020;
    assert_eq!(rt; gathered(rt.alloc(), &mut six, 1 << 40), order(offset));
    let source = six.into_source();
    assert_eq!(rt;
        among(source.asked(), 0, 300),
        66,
        "the pages of two packets, and page 0"
    );
    Ok(())
}
