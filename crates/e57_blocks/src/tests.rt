//! Blocks of sample files in memory.

ghost use Rattle.std.specs.Prelude.{◌≡◌, ◌*◌, ◌/◌, ◌≤◌, IfOk};
ghost use Rattle.e57_base.specs.Source.{page_length};
ghost use Rattle.e57_page.specs.Place.{payload_length};
ghost use Rattle.e57_layout.specs.Values.{IsValidField};
ghost use Rattle.e57_section.specs.Opening.{LiesIn};

use crate::{FieldBlock, Item};
use e57_base::{Fault, Kind, MemSource, Octets, OpenFault, ReadFault};
use e57_crc::crc32c;
use e57_layout::{Field, FieldKind, Section};
use e57_page::{Pages, open_file};
use e57_section::open_section;
use std::alloc::{AllocError, Global};
use std::test::Fail;

// A file of two pages: its front, up to place 48.
const HEADER: &[u8] =
    b"ASTM-E57\x01\0\0\0\0\0\0\0\0\x08\0\0\0\0\0\0\x40\0\0\0\0\0\0\0\x08\0\0\0\0\0\0\0\0\x04\0\0\0\0\0\0";

// Two chunks of 5 and 8 bits, and an index of both: the second chunk at 92, the index at 104.
const BITS: &[u8] = b"\x01\0\0\0\0\0\0\0\x68\0\0\0\0\0\0\0\x50\0\0\0\0\0\0\0\x68\0\0\0\0\0\0\0\
\x01\x01\x0b\0\x01\0\x01\0\x15\0\0\0\x01\x01\x0b\0\x01\0\x01\0\xf0\0\0\0\
\0\0\x2f\0\x02\0\0\0\0\0\0\0\0\0\0\0\0\0\0\0\0\0\0\0\x50\0\0\0\0\0\0\0\x05\0\0\0\0\0\0\0\x5c\0\0\0\0\0\0\0";

// The strings "", "abc" and "q" in one packet without an index.
const STRINGS: &[u8] = b"\x01\0\0\0\0\0\0\0\x30\0\0\0\0\0\0\0\x50\0\0\0\0\0\0\0\0\0\0\0\0\0\0\0\
\x01\x01\x0f\0\x01\0\x07\0\0\x06abc\x02q\0";

// No byte is changed.
const AS_IT_IS: (usize, u8) = (usize::MAX, 0);

// The open file with this section from place 48 on, with one byte changed before the pages' words were set.
fn opened(alloc: Global, section: &[u8], edit: (usize, u8)) -> Result<Pages<MemSource>, Fail> {
    let mut bytes = HEADER.to_vec(alloc)?;
    bytes.extend_from_slice(section)?;
    bytes.resize(2040, 0)?;
    if edit.0 < bytes.len() {
        bytes[edit.0] = edit.1;
    }
    let mut file = b"".to_vec(alloc)?;
    for page in bytes.chunks(1020) {
        file.extend_from_slice(page)?;
        file.extend_from_slice(&crc32c(page).to_be_bytes())?;
    }
    let mut source = MemSource::new(alloc, 64)?;
    source.add("a.e57", file)?;
    match open_file("a.e57", source) {
        Ok(pages) => Ok(pages),
        Err((_, fault)) => Err(fault)?,
    }
}

// A field of bits.
fn bits_field(alloc: Global) -> Result<Field, AllocError>
    ensures valid { IfOk result (λ field. IsValidField field) }
{
    Ok(Field {
        node: 1,
        path: Octets::new(b"x".to_vec(alloc)?),
        kind: FieldKind::Int { min: 0, max: 1 },
        width: 1,
    })
}

// A field of strings.
fn strings_field(alloc: Global) -> Result<Field, AllocError>
    ensures valid { IfOk result (λ field. IsValidField field) }
{
    Ok(Field {
        node: 1,
        path: Octets::new(b"x".to_vec(alloc)?),
        kind: FieldKind::Text,
        width: 0,
    })
}

// What a block holds.
#[derive(Clone, Copy, Debug, PartialEq, Eq)]
struct Seen {
    first: u64,
    count: usize,
    fault: Option<Fault>,
    items: [u64; 16],
}

// An item as a number: of a string the one that its bytes spell behind a one.
fn number(item: Item<'_>) -> u64 {
    match item {
        Item::Whole(number) => number.unsigned_abs(),
        Item::Word32(word) => word as u64,
        Item::Word64(word) => word,
        Item::Text(bytes) => spelled(bytes),
    }
}

fn spelled(bytes: &[u8]) -> u64 {
    let mut number = 1u64;
    for &byte in bytes {
        number = number.wrapping_mul(256).wrapping_add(byte as u64);
    }
    number
}

// The items of the records from `i` on that a block holds; nines for the others.
fn items(block: &FieldBlock, i: u64, want: usize) -> [u64; 16]
    requires low { i ≤ 1000 }
    requires few { want ≤ 16 }
{
    let mut items = [9; 16];
    for k in 0..want {
        if block.has(i + k as u64) {
            items[k] = number(block.item(i + k as u64));
        }
    }
    items
}

// Fills the block with the records from `i` on, if that is where it goes on.
fn fill(
    block: &mut FieldBlock,
    section: &Section,
    pages: &mut Pages<MemSource>,
    step: (u64, usize),
) -> Result<Option<Seen>, OpenFault>
    requires is { block.old.column.stream.section ≡ section.now }
    requires lies { LiesIn section.now (pages.old.length / page_length * payload_length) }
    ensures is { block.new.column.stream.section ≡ section.now }
    ensures length { pages.new.length ≡ pages.old.length }
{
    let (i, want) = step;
    if want == 0 || want > 16 || i > 1000 || i + want as u64 > section.count {
        return Ok(None);
    }
    if block.fault().is_some() || block.first() > i || i - block.first() != block.len() as u64 {
        return Ok(None);
    }
    block.fill(pages, i, want)?;
    Ok(Some(Seen {
        first: block.first(),
        count: block.len(),
        fault: block.fault(),
        items: items(block, i, want),
    }))
}

// What two fills of a block with so many places give.
fn fill_twice(
    alloc: Global,
    pages: &mut Pages<MemSource>,
    field: &Field,
    count: u64,
    places: usize,
    steps: [(u64, usize); 2],
) -> Result<[Option<Seen>; 2], Fail>
    requires { IsValidField field.now }
{
    if count == 0 || count > 100 || places == 0 || places > 100 {
        return Err(ReadFault::Source)?;
    }
    let section = open_section(pages, 1, 48, count, 1)?;
    let mut block = FieldBlock::open(alloc, &section, 0, field, None, places)?;
    let first = fill(&mut block, &section, pages, steps[0])?;
    let second = fill(&mut block, &section, pages, steps[1])?;
    Ok([first, second])
}

// A block with these digits as items.
fn holds(first: u64, digits: &[u8], fault: Option<Fault>) -> Option<Seen> {
    let mut items = [9; 16];
    for k in 0..digits.len().min(16) {
        items[k] = (digits[k] % 16) as u64;
    }
    Some(Seen {
        first,
        count: digits.len(),
        fault,
        items,
    })
}

#[test]
fn blocks_of_bits(rt: HostRuntime) -> Result<(), Fail> {
    let field = bits_field(rt.alloc())?;
    let fault = Fault {
        kind: Kind::IndexTarget,
        a: 1,
        b: 5,
    };
    for (edit, places, steps, wanted) in [
        (
            AS_IT_IS,
            8,
            [(0, 13), (8, 2)],
            [holds(0, b"10101000", None), holds(8, b"01", None)],
        ),
        (
            AS_IT_IS,
            1,
            [(0, 13), (1, 12)],
            [holds(0, b"1", None), holds(1, b"0", None)],
        ),
        (
            (93, 0),
            8,
            [(0, 3), (3, 10)],
            [holds(0, b"101", None), holds(3, b"01", Some(fault))],
        ),
        (
            (93, 0),
            8,
            [(0, 8), (5, 1)],
            [holds(0, b"10101", Some(fault)), None],
        ),
    ] {
        let mut pages = opened(rt.alloc(), BITS, edit)?;
        let found = fill_twice(rt.alloc(), &mut pages, &field, 13, places, steps)?;
        assert_eq!(rt; found, wanted);
    }
    Ok(())
}

#[test]
fn blocks_of_strings(rt: HostRuntime) -> Result<(), Fail> {
    let field = strings_field(rt.alloc())?;
    let mut pages = opened(rt.alloc(), STRINGS, AS_IT_IS)?;
    let [first, second] = fill_twice(rt.alloc(), &mut pages, &field, 3, 2, [(0, 3), (2, 1)])?;
    let mut items = [9; 16];
    items[0] = 1;
    items[1] = 0x161_6263;
    let count = 2;
    let fault = None;
    assert_eq!(rt;
        first,
        Some(Seen {
            first: 0,
            count,
            fault,
            items
        })
    );
    assert_eq!(rt;
        second.map(|seen| (seen.first, seen.items[0])),
        Some((2, 0x171))
    );
    Ok(())
}
