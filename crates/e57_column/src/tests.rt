//! Columns of sample files in memory.

ghost use Rattle.std.specs.Prelude.{◌≡◌, ◌*◌, ◌/◌, IfOk};
ghost use Rattle.e57_base.specs.Source.{page_length};
ghost use Rattle.e57_page.specs.Place.{payload_length};
ghost use Rattle.e57_layout.specs.Values.{ItemKind, item_kind, kind_width, AreLimits, IsValidField};
ghost use Rattle.e57_section.specs.Opening.{LiesIn};
ghost use Rattle.e57_column.specs.Column.{kind_of};
ghost use Rattle.e57_column.specs.Reading.{AreWhole};

use crate::{Column, Stopped, TextsRead};
use e57_base::{Fault, Kind, MemSource, Octets, ReadFault};
use e57_crc::crc32c;
use e57_layout::{Field, FieldKind, Fixed, Section};
use e57_page::{Pages, open_file};
use e57_section::open_section;
use std::alloc::{AllocError, Global};
use std::test::Fail;

// A file of two pages: its front, up to place 48.
const HEADER: &[u8] =
    b"ASTM-E57\x01\0\0\0\0\0\0\0\0\x08\0\0\0\0\0\0\x40\0\0\0\0\0\0\0\x08\0\0\0\0\0\0\0\0\x04\0\0\0\0\0\0";

// Two chunks of 5 and 8 bits, and an index of both: the second chunk at 92, the index at 104.
const TWO: &[u8] = b"\x01\0\0\0\0\0\0\0\x68\0\0\0\0\0\0\0\x50\0\0\0\0\0\0\0\x68\0\0\0\0\0\0\0\
\x01\x01\x0b\0\x01\0\x01\0\x15\0\0\0\x01\x01\x0b\0\x01\0\x01\0\xf0\0\0\0\
\0\0\x2f\0\x02\0\0\0\0\0\0\0\0\0\0\0\0\0\0\0\0\0\0\0\x50\0\0\0\0\0\0\0\x05\0\0\0\0\0\0\0\x5c\0\0\0\0\0\0\0";

// Eight numbers of 3 bits without an index, in packets with one byte, none, and two bytes.
const EIGHT: &[u8] = b"\x01\0\0\0\0\0\0\0\x40\0\0\0\0\0\0\0\x50\0\0\0\0\0\0\0\0\0\0\0\0\0\0\0\
\x01\0\x0b\0\x01\0\x01\0\x88\0\0\0\x01\0\x07\0\x01\0\0\0\x01\0\x0b\0\x01\0\x02\0\xc6\xfa\0\0";

// The same from place 968 on: the last packet begins page 1.
const APART: &[u8] = b"\x01\0\0\0\0\0\0\0\x40\0\0\0\0\0\0\0\xe8\x03\0\0\0\0\0\0\0\0\0\0\0\0\0\0\
\x01\0\x0b\0\x01\0\x01\0\x88\0\0\0\x01\0\x07\0\x01\0\0\0\x01\0\x0b\0\x01\0\x02\0\xc6\xfa\0\0";

// Three chunks without an index, of 7, 5 and 4 bytes: an item of 32 bits each.
const PARTS: &[u8] = b"\x01\0\0\0\0\0\0\0\x4c\0\0\0\0\0\0\0\x50\0\0\0\0\0\0\0\0\0\0\0\0\0\0\0\
\x01\x01\x0f\0\x01\0\x07\0\0\0\x80\x3f\0\0\0\0\x01\x01\x0f\0\x01\0\x05\0\0\0\0\x40\0\0\0\0\
\x01\x01\x0b\0\x01\0\x04\0\0\0\x40\x40";

// Two chunks without an index, of 13 and 8 bytes: an item of 64 bits each.
const LONG: &[u8] = b"\x01\0\0\0\0\0\0\0\x48\0\0\0\0\0\0\0\x50\0\0\0\0\0\0\0\0\0\0\0\0\0\0\0\
\x01\x01\x17\0\x01\0\x0d\0\0\0\0\0\0\0\xf0\x3f\0\0\0\0\0\0\0\0\x01\x01\x0f\0\x01\0\x08\0\0\0\0\0\0\0\0\x40";

// The strings "", "abc" and "q" in one packet without an index.
const THREE: &[u8] = b"\x01\0\0\0\0\0\0\0\x30\0\0\0\0\0\0\0\x50\0\0\0\0\0\0\0\0\0\0\0\0\0\0\0\
\x01\x01\x0f\0\x01\0\x07\0\0\x06abc\x02q\0";

// The same, cut after every byte, with an empty packet behind each.
const BYTEWISE: &[u8] = b"\x01\0\0\0\0\0\0\0\x90\0\0\0\0\0\0\0\x50\0\0\0\0\0\0\0\0\0\0\0\0\0\0\0\
\x01\x01\x0b\0\x01\0\x01\0\0\0\0\0\x02\0\x03\0\x01\0\x0b\0\x01\0\x01\0\x06\0\0\0\x02\0\x03\0\
\x01\0\x0b\0\x01\0\x01\0a\0\0\0\x02\0\x03\0\x01\0\x0b\0\x01\0\x01\0b\0\0\0\x02\0\x03\0\
\x01\0\x0b\0\x01\0\x01\0c\0\0\0\x02\0\x03\0\x01\0\x0b\0\x01\0\x01\0\x02\0\0\0\x02\0\x03\0\
\x01\0\x0b\0\x01\0\x01\0q\0\0\0\x02\0\x03\0";

// The strings "" and "abc" in one chunk, "q" in the next one, and an index of both.
const CHUNKS: &[u8] = b"\x01\0\0\0\0\0\0\0\x6c\0\0\0\0\0\0\0\x50\0\0\0\0\0\0\0\x6c\0\0\0\0\0\0\0\
\x01\x01\x0f\0\x01\0\x05\0\0\x06abc\0\0\0\x01\x01\x0b\0\x01\0\x02\0\x02q\0\0\
\0\0\x2f\0\x02\0\0\0\0\0\0\0\0\0\0\0\0\0\0\0\0\0\0\0\x50\0\0\0\0\0\0\0\x02\0\0\0\0\0\0\0\x60\0\0\0\0\0\0\0";

// The first byte of the string "abc", and no more of it.
const SHORT: &[u8] = b"\x01\0\0\0\0\0\0\0\x2c\0\0\0\0\0\0\0\x50\0\0\0\0\0\0\0\0\0\0\0\0\0\0\0\
\x01\x01\x0b\0\x01\0\x03\0\0\x06a\0";

// No byte is changed.
const AS_IT_IS: (usize, u8) = (usize::MAX, 0);

// A call that doesn't come.
const NEVER: u64 = 1000;

// No record to go to.
const STAY: u64 = u64::MAX;

// The open file with this section from a place on, with one byte changed before the pages' words were set, whose source
// fails at the call of this number.
fn opened(
    alloc: Global,
    place: usize,
    section: &[u8],
    edit: (usize, u8),
    failing: u64,
) -> Result<Pages<MemSource>, Fail> {
    let mut bytes = HEADER.to_vec(alloc)?;
    bytes.resize(place, 0)?;
    bytes.extend_from_slice(section)?;
    bytes.resize(2040, 0)?;
    if edit.0 < bytes.len() {
        bytes[edit.0] = edit.1;
    }
    let mut file = b"".to_vec(alloc)?;
    for page in bytes.chunks(1020) {
        file.extend_from_slice(page)?;
        file.extend_from_slice(&crc32c(page).to_be_bytes())?;
    }
    let mut source = MemSource::new(alloc, 64)?;
    source.add("a.e57", file)?;
    source.fail_at(failing)?;
    match open_file("a.e57", source) {
        Ok(pages) => Ok(pages),
        Err((_, fault)) => Err(fault)?,
    }
}

fn refused(done: usize, kind: Kind, a: u64, b: u64) -> Stopped {
    Stopped {
        done,
        fault: ReadFault::Refused(Fault { kind, a, b }),
    }
}

// Goes to record `i`, if there is one or it is the end.
fn go(
    column: &mut Column,
    section: &Section,
    pages: &mut Pages<MemSource>,
    i: u64,
) -> Result<(), Stopped>
    requires is { column.old.stream.section ≡ section.now }
    requires lies { LiesIn section.now (pages.old.length / page_length * payload_length) }
    ensures is { column.new.stream.section ≡ section.now }
    ensures items { column.new.items ≡ column.old.items }
    ensures length { pages.new.length ≡ pages.old.length }
{
    if i > section.count {
        return Ok(());
    }
    match column.seek(pages, i) {
        Ok(()) => Ok(()),
        Err(fault) => Err(Stopped { done: 99, fault }),
    }
}

// A field of numbers of 3 bits, of 1 bit, or of the number 5 alone.
fn whole_field(alloc: Global, width: u8) -> Result<Field, AllocError>
    ensures valid { IfOk result (λ field. IsValidField field) }
    ensures kind { IfOk result (λ field. AreWhole (item_kind field.kind)) }
{
    let path = Octets::new(b"x".to_vec(alloc)?);
    if width == 3 {
        return Ok(Field {
            node: 1,
            path,
            kind: FieldKind::Int { min: 0, max: 7 },
            width: 3,
        });
    }
    if width == 1 {
        return Ok(Field {
            node: 1,
            path,
            kind: FieldKind::Int { min: 0, max: 1 },
            width: 1,
        });
    }
    Ok(Field {
        node: 1,
        path,
        kind: FieldKind::Int { min: 5, max: 5 },
        width: 0,
    })
}

// What one read answers, and its buffer afterwards.
#[derive(Clone, Copy, Debug, PartialEq, Eq)]
struct Seen {
    answer: Result<usize, Stopped>,
    out: [i64; 16],
}

// Goes to record `i`, and reads into so many places.
fn read(
    column: &mut Column,
    section: &Section,
    pages: &mut Pages<MemSource>,
    step: (u64, usize),
) -> Seen
    requires is { column.old.stream.section ≡ section.now }
    requires lies { LiesIn section.now (pages.old.length / page_length * payload_length) }
    requires kind { AreWhole (kind_of column.old.items) }
    ensures is { column.new.stream.section ≡ section.now }
    ensures items { column.new.items ≡ column.old.items }
    ensures length { pages.new.length ≡ pages.old.length }
{
    let mut out = [9; 16];
    let (i, places) = step;
    if let Err(stopped) = go(column, section, pages, i) {
        let answer = Err(stopped);
        return Seen { answer, out };
    }
    if !column.is_placed() || places > 16 {
        return Seen {
            answer: Ok(99),
            out,
        };
    }
    let answer = column.ints(pages, &mut out[..places]);
    Seen { answer, out }
}

// What four reads in a row answer.
fn read_four(
    alloc: Global,
    pages: &mut Pages<MemSource>,
    place: u64,
    count: u64,
    width: u8,
    steps: [(u64, usize); 4],
) -> Result<[Seen; 4], Fail> {
    if count == 0 || count > 100 {
        return Err(ReadFault::Source)?;
    }
    let section = open_section(pages, 1, place, count, 1)?;
    let field = whole_field(alloc, width)?;
    let mut column = Column::open(alloc, &section, 0, &field, None)?;
    let first = read(&mut column, &section, pages, steps[0]);
    let second = read(&mut column, &section, pages, steps[1]);
    let third = read(&mut column, &section, pages, steps[2]);
    let fourth = read(&mut column, &section, pages, steps[3]);
    Ok([first, second, third, fourth])
}

// A read that answers so many numbers of one digit, and leaves the other places as they were.
fn answers(digits: &[u8]) -> Seen {
    Seen {
        answer: Ok(digits.len()),
        out: numbers(digits),
    }
}

// A read that stopped behind these numbers.
fn halted(digits: &[u8], stopped: Stopped) -> Seen {
    Seen {
        answer: Err(stopped),
        out: numbers(digits),
    }
}

fn numbers(digits: &[u8]) -> [i64; 16] {
    let mut out = [9; 16];
    for i in 0..digits.len().min(16) {
        out[i] = (digits[i] % 16) as i64;
    }
    out
}

#[test]
fn integers(rt: HostRuntime) -> Result<(), Fail> {
    let source = |done| Stopped {
        done,
        fault: ReadFault::Source,
    };
    let target = |done| refused(done, Kind::IndexTarget, 1, 5);
    let all = answers(b"1010100001111");
    let fives = answers(b"5555555555555");
    let none = answers(b"");
    let answer = Ok(99);
    let unplaced = Seen { answer, ..none };
    let unindexed = refused(0, Kind::RestartUnindexed, 1, 92);
    let once = (48, TWO, AS_IT_IS, NEVER);
    let damaged = (48, TWO, (93, 0), NEVER);
    let alone = (48, TWO, (72, 0), NEVER);
    for (file, (count, width), steps, wanted) in [
        (
            (48, EIGHT, AS_IT_IS, NEVER),
            (8, 3),
            [(0, 1), (STAY, 0), (STAY, 5), (STAY, 9)],
            [answers(b"0"), none, answers(b"12345"), answers(b"67")],
        ),
        (
            once,
            (13, 1),
            [(0, 1), (STAY, 3), (STAY, 8), (STAY, 13)],
            [
                answers(b"1"),
                answers(b"010"),
                answers(b"10000111"),
                answers(b"1"),
            ],
        ),
        (
            once,
            (13, 1),
            [(4, 3), (5, 2), (12, 8), (0, 13)],
            [answers(b"100"), answers(b"00"), answers(b"1"), all],
        ),
        (
            damaged,
            (13, 1),
            [(13, 3), (0, 13), (STAY, 1), (3, 2)],
            [none, halted(b"10101", target(5)), unplaced, answers(b"01")],
        ),
        (
            alone,
            (13, 1),
            [(0, 8), (STAY, 1), (STAY, 1), (9, 4)],
            [
                answers(b"10101000"),
                halted(b"", unindexed),
                unplaced,
                halted(b"", unindexed),
            ],
        ),
        (
            once,
            (13, 0),
            [(0, 1), (STAY, 8), (12, 8), (0, 13)],
            [answers(b"5"), answers(b"55555555"), answers(b"5"), fives],
        ),
        (
            damaged,
            (13, 0),
            [(13, 3), (4, 8), (STAY, 1), (0, 5)],
            [none, halted(b"5", target(1)), unplaced, answers(b"55555")],
        ),
        (
            (968, APART, AS_IT_IS, 2),
            (8, 3),
            [(8, 3), (0, 9), (STAY, 1), (1, 9)],
            [
                none,
                halted(b"01", source(2)),
                unplaced,
                answers(b"1234567"),
            ],
        ),
    ] {
        let (place, section, edit, failing) = file;
        let mut pages = opened(rt.alloc(), place, section, edit, failing)?;
        let found = read_four(rt.alloc(), &mut pages, place as u64, count, width, steps)?;
        assert_eq!(rt; found, wanted, "{count} records of {width} bits");
    }
    Ok(())
}

// What one read of words answers, and its buffer afterwards.
#[derive(Clone, Copy, Debug, PartialEq, Eq)]
struct WordsSeen {
    answer: Result<usize, Stopped>,
    out: [u64; 4],
}

// A field of words of 32 or of 64 bits.
fn words_field(alloc: Global, kind: FieldKind, width: u8) -> Result<Field, AllocError>
    requires width { width ≡ kind_width (item_kind kind) }
    requires kind { AreLimits (item_kind kind) }
    ensures valid { IfOk result (λ field. IsValidField field) }
    ensures kind { IfOk result (λ field. field.kind ≡ kind) }
{
    let path = Octets::new(b"x".to_vec(alloc)?);
    Ok(Field {
        node: 1,
        path,
        kind,
        width,
    })
}

// Goes to record `i`, and reads words of 32 bits into four places.
fn read32(column: &mut Column, section: &Section, pages: &mut Pages<MemSource>, i: u64) -> WordsSeen
    requires is { column.old.stream.section ≡ section.now }
    requires lies { LiesIn section.now (pages.old.length / page_length * payload_length) }
    requires kind { kind_of column.old.items ≡ ItemKind.words 32 }
    ensures is { column.new.stream.section ≡ section.now }
    ensures items { column.new.items ≡ column.old.items }
    ensures length { pages.new.length ≡ pages.old.length }
{
    let mut out = [9; 4];
    if let Err(stopped) = go(column, section, pages, i) {
        return widened(Err(stopped), out);
    }
    if !column.is_placed() {
        return widened(Ok(99), out);
    }
    let answer = column.bits32(pages, &mut out);
    widened(answer, out)
}

fn widened(answer: Result<usize, Stopped>, out: [u32; 4]) -> WordsSeen {
    let [a, b, c, d] = out;
    WordsSeen {
        answer,
        out: [a as u64, b as u64, c as u64, d as u64],
    }
}

// The same of words of 64 bits.
fn read64(column: &mut Column, section: &Section, pages: &mut Pages<MemSource>, i: u64) -> WordsSeen
    requires is { column.old.stream.section ≡ section.now }
    requires lies { LiesIn section.now (pages.old.length / page_length * payload_length) }
    requires kind { kind_of column.old.items ≡ ItemKind.words 64 }
    ensures is { column.new.stream.section ≡ section.now }
    ensures items { column.new.items ≡ column.old.items }
    ensures length { pages.new.length ≡ pages.old.length }
{
    let mut out = [9; 4];
    if let Err(stopped) = go(column, section, pages, i) {
        let answer = Err(stopped);
        return WordsSeen { answer, out };
    }
    if !column.is_placed() {
        let answer = Ok(99);
        return WordsSeen { answer, out };
    }
    let answer = column.bits64(pages, &mut out);
    WordsSeen { answer, out }
}

// What three reads of words of 32 bits answer, where the items of the field tell of chunks or not.
fn read_three32(
    alloc: Global,
    pages: &mut Pages<MemSource>,
    tells: bool,
    steps: [u64; 3],
) -> Result<[WordsSeen; 3], Fail> {
    let section = open_section(pages, 1, 48, 3, 1)?;
    let field = words_field(alloc, FieldKind::Bits32, 32)?;
    let fixed = if tells {
        Some(Fixed { field: 0, bytes: 4 })
    } else {
        None
    };
    let mut column = Column::open(alloc, &section, 0, &field, fixed)?;
    let first = read32(&mut column, &section, pages, steps[0]);
    let second = read32(&mut column, &section, pages, steps[1]);
    let third = read32(&mut column, &section, pages, steps[2]);
    Ok([first, second, third])
}

// What three reads of words of 64 bits answer.
fn read_three64(
    alloc: Global,
    pages: &mut Pages<MemSource>,
    steps: [u64; 3],
) -> Result<[WordsSeen; 3], Fail> {
    let section = open_section(pages, 1, 48, 2, 1)?;
    let field = words_field(alloc, FieldKind::Bits64, 64)?;
    let fixed = Some(Fixed { field: 0, bytes: 8 });
    let mut column = Column::open(alloc, &section, 0, &field, fixed)?;
    let first = read64(&mut column, &section, pages, steps[0]);
    let second = read64(&mut column, &section, pages, steps[1]);
    let third = read64(&mut column, &section, pages, steps[2]);
    Ok([first, second, third])
}

#[test]
fn chunks_that_are_counted(rt: HostRuntime) -> Result<(), Fail> {
    let seen = |answer, out| WordsSeen { answer, out };
    let mut pages = opened(rt.alloc(), 48, PARTS, AS_IT_IS, NEVER)?;
    let found = read_three32(rt.alloc(), &mut pages, true, [0, 2, 1])?;
    assert_eq!(rt;
        found,
        [
            seen(Ok(3), [0x3f80_0000, 0x4000_0000, 0x4040_0000, 9]),
            seen(Ok(1), [0x4040_0000, 9, 9, 9]),
            seen(Ok(2), [0x4000_0000, 0x4040_0000, 9, 9]),
        ]
    );
    let found = read_three32(rt.alloc(), &mut pages, false, [0, STAY, 3])?;
    let restart = refused(1, Kind::RestartUnindexed, 1, 96);
    assert_eq!(rt;
        found,
        [
            seen(Err(restart), [0x3f80_0000, 9, 9, 9]),
            seen(Ok(99), [9; 4]),
            seen(Ok(0), [9; 4]),
        ]
    );
    let mut pages = opened(rt.alloc(), 48, LONG, AS_IT_IS, NEVER)?;
    let found = read_three64(rt.alloc(), &mut pages, [0, STAY, 1])?;
    assert_eq!(rt;
        found,
        [
            seen(Ok(2), [0x3ff0_0000_0000_0000, 0x4000_0000_0000_0000, 9, 9]),
            seen(Ok(0), [9; 4]),
            seen(Ok(1), [0x4000_0000_0000_0000, 9, 9, 9]),
        ]
    );
    Ok(())
}

// What one read of strings answers, and its buffers afterwards.
#[derive(Clone, Copy, Debug, PartialEq, Eq)]
struct StringsSeen {
    answer: Result<TextsRead, Stopped>,
    bytes: [u8; 4],
    ends: [u64; 3],
}

// Goes to record `i`, and reads strings into so many bytes and three ends.
fn read_texts(
    column: &mut Column,
    section: &Section,
    pages: &mut Pages<MemSource>,
    step: (u64, usize),
) -> StringsSeen
    requires is { column.old.stream.section ≡ section.now }
    requires lies { LiesIn section.now (pages.old.length / page_length * payload_length) }
    requires kind { kind_of column.old.items ≡ ItemKind.strings }
    ensures is { column.new.stream.section ≡ section.now }
    ensures items { column.new.items ≡ column.old.items }
    ensures length { pages.new.length ≡ pages.old.length }
{
    let mut bytes = *b"____";
    let mut ends = [7; 3];
    let (i, places) = step;
    if let Err(stopped) = go(column, section, pages, i) {
        let answer = Err(stopped);
        return StringsSeen {
            answer,
            bytes,
            ends,
        };
    }
    if !column.is_placed() || places > 4 {
        return filled(99, None, b"____", [7; 3]);
    }
    let answer = column.texts(pages, &mut bytes[..places], &mut ends);
    StringsSeen {
        answer,
        bytes,
        ends,
    }
}

// What four reads of strings in a row answer.
fn read_four_texts(
    alloc: Global,
    pages: &mut Pages<MemSource>,
    count: u64,
    steps: [(u64, usize); 4],
) -> Result<[StringsSeen; 4], Fail> {
    if count == 0 || count > 100 {
        return Err(ReadFault::Source)?;
    }
    let section = open_section(pages, 1, 48, count, 1)?;
    let field = words_field(alloc, FieldKind::Text, 0)?;
    let mut column = Column::open(alloc, &section, 0, &field, None)?;
    let first = read_texts(&mut column, &section, pages, steps[0]);
    let second = read_texts(&mut column, &section, pages, steps[1]);
    let third = read_texts(&mut column, &section, pages, steps[2]);
    let fourth = read_texts(&mut column, &section, pages, steps[3]);
    Ok([first, second, third, fourth])
}

fn filled(count: usize, need: Option<u64>, bytes: &[u8; 4], ends: [u64; 3]) -> StringsSeen {
    StringsSeen {
        answer: Ok(TextsRead { count, need }),
        bytes: *bytes,
        ends,
    }
}

#[test]
fn texts(rt: HostRuntime) -> Result<(), Fail> {
    let cut = StringsSeen {
        answer: Err(refused(1, Kind::StreamShort, 1, 1)),
        bytes: *b"a___",
        ends: [0, 7, 7],
    };
    let none = filled(0, None, b"____", [7; 3]);
    let needs = filled(0, Some(3), b"____", [7; 3]);
    let empty = filled(1, None, b"____", [0, 7, 7]);
    let unplaced = filled(99, None, b"____", [7; 3]);
    let onward = [
        empty,
        needs,
        filled(2, None, b"abcq", [3, 4, 7]),
        filled(3, None, b"abcq", [0, 3, 4]),
    ];
    let sought = [
        filled(1, None, b"q___", [1, 7, 7]),
        none,
        needs,
        filled(1, None, b"abc_", [3, 7, 7]),
    ];
    for (section, count, steps, wanted) in [
        (THREE, 3, [(0, 2), (STAY, 2), (STAY, 4), (0, 4)], onward),
        (BYTEWISE, 3, [(0, 2), (STAY, 2), (STAY, 4), (0, 4)], onward),
        (CHUNKS, 3, [(0, 2), (STAY, 2), (STAY, 4), (0, 4)], onward),
        (THREE, 3, [(2, 4), (3, 4), (1, 0), (STAY, 3)], sought),
        (BYTEWISE, 3, [(2, 4), (3, 4), (1, 0), (STAY, 3)], sought),
        (CHUNKS, 3, [(2, 4), (3, 4), (1, 0), (STAY, 3)], sought),
        (
            SHORT,
            2,
            [(0, 4), (STAY, 4), (0, 2), (STAY, 2)],
            [cut, unplaced, empty, needs],
        ),
    ] {
        let mut pages = opened(rt.alloc(), 48, section, AS_IT_IS, NEVER)?;
        let found = read_four_texts(rt.alloc(), &mut pages, count, steps)?;
        assert_eq!(rt; found, wanted);
    }
    Ok(())
}
