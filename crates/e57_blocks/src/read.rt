//! Items read into a buffer.

ghost use Rattle.std.specs.Prelude.{◌≡◌, ◌+◌, ◌*◌, ◌/◌, ◌<◌, ◌≤◌, min, true, length, get_or, pos, None, Some, Ok, MatchResult};
ghost use Rattle.e57_base.specs.Source.{page_length};
ghost use Rattle.e57_page.specs.Place.{payload_length};
ghost use Rattle.e57_layout.specs.Values.{ItemKind, whole, word};
ghost use Rattle.e57_section.specs.Opening.{LiesIn};
ghost use Rattle.e57_column.specs.Column.{kind_of, placed};
ghost use Rattle.e57_column.specs.Reading.{SeeksNot, AreWhole, is_quiet};
ghost use Rattle.e57_blocks.specs.Block.{item_in, places_of, room_of, IsFor, AreInside};
ghost use Rattle.e57_blocks.specs.Filling.{Gets, GetsNot, IsGrown, IsStill, PlacedAt, Places, PlacesNone, got_of};

use crate::buffer::{Buffer, Got, places};
use crate::texts::read_texts;
use e57_base::{Fault, OpenFault, ReadFault, Source};
use e57_column::Column;
use e57_page::Pages;

/// Reads items from record `i` on into a buffer: at most `want`, and at most as many as it has places. A column that isn't
/// placed is placed at that record first.
pub fn read_block<S: Source>(
    column: &mut Column,
    buffer: &mut Buffer,
    pages: &mut Pages<S>,
    i: u64,
    want: usize,
) -> Result<Got, OpenFault>
    requires lies { LiesIn column.old.stream.section (pages.old.length / page_length * payload_length) }
    requires kind { IsFor buffer.old (kind_of column.old.items) }
    requires still { IsStill i (placed column.old) }
    requires places { 0 < places_of buffer.old }
    requires some { 0 < want }
    requires left { i + want ≤ column.old.stream.section.count }
    ensures length { pages.new.length ≡ pages.old.length }
    ensures header { pages.new.header ≡ pages.old.header }
    ensures kind { IsFor buffer.new (kind_of column.old.items) }
    ensures places { places_of buffer.new ≡ places_of buffer.old }
    ensures room { IsGrown (S.view pages.old.source) column.old i (room_of buffer.old) (room_of buffer.new) }
    ensures gets { MatchResult result
        (λ got. Gets (S.view pages.old.source) column.old i (min want (places_of buffer.old)) got (item_in buffer.new) (S.view pages.new.source) column.new × AreInside got.count buffer.new)
        (λ lost. GetsNot (S.view pages.old.source) column.old i (min want (places_of buffer.old)) (room_of buffer.old) lost (S.view pages.new.source) column.new) }
{
    if let Err(fault) = place(column, pages, i) {
        return got(0, fault);
    }
    let want = fewer(want, places(buffer));
    match buffer {
        Buffer::Ints(items) => read_ints(column, pages, i, items, want),
        Buffer::Bits32(items) => read_bits32(column, pages, i, items, want),
        Buffer::Bits64(items) => read_bits64(column, pages, i, items, want),
        Buffer::Texts(texts) => {
            read_texts(column, pages, i, &mut texts.bytes, &mut texts.ends, want)
        }
    }
}

/// Places the column at record `i`, unless it is placed there.
fn place<S: Source>(column: &mut Column, pages: &mut Pages<S>, i: u64) -> Result<(), ReadFault>
    requires lies { LiesIn column.old.stream.section (pages.old.length / page_length * payload_length) }
    requires still { IsStill i (placed column.old) }
    requires within { i ≤ column.old.stream.section.count }
    ensures length { pages.new.length ≡ pages.old.length }
    ensures header { pages.new.header ≡ pages.old.header }
    ensures places { MatchResult result
        (λ _. PlacedAt (S.view pages.old.source) column.old i 1 (S.view pages.new.source) column.new)
        (λ fault. SeeksNot (S.view pages.old.source) column.old i fault (S.view pages.new.source) column.new) }
{
    if column.is_placed() {
        return Ok(());
    }
    column.seek(pages, i)
}

/// Places the column at record `i` anew, or answers the fault that this record has.
pub fn place_anew<S: Source>(
    column: &mut Column,
    pages: &mut Pages<S>,
    i: u64,
) -> Result<Option<Fault>, OpenFault>
    requires lies { LiesIn column.old.stream.section (pages.old.length / page_length * payload_length) }
    requires within { i ≤ column.old.stream.section.count }
    ensures length { pages.new.length ≡ pages.old.length }
    ensures header { pages.new.header ≡ pages.old.header }
    ensures quiet { is_quiet column.old i ≡ true → (result ≡ Ok None) × (pages.new ≡ pages.old) }
    ensures places { MatchResult result
        (λ fault. Places (S.view pages.old.source) column.old i fault (S.view pages.new.source) column.new)
        (λ lost. PlacesNone (S.view pages.old.source) column.old i lost (S.view pages.new.source) column.new) }
{
    match column.seek(pages, i) {
        Ok(()) => Ok(None),
        Err(ReadFault::Refused(fault)) => Ok(Some(fault)),
        Err(ReadFault::Source) => Err(OpenFault::Source),
    }
}

/// What was read before a stop.
pub fn got(count: usize, fault: ReadFault) -> Result<Got, OpenFault>
    ensures { result ≡ got_of count fault }
{
    match fault {
        ReadFault::Refused(found) => Ok(Got {
            count,
            fault: Some(found),
        }),
        ReadFault::Source => Err(OpenFault::Source),
    }
}

/// The smaller of the two.
pub fn fewer(a: usize, b: usize) -> usize
    ensures { result ≡ min a b }
{
    if a < b { a } else { b }
}

/// Reads integers from the column's record `i` on to the front of `out`, `want` of them.
fn read_ints<S: Source>(
    column: &mut Column,
    pages: &mut Pages<S>,
    i: u64,
    out: &mut [i64],
    want: usize,
) -> Result<Got, OpenFault>
    requires lies { LiesIn column.old.stream.section (pages.old.length / page_length * payload_length) }
    requires kind { AreWhole (kind_of column.old.items) }
    requires placed { placed column.old ≡ Some i }
    requires some { 0 < want }
    requires fits { want ≤ length out.old }
    requires left { i + want ≤ column.old.stream.section.count }
    ensures length { pages.new.length ≡ pages.old.length }
    ensures header { pages.new.header ≡ pages.old.header }
    ensures places { length out.new ≡ length out.old }
    ensures gets { MatchResult result
        (λ got. Gets (S.view pages.old.source) column.old i want got (λ k. whole (get_or out.new k (pos 0))) (S.view pages.new.source) column.new)
        (λ lost. GetsNot (S.view pages.old.source) column.old i want 0 lost (S.view pages.new.source) column.new) }
{
    match column.ints(pages, &mut out[..want]) {
        Ok(count) => Ok(Got { count, fault: None }),
        Err(stopped) => got(stopped.done, stopped.fault),
    }
}

/// Reads words of 32 bits from the column's record `i` on to the front of `out`, `want` of them.
fn read_bits32<S: Source>(
    column: &mut Column,
    pages: &mut Pages<S>,
    i: u64,
    out: &mut [u32],
    want: usize,
) -> Result<Got, OpenFault>
    requires lies { LiesIn column.old.stream.section (pages.old.length / page_length * payload_length) }
    requires kind { kind_of column.old.items ≡ ItemKind.words 32 }
    requires placed { placed column.old ≡ Some i }
    requires some { 0 < want }
    requires fits { want ≤ length out.old }
    requires left { i + want ≤ column.old.stream.section.count }
    ensures length { pages.new.length ≡ pages.old.length }
    ensures header { pages.new.header ≡ pages.old.header }
    ensures places { length out.new ≡ length out.old }
    ensures gets { MatchResult result
        (λ got. Gets (S.view pages.old.source) column.old i want got (λ k. word (get_or out.new k 0)) (S.view pages.new.source) column.new)
        (λ lost. GetsNot (S.view pages.old.source) column.old i want 0 lost (S.view pages.new.source) column.new) }
{
    match column.bits32(pages, &mut out[..want]) {
        Ok(count) => Ok(Got { count, fault: None }),
        Err(stopped) => got(stopped.done, stopped.fault),
    }
}

/// Reads words of 64 bits from the column's record `i` on to the front of `out`, `want` of them.
fn read_bits64<S: Source>(
    column: &mut Column,
    pages: &mut Pages<S>,
    i: u64,
    out: &mut [u64],
    want: usize,
) -> Result<Got, OpenFault>
    requires lies { LiesIn column.old.stream.section (pages.old.length / page_length * payload_length) }
    requires kind { kind_of column.old.items ≡ ItemKind.words 64 }
    requires placed { placed column.old ≡ Some i }
    requires some { 0 < want }
    requires fits { want ≤ length out.old }
    requires left { i + want ≤ column.old.stream.section.count }
    ensures length { pages.new.length ≡ pages.old.length }
    ensures header { pages.new.header ≡ pages.old.header }
    ensures places { length out.new ≡ length out.old }
    ensures gets { MatchResult result
        (λ got. Gets (S.view pages.old.source) column.old i want got (λ k. word (get_or out.new k 0)) (S.view pages.new.source) column.new)
        (λ lost. GetsNot (S.view pages.old.source) column.old i want 0 lost (S.view pages.new.source) column.new) }
{
    match column.bits64(pages, &mut out[..want]) {
        Ok(count) => Ok(Got { count, fault: None }),
        Err(stopped) => got(stopped.done, stopped.fault),
    }
}
