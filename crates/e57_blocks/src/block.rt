//! Items of one field, read ahead.

ghost use Rattle.std.specs.Prelude.{◌≡◌, ℕ, ◌+◌, ◌-◌, ◌*◌, ◌/◌, ◌^◌, ◌<◌, ◌≤◌, true, None, length, get_or, take, drop, IfOk, IfSome, IsOk, MatchResult};
ghost use Rattle.e57_base.specs.Source.{page_length};
ghost use Rattle.e57_page.specs.Place.{payload_length};
ghost use Rattle.e57_layout.specs.Values.{IsValidField};
ghost use Rattle.e57_layout.specs.Items.{AreItems};
ghost use Rattle.e57_section.specs.Opening.{LiesIn};
ghost use Rattle.e57_ahead.specs.Counting.{IsWidth};
ghost use Rattle.e57_texts.specs.Reading.{begin_of, end_of, string_held};
ghost use Rattle.e57_column.specs.Column.{kind_of};
ghost use Rattle.e57_column.specs.Reading.{is_quiet};
ghost use Rattle.e57_blocks.specs.Block.{held_item, has_record, item_value, IsKept, IsOfKind, IsKnown};
ghost use Rattle.e57_blocks.specs.Filling.{OpensBlock, IsNextOf, Fills, FillsNot, PlacesBlock, PlacesNot, most_places};
ghost use Rattle.e57_blocks.specs.Runs.{run_values, held_values, HasRecords, IsRunInside, IsRunOf};

use crate::buffer::{Buffer, Texts, new_buffer};
use crate::read::{place_anew, read_block};
use e57_base::{Fault, OpenFault, Source};
use e57_column::Column;
use e57_layout::{Field, Fixed, Section};
use e57_page::Pages;
use std::alloc::{AllocError, Global};
use std::marker::Model;

/// Items of one field of a cloud that were read ahead: those of some records in a row, and the fault of the record behind the
/// last one, if it has one (ASTM E2807, compressed vector binary sections).
///
/// It holds items of a file if its column stands in that file and the items and the fault are the file's. A new one holds items
/// of every file, and each call on the pages of a file of which it holds items leaves it so, refused or not.
#[derive(Drop)]
pub struct FieldBlock {
    column: Column,
    buffer: Buffer,
    first: u64,
    count: usize,
    fault: Option<Fault>,
}

impl Model for FieldBlock {
    ghost use Rattle.e57_blocks.specs.Block.{Block, IsBlock};

    ghost Value = { Block };

    ghost view = { λ b. record { column = b.column; buffer = b.buffer; first = b.first; count = b.count; fault = b.fault } };

    ghost invariant = { λ b. IsBlock (record { column = b.column; buffer = b.buffer; first = b.first; count = b.count; fault = b.fault }) };
}

/// An item of a record.
#[derive(Clone, Copy, Debug, PartialEq, Eq)]
pub enum Item<'a> {
    /// An integer, scaled or not.
    Whole(i64),
    /// A floating point number of 32 bits, as a word.
    Word32(u32),
    /// A floating point number of 64 bits, as a word.
    Word64(u64),
    /// The bytes of a string.
    Text(&'a [u8]),
}

/// Items of records in a row.
#[derive(Clone, Copy, Debug, PartialEq, Eq)]
pub enum Run<'a> {
    /// Integers, scaled or not.
    Ints(&'a [i64]),
    /// Floating point numbers of 32 bits, as words.
    Bits32(&'a [u32]),
    /// Floating point numbers of 64 bits, as words.
    Bits64(&'a [u64]),
    /// Strings, one behind another in `bytes`: the first one begins at `begin`, and each ends at its end.
    Texts {
        bytes: &'a [u8],
        begin: usize,
        ends: &'a [u64],
    },
}

impl FieldBlock {
    /// A block for up to `places` items of field `f` of the section's cloud, from 1 to 65,536. It holds none yet. `fixed` is the
    /// cloud's first Float field, if it has one.
    ///
    /// It takes the memory of a column and of its places here, and of a field of strings 65,536 bytes for them. Only a string
    /// that needs more takes more later.
    pub fn open(
        alloc: Global,
        section: &Section,
        f: u16,
        field: &Field,
        fixed: Option<Fixed>,
        places: usize,
    ) -> Result<FieldBlock, AllocError>
        requires is_field { f < section.now.fields }
        requires valid { IsValidField field.now }
        requires fixed { IfSome fixed (λ x. (x.field < section.now.fields) × IsWidth x) }
        requires some { 0 < places }
        requires few { places ≤ most_places }
        ensures { IfOk result (λ block. OpensBlock section.now f field.now fixed places block) }
    {
        let column = Column::open(alloc, section, f, field, fixed)?;
        let buffer = new_buffer(alloc, field, places)?;
        Ok(FieldBlock {
            column,
            buffer,
            first: 0,
            count: 0,
            fault: None,
        })
    }

    /// Reads the next items, from record `i` on: at most `want`, and at most as many as there are places. The items before are
    /// gone. Record `i` is the one behind the last item, or any if the block is new; it and the `want - 1` records behind it are
    /// records of the section.
    ///
    /// One item at least is held afterwards, or the fault of record `i`: a fault isn't answered but kept, behind the items that
    /// come before it. Of numbers all these items are held, unless a fault is.
    ///
    /// `Source` says that the source failed, `Memory` that a string needs more memory than the block has and there is none. The
    /// block holds nothing then, and record `i` can be read again. What room there is for strings stays, in either case.
    pub fn fill<S: Source>(
        &mut self,
        pages: &mut Pages<S>,
        i: u64,
        want: usize,
    ) -> Result<(), OpenFault>
        requires lies { LiesIn self.old.column.stream.section (pages.old.length / page_length * payload_length) }
        requires next { IsNextOf self.old i }
        requires some { 0 < want }
        requires left { i + want ≤ self.old.column.stream.section.count }
        ensures length { pages.new.length ≡ pages.old.length }
        ensures header { pages.new.header ≡ pages.old.header }
        ensures fills { MatchResult result
            (λ _. Fills (S.view pages.old.source) self.old i want (S.view pages.new.source) self.new)
            (λ lost. FillsNot (S.view pages.old.source) self.old i want lost (S.view pages.new.source) self.new) }
    {
        let answer = read_block(&mut self.column, &mut self.buffer, pages, i, want);
        self.first = i;
        match answer {
            Ok(got) => {
                self.count = got.count;
                self.fault = got.fault;
                Ok(())
            }
            Err(lost) => {
                self.count = 0;
                self.fault = None;
                Err(lost)
            }
        }
    }

    /// Places the block anew at record `i`, also past a fault, or behind the last record, if `i` is the number of records. What it
    /// held is gone. Record `i` is the one that is read next, or it has a fault: that isn't answered but kept.
    ///
    /// `Source` says that the source failed. Record `i` can be read next then, too. It takes no memory.
    pub fn seek<S: Source>(&mut self, pages: &mut Pages<S>, i: u64) -> Result<(), OpenFault>
        requires lies { LiesIn self.old.column.stream.section (pages.old.length / page_length * payload_length) }
        requires within { i ≤ self.old.column.stream.section.count }
        ensures length { pages.new.length ≡ pages.old.length }
        ensures header { pages.new.header ≡ pages.old.header }
        ensures quiet { is_quiet self.old.column i ≡ true → IsOk result × (self.new.fault ≡ None) × (pages.new ≡ pages.old) }
        ensures places { MatchResult result
            (λ _. PlacesBlock (S.view pages.old.source) self.old i (S.view pages.new.source) self.new)
            (λ lost. PlacesNot (S.view pages.old.source) self.old i lost (S.view pages.new.source) self.new) }
    {
        let answer = place_anew(&mut self.column, pages, i);
        self.first = i;
        self.count = 0;
        match answer {
            Ok(fault) => {
                self.fault = fault;
                Ok(())
            }
            Err(lost) => {
                self.fault = None;
                Err(lost)
            }
        }
    }

    /// The number of the first record whose item is held.
    pub fn first(&self) -> u64
        ensures { result ≡ self.now.first }
    {
        self.first
    }

    /// How many items are held.
    pub fn len(&self) -> usize
        ensures { result ≡ self.now.count }
    {
        self.count
    }

    /// The fault of the record behind the last item, if it has one.
    pub fn fault(&self) -> Option<Fault>
        ensures fault { result ≡ self.now.fault }
        ensures known { IsKnown result }
    {
        self.fault
    }

    /// Whether the item of record `i` is held.
    pub fn has(&self, i: u64) -> bool
        ensures { result ≡ has_record self.now i }
    {
        self.first <= i && i - self.first < self.count as u64
    }

    /// The item of record `i`, which is held. An integer is within the limits of its field, a word has its field's width, and a
    /// string has at most 2^24 bytes.
    pub fn item(&self, i: u64) -> Item<'_>
        requires { has_record self.now i ≡ true }
        ensures item { item_value result ≡ held_item self.now (i - self.now.first) }
        ensures of_kind { IsOfKind (kind_of self.now.column.items) result }
        ensures kept { IsKept (kind_of self.now.column.items) (held_item self.now (i - self.now.first)) }
    {
        let k = (i - self.first) as usize;
        match &self.buffer {
            Buffer::Ints(items) => Item::Whole(items[k]),
            Buffer::Bits32(items) => Item::Word32(items[k]),
            Buffer::Bits64(items) => Item::Word64(items[k]),
            Buffer::Texts(texts) => Item::Text(text(texts, k)),
        }
    }

    /// The items of the `n` records from record `i` on, which are held. Integers are within the limits of their field, words have
    /// its width, and strings have at most 2^24 bytes.
    pub fn run(&self, i: u64, n: usize) -> Run<'_>
        requires { HasRecords i n self.now }
        ensures values { run_values result ≡ held_values self.now i n }
        ensures of_kind { IsRunOf (kind_of self.now.column.items) result }
        ensures within { AreItems (kind_of self.now.column.items) (run_values result) }
        ensures inside { IsRunInside result }
    {
        let k = (i - self.first) as usize;
        match &self.buffer {
            Buffer::Ints(items) => Run::Ints(&items[k..k + n]),
            Buffer::Bits32(items) => Run::Bits32(part32(items, k, n)),
            Buffer::Bits64(items) => Run::Bits64(part64(items, k, n)),
            Buffer::Texts(texts) => Run::Texts {
                bytes: &texts.bytes,
                begin: begin_at(&texts.ends, k),
                ends: &texts.ends[k..k + n],
            },
        }
    }
}

/// The `n` words from word `k` on.
fn part32(items: &[u32], k: usize, n: usize) -> &[u32]
    requires { k + n ≤ length items.now }
    ensures part { result.now ≡ take n (drop k items.now) }
    ensures small { (j : ℕ) → get_or items.now j 0 < 2 ^ 32 }
{
    &items[k..k + n]
}

/// The `n` words from word `k` on.
fn part64(items: &[u64], k: usize, n: usize) -> &[u64]
    requires { k + n ≤ length items.now }
    ensures part { result.now ≡ take n (drop k items.now) }
    ensures small { (j : ℕ) → get_or items.now j 0 < 2 ^ 64 }
{
    &items[k..k + n]
}

/// Where string `k` begins.
fn begin_at(ends: &[u64], k: usize) -> usize
    requires { k ≤ length ends.now }
    ensures { result ≡ begin_of 0 ends.now k }
{
    if k == 0 { 0 } else { ends[k - 1] as usize }
}

/// String `k`.
fn text(texts: &Texts, k: usize) -> &[u8]
    requires order { begin_of 0 texts.now.ends.items k ≤ end_of texts.now.ends.items k }
    requires inside { end_of texts.now.ends.items k ≤ length texts.now.bytes.items }
    requires is_held { k < length texts.now.ends.items }
    ensures { result.now ≡ string_held 0 texts.now.bytes.items texts.now.ends.items k }
{
    let begin = if k == 0 { 0 } else { texts.ends[k - 1] };
    let end = texts.ends[k];
    &texts.bytes[begin as usize..end as usize]
}
