//! A column whose items are judged.

ghost use Rattle.std.specs.Prelude.{◌≡◌, ◌+◌, ◌*◌, ◌/◌, ◌<◌, ◌≤◌, Some, MatchResult};
ghost use Rattle.e57_base.specs.Source.{page_length};
ghost use Rattle.e57_page.specs.Place.{payload_length};
ghost use Rattle.e57_layout.specs.Values.{ItemKind, IsValidField, item_kind};
ghost use Rattle.e57_section.specs.Opening.{LiesIn};
ghost use Rattle.e57_column.specs.Column.{kind_of, placed};
ghost use Rattle.e57_column.specs.Reading.{AreWhole, SameField};
ghost use Rattle.e57_check.specs.Starts.{IsField, IsWidth};
ghost use Rattle.e57_check.specs.Sorts.{item_sort};
ghost use Rattle.e57_check.specs.Judging.{ReadsBlock, ReadsNoBlock, OpensColumn, OpensNoColumn};

use crate::block::{BLOCK, Block, read_texts};
use e57_base::{OpenFault, Source};
use e57_column::Column;
use e57_layout::{Field, FieldKind, Fixed, Section};
use e57_page::Pages;
use std::alloc::Global;
use std::marker::Model;

/// What the items of a field are.
#[derive(Clone, Copy, Debug, PartialEq, Eq)]
pub enum Sort {
    /// Integers, scaled or not.
    Whole,
    /// Floating point numbers of 32 bits.
    Words32,
    /// Floating point numbers of 64 bits.
    Words64,
    /// Strings.
    Strings,
}

/// A column whose items are judged, and what they are.
#[derive(Drop)]
pub struct Judge {
    column: Column,
    sort: Sort,
}

impl Model for Judge {
    ghost use Rattle.std.specs.Prelude.{◌≡◌};
    ghost use Rattle.e57_column.specs.declared.state.State.{State};
    ghost use Rattle.e57_column.specs.Column.{kind_of};
    ghost use Rattle.e57_check.specs.Sorts.{item_sort};

    ghost Value = { State };

    ghost view = { λ judge. judge.column };

    ghost invariant = { λ judge. item_sort (kind_of judge.column.items) ≡ judge.sort };
}

impl Judge {
    /// The logical place up to which the column took packets of the chunk in which it stood last; 0 if it stood in none.
    pub fn taken(&self) -> u64 {
        self.column.taken()
    }
}

/// Opens the column of field `f`, at its first record.
pub fn open_column<S: Source>(
    alloc: Global,
    section: &Section,
    fixed: Option<Fixed>,
    f: u16,
    field: &Field,
    pages: &mut Pages<S>,
) -> Result<Judge, OpenFault>
    requires lies { LiesIn section.now (pages.old.length / page_length * payload_length) }
    requires is_field { f < section.now.fields }
    requires valid { IsValidField field.now }
    requires fixed_field { IsField section.now fixed }
    requires fixed_width { IsWidth fixed }
    ensures length { pages.new.length ≡ pages.old.length }
    ensures header { pages.new.header ≡ pages.old.header }
    ensures opened { let count = pages.old.length / page_length in MatchResult result
        (λ column. OpensColumn count (S.view pages.old.source) section.now fixed f (record { node = field.now.node; kind = item_kind field.now.kind }) column (S.view pages.new.source))
        (λ found. OpensNoColumn count (S.view pages.old.source) section.now fixed f (record { node = field.now.node; kind = item_kind field.now.kind }) found (S.view pages.new.source)) }
{
    let Ok(mut column) = Column::open(alloc, section, f, field, fixed) else {
        return Err(OpenFault::Memory);
    };
    if let Err(fault) = column.seek(pages, 0) {
        return Err(OpenFault::from(fault));
    }
    Ok(Judge {
        column,
        sort: sort_of(field),
    })
}

/// What the items of a field are.
fn sort_of(field: &Field) -> Sort
    ensures { result ≡ item_sort (item_kind field.now.kind) }
{
    match field.kind {
        FieldKind::Int { .. } | FieldKind::Scaled { .. } => Sort::Whole,
        FieldKind::Bits32 => Sort::Words32,
        FieldKind::Bits64 => Sort::Words64,
        FieldKind::Text => Sort::Strings,
    }
}

/// Reads the `n` items from record `at` on, or names their first fault.
pub fn read_block<S: Source>(
    judge: &mut Judge,
    block: &mut Block,
    pages: &mut Pages<S>,
    at: u64,
    n: usize,
) -> Result<(), OpenFault>
    requires lies { LiesIn judge.old.stream.section (pages.old.length / page_length * payload_length) }
    requires placed { placed judge.old ≡ Some at }
    requires few { n ≤ 1024 }
    requires left { at + n ≤ judge.old.stream.section.count }
    ensures length { pages.new.length ≡ pages.old.length }
    ensures header { pages.new.header ≡ pages.old.header }
    ensures block { let count = pages.old.length / page_length in MatchResult result
        (λ _. ReadsBlock count (S.view pages.old.source) judge.old at n (S.view pages.new.source) judge.new)
        (λ found. ReadsNoBlock count (S.view pages.old.source) judge.old at n found (S.view pages.new.source)) }
{
    match judge.sort {
        Sort::Whole => read_ints(&mut judge.column, pages, at, n),
        Sort::Words32 => read_bits32(&mut judge.column, pages, at, n),
        Sort::Words64 => read_bits64(&mut judge.column, pages, at, n),
        Sort::Strings => read_texts(&mut judge.column, block, pages, at, n),
    }
}

/// The same of integers.
fn read_ints<S: Source>(
    column: &mut Column,
    pages: &mut Pages<S>,
    at: u64,
    n: usize,
) -> Result<(), OpenFault>
    requires lies { LiesIn column.old.stream.section (pages.old.length / page_length * payload_length) }
    requires kind { AreWhole (kind_of column.old.items) }
    requires placed { placed column.old ≡ Some at }
    requires few { n ≤ 1024 }
    requires left { at + n ≤ column.old.stream.section.count }
    ensures length { pages.new.length ≡ pages.old.length }
    ensures header { pages.new.header ≡ pages.old.header }
    ensures same { SameField column.old column.new }
    ensures block { let count = pages.old.length / page_length in MatchResult result
        (λ _. ReadsBlock count (S.view pages.old.source) column.old at n (S.view pages.new.source) column.new)
        (λ found. ReadsNoBlock count (S.view pages.old.source) column.old at n found (S.view pages.new.source)) }
{
    let mut out = [0; BLOCK];
    match column.ints(pages, &mut out[..n]) {
        Ok(_read) => Ok(()),
        Err(stopped) => Err(OpenFault::from(stopped.fault)),
    }
}

/// The same of words of 32 bits.
fn read_bits32<S: Source>(
    column: &mut Column,
    pages: &mut Pages<S>,
    at: u64,
    n: usize,
) -> Result<(), OpenFault>
    requires lies { LiesIn column.old.stream.section (pages.old.length / page_length * payload_length) }
    requires kind { kind_of column.old.items ≡ ItemKind.words 32 }
    requires placed { placed column.old ≡ Some at }
    requires few { n ≤ 1024 }
    requires left { at + n ≤ column.old.stream.section.count }
    ensures length { pages.new.length ≡ pages.old.length }
    ensures header { pages.new.header ≡ pages.old.header }
    ensures same { SameField column.old column.new }
    ensures block { let count = pages.old.length / page_length in MatchResult result
        (λ _. ReadsBlock count (S.view pages.old.source) column.old at n (S.view pages.new.source) column.new)
        (λ found. ReadsNoBlock count (S.view pages.old.source) column.old at n found (S.view pages.new.source)) }
{
    let mut out = [0; BLOCK];
    match column.bits32(pages, &mut out[..n]) {
        Ok(_read) => Ok(()),
        Err(stopped) => Err(OpenFault::from(stopped.fault)),
    }
}

/// The same of words of 64 bits.
fn read_bits64<S: Source>(
    column: &mut Column,
    pages: &mut Pages<S>,
    at: u64,
    n: usize,
) -> Result<(), OpenFault>
    requires lies { LiesIn column.old.stream.section (pages.old.length / page_length * payload_length) }
    requires kind { kind_of column.old.items ≡ ItemKind.words 64 }
    requires placed { placed column.old ≡ Some at }
    requires few { n ≤ 1024 }
    requires left { at + n ≤ column.old.stream.section.count }
    ensures length { pages.new.length ≡ pages.old.length }
    ensures header { pages.new.header ≡ pages.old.header }
    ensures same { SameField column.old column.new }
    ensures block { let count = pages.old.length / page_length in MatchResult result
        (λ _. ReadsBlock count (S.view pages.old.source) column.old at n (S.view pages.new.source) column.new)
        (λ found. ReadsNoBlock count (S.view pages.old.source) column.old at n found (S.view pages.new.source)) }
{
    let mut out = [0; BLOCK];
    match column.bits64(pages, &mut out[..n]) {
        Ok(_read) => Ok(()),
        Err(stopped) => Err(OpenFault::from(stopped.fault)),
    }
}
