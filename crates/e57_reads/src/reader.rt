//! A column of a file in memory, with the file's pages.

ghost use Rattle.std.specs.Prelude.{◌≡◌, ◌*◌, ◌/◌, ◌<◌, IfOk, IfSome};
ghost use Rattle.e57_base.specs.Source.{page_length};
ghost use Rattle.e57_page.specs.Place.{payload_length};
ghost use Rattle.e57_layout.specs.Values.{item_kind, IsValidField};
ghost use Rattle.e57_section.specs.Opening.{LiesIn};
ghost use Rattle.e57_ahead.specs.Counting.{IsWidth};
ghost use Rattle.e57_column.specs.Column.{kind_of};

use crate::fields::{text_field, whole_field};
use crate::made::NODE;
use e57_base::{MemSource, ReadFault};
use e57_column::{Column, Stopped, TextsRead};
use e57_layout::{Field, Fixed};
use e57_page::Pages;
use e57_section::open_section;
use std::alloc::Global;
use std::marker::Model;
use std::test::Fail;

/// How many records a cloud has, how many fields a record has, which of these is read, and which one is the first Float field.
#[derive(Clone, Copy)]
pub struct Shape {
    pub count: u64,
    pub fields: u16,
    pub field: u16,
    pub float: Option<u16>,
}

/// The column of a field of integers or of strings, and the pages of its file.
#[derive(Drop)]
pub struct Reader {
    pages: Pages<MemSource>,
    column: Column,
    count: u64,
    is_text: bool,
}

impl Model for Reader {
    ghost use Rattle.std.specs.Prelude.{◌≡◌, ◌*◌, ◌/◌, ℕ, true, false};
    ghost use Rattle.e57_base.specs.Source.{page_length};
    ghost use Rattle.e57_page.specs.Place.{payload_length};
    ghost use Rattle.e57_layout.specs.Values.{ItemKind};
    ghost use Rattle.e57_section.specs.Opening.{LiesIn};
    ghost use Rattle.e57_column.specs.Column.{kind_of};
    ghost use Rattle.e57_column.specs.Reading.{AreWhole};

    ghost Value = { ℕ };

    ghost view = { λ r. r.count };

    ghost invariant = { λ r. LiesIn r.column.stream.section (r.pages.length / page_length * payload_length)
        × (r.column.stream.section.count ≡ r.count)
        × (r.is_text ≡ true → kind_of r.column.items ≡ ItemKind.strings)
        × (r.is_text ≡ false → AreWhole (kind_of r.column.items)) };
}

impl Reader {
    /// A column of integers of `width` bits from `low` to `high`, in the section at place 48.
    pub fn numbers(
        alloc: Global,
        mut pages: Pages<MemSource>,
        shape: Shape,
        low: i64,
        high: i64,
        width: u8,
    ) -> Result<Reader, Fail> {
        let field = whole_field(alloc, low, high, width)?;
        let (column, count) = open_column(alloc, &mut pages, shape, &field)?;
        Ok(Reader {
            pages,
            column,
            count,
            is_text: false,
        })
    }

    /// A column of strings.
    pub fn texts(alloc: Global, mut pages: Pages<MemSource>, shape: Shape) -> Result<Reader, Fail> {
        let field = text_field(alloc)?;
        let (column, count) = open_column(alloc, &mut pages, shape, &field)?;
        Ok(Reader {
            pages,
            column,
            count,
            is_text: true,
        })
    }

    /// Goes to record `i`, which is at most the number of records, or stays.
    pub fn go(&mut self, i: u64) -> Result<(), Stopped> {
        if i == STAY {
            return Ok(());
        }
        if i > self.count {
            return Err(NOT_CALLED);
        }
        match self.column.seek(&mut self.pages, i) {
            Ok(()) => Ok(()),
            Err(fault) => Err(Stopped { done: 0, fault }),
        }
    }

    /// Whether the column is placed.
    pub fn is_placed(&self) -> bool {
        self.column.is_placed()
    }

    /// Whether the column is placed, and so many records behind record `i`, unless it stayed.
    pub fn stands_behind(&self, i: u64, count: usize) -> bool {
        self.column.is_placed() && (i == STAY || self.column.at() == i.wrapping_add(count as u64))
    }

    /// The place up to which packets were taken.
    pub fn taken(&self) -> u64 {
        self.column.taken()
    }

    /// Reads integers, if the column is placed and has integers.
    pub fn ints(&mut self, out: &mut [i64]) -> Result<usize, Stopped> {
        if self.is_text || !self.column.is_placed() {
            return Err(NOT_CALLED);
        }
        self.column.ints(&mut self.pages, out)
    }

    /// Reads strings, if the column is placed and has strings.
    pub fn strings(&mut self, bytes: &mut [u8], ends: &mut [u64]) -> Result<TextsRead, Stopped> {
        if !self.is_text || !self.column.is_placed() {
            return Err(NOT_CALLED);
        }
        self.column.texts(&mut self.pages, bytes, ends)
    }

    /// The source, with its log.
    pub fn into_source(self) -> MemSource {
        let Reader { pages, .. } = self;
        pages.into_source()
    }
}

/// No record to go to.
pub const STAY: u64 = u64::MAX;

/// The answer of a read that has nothing to read from.
pub const NOT_CALLED: Stopped = Stopped {
    done: 99,
    fault: ReadFault::Source,
};

// The column of this field in the section at place 48, not placed yet, and its number of records.
fn open_column(
    alloc: Global,
    pages: &mut Pages<MemSource>,
    shape: Shape,
    field: &Field,
) -> Result<(Column, u64), Fail>
    requires valid { IsValidField field.now }
    ensures lies { IfOk result (λ opened. LiesIn opened.0.stream.section (pages.new.length / page_length * payload_length)) }
    ensures count { IfOk result (λ opened. opened.0.stream.section.count ≡ opened.1) }
    ensures kind { IfOk result (λ opened. kind_of opened.0.items ≡ item_kind field.now.kind) }
{
    let count = shape.count;
    let fields = shape.fields;
    if count == 0 || count > 10_000 || fields == 0 || fields > 100 || shape.field >= fields {
        return Err(ReadFault::Source)?;
    }
    let fixed = fixed_of(fields, shape.float);
    let section = open_section(pages, NODE, 48, count, fields)?;
    let column = Column::open(alloc, &section, shape.field, field, fixed)?;
    Ok((column, count))
}

// The first Float field, whose items have four bytes.
fn fixed_of(fields: u16, float: Option<u16>) -> Option<Fixed>
    ensures { IfSome result (λ x. (x.field < fields) × IsWidth x) }
{
    let field = float?;
    if field < fields {
        Some(Fixed { field, bytes: 4 })
    } else {
        None
    }
}
