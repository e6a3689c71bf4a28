//! The fields of a cloud side by side, some records at a time.

ghost use Rattle.std.specs.Prelude.{◌≡◌, ◌+◌, ◌*◌, ◌/◌, ◌≤◌, ◌<◌, length, is_some, IsSome, IfSome, MatchResult};
ghost use Rattle.e57_base.specs.Source.{page_length};
ghost use Rattle.e57_page.specs.Place.{payload_length};
ghost use Rattle.e57_layout.specs.Values.{item_kind, IsValidField};
ghost use Rattle.e57_nodes.specs.Items.{leaves_of};
ghost use Rattle.e57_cloud.specs.PathItem.{constant_of};
ghost use Rattle.e57_section.specs.Opening.{LiesIn};
ghost use Rattle.e57_tree.specs.Held.{AreCloudFields};
ghost use Rattle.e57_check.specs.Starts.{IsField, IsWidth};
ghost use Rattle.e57_check.specs.Judging.{AllAt, OpensColumns, GivesUp, JudgesBlock, ReadsNoRow, IsNoRefusal};

use crate::block::Block;
use crate::column::{Judge, open_column};
use crate::row::read_row;
use e57_base::{Fault, OpenFault, Source};
use e57_layout::{Field, FieldKind, Fixed, Section};
use e57_page::Pages;
use std::alloc::Global;

/// The columns that are read on, and the first fault of the field behind the last of them.
#[derive(Drop)]
pub struct Judging {
    /// The columns of the fields whose items take bits, in order, up to the first one with a fault.
    pub columns: Vec<Judge>,
    /// The fault of that one.
    pub found: Option<Fault>,
}

impl Judging {
    /// The logical place up to which the first of the columns took packets; 0 if there is no column.
    pub fn taken(&self) -> u64 {
        match self.columns.first() {
            Some(column) => column.taken(),
            None => 0,
        }
    }
}

/// How many of the records that are left are read next, `many` at most.
pub fn block_length(left: u64, many: usize) -> usize
    requires left { 0 < left }
    requires many { 0 < many }
    ensures some { 0 < result }
    ensures few { result ≤ many }
    ensures most { result ≤ left }
{
    if left < many as u64 {
        left as usize
    } else {
        many
    }
}

/// Reads `n` records from record `at` on of the columns, and keeps those before the first one with a fault. The others are read
/// no further, since only a fault of a field before that one comes first.
pub fn judge_block<S: Source>(
    section: &Section,
    judging: &mut Judging,
    block: &mut Block,
    pages: &mut Pages<S>,
    at: u64,
    n: usize,
) -> Result<(), OpenFault>
    requires lies { LiesIn section.now (pages.old.length / page_length * payload_length) }
    requires all { AllAt section.now at judging.old.columns.items }
    requires few { n ≤ 1024 }
    requires left { at + n ≤ section.now.count }
    ensures length { pages.new.length ≡ pages.old.length }
    ensures header { pages.new.header ≡ pages.old.header }
    ensures block { let count = pages.old.length / page_length in MatchResult result
        (λ _. JudgesBlock count (S.view pages.old.source) section.now judging.old.columns.items judging.old.found at n (S.view pages.new.source) judging.new.columns.items judging.new.found)
        (λ found. ReadsNoRow count (S.view pages.old.source) judging.old.columns.items found (S.view pages.new.source)) }
{
    match read_row(section, &mut judging.columns, block, pages, at, n) {
        Ok(row) => {
            judging.columns.truncate(row.passed);
            judging.found = row.found.or(judging.found);
            Ok(())
        }
        Err(fault) => Err(fault),
    }
}

/// Opens the columns of the fields whose items take bits, at their first records, up to the first one whose first item has a
/// fault.
pub fn open_columns<S: Source>(
    alloc: Global,
    section: &Section,
    fixed: Option<Fixed>,
    fields: &[Field],
    pages: &mut Pages<S>,
) -> Result<Judging, OpenFault>
    requires lies { LiesIn section.now (pages.old.length / page_length * payload_length) }
    requires as_many { length fields.now ≡ section.now.fields }
    requires fields { AreCloudFields fields.now }
    requires fixed_field { IsField section.now fixed }
    requires fixed_width { IsWidth fixed }
    ensures length { pages.new.length ≡ pages.old.length }
    ensures header { pages.new.header ≡ pages.old.header }
    ensures columns { let count = pages.old.length / page_length in MatchResult result
        (λ judging. OpensColumns count (S.view pages.old.source) section.now fixed (leaves_of fields.now) judging.columns.items judging.found (S.view pages.new.source))
        (λ found. GivesUp count (S.view pages.old.source) found (S.view pages.new.source)) }
{
    let mut columns = Vec::new(alloc);
    for (f, field) in fields.iter().enumerate() {
        if is_constant(field) {
            continue;
        }
        match open_column(alloc, section, fixed, f as u16, field, pages) {
            Ok(column) => {
                if let Err(_full) = columns.push(column) {
                    return Err(OpenFault::Memory);
                }
            }
            Err(fault) => return stopped(columns, fault),
        }
    }
    Ok(Judging {
        columns,
        found: None,
    })
}

/// What is answered where a column wasn't opened.
fn stopped(columns: Vec<Judge>, fault: OpenFault) -> Result<Judging, OpenFault>
    ensures { MatchResult result
        (λ judging. (judging.columns.items ≡ columns.items) × (IfSome judging.found (λ found. fault ≡ OpenFault.Refused found)) × IsSome judging.found)
        (λ given. (given ≡ fault) × IsNoRefusal fault) }
{
    match fault {
        OpenFault::Refused(found) => Ok(Judging {
            columns,
            found: Some(found),
        }),
        other => Err(other),
    }
}

/// Whether the items of a field take no bits.
fn is_constant(field: &Field) -> bool
    requires { IsValidField field.now }
    ensures { result ≡ is_some (constant_of (item_kind field.now.kind)) }
{
    match field.kind {
        FieldKind::Int { .. } | FieldKind::Scaled { .. } => field.width == 0,
        FieldKind::Bits32 | FieldKind::Bits64 | FieldKind::Text => false,
    }
}
