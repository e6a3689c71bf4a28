//! Columns side by side.

ghost use Rattle.std.specs.Prelude.{◌≡◌, ◌+◌, ◌*◌, ◌/◌, ◌≤◌, MatchResult};
ghost use Rattle.e57_base.specs.Source.{page_length};
ghost use Rattle.e57_page.specs.Place.{payload_length};
ghost use Rattle.e57_section.specs.Opening.{LiesIn};
ghost use Rattle.e57_check.specs.Judging.{AllAt, ReadsRow, ReadsNoRow, stopped_row};

use crate::block::Block;
use crate::column::{Judge, read_block};
use e57_base::{Fault, OpenFault, Source};
use e57_layout::Section;
use e57_page::Pages;

/// How far a row of columns was read.
#[derive(Clone, Copy, Debug, PartialEq, Eq)]
pub struct Row {
    /// How many columns were read.
    pub passed: usize,
    /// The first fault of the next one, if there is one.
    pub found: Option<Fault>,
}

/// Reads `n` records from record `at` on of each column in order, up to the first column with a fault.
pub fn read_row<S: Source>(
    section: &Section,
    columns: &mut [Judge],
    block: &mut Block,
    pages: &mut Pages<S>,
    at: u64,
    n: usize,
) -> Result<Row, OpenFault>
    requires lies { LiesIn section.now (pages.old.length / page_length * payload_length) }
    requires all { AllAt section.now at columns.old }
    requires few { n ≤ 1024 }
    requires left { at + n ≤ section.now.count }
    ensures length { pages.new.length ≡ pages.old.length }
    ensures header { pages.new.header ≡ pages.old.header }
    ensures row { let count = pages.old.length / page_length in MatchResult result
        (λ row. ReadsRow count (S.view pages.old.source) section.now columns.old at n row.passed row.found (S.view pages.new.source) columns.new)
        (λ found. ReadsNoRow count (S.view pages.old.source) columns.old found (S.view pages.new.source)) }
{
    for j in 0..columns.len() {
        if let Err(fault) = read_block(&mut columns[j], block, pages, at, n) {
            return stopped(j, fault);
        }
    }
    Ok(Row {
        passed: columns.len(),
        found: None,
    })
}

/// What is answered where column `j` stopped.
fn stopped(j: usize, fault: OpenFault) -> Result<Row, OpenFault>
    ensures { result ≡ stopped_row j fault }
{
    match fault {
        OpenFault::Refused(found) => Ok(Row {
            passed: j,
            found: Some(found),
        }),
        other => Err(other),
    }
}
