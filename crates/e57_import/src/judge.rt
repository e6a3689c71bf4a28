//! Rows judged by the columns that are asked for.

ghost use Rattle.std.specs.Prelude.{◌≡◌, ◌<◌, length, MatchResult, None};
ghost use Rattle.csv.specs.Records.{fields_of};
ghost use Rattle.e57_import.specs.Columns.{columns_asked, names_of};
ghost use Rattle.e57_import.specs.Rows.{cells_fault, difference_from, first_row, header_fault, later_rows, row_fault, rows_fault, rows_of, text_fault};
ghost use Rattle.e57_import.specs.Walking.{rows_left, IsAtRow, IsRowsCause};

use crate::cells::is_of_kind;
use crate::columns::ColumnAsk;
use crate::rows::{next_row, rows_of};
use csv::{ByteRecord, Reader};
use e57_base::{AskFault, RunFault};
use std::alloc::Global;

/// Judges a text: its first row has the names of the columns, and each row behind it as many cells, each of its column's form.
/// Answers how many rows stand behind the first one.
///
/// Refuses `Ask` with the first fault: `Header` with the first column whose name differs and the row's number of cells; `Width`
/// with a row, counted from 0 behind the first one, and its number of cells; `Cell` with such a row and a column. Refuses `Memory`
/// too, which is taken for one row.
pub fn judge_text(alloc: Global, text: &[u8], columns: &[ColumnAsk<'_>]) -> Result<u64, RunFault>
    requires { 0 < length columns.now }
    ensures { MatchResult result
        (λ count. (text_fault (columns_asked columns.now) text.now ≡ None) × (count ≡ length (later_rows (rows_of text.now))))
        (λ fault. IsRowsCause (text_fault (columns_asked columns.now) text.now) fault) }
{
    let mut reader = rows_of(alloc, text);
    let mut row = ByteRecord::new(alloc);
    if let Err(fault) = judge_header(&mut reader, &mut row, columns) {
        return Err(fault);
    }
    judge_rows(&mut reader, &mut row, columns)
}

/// Judges the first row, and stands behind it.
fn judge_header(
    reader: &mut Reader<&[u8]>,
    row: &mut ByteRecord,
    columns: &[ColumnAsk<'_>],
) -> Result<(), RunFault>
    requires at { IsAtRow reader.old }
    requires some { 0 < length columns.now }
    ensures { MatchResult result
        (λ _. IsAtRow reader.new × (rows_left reader.new ≡ later_rows (rows_left reader.old))
        × (header_fault (columns_asked columns.now) (first_row (rows_left reader.old)) ≡ None))
        (λ fault. IsRowsCause (header_fault (columns_asked columns.now) (first_row (rows_left reader.old))) fault) }
{
    match next_row(reader, row) {
        Err(_full) => Err(RunFault::Memory),
        Ok(false) => Err(RunFault::Ask(AskFault::Header { asked: 0, have: 0 })),
        Ok(true) => match header_fault(columns, row) {
            None => Ok(()),
            Some(fault) => Err(RunFault::Ask(fault)),
        },
    }
}

/// Judges the rows that are left, and answers how many there are.
fn judge_rows(
    reader: &mut Reader<&[u8]>,
    row: &mut ByteRecord,
    columns: &[ColumnAsk<'_>],
) -> Result<u64, RunFault>
    requires { IsAtRow reader.old }
    ensures { MatchResult result
        (λ count. (rows_fault (columns_asked columns.now) 0 (rows_left reader.old) ≡ None) × (count ≡ length (rows_left reader.old)))
        (λ fault. IsRowsCause (rows_fault (columns_asked columns.now) 0 (rows_left reader.old)) fault) }
{
    for i in 0..u64::MAX {
        match next_row(reader, row) {
            Err(_full) => return Err(RunFault::Memory),
            Ok(false) => return Ok(i),
            Ok(true) => {}
        }
        if let Some(fault) = row_fault(columns, i, row) {
            return Err(RunFault::Ask(fault));
        }
    }
    Err(RunFault::Memory)
}

/// Why a first row isn't the list of the names.
fn header_fault(columns: &[ColumnAsk<'_>], row: &ByteRecord) -> Option<AskFault>
    ensures { result ≡ header_fault (columns_asked columns.now) (fields_of row.now) }
{
    let k = difference(columns, row)?;
    Some(AskFault::Header {
        asked: k,
        have: row.len() as u64,
    })
}

/// The first column whose name differs from its cell, or that is absent in one of the two.
fn difference(columns: &[ColumnAsk<'_>], row: &ByteRecord) -> Option<u64>
    ensures { result ≡ difference_from 0 (names_of (columns_asked columns.now)) (fields_of row.now) }
{
    for (k, column) in columns.iter().enumerate() {
        let Some(cell) = row.get(k) else {
            return Some(k as u64);
        };
        if column.name.as_bytes() != cell {
            return Some(k as u64);
        }
    }
    if row.len() > columns.len() {
        return Some(columns.len() as u64);
    }
    None
}

/// Why row i isn't one of these columns.
#[tactic(auto, unfolding(crate::specs::Rows::row_fault))]
fn row_fault(columns: &[ColumnAsk<'_>], i: u64, row: &ByteRecord) -> Option<AskFault>
    ensures { result ≡ row_fault (columns_asked columns.now) i (fields_of row.now) }
{
    if row.len() != columns.len() {
        return Some(AskFault::Width {
            asked: i,
            have: row.len() as u64,
        });
    }
    cells_fault(columns, i, row)
}

/// The first cell of row i that isn't of its column's form.
fn cells_fault(columns: &[ColumnAsk<'_>], i: u64, row: &ByteRecord) -> Option<AskFault>
    ensures { result ≡ cells_fault i 0 (columns_asked columns.now) (fields_of row.now) }
{
    for (k, column) in columns.iter().enumerate() {
        let cell = row.get(k)?;
        if !is_of_kind(cell, column.kind) {
            return Some(AskFault::Cell {
                asked: i,
                have: k as u64,
            });
        }
    }
    None
}
