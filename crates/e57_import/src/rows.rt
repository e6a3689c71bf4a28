//! The rows of a text, one after another.

ghost use Rattle.std.specs.Prelude.{◌≡◌, IfOk};
ghost use Rattle.csv.specs.Records.{fields_of};
ghost use Rattle.e57_import.specs.Rows.{rows_of};
ghost use Rattle.e57_import.specs.Walking.{rows_left, IsAtRow, TakesRow};

use csv::{ByteRecord, Reader, ReaderBuilder};
use std::alloc::{AllocError, Global};

/// A reader of the rows of a text of comma-separated values, of any number of cells each.
pub fn rows_of(alloc: Global, text: &[u8]) -> Reader<&[u8]>
    ensures at { IsAtRow result }
    ensures left { rows_left result ≡ rows_of text.now }
{
    ReaderBuilder::new()
        .has_headers(false)
        .flexible(true)
        .from_reader(alloc, text)
}

/// Reads the next row into `row`, and answers whether there was one. After want of memory the reader gives no row.
pub fn next_row(reader: &mut Reader<&[u8]>, row: &mut ByteRecord) -> Result<bool, AllocError>
    requires { IsAtRow reader.old }
    ensures { IfOk result (λ found. TakesRow found (fields_of row.new) reader.old reader.new) }
{
    match reader.read_byte_record(row) {
        Ok(found) => Ok(found),
        Err(_error) => Err(AllocError),
    }
}
