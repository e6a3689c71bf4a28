//! The row of the fields' paths.

ghost use Rattle.std.specs.Prelude.{◌≡◌, ◌<◌, ℕ, List, [], Option, length, IfOk, OnOk};
ghost use Rattle.std.specs.List.{AllByRecursion};
ghost use Rattle.e57_rows.specs.Rows.{heading_text};
ghost use Rattle.e57_rows.specs.Writing.{AtRow};

use crate::cell::{end_row, write_text};
use csv::Writer;
use e57_layout::Field;
use std::alloc::{AllocError, Global};
use std::io::Write;

/// The row of the paths of the asked fields, by their numbers, in the asked order.
pub fn heading(alloc: Global, fields: &[Field], asked: &[u16]) -> Result<Vec<u8>, AllocError>
    requires { AllByRecursion (λ f. f < length fields.now) asked.now }
    ensures { IfOk result (λ text. text.items ≡ heading_text fields.now asked.now) }
{
    let mut writer = Writer::from_writer(Vec::new(alloc));
    write_paths(&mut writer, fields, asked)?;
    match writer.into_inner() {
        Ok(text) => Ok(text),
        Err(_full) => Err(AllocError),
    }
}

/// Writes the row of these paths.
fn write_paths<W: Write + Drop>(
    writer: &mut Writer<W>,
    fields: &[Field],
    asked: &[u16],
) -> Result<(), AllocError>
    requires { AllByRecursion (λ f. f < length fields.now) asked.now }
    ensures { (base : Option (List ℕ)) → AtRow W.contents base [] writer.old → OnOk result (AtRow W.contents base (heading_text fields.now asked.now) writer.new) }
{
    for k in 0..asked.len() {
        write_text(writer, fields[asked[k] as usize].path.as_slice())?;
    }
    end_row(writer)
}
