//! Cells of a row.

ghost use Rattle.std.specs.Prelude.{◌+◌, ◌^◌, ◌<◌, ◌++◌, ◌∷◌, ℕ, List, [], Option, length, OnOk};
ghost use Rattle.e57_rows.specs.Cells.{csv_row, item_text};
ghost use Rattle.e57_rows.specs.Lined.{IsOnLine, line_text};
ghost use Rattle.e57_rows.specs.Writing.{AtRow, InRow};

use crate::hexadecimal::{digits32, digits64};
use csv::Writer;
use e57_blocks::Item;
use e57_decimal::{Linear, Text};
use itoa::Buffer;
use std::alloc::AllocError;
use std::io::Write;

/// Writes a text as the next cell of a row.
#[inline(always)]
pub fn write_text<W: Write + Drop>(writer: &mut Writer<W>, text: &[u8]) -> Result<(), AllocError>
    ensures { (base : Option (List ℕ)) → (cells : List (List ℕ)) → length cells + 1 < 2 ^ 64 → InRow W.contents base cells writer.old → OnOk result (InRow W.contents base (cells ++ text.now ∷ []) writer.new) }
{
    match writer.write_field(text) {
        Ok(()) => Ok(()),
        Err(_full) => Err(AllocError),
    }
}

/// Writes an item as the next cell of a row. `digits` is room for the digits of an integer, whatever it held.
#[inline(always)]
pub fn write_item<W: Write + Drop>(
    writer: &mut Writer<W>,
    item: Item<'_>,
    digits: &mut Buffer,
) -> Result<(), AllocError>
    ensures { (base : Option (List ℕ)) → (cells : List (List ℕ)) → length cells + 1 < 2 ^ 64 → InRow W.contents base cells writer.old → OnOk result (InRow W.contents base (cells ++ item_text item.entry ∷ []) writer.new) }
{
    match item {
        Item::Whole(number) => write_text(writer, digits.format(number).as_bytes()),
        Item::Word32(word) => write_text(writer, digits32(word).as_slice()),
        Item::Word64(word) => write_text(writer, digits64(word).as_slice()),
        Item::Text(bytes) => write_text(writer, bytes),
    }
}

/// Writes an item as the next cell of a row: an integer with a line as the number that it stands for. `digits` and `text` are
/// room, whatever they held.
#[inline(always)]
pub fn write_on_line<W: Write + Drop>(
    writer: &mut Writer<W>,
    line: &Option<Linear>,
    item: Item<'_>,
    digits: &mut Buffer,
    text: &mut Text,
) -> Result<(), AllocError>
    requires { IsOnLine line.now item }
    ensures { (base : Option (List ℕ)) → (cells : List (List ℕ)) → length cells + 1 < 2 ^ 64 → InRow W.contents base cells writer.old → OnOk result (InRow W.contents base (cells ++ line_text line.now item.entry ∷ []) writer.new) }
{
    match (line, item) {
        (Some(line), Item::Whole(number)) => {
            line.write(number, text);
            write_text(writer, text.as_bytes())
        }
        (_, item) => write_item(writer, item, digits),
    }
}

/// Ends a row.
#[inline(always)]
pub fn end_row<W: Write + Drop>(writer: &mut Writer<W>) -> Result<(), AllocError>
    ensures { (base : Option (List ℕ)) → (cells : List (List ℕ)) → InRow W.contents base cells writer.old → OnOk result (AtRow W.contents base (csv_row cells) writer.new) }
{
    match writer.end_record() {
        Ok(()) => Ok(()),
        Err(_full) => Err(AllocError),
    }
}
