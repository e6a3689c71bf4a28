//! The text of rows of items as they are shown.

ghost use Rattle.std.specs.Prelude.{◌≡◌, ◌+◌, ◌^◌, ◌<◌, ◌++◌, ℕ, List, [], None, Option, false, length, IfOk, OnOk};
ghost use Rattle.std.specs.List.{AllByRecursion};
ghost use Rattle.e57_layout.specs.Values.{Value};
ghost use Rattle.e57_blocks.specs.Runs.{HasRecords};
ghost use Rattle.e57_rows.specs.Blocks.{held_row, held_rows};
ghost use Rattle.e57_rows.specs.Lined.{AreFor, AreShownBy};
ghost use Rattle.e57_rows.specs.Writing.{AtRow, InRow};

use crate::cell::{end_row, write_on_line};
use crate::text::rows_of;
use csv::Writer;
use e57_blocks::FieldBlock;
use e57_decimal::{Linear, Text};
use itoa::Buffer;
use std::alloc::AllocError;
use std::io::Write;

/// The text of the rows of the `n` records from record `i` on, which the blocks hold: without `numbers` of the items as they are,
/// else of integers with a line as the numbers that they stand for. It takes the memory of `room`, whose bytes are gone.
pub fn rows_shown(
    numbers: bool,
    lines: &[Option<Linear>],
    blocks: &[FieldBlock],
    i: u64,
    n: usize,
    room: Vec<u8>,
) -> Result<Vec<u8>, AllocError>
    requires fits { i + n < 2 ^ 64 }
    requires have { AllByRecursion (HasRecords i n) blocks.now }
    requires lines { AreFor lines.now blocks.now }
    requires none { numbers ≡ false → AllByRecursion (λ line. line ≡ None) lines.now }
    ensures { (show : ℕ → Value → Value) → AreShownBy show lines.now blocks.now → IfOk result (λ text. text.items ≡ held_rows show blocks.now i n) }
{
    if numbers {
        rows_on_lines(lines, blocks, i, n, room)
    } else {
        rows_of(blocks, i, n, room)
    }
}

/// The text of the rows of the `n` records from record `i` on.
fn rows_on_lines(
    lines: &[Option<Linear>],
    blocks: &[FieldBlock],
    i: u64,
    n: usize,
    room: Vec<u8>,
) -> Result<Vec<u8>, AllocError>
    requires fits { i + n < 2 ^ 64 }
    requires have { AllByRecursion (HasRecords i n) blocks.now }
    requires lines { AreFor lines.now blocks.now }
    ensures { (show : ℕ → Value → Value) → AreShownBy show lines.now blocks.now → IfOk result (λ text. text.items ≡ held_rows show blocks.now i n) }
{
    let mut room = room;
    room.clear();
    let mut writer = Writer::from_writer(room);
    write_rows(&mut writer, lines, blocks, i, n)?;
    match writer.into_inner() {
        Ok(text) => Ok(text),
        Err(_full) => Err(AllocError),
    }
}

/// Writes the rows of the `n` records from record `i` on.
#[inline(never)]
fn write_rows<W: Write + Drop>(
    writer: &mut Writer<W>,
    lines: &[Option<Linear>],
    blocks: &[FieldBlock],
    i: u64,
    n: usize,
) -> Result<(), AllocError>
    requires fits { i + n < 2 ^ 64 }
    requires have { AllByRecursion (HasRecords i n) blocks.now }
    requires lines { AreFor lines.now blocks.now }
    ensures { (show : ℕ → Value → Value) → AreShownBy show lines.now blocks.now → (base : Option (List ℕ)) → AtRow W.contents base [] writer.old → OnOk result (AtRow W.contents base (held_rows show blocks.now i n) writer.new) }
{
    let mut digits = Buffer::new();
    let mut text = Text::new();
    for k in 0..n {
        write_row(writer, lines, blocks, i + k as u64, &mut digits, &mut text)?;
    }
    Ok(())
}

/// Writes the row of record `i`, with room for the digits of an integer and the text of a number.
#[inline(always)]
fn write_row<W: Write + Drop>(
    writer: &mut Writer<W>,
    lines: &[Option<Linear>],
    blocks: &[FieldBlock],
    i: u64,
    digits: &mut Buffer,
    text: &mut Text,
) -> Result<(), AllocError>
    requires have { AllByRecursion (HasRecords i 1) blocks.now }
    requires lines { AreFor lines.now blocks.now }
    ensures { (show : ℕ → Value → Value) → AreShownBy show lines.now blocks.now → (base : Option (List ℕ)) → (text : List ℕ) → AtRow W.contents base text writer.old → OnOk result (AtRow W.contents base (text ++ held_row show blocks.now i) writer.new) }
{
    for j in 0..blocks.len() {
        write_on_line(writer, &lines[j], blocks[j].item(i), digits, text)?;
    }
    end_row(writer)
}
