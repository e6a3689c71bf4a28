//! The text of rows.

ghost use Rattle.std.specs.Prelude.{◌≡◌, ◌+◌, ◌^◌, ◌<◌, ◌++◌, ℕ, List, [], Option, length, IfOk, OnOk};
ghost use Rattle.std.specs.List.{AllByRecursion};
ghost use Rattle.e57_blocks.specs.Runs.{HasRecords};
ghost use Rattle.e57_rows.specs.Blocks.{held_row, held_rows};
ghost use Rattle.e57_rows.specs.Shown.{as_it_is};
ghost use Rattle.e57_rows.specs.Writing.{AtRow, InRow};

use crate::cell::{end_row, write_item};
use csv::Writer;
use e57_blocks::FieldBlock;
use itoa::Buffer;
use std::alloc::AllocError;
use std::io::Write;

/// The text of the rows of the `n` records from record `i` on, which the blocks hold. It takes the memory of `room`, whose bytes
/// are gone.
pub fn rows_of(
    blocks: &[FieldBlock],
    i: u64,
    n: usize,
    room: Vec<u8>,
) -> Result<Vec<u8>, AllocError>
    requires fits { i + n < 2 ^ 64 }
    requires have { AllByRecursion (HasRecords i n) blocks.now }
    ensures { IfOk result (λ text. text.items ≡ held_rows as_it_is blocks.now i n) }
{
    let mut room = room;
    room.clear();
    let mut writer = Writer::from_writer(room);
    write_rows(&mut writer, blocks, i, n)?;
    match writer.into_inner() {
        Ok(text) => Ok(text),
        Err(_full) => Err(AllocError),
    }
}

/// Writes the rows of the `n` records from record `i` on, which the blocks hold. It isn't built into its callers, so that its
/// loop has the registers.
#[inline(never)]
fn write_rows<W: Write + Drop>(
    writer: &mut Writer<W>,
    blocks: &[FieldBlock],
    i: u64,
    n: usize,
) -> Result<(), AllocError>
    requires fits { i + n < 2 ^ 64 }
    requires have { AllByRecursion (HasRecords i n) blocks.now }
    ensures { (base : Option (List ℕ)) → AtRow W.contents base [] writer.old → OnOk result (AtRow W.contents base (held_rows as_it_is blocks.now i n) writer.new) }
{
    let mut digits = Buffer::new();
    for k in 0..n {
        write_row(writer, blocks, i + k as u64, &mut digits)?;
    }
    Ok(())
}

/// Writes the row of record `i`, which the blocks hold, with room for the digits of an integer.
#[inline(always)]
fn write_row<W: Write + Drop>(
    writer: &mut Writer<W>,
    blocks: &[FieldBlock],
    i: u64,
    digits: &mut Buffer,
) -> Result<(), AllocError>
    requires have { AllByRecursion (HasRecords i 1) blocks.now }
    ensures { (base : Option (List ℕ)) → (text : List ℕ) → AtRow W.contents base text writer.old → OnOk result (AtRow W.contents base (text ++ held_row as_it_is blocks.now i) writer.new) }
{
    for j in 0..blocks.len() {
        write_item(writer, blocks[j].item(i), digits)?;
    }
    end_row(writer)
}
