//! Whether the items of some records are within other limits.

ghost use Rattle.std.specs.Prelude.{◌≡◌, ◌+◌, ◌^◌, ◌<◌, ◌↔◌, true, map, length, get_or, pos, MatchOption, MatchResult};
ghost use Rattle.std.specs.List.{AllByRecursion};
ghost use Rattle.e57_layout.specs.Values.{item_kind, ItemKind, Value};
ghost use Rattle.e57_layout.specs.Items.{AreColumns, AreItems, IsItem};
ghost use Rattle.e57_column.specs.Column.{kind_of};
ghost use Rattle.e57_blocks.specs.Runs.{held_values, HasRecords};
ghost use Rattle.e57_chunk_out.specs.CloudCalls.{kinds_in, IsInteger};
ghost use Rattle.e57_copy.specs.Adding.{block_kinds, held_columns};
ghost use Rattle.e57_copy.specs.Limits.{IsFieldOutside, IsRunOutside};
ghost use Rattle.e57_copy.specs.Items.{AreAlike, IsAlike};

use e57_base::{Fault, Kind};
use e57_blocks::{FieldBlock, Run};
use e57_layout::{Field, FieldKind};

/// Whether the integers of the `n` records from record `i` on, which all blocks hold, are within the limits of these
/// fields. The blocks are of the same fields, but for limits of integers.
///
/// Refuses `ValueRange`, with the number of the record and that of the field's node: of the first field with an integer
/// outside of its limits, the first such record.
pub fn test_run(blocks: &[FieldBlock], i: u64, n: usize, fields: &[Field]) -> Result<(), Fault>
    requires have { AllByRecursion (HasRecords i n) blocks.now }
    requires alike { AreAlike (block_kinds blocks.now) (kinds_in fields.now) }
    requires last { i + n < 2 ^ 64 }
    ensures { MatchResult result
        (λ _. AreColumns (kinds_in fields.now) n (held_columns blocks.now i n))
        (λ found. IsRunOutside fields.now blocks.now i n found) }
{
    for j in 0..blocks.len() {
        if let Err(found) = test_field(&blocks[j], i, n, &fields[j]) {
            return Err(found);
        }
    }
    Ok(())
}

/// The same of one field.
fn test_field(block: &FieldBlock, i: u64, n: usize, field: &Field) -> Result<(), Fault>
    requires have { HasRecords i n block.now }
    requires alike { IsAlike (kind_of block.now.column.items) (item_kind field.now.kind) }
    requires last { i + n < 2 ^ 64 }
    ensures { MatchResult result
        (λ _. AreItems (item_kind field.now.kind) (held_values block.now i n))
        (λ found. IsFieldOutside field.now block.now i n found) }
{
    let run = block.run(i, n);
    let Some((low, high)) = limits_of(field) else {
        return Ok(());
    };
    let Run::Ints(items) = run else {
        return Ok(());
    };
    match first_outside(items, low, high) {
        None => Ok(()),
        Some(k) => Err(Fault::new(Kind::ValueRange, i + k as u64, field.node as u64)),
    }
}

/// The limits of a field of integers.
fn limits_of(field: &Field) -> Option<(i64, i64)>
    ensures { MatchOption result
        (IsInteger (item_kind field.now.kind) → ⊥)
        (λ limits. item_kind field.now.kind ≡ ItemKind.integers limits.0 limits.1) }
{
    match field.kind {
        FieldKind::Int { min, max } => Some((min, max)),
        FieldKind::Scaled { min, max, .. } => Some((min, max)),
        FieldKind::Bits32 | FieldKind::Bits64 | FieldKind::Text => None,
    }
}

/// The place of the first integer that isn't within these limits.
fn first_outside(items: &[i64], low: i64, high: i64) -> Option<usize>
    ensures { MatchOption result
        (AreItems (ItemKind.integers low high) (map Value.whole items.now))
        (λ k. (k < length items.now)
        × (IsItem (ItemKind.integers low high) (Value.whole (get_or items.now k (pos 0))) → ⊥)) }
{
    if are_within(items, low, high) {
        return None;
    }
    for k in 0..items.len() {
        if !is_within(items[k], low, high) {
            return Some(k);
        }
    }
    None
}

/// Whether all of them are.
fn are_within(items: &[i64], low: i64, high: i64) -> bool
    ensures { result ≡ true → AreItems (ItemKind.integers low high) (map Value.whole items.now) }
{
    let mut within = true;
    for k in 0..items.len() {
        within &= is_within(items[k], low, high);
    }
    within
}

/// Whether an integer is.
fn is_within(z: i64, low: i64, high: i64) -> bool
    ensures { (result ≡ true) ↔ IsItem (ItemKind.integers low high) (Value.whole z) }
{
    low <= z && z <= high
}
