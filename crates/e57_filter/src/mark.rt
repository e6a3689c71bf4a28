//! Which of some records pass.

ghost use Rattle.std.specs.Prelude.{◌≡◌, ◌+◌, ◌%◌, ◌<◌, ◌==◌, ◌&&◌, [], false, length, get_or, pos};
ghost use Rattle.std.specs.List.{AllByRecursion};
ghost use Rattle.e57_layout.specs.Values.{octets, Value};
ghost use Rattle.e57_plain.specs.Kept.{is_between};
ghost use Rattle.e57_column.specs.Column.{kind_of};
ghost use Rattle.e57_column.specs.Reading.{AreWhole};
ghost use Rattle.e57_blocks.specs.Runs.{held_values, HasRecords};
ghost use Rattle.e57_copy.specs.Adding.{block_kinds, held_columns};
ghost use Rattle.e57_filter.specs.Keeping.{sieve_of, test_of, IsTestOf};
ghost use Rattle.e57_filter.specs.Marking.{is_within, passes_here, AreMarks};

use crate::keep::Limits;
use e57_blocks::{FieldBlock, Run};

/// Marks those of the `n` records from record `i` on, which all blocks hold, that pass: each `every`-th one, counted
/// from `past` records before record `i` on, whose integers are within these limits.
pub fn mark_run(
    blocks: &[FieldBlock],
    i: u64,
    n: usize,
    past: u64,
    every: u64,
    tests: &[Limits],
    flags: &mut [bool],
)
    requires have { AllByRecursion (HasRecords i n) blocks.now }
    requires some { 0 < every }
    requires long { length flags.old ≡ n }
    requires tests { AllByRecursion (IsTestOf (block_kinds blocks.now)) tests.now }
    ensures { AreMarks n (passes_here (sieve_of every tests.now) past (held_columns blocks.now i n)) flags.new }
{
    mark_each(past % every, every, flags);
    for j in 0..tests.len() {
        mark_by(blocks, i, n, &tests[j], flags);
    }
}

/// Of those that are marked, leaves the mark of the records that are within these limits.
fn mark_by(blocks: &[FieldBlock], i: u64, n: usize, test: &Limits, flags: &mut [bool])
    requires have { AllByRecursion (HasRecords i n) blocks.now }
    requires tested { IsTestOf (block_kinds blocks.now) test.now }
    requires long { length flags.old ≡ n }
    ensures { let columns = held_columns blocks.now i n in
        AreMarks n (λ k. get_or flags.old k false && is_within (test_of test.now) columns k) flags.new }
{
    let Limits { block, low, high } = *test;
    mark_test(&blocks[block as usize], i, n, low, high, flags);
}

/// Marks each `every`-th record, counted from `first` records before the first one on.
fn mark_each(first: u64, every: u64, flags: &mut [bool])
    requires below { first < every }
    ensures { AreMarks (length flags.old) (λ k. (first + k) % every == 0) flags.new }
{
    let mut phase = first;
    for k in 0..flags.len() {
        flags[k] = phase == 0;
        phase = next_phase(phase, every);
    }
}

/// How far the next record is behind an `every`-th one.
fn next_phase(phase: u64, every: u64) -> u64
    requires below { phase < every }
    ensures next { result ≡ (phase + 1) % every }
    ensures below { result < every }
{
    if phase + 1 == every {
        return 0;
    }
    phase + 1
}

/// Of those that are marked, leaves the mark of the records whose integer in this block is within limits.
fn mark_test(block: &FieldBlock, i: u64, n: usize, low: i64, high: i64, flags: &mut [bool])
    requires have { HasRecords i n block.now }
    requires kind { AreWhole (kind_of block.now.column.items) }
    requires long { length flags.old ≡ n }
    ensures { AreMarks n
        (λ k. get_or flags.old k false && is_between low high (get_or (held_values block.now i n) k (octets [])))
        flags.new }
{
    let Run::Ints(items) = block.run(i, n) else {
        return;
    };
    mark_items(items, low, high, flags);
}

/// The same of integers.
fn mark_items(items: &[i64], low: i64, high: i64, flags: &mut [bool])
    requires long { length flags.old ≡ length items.now }
    ensures { AreMarks (length items.now)
        (λ k. get_or flags.old k false && is_between low high (Value.whole (get_or items.now k (pos 0))))
        flags.new }
{
    for k in 0..items.len() {
        flags[k] = flags[k] & is_inside(items[k], low, high);
    }
}

/// Whether an integer is within limits.
fn is_inside(z: i64, low: i64, high: i64) -> bool
    ensures { result ≡ is_between low high (Value.whole z) }
{
    low <= z && z <= high
}
