//! Records that are marked, from blocks that hold them into a cloud that is written.

ghost use Rattle.std.specs.Prelude.{◌≡◌, ℕ, ◌+◌, ◌^◌, ◌<◌, ◌≤◌, Bool, false, true, length, get_or, MatchResult, OnOk};
ghost use Rattle.std.specs.List.{AllByRecursion};
ghost use Rattle.e57_layout.specs.Items.{AreColumns};
ghost use Rattle.e57_page_out.specs.Writing.{IsBeingWritten};
ghost use Rattle.e57_blocks.specs.Runs.{HasRecords};
ghost use Rattle.e57_chunk_out.specs.CloudCalls.{most_of_block, HasStrings, IsBetween};
ghost use Rattle.e57_copy.specs.Adding.{block_kinds, held_columns, with_columns, AddsRecords, IsStanding, LosesRun};
ghost use Rattle.e57_filter.specs.Marking.{mark_count, picked};

use e57_base::{Target, WriteFault};
use e57_blocks::FieldBlock;
use e57_chunk_out::CloudOut;
use e57_copy::copy_run;
use e57_page_out::PagesOut;
use std::alloc::AllocError;

/// Puts those of the `n` records from record `i` on, which all blocks hold, that are marked into a cloud of the same
/// fields, and ends the block, if there are any.
///
/// Refuses as `CloudOut::end_block` does. The cloud is spent then; `out` is too, but for some cases of `Memory`.
pub fn pick_run<T: Target>(
    blocks: &[FieldBlock],
    i: u64,
    n: usize,
    flags: &[bool],
    cloud: &mut CloudOut,
    out: &mut PagesOut<T>,
) -> Result<(), WriteFault>
    requires have { AllByRecursion (HasRecords i n) blocks.now }
    requires long { length flags.now ≡ n }
    requires few { n ≤ most_of_block }
    requires last { i + n < 2 ^ 64 }
    requires fields { (0 < length blocks.now) × (length blocks.now ≤ 520) }
    requires kinds { cloud.old.kinds ≡ block_kinds blocks.now }
    requires fit { AreColumns (block_kinds blocks.now) n (held_columns blocks.now i n) }
    requires unspent { cloud.old.is_spent ≡ false }
    requires between { IsBetween cloud.old }
    requires standing { IsStanding cloud.old out.old }
    requires state { IsBeingWritten T.view out.old }
    requires limit { cloud.old.count + n ≤ cloud.old.at_most }
    ensures picks { let columns = picked flags.now (held_columns blocks.now i n) in MatchResult result
        (λ _. AddsRecords T.view (mark_count flags.now) columns cloud.old out.old cloud.new out.new)
        (λ fault. LosesRun T.view (mark_count flags.now) columns cloud.old out.old fault cloud.new out.new) }
    ensures idle { OnOk result (cloud.new.count ≡ cloud.old.count → out.new.size ≡ out.old.size) }
{
    let handed = match hand_marked(blocks, i, n, flags, cloud) {
        Ok(handed) => handed,
        Err(_) => return Err(WriteFault::Memory),
    };
    if handed == 0 {
        return Ok(());
    }
    if let Err(fault) = cloud.end_block(out) {
        return Err(fault);
    }
    Ok(())
}

/// Hands the items of those that are marked to such a cloud, as its block, and answers how many these are.
fn hand_marked(
    blocks: &[FieldBlock],
    i: u64,
    n: usize,
    flags: &[bool],
    cloud: &mut CloudOut,
) -> Result<usize, AllocError>
    requires have { AllByRecursion (HasRecords i n) blocks.now }
    requires long { length flags.now ≡ n }
    requires few { n ≤ most_of_block }
    requires last { i + n < 2 ^ 64 }
    requires fields { length blocks.now ≤ 520 }
    requires kinds { cloud.old.kinds ≡ block_kinds blocks.now }
    requires fit { AreColumns (block_kinds blocks.now) n (held_columns blocks.now i n) }
    requires pending { length cloud.old.pending ≡ length cloud.old.kinds }
    requires unspent { cloud.old.is_spent ≡ false }
    requires between { IsBetween cloud.old }
    ensures { let columns = picked flags.now (held_columns blocks.now i n) in MatchResult result
        (λ handed. (cloud.new ≡ with_columns cloud.old columns) × (handed ≡ mark_count flags.now))
        (λ _. (cloud.new.is_spent ≡ true) × HasStrings cloud.old.kinds) }
{
    let mut handed = 0;
    let mut k = 0;
    while k < n {
        let a = next_of(flags, k, true);
        let b = next_of(flags, a, false);
        if let Err(error) = copy_run(blocks, i + a as u64, b - a, cloud) {
            return Err(error);
        }
        handed += b - a;
        k = b;
    }
    Ok(handed)
}

/// The place of the first of these flags, from place `from` on, or behind the last one.
fn next_of(flags: &[bool], from: usize, flag: bool) -> usize
    requires inside { from ≤ length flags.now }
    ensures after { from ≤ result }
    ensures inside { result ≤ length flags.now }
    ensures before { (j : ℕ) → from ≤ j → j < result → get_or flags.now j false ≡ flag → ⊥ }
    ensures is { result < length flags.now → get_or flags.now result false ≡ flag }
{
    for j in from..flags.len() {
        if flags[j] == flag {
            return j;
        }
    }
    flags.len()
}

/// Each item that the blocks hold is one of its field.
pub fn are_of_fields(blocks: &[FieldBlock], i: u64, n: usize)
    requires have { AllByRecursion (HasRecords i n) blocks.now }
    ensures { AreColumns (block_kinds blocks.now) n (held_columns blocks.now i n) }
{
    for j in 0..blocks.len() {
        let _run = blocks[j].run(i, n);
    }
}
