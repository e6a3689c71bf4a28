//! A run of records, from blocks that hold it into a cloud that is written.

ghost use Rattle.std.specs.Prelude.{◌≡◌, ◌+◌, ◌<◌, ◌≤◌, false, true, length, MatchResult};
ghost use Rattle.std.specs.List.{AllByRecursion};
ghost use Rattle.e57_layout.specs.Values.{strings};
ghost use Rattle.e57_layout.specs.Items.{AreColumns, AreItems};
ghost use Rattle.e57_page_out.specs.Writing.{IsBeingWritten};
ghost use Rattle.e57_blocks.specs.Runs.{run_values, HasRecords, IsRunInside, IsRunOf};
ghost use Rattle.e57_chunk_out.specs.CloudCalls.{in_block, kind_of, most_of_block, with_items, HasStrings, IsBetween};
ghost use Rattle.e57_copy.specs.Adding.{block_kinds, held_columns, with_columns, AddsRecords, HasRoom, IsStanding, LosesRun};
ghost use Rattle.e57_copy.specs.Items.{AreAlike};

use e57_base::{Target, WriteFault};
use e57_blocks::{FieldBlock, Run};
use e57_chunk_out::CloudOut;
use e57_page_out::PagesOut;
use std::alloc::AllocError;

/// Puts the `n` records from record `i` on, which all blocks hold, into a cloud of the same fields, but for limits,
/// within which these integers are, and ends the block.
///
/// Refuses as `CloudOut::end_block` does. The cloud is spent then; `out` is too, but for some cases of `Memory`.
pub fn put_run<T: Target>(
    blocks: &[FieldBlock],
    i: u64,
    n: usize,
    cloud: &mut CloudOut,
    out: &mut PagesOut<T>,
) -> Result<(), WriteFault>
    requires have { AllByRecursion (HasRecords i n) blocks.now }
    requires some { 0 < n }
    requires few { n ≤ most_of_block }
    requires fields { (0 < length blocks.now) × (length blocks.now ≤ 512) }
    requires alike { AreAlike (block_kinds blocks.now) cloud.old.kinds }
    requires fit { AreColumns cloud.old.kinds n (held_columns blocks.now i n) }
    requires unspent { cloud.old.is_spent ≡ false }
    requires between { IsBetween cloud.old }
    requires standing { IsStanding cloud.old out.old }
    requires state { IsBeingWritten T.view out.old }
    requires limit { cloud.old.count + n ≤ cloud.old.at_most }
    ensures { let columns = held_columns blocks.now i n in MatchResult result
        (λ _. AddsRecords T.view n columns cloud.old out.old cloud.new out.new)
        (λ fault. LosesRun T.view n columns cloud.old out.old fault cloud.new out.new) }
{
    if let Err(_) = copy_run(blocks, i, n, cloud) {
        return Err(WriteFault::Memory);
    }
    if let Err(fault) = cloud.end_block(out) {
        return Err(fault);
    }
    Ok(())
}

/// Hands the items of the `n` records from record `i` on, which all blocks hold, to a cloud of the same fields, but for
/// limits, within which these integers are. They come behind the items that the cloud's block has, which isn't ended;
/// with them it has at most 1,024 records.
///
/// Refuses want of memory, which comes of strings alone. The cloud is spent then.
pub fn copy_run(
    blocks: &[FieldBlock],
    i: u64,
    n: usize,
    cloud: &mut CloudOut,
) -> Result<(), AllocError>
    requires have { AllByRecursion (HasRecords i n) blocks.now }
    requires fields { length blocks.now ≤ 520 }
    requires alike { AreAlike (block_kinds blocks.now) cloud.old.kinds }
    requires fit { AreColumns cloud.old.kinds n (held_columns blocks.now i n) }
    requires pending { length cloud.old.pending ≡ length cloud.old.kinds }
    requires unspent { cloud.old.is_spent ≡ false }
    requires room { HasRoom cloud.old n }
    ensures { let columns = held_columns blocks.now i n in MatchResult result
        (λ _. cloud.new ≡ with_columns cloud.old columns)
        (λ _. (cloud.new.is_spent ≡ true) × HasStrings cloud.old.kinds) }
{
    for j in 0..blocks.len() {
        if let Err(error) = copy_items(cloud, j as u16, blocks[j].run(i, n)) {
            return Err(error);
        }
    }
    Ok(())
}

/// Hands items to field `f` of a cloud.
fn copy_items(cloud: &mut CloudOut, f: u16, run: Run<'_>) -> Result<(), AllocError>
    requires unspent { cloud.old.is_spent ≡ false }
    requires field { f < length cloud.old.kinds }
    requires kind { IsRunOf (kind_of cloud.old f) run }
    requires items { AreItems (kind_of cloud.old f) (run_values run) }
    requires inside { IsRunInside run }
    requires few { in_block cloud.old f + length (run_values run) ≤ most_of_block }
    ensures { MatchResult result
        (λ _. cloud.new ≡ with_items cloud.old f (run_values run.entry))
        (λ _. (cloud.new.is_spent ≡ true) × (kind_of cloud.old f ≡ strings)) }
{
    match run {
        Run::Ints(items) => cloud.ints(f, items),
        Run::Bits32(items) => cloud.bits32(f, items),
        Run::Bits64(items) => cloud.bits64(f, items),
        Run::Texts { bytes, begin, ends } => cloud.texts_from(f, bytes, begin, ends),
    }
}
