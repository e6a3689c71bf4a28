//! Records that pass, kept run after run.

ghost use Rattle.std.specs.Prelude.{◌≡◌, ◌+◌, ◌^◌, ◌*◌, ◌/◌, ◌<◌, ◌≤◌, false, length, map, take, MatchResult, OnOk};
ghost use Rattle.std.specs.List.{AllByRecursion};
ghost use Rattle.e57_base.specs.Source.{page_length};
ghost use Rattle.e57_page.specs.Place.{payload_length};
ghost use Rattle.e57_section.specs.Opening.{LiesIn};
ghost use Rattle.e57_layout.specs.Items.{AreColumns};
ghost use Rattle.e57_page_out.specs.Writing.{IsBeingWritten};
ghost use Rattle.e57_plain.specs.Kept.{passing, passing_count};
ghost use Rattle.e57_blocks.specs.Fields.{slice_at};
ghost use Rattle.e57_blocks.specs.Runs.{HasRecords};
ghost use Rattle.e57_chunk_out.specs.CloudCalls.{most_of_block, IsBetween};
ghost use Rattle.e57_copy.specs.Adding.{block_kinds, held_columns, AddsRecords, IsStanding, LosesRun};
ghost use Rattle.e57_copy.specs.Copying.{AreSame, StandBefore};
ghost use Rattle.e57_filter.specs.Keeping.{sieve_of, IsTestOf, KeepsAll, KeepsNot};
ghost use Rattle.e57_filter.specs.Marking.{passes_here};

use crate::mark::mark_run;
use crate::pick::{are_of_fields, pick_run};
use e57_base::{RunFault, Source, Target, WriteFault};
use e57_blocks::{FieldBlock, FieldBlocks, MOST};
use e57_chunk_out::CloudOut;
use e57_page::Pages;
use e57_page_out::PagesOut;

/// Limits of the integers of a field, by the number of its block.
#[derive(Clone, Copy)]
pub struct Limits {
    pub block: u16,
    pub low: i64,
    pub high: i64,
}

/// Of the `count` records from record `from` on, puts those that pass behind those that the cloud has: each `every`-th
/// one, from record `from` on, whose integers are within the limits of each test. The cloud is of the fields of the
/// first `kept` blocks, in their order; the other blocks are tested alone. The blocks are ready for record `from`. It
/// may be called again for records further on; the first of these is counted anew.
///
/// Refuses the fault of the first of these records that has one, and of that record the fault of the first field that
/// has one, whether this record passes or not; `Source` if the source failed. Those before it that pass were put then,
/// and cloud and blocks can be used further.
///
/// `Out` says that the target failed, `Ask` with `Large` that the new file would pass the last page, and `Memory` that
/// there is none, which is wanted for strings alone; then the cloud is spent, but for some cases of `Memory`.
pub fn keep_records<S: Source, T: Target>(
    blocks: &mut FieldBlocks,
    kept: usize,
    every: u64,
    tests: &[Limits],
    from: u64,
    count: u64,
    pages: &mut Pages<S>,
    cloud: &mut CloudOut,
    out: &mut PagesOut<T>,
) -> Result<(), RunFault>
    requires lies { LiesIn blocks.old.section (pages.old.length / page_length * payload_length) }
    requires stand { StandBefore blocks.old from (S.view pages.old.source) }
    requires left { from + count ≤ blocks.old.section.count }
    requires many { (0 < kept) × (kept ≤ length blocks.old.blocks) × (length blocks.old.blocks ≤ 520) }
    requires kinds { cloud.old.kinds ≡ take kept (block_kinds blocks.old.blocks) }
    requires every { 0 < every }
    requires tests { AllByRecursion (IsTestOf (block_kinds blocks.old.blocks)) tests.now }
    requires unspent { cloud.old.is_spent ≡ false }
    requires between { IsBetween cloud.old }
    requires standing { IsStanding cloud.old out.old }
    requires state { IsBeingWritten T.view out.old }
    requires limit { cloud.old.count + count ≤ cloud.old.at_most }
    ensures length { pages.new.length ≡ pages.old.length }
    ensures header { pages.new.header ≡ pages.old.header }
    ensures same { AreSame blocks.old blocks.new }
    ensures keeps { let s = sieve_of every tests.now in
        let a = slice_at blocks.old from count in
        let old = S.view pages.old.source in
        let new = S.view pages.new.source in
        MatchResult result
        (λ _. KeepsAll T.view s kept a old cloud.old out.old new blocks.new cloud.new out.new)
        (λ fault. KeepsNot T.view s kept a old cloud.old out.old fault new blocks.new cloud.new out.new) }
    ensures idle { OnOk result (cloud.new.count ≡ cloud.old.count → out.new.size ≡ out.old.size) }
{
    let _size = pages.logical_len();
    let until = from + count;
    let mut at = from;
    while at < until {
        let n = match blocks.fill(pages, at, run_length(until - at)) {
            Ok(n) => n,
            Err(fault) => return Err(fault.into()),
        };
        if let Err(fault) = keep_run(
            blocks.blocks(),
            kept,
            at,
            n,
            at - from,
            every,
            tests,
            cloud,
            out,
        ) {
            return Err(fault.into());
        }
        at += n as u64;
    }
    Ok(())
}

/// How many of the records that are left are looked at at a time.
fn run_length(left: u64) -> usize
    requires { 0 < left }
    ensures some { 0 < result }
    ensures few { result ≤ left }
    ensures most { result ≤ 1024 }
{
    if left < MOST as u64 {
        left as usize
    } else {
        MOST
    }
}

/// Puts those of the `n` records from record `i` on, which all blocks hold, that pass. `past` records of the range are
/// before them.
fn keep_run<T: Target>(
    blocks: &[FieldBlock],
    kept: usize,
    i: u64,
    n: usize,
    past: u64,
    every: u64,
    tests: &[Limits],
    cloud: &mut CloudOut,
    out: &mut PagesOut<T>,
) -> Result<(), WriteFault>
    requires have { AllByRecursion (HasRecords i n) blocks.now }
    requires few { n ≤ most_of_block }
    requires last { i + n < 2 ^ 64 }
    requires many { (0 < kept) × (kept ≤ length blocks.now) × (length blocks.now ≤ 520) }
    requires kinds { cloud.old.kinds ≡ take kept (block_kinds blocks.now) }
    requires every { 0 < every }
    requires tests { AllByRecursion (IsTestOf (block_kinds blocks.now)) tests.now }
    requires unspent { cloud.old.is_spent ≡ false }
    requires between { IsBetween cloud.old }
    requires standing { IsStanding cloud.old out.old }
    requires state { IsBeingWritten T.view out.old }
    requires limit { cloud.old.count + n ≤ cloud.old.at_most }
    ensures full { AreColumns (block_kinds blocks.now) n (held_columns blocks.now i n) }
    ensures keeps { let columns = held_columns blocks.now i n in
        let pass = passes_here (sieve_of every tests.now) past columns in
        let more = map (passing pass 0) (take kept columns) in
        MatchResult result
        (λ _. AddsRecords T.view (passing_count pass 0 n) more cloud.old out.old cloud.new out.new)
        (λ fault. LosesRun T.view (passing_count pass 0 n) more cloud.old out.old fault cloud.new out.new) }
    ensures idle { OnOk result (cloud.new.count ≡ cloud.old.count → out.new.size ≡ out.old.size) }
{
    let mut flags = [false; MOST];
    keep_marked(
        blocks,
        kept,
        i,
        n,
        past,
        every,
        tests,
        &mut flags[..n],
        cloud,
        out,
    )
}

/// The same, with room for a mark for each record.
fn keep_marked<T: Target>(
    blocks: &[FieldBlock],
    kept: usize,
    i: u64,
    n: usize,
    past: u64,
    every: u64,
    tests: &[Limits],
    flags: &mut [bool],
    cloud: &mut CloudOut,
    out: &mut PagesOut<T>,
) -> Result<(), WriteFault>
    requires long { length flags.old ≡ n }
    requires have { AllByRecursion (HasRecords i n) blocks.now }
    requires few { n ≤ most_of_block }
    requires last { i + n < 2 ^ 64 }
    requires many { (0 < kept) × (kept ≤ length blocks.now) × (length blocks.now ≤ 520) }
    requires kinds { cloud.old.kinds ≡ take kept (block_kinds blocks.now) }
    requires every { 0 < every }
    requires tests { AllByRecursion (IsTestOf (block_kinds blocks.now)) tests.now }
    requires unspent { cloud.old.is_spent ≡ false }
    requires between { IsBetween cloud.old }
    requires standing { IsStanding cloud.old out.old }
    requires state { IsBeingWritten T.view out.old }
    requires limit { cloud.old.count + n ≤ cloud.old.at_most }
    ensures full { AreColumns (block_kinds blocks.now) n (held_columns blocks.now i n) }
    ensures keeps { let columns = held_columns blocks.now i n in
        let pass = passes_here (sieve_of every tests.now) past columns in
        let more = map (passing pass 0) (take kept columns) in
        MatchResult result
        (λ _. AddsRecords T.view (passing_count pass 0 n) more cloud.old out.old cloud.new out.new)
        (λ fault. LosesRun T.view (passing_count pass 0 n) more cloud.old out.old fault cloud.new out.new) }
    ensures idle { OnOk result (cloud.new.count ≡ cloud.old.count → out.new.size ≡ out.old.size) }
{
    are_of_fields(blocks, i, n);
    mark_run(blocks, i, n, past, every, tests, flags);
    let (first, _) = blocks.split_at(kept);
    pick_run(first, i, n, flags, cloud, out)
}
