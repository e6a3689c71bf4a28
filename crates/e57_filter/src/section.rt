//! The section of what is kept of a cloud.

ghost use Rattle.std.specs.Prelude.{◌≡◌, ◌+◌, ◌++◌, ◌*◌, ◌/◌, ◌%◌, ◌<◌, ◌≤◌, false, None, length, map, take, IfOk, MatchResult};
ghost use Rattle.std.specs.List.{AllByRecursion};
ghost use Rattle.e57_base.specs.Source.{page_length};
ghost use Rattle.e57_page.specs.Place.{payload_length};
ghost use Rattle.e57_cloud.specs.Cloud.{float_from};
ghost use Rattle.e57_section.specs.Opening.{LiesIn, most_records};
ghost use Rattle.e57_nodes.specs.Items.{leaves_of};
ghost use Rattle.e57_tree.specs.Held.{AreCloudFields};
ghost use Rattle.e57_blocks.specs.Fields.{slice_at, slice_of};
ghost use Rattle.e57_chunk_out.specs.CloudCalls.{chosen_kinds, new_cloud, IsChunkLength};
ghost use Rattle.e57_copy.specs.Adding.{block_kinds};
ghost use Rattle.e57_copy.specs.Copying.{StandBefore};
ghost use Rattle.e57_filter.specs.Asking.{filter_chunk};
ghost use Rattle.e57_filter.specs.Keeping.{sieve_of, IsTestOf};
ghost use Rattle.e57_filter.specs.KeptSection.{limits_from, FiltersCloud, LosesFiltered, LosesKept, PutsKept};
ghost use Rattle.e57_filter.specs.Selecting.{selection_of, test_fields, AreOfCloud};

use crate::keep::{Limits, keep_records};
use crate::select::{FieldTest, Selected};
use e57_base::{RunFault, Source, Target};
use e57_blocks::FieldBlocks;
use e57_chunk_out::{CloudOut, Written};
use e57_layout::{Field, Fixed, Section};
use e57_page::Pages;
use e57_page_out::PagesOut;
use e57_section::open_section;
use e57_tree::Cloud;
use std::alloc::{AllocError, Global};

/// How many records a chunk has.
const CHUNK: u32 = 8192;

/// Puts the section of what is kept of a cloud of these fields (ASTM E2807, compressed vector binary sections), without
/// the zeros behind it, in chunks of 8,192 records. Answers its physical offset and how many records it has. Nothing is
/// put if no record is kept: both are 0 then. `fixed` is the first Float field.
///
/// Refuses a fault of the section's header, or of a record of the range, kept or not. `Source` or `Out` if a call
/// failed, `Memory` if there is none, `Ask` with `Large` if the section would leave no page. After each of these what
/// the target holds is no whole file. Memory is taken for blocks of the kept and the tested fields, and for the
/// new cloud.
pub fn filter_section<S: Source, T: Target>(
    alloc: Global,
    selected: &Selected,
    every: u64,
    fixed: Option<Fixed>,
    fields: &[Field],
    pages: &mut Pages<S>,
    out: &mut PagesOut<T>,
) -> Result<Written, RunFault>
    requires few { selected.now.cloud.count ≤ most_records }
    requires fixed { fixed ≡ float_from 0 (leaves_of fields.now) }
    requires fields { AreCloudFields fields.now }
    requires selected { AreOfCloud fields.now selected.now }
    requires every { 0 < every }
    requires unspent { out.old.is_spent ≡ false }
    requires free { out.old.held ≡ None }
    requires whole { out.old.size % payload_length ≡ 0 }
    ensures length { pages.new.length ≡ pages.old.length }
    ensures header { pages.new.header ≡ pages.old.header }
    ensures filters { let count = pages.old.length / page_length in
        let old = S.view pages.old.source in
        let new = S.view pages.new.source in
        let cloud = selected.now.cloud in
        let selection = selection_of every selected.now in
        MatchResult result
        (λ written. FiltersCloud T.view filter_chunk cloud fields.now selection count old new out.old written out.new)
        (λ fault. LosesFiltered T.view filter_chunk cloud fields.now selection count old new out.old fault out.new) }
{
    let _size = pages.logical_len();
    let _place = out.size();
    if selected.count == 0 {
        return Ok(Written { place: 0, count: 0 });
    }
    let Cloud { node, place, count } = selected.cloud;
    let section = match open_section(pages, node, place, count, fields.len() as u16) {
        Ok(section) => section,
        Err(fault) => return Err(RunFault::from(fault)),
    };
    keep_section(alloc, &section, selected, every, fixed, fields, pages, out)
}

/// Puts the section of what is kept of a section.
fn keep_section<S: Source, T: Target>(
    alloc: Global,
    section: &Section,
    selected: &Selected,
    every: u64,
    fixed: Option<Fixed>,
    fields: &[Field],
    pages: &mut Pages<S>,
    out: &mut PagesOut<T>,
) -> Result<Written, RunFault>
    requires lies { LiesIn section.now (pages.old.length / page_length * payload_length) }
    requires as_many { length fields.now ≡ section.now.fields }
    requires records { selected.now.cloud.count ≡ section.now.count }
    requires fixed { fixed ≡ float_from 0 (leaves_of fields.now) }
    requires fields { AreCloudFields fields.now }
    requires selected { AreOfCloud fields.now selected.now }
    requires every { 0 < every }
    requires unspent { out.old.is_spent ≡ false }
    requires free { out.old.held ≡ None }
    requires whole { out.old.size % payload_length ≡ 0 }
    ensures length { pages.new.length ≡ pages.old.length }
    ensures header { pages.new.header ≡ pages.old.header }
    ensures puts { let numbers = selected.now.numbers.items in
        let asked = numbers ++ test_fields selected.now.tests.items in
        let a = slice_of section.now fixed fields.now asked selected.now.from selected.now.count in
        let kinds = chosen_kinds fields.now numbers in
        let s = sieve_of every (limits_from (length numbers) selected.now.tests.items) in
        let old = S.view pages.old.source in
        let new = S.view pages.new.source in
        MatchResult result
        (λ written. PutsKept T.view s (length numbers) a filter_chunk kinds old new out.old written out.new)
        (λ fault. LosesKept T.view s (length numbers) a filter_chunk kinds old new out.old fault out.new) }
{
    let _size = out.size();
    let numbers = match asked_numbers(alloc, &selected.numbers, &selected.tests) {
        Ok(numbers) => numbers,
        Err(_) => return Err(RunFault::Memory),
    };
    let limits = match block_limits(alloc, selected.numbers.len(), &selected.tests) {
        Ok(limits) => limits,
        Err(_) => return Err(RunFault::Memory),
    };
    let mut blocks = match FieldBlocks::open(alloc, section, fixed, fields, &numbers) {
        Ok(blocks) => blocks,
        Err(_) => return Err(RunFault::Memory),
    };
    let cloud = match CloudOut::open_chosen(
        alloc,
        fields,
        &selected.numbers,
        CHUNK,
        selected.count,
    ) {
        Ok(cloud) => cloud,
        Err(_) => return Err(RunFault::Memory),
    };
    let kept = selected.numbers.len();
    put_kept(
        &mut blocks,
        kept,
        every,
        &limits,
        selected.from,
        selected.count,
        cloud,
        pages,
        out,
    )
}

/// The numbers of the kept fields, and then those of the tested ones.
fn asked_numbers(
    alloc: Global,
    numbers: &[u16],
    tests: &[FieldTest],
) -> Result<Vec<u16>, AllocError>
    ensures { IfOk result (λ asked. asked.items ≡ numbers.now ++ test_fields tests.now) }
{
    let mut asked = Vec::new(alloc);
    for f in 0..numbers.len() {
        asked.push(numbers[f])?;
    }
    add_tested(&mut asked, tests)?;
    Ok(asked)
}

/// Adds the numbers of the tested fields.
fn add_tested(asked: &mut Vec<u16>, tests: &[FieldTest]) -> Result<(), AllocError>
    ensures { IfOk result (λ _. asked.new.items ≡ asked.old.items ++ test_fields tests.now) }
{
    for j in 0..tests.len() {
        asked.push(tests[j].field)?;
    }
    Ok(())
}

/// The limits of the tested fields, by the numbers of their blocks, of which the first one is this.
fn block_limits(alloc: Global, first: usize, tests: &[FieldTest]) -> Result<Vec<Limits>, AllocError>
    requires few { length tests.now ≤ 8 }
    requires first { first ≤ 512 }
    ensures { IfOk result (λ limits. limits.items ≡ limits_from first tests.now) }
{
    let mut limits = Vec::new(alloc);
    for j in 0..tests.len() {
        limits.push(limits_of(&tests[j], (first + j) as u16))?;
    }
    Ok(limits)
}

/// The limits of a test, for the block with this number.
fn limits_of(test: &FieldTest, block: u16) -> Limits
    ensures { result ≡ record { block = block; low = test.now.low; high = test.now.high } }
{
    let FieldTest { low, high, .. } = *test;
    Limits { block, low, high }
}

/// Puts the section of a new cloud with those of the `count` records from record `from` on that pass.
fn put_kept<S: Source, T: Target>(
    blocks: &mut FieldBlocks,
    kept: usize,
    every: u64,
    tests: &[Limits],
    from: u64,
    count: u64,
    mut cloud: CloudOut,
    pages: &mut Pages<S>,
    out: &mut PagesOut<T>,
) -> Result<Written, RunFault>
    requires lies { LiesIn blocks.old.section (pages.old.length / page_length * payload_length) }
    requires stand { StandBefore blocks.old from (S.view pages.old.source) }
    requires left { from + count ≤ blocks.old.section.count }
    requires many { (0 < kept) × (kept ≤ 512) × (kept ≤ length blocks.old.blocks) × (length blocks.old.blocks ≤ 520) }
    requires fresh { cloud ≡ new_cloud (take kept (block_kinds blocks.old.blocks)) cloud.chunk cloud.at_most }
    requires every { 0 < every }
    requires tests { AllByRecursion (IsTestOf (block_kinds blocks.old.blocks)) tests.now }
    requires chunk { IsChunkLength cloud.chunk }
    requires most { count ≤ cloud.at_most }
    requires unspent { out.old.is_spent ≡ false }
    requires free { out.old.held ≡ None }
    requires whole { out.old.size % payload_length ≡ 0 }
    ensures length { pages.new.length ≡ pages.old.length }
    ensures header { pages.new.header ≡ pages.old.header }
    ensures puts { let s = sieve_of every tests.now in
        let a = slice_at blocks.old from count in
        let kinds = take kept (block_kinds blocks.old.blocks) in
        let old = S.view pages.old.source in
        let new = S.view pages.new.source in
        MatchResult result
        (λ written. PutsKept T.view s kept a cloud.chunk kinds old new out.old written out.new)
        (λ fault. LosesKept T.view s kept a cloud.chunk kinds old new out.old fault out.new) }
{
    let start = out.size();
    if let Err(fault) = keep_records(
        blocks, kept, every, tests, from, count, pages, &mut cloud, out,
    ) {
        return Err(fault);
    }
    if out.size() == start {
        return Ok(Written { place: 0, count: 0 });
    }
    match cloud.close(out) {
        Ok(written) => Ok(written),
        Err(fault) => Err(RunFault::from(fault)),
    }
}
