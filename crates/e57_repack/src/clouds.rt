//! Ranges that are widened by the items of a cloud.

ghost use Rattle.std.specs.Prelude.{◌≡◌, ◌+◌, ◌*◌, ◌/◌, ◌<◌, ◌≤◌, length, IfOk, MatchResult};
ghost use Rattle.std.specs.List.{AllByRecursion, range_with_len};
ghost use Rattle.e57_base.specs.Source.{page_length};
ghost use Rattle.e57_page.specs.Place.{payload_length};
ghost use Rattle.e57_cloud.specs.Cloud.{float_from};
ghost use Rattle.e57_section.specs.Opening.{LiesIn, most_records};
ghost use Rattle.e57_nodes.specs.Items.{leaves_of, stated_cloud};
ghost use Rattle.e57_nodes.specs.Typed.{max_fields};
ghost use Rattle.e57_tree.specs.Held.{AreCloudFields};
ghost use Rattle.e57_blocks.specs.Fields.{slice_at};
ghost use Rattle.e57_copy.specs.Copying.{StandBefore};
ghost use Rattle.e57_copy.specs.Sections.{all_records, thing_of};
ghost use Rattle.e57_repack.specs.Ranges.{AreLimits};
ghost use Rattle.e57_repack.specs.Widening.{WidensAll, WidensNot, WidensByItem, WidensNotByItem};

use crate::widening::widen_by_run;
use e57_base::{OpenFault, Source};
use e57_blocks::{FieldBlocks, MOST};
use e57_edits::Range;
use e57_layout::{Field, Fixed, Section};
use e57_page::Pages;
use e57_section::open_section;
use e57_tree::Cloud;
use std::alloc::{AllocError, Global};

/// Widens the entries of a cloud's integer fields to the items of all its records. `fixed` is the first Float field.
pub fn widen_by_cloud<S: Source>(
    alloc: Global,
    cloud: &Cloud,
    fixed: Option<Fixed>,
    fields: &[Field],
    ranges: &mut Vec<Option<Range>>,
    pages: &mut Pages<S>,
) -> Result<(), OpenFault>
    requires few { cloud.now.count ≤ most_records }
    requires fixed { fixed ≡ float_from 0 (leaves_of fields.now) }
    requires fields { AreCloudFields fields.now }
    requires there { AllByRecursion (λ field. field.node < length ranges.old.items) fields.now }
    requires limits { AreLimits (length ranges.old.items) ranges.old.items }
    ensures length { pages.new.length ≡ pages.old.length }
    ensures header { pages.new.header ≡ pages.old.header }
    ensures limits { AreLimits (length ranges.old.items) ranges.new.items }
    ensures widens { let count = pages.old.length / page_length in
        let stated = stated_cloud cloud.now.node cloud.now.count fields.now in
        let thing = thing_of cloud.now fields.now in
        MatchResult result
        (λ _. WidensByItem stated thing count (S.view pages.old.source) ranges.old.items (S.view pages.new.source) ranges.new.items)
        (λ fault. WidensNotByItem thing count (S.view pages.old.source) fault (S.view pages.new.source)) }
{
    let _size = pages.logical_len();
    let Cloud { node, place, count } = *cloud;
    if count == 0 {
        return Ok(());
    }
    let section = match open_section(pages, node, place, count, fields.len() as u16) {
        Ok(section) => section,
        Err(fault) => return Err(OpenFault::from(fault)),
    };
    widen_by_section(alloc, &section, fixed, fields, ranges, pages)
}

/// Widens the entries of the fields' nodes to the items of all records of a section.
fn widen_by_section<S: Source>(
    alloc: Global,
    section: &Section,
    fixed: Option<Fixed>,
    fields: &[Field],
    ranges: &mut Vec<Option<Range>>,
    pages: &mut Pages<S>,
) -> Result<(), OpenFault>
    requires lies { LiesIn section.now (pages.old.length / page_length * payload_length) }
    requires as_many { length fields.now ≡ section.now.fields }
    requires fixed { fixed ≡ float_from 0 (leaves_of fields.now) }
    requires fields { AreCloudFields fields.now }
    requires there { AllByRecursion (λ field. field.node < length ranges.old.items) fields.now }
    requires limits { AreLimits (length ranges.old.items) ranges.old.items }
    ensures length { pages.new.length ≡ pages.old.length }
    ensures header { pages.new.header ≡ pages.old.header }
    ensures limits { AreLimits (length ranges.old.items) ranges.new.items }
    ensures widens { let a = all_records section.now fixed fields.now in MatchResult result
        (λ _. WidensAll a fields.now (S.view pages.old.source) ranges.old.items (S.view pages.new.source) ranges.new.items)
        (λ fault. WidensNot a (S.view pages.old.source) fault (S.view pages.new.source)) }
{
    let numbers = match all_numbers(alloc, fields.len()) {
        Ok(numbers) => numbers,
        Err(_) => return Err(OpenFault::Memory),
    };
    let mut blocks = match FieldBlocks::open(alloc, section, fixed, fields, &numbers) {
        Ok(blocks) => blocks,
        Err(_) => return Err(OpenFault::Memory),
    };
    widen_by_records(ranges, fields, section.count, &mut blocks, pages)
}

/// The numbers of so many fields.
fn all_numbers(alloc: Global, n: usize) -> Result<Vec<u16>, AllocError>
    requires { n ≤ max_fields }
    ensures { IfOk result (λ numbers. numbers.items ≡ range_with_len 0 n) }
{
    let mut numbers = Vec::new(alloc);
    for f in 0..n {
        numbers.push(f as u16)?;
    }
    Ok(numbers)
}

/// Widens the entries of the fields' nodes to the items of the first `count` records of the blocks' section.
fn widen_by_records<S: Source>(
    ranges: &mut Vec<Option<Range>>,
    fields: &[Field],
    count: u64,
    blocks: &mut FieldBlocks,
    pages: &mut Pages<S>,
) -> Result<(), OpenFault>
    requires lies { LiesIn blocks.old.section (pages.old.length / page_length * payload_length) }
    requires stand { StandBefore blocks.old 0 (S.view pages.old.source) }
    requires all { count ≤ blocks.old.section.count }
    requires as_many { length blocks.old.blocks ≡ length fields.now }
    requires there { AllByRecursion (λ field. field.node < length ranges.old.items) fields.now }
    requires limits { AreLimits (length ranges.old.items) ranges.old.items }
    ensures length { pages.new.length ≡ pages.old.length }
    ensures header { pages.new.header ≡ pages.old.header }
    ensures limits { AreLimits (length ranges.old.items) ranges.new.items }
    ensures widens { let a = slice_at blocks.old 0 count in MatchResult result
        (λ _. WidensAll a fields.now (S.view pages.old.source) ranges.old.items (S.view pages.new.source) ranges.new.items)
        (λ fault. WidensNot a (S.view pages.old.source) fault (S.view pages.new.source)) }
{
    let _size = pages.logical_len();
    let mut at = 0;
    while at < count {
        let n = match blocks.fill(pages, at, run_length(count - at)) {
            Ok(n) => n,
            Err(fault) => return Err(fault),
        };
        widen_by_run(ranges, fields, blocks.blocks(), at, n);
        at += n as u64;
    }
    Ok(())
}

/// How many of the records that are left are read at a time.
fn run_length(left: u64) -> usize
    requires { 0 < left }
    ensures some { 0 < result }
    ensures few { result ≤ left }
{
    if left < MOST as u64 {
        left as usize
    } else {
        MOST
    }
}
