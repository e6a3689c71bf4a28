//! The section of a cloud, copied whole into a new file.

ghost use Rattle.std.specs.Prelude.{◌≡◌, ◌+◌, ◌*◌, ◌/◌, ◌%◌, ◌<◌, ◌≤◌, false, None, length, IfOk, MatchResult};
ghost use Rattle.std.specs.List.{range_with_len};
ghost use Rattle.e57_base.specs.Source.{page_length};
ghost use Rattle.e57_page.specs.Place.{payload_length};
ghost use Rattle.e57_cloud.specs.Cloud.{float_from};
ghost use Rattle.e57_section.specs.Opening.{LiesIn, most_records};
ghost use Rattle.e57_nodes.specs.Items.{leaves_of};
ghost use Rattle.e57_nodes.specs.Typed.{max_fields};
ghost use Rattle.e57_tree.specs.Held.{AreCloudFields};
ghost use Rattle.e57_blocks.specs.Fields.{slice_at};
ghost use Rattle.e57_chunk_out.specs.CloudCalls.{kinds_in, new_cloud, IsChunkLength};
ghost use Rattle.e57_copy.specs.Adding.{block_kinds};
ghost use Rattle.e57_copy.specs.Copying.{StandBefore};
ghost use Rattle.e57_copy.specs.Items.{AreAlike};
ghost use Rattle.e57_copy.specs.Sections.{all_records, CopiesCloud, LosesCloud, LosesSection, PutsRecords};

use crate::records::copy_records;
use e57_base::{RunFault, Source, Target};
use e57_blocks::FieldBlocks;
use e57_chunk_out::CloudOut;
use e57_layout::{Field, Fixed, Section};
use e57_page::Pages;
use e57_page_out::PagesOut;
use e57_section::open_section;
use e57_tree::Cloud;
use std::alloc::{AllocError, Global};

/// Puts the section of a cloud of these fields, with all its records, as that of a cloud of other fields, which are the
/// same but for the limits of integers. Of a cloud without records nothing is put. `fixed` is the first Float field.
pub fn copy_cloud_section<S: Source, T: Target>(
    alloc: Global,
    cloud: &Cloud,
    fixed: Option<Fixed>,
    fields: &[Field],
    others: &[Field],
    chunk: u32,
    pages: &mut Pages<S>,
    out: &mut PagesOut<T>,
) -> Result<u64, RunFault>
    requires few { cloud.now.count ≤ most_records }
    requires fixed { fixed ≡ float_from 0 (leaves_of fields.now) }
    requires fields { AreCloudFields fields.now }
    requires others { AreCloudFields others.now }
    requires alike { AreAlike (kinds_in fields.now) (kinds_in others.now) }
    requires chunk { IsChunkLength chunk }
    requires unspent { out.old.is_spent ≡ false }
    requires free { out.old.held ≡ None }
    requires whole { out.old.size % payload_length ≡ 0 }
    ensures length { pages.new.length ≡ pages.old.length }
    ensures header { pages.new.header ≡ pages.old.header }
    ensures copies { let count = pages.old.length / page_length in
        let old = S.view pages.old.source in
        let new = S.view pages.new.source in
        MatchResult result
        (λ offset. CopiesCloud T.view chunk cloud.now fields.now others.now count old new out.old offset out.new)
        (λ fault. LosesCloud T.view chunk cloud.now fields.now others.now count old new out.old fault out.new) }
{
    let _size = pages.logical_len();
    let _place = out.size();
    let Cloud { node, place, count } = *cloud;
    if count == 0 {
        return Ok(0);
    }
    let section = match open_section(pages, node, place, count, fields.len() as u16) {
        Ok(section) => section,
        Err(fault) => return Err(RunFault::from(fault)),
    };
    copy_section_records(alloc, &section, fixed, fields, others, chunk, pages, out)
}

/// Puts the section of all records of a section.
fn copy_section_records<S: Source, T: Target>(
    alloc: Global,
    section: &Section,
    fixed: Option<Fixed>,
    fields: &[Field],
    others: &[Field],
    chunk: u32,
    pages: &mut Pages<S>,
    out: &mut PagesOut<T>,
) -> Result<u64, RunFault>
    requires lies { LiesIn section.now (pages.old.length / page_length * payload_length) }
    requires as_many { length fields.now ≡ section.now.fields }
    requires fixed { fixed ≡ float_from 0 (leaves_of fields.now) }
    requires fields { AreCloudFields fields.now }
    requires others { AreCloudFields others.now }
    requires alike { AreAlike (kinds_in fields.now) (kinds_in others.now) }
    requires chunk { IsChunkLength chunk }
    requires unspent { out.old.is_spent ≡ false }
    requires free { out.old.held ≡ None }
    requires whole { out.old.size % payload_length ≡ 0 }
    ensures length { pages.new.length ≡ pages.old.length }
    ensures header { pages.new.header ≡ pages.old.header }
    ensures puts { let a = all_records section.now fixed fields.now in
        let old = S.view pages.old.source in
        let new = S.view pages.new.source in
        MatchResult result
        (λ offset. PutsRecords T.view a chunk (kinds_in others.now) old new out.old offset out.new)
        (λ fault. LosesSection T.view a chunk (kinds_in others.now) old new out.old fault out.new) }
{
    let _size = out.size();
    let numbers = match all_numbers(alloc, fields.len()) {
        Ok(numbers) => numbers,
        Err(_) => return Err(RunFault::Memory),
    };
    let mut blocks = match FieldBlocks::open(alloc, section, fixed, fields, &numbers) {
        Ok(blocks) => blocks,
        Err(_) => return Err(RunFault::Memory),
    };
    let cloud = match CloudOut::open(alloc, others, chunk, section.count) {
        Ok(cloud) => cloud,
        Err(_) => return Err(RunFault::Memory),
    };
    put_records(&mut blocks, section.count, others, cloud, pages, out)
}

/// The numbers of so many fields.
fn all_numbers(alloc: Global, n: usize) -> Result<Vec<u16>, AllocError>
    requires { n ≤ max_fields }
    ensures { IfOk result (λ numbers. numbers.items ≡ range_with_len 0 n) }
{
    let mut numbers = Vec::new(alloc);
    for f in 0..n {
        numbers.push(f as u16)?;
    }
    Ok(numbers)
}

/// Puts the section of a new cloud with all records of the blocks' section.
fn put_records<S: Source, T: Target>(
    blocks: &mut FieldBlocks,
    count: u64,
    others: &[Field],
    mut cloud: CloudOut,
    pages: &mut Pages<S>,
    out: &mut PagesOut<T>,
) -> Result<u64, RunFault>
    requires lies { LiesIn blocks.old.section (pages.old.length / page_length * payload_length) }
    requires stand { StandBefore blocks.old 0 (S.view pages.old.source) }
    requires some { 0 < count }
    requires all { count ≤ blocks.old.section.count }
    requires fields { (0 < length blocks.old.blocks) × (length blocks.old.blocks ≤ 512) }
    requires alike { AreAlike (block_kinds blocks.old.blocks) (kinds_in others.now) }
    requires fresh { cloud ≡ new_cloud (kinds_in others.now) cloud.chunk cloud.at_most }
    requires chunk { IsChunkLength cloud.chunk }
    requires most { count ≤ cloud.at_most }
    requires unspent { out.old.is_spent ≡ false }
    requires free { out.old.held ≡ None }
    requires whole { out.old.size % payload_length ≡ 0 }
    ensures length { pages.new.length ≡ pages.old.length }
    ensures header { pages.new.header ≡ pages.old.header }
    ensures puts { let a = slice_at blocks.old 0 count in
        let old = S.view pages.old.source in
        let new = S.view pages.new.source in
        MatchResult result
        (λ offset. PutsRecords T.view a cloud.chunk (kinds_in others.now) old new out.old offset out.new)
        (λ fault. LosesSection T.view a cloud.chunk (kinds_in others.now) old new out.old fault out.new) }
{
    let _size = out.size();
    if let Err(fault) = copy_records(blocks, 0, count, others, pages, &mut cloud, out) {
        return Err(fault);
    }
    match cloud.close(out) {
        Ok(written) => Ok(written.place),
        Err(fault) => Err(RunFault::from(fault)),
    }
}
