//! One cloud.

ghost use Rattle.std.specs.Prelude.{◌≡◌, ◌*◌, ◌/◌, ◌≤◌, length, MatchResult};
ghost use Rattle.e57_base.specs.Source.{page_length};
ghost use Rattle.e57_page.specs.Place.{payload_length};
ghost use Rattle.e57_nodes.specs.Items.{leaves_of};
ghost use Rattle.e57_cloud.specs.Cloud.{float_from};
ghost use Rattle.e57_section.specs.Opening.{LiesIn, most_records};
ghost use Rattle.e57_tree.specs.Held.{AreCloudFields};
ghost use Rattle.e57_check.specs.Starts.{IsField, IsWidth};
ghost use Rattle.e57_check.specs.Clouds.{OpensStarts, OpensNoStarts, JudgesBody, RefusesBody, JudgesCloud, RefusesCloud};

use crate::body::judge_records;
use crate::starts::Starts;
use e57_base::{OpenFault, Source};
use e57_index::all_entries;
use e57_layout::{Field, Fixed, Section};
use e57_page::Pages;
use e57_section::open_section;
use e57_tree::Cloud;
use std::alloc::Global;

/// Judges a cloud: its section, its index, its packets in order, its chunks, and its fields in order, each over its records.
/// `fixed` is the first Float field. Of a cloud without records nothing is judged.
pub fn judge_cloud<S: Source>(
    alloc: Global,
    cloud: &Cloud,
    fields: &[Field],
    fixed: Option<Fixed>,
    pages: &mut Pages<S>,
) -> Result<(), OpenFault>
    requires few { cloud.now.count ≤ most_records }
    requires fields { AreCloudFields fields.now }
    requires fixed { fixed ≡ float_from 0 (leaves_of fields.now) }
    ensures length { pages.new.length ≡ pages.old.length }
    ensures header { pages.new.header ≡ pages.old.header }
    ensures cloud { let count = pages.old.length / page_length in MatchResult result
        (λ _. JudgesCloud count (S.view pages.old.source) cloud.now (leaves_of fields.now) (S.view pages.new.source))
        (λ found. RefusesCloud count (S.view pages.old.source) cloud.now (leaves_of fields.now) found (S.view pages.new.source)) }
{
    let Cloud { node, place, count } = *cloud;
    if count == 0 {
        return Ok(());
    }
    let section = match open_section(pages, node, place, count, fields.len() as u16) {
        Ok(section) => section,
        Err(fault) => return Err(OpenFault::from(fault)),
    };
    judge_body(alloc, &section, fixed, fields, pages)
}

/// Judges what a section holds behind its header.
fn judge_body<S: Source>(
    alloc: Global,
    section: &Section,
    fixed: Option<Fixed>,
    fields: &[Field],
    pages: &mut Pages<S>,
) -> Result<(), OpenFault>
    requires lies { LiesIn section.now (pages.old.length / page_length * payload_length) }
    requires as_many { length fields.now ≡ section.now.fields }
    requires fields { AreCloudFields fields.now }
    requires fixed_field { IsField section.now fixed }
    requires fixed_width { IsWidth fixed }
    ensures length { pages.new.length ≡ pages.old.length }
    ensures header { pages.new.header ≡ pages.old.header }
    ensures body { let count = pages.old.length / page_length in MatchResult result
        (λ _. JudgesBody count (S.view pages.old.source) section.now fixed (leaves_of fields.now) (S.view pages.new.source))
        (λ found. RefusesBody count (S.view pages.old.source) section.now fixed (leaves_of fields.now) found (S.view pages.new.source)) }
{
    let starts = match open_starts(alloc, section, fixed, pages) {
        Ok(starts) => starts,
        Err(fault) => return Err(fault),
    };
    judge_records(alloc, section, &starts, fixed, fields, pages)
}

/// What the chunk starts of a section are judged by: the entries of its index, if it has one and its index has no fault.
fn open_starts<S: Source>(
    alloc: Global,
    section: &Section,
    fixed: Option<Fixed>,
    pages: &mut Pages<S>,
) -> Result<Starts, OpenFault>
    requires lies { LiesIn section.now (pages.old.length / page_length * payload_length) }
    requires fixed_field { IsField section.now fixed }
    requires fixed_width { IsWidth fixed }
    ensures length { pages.new.length ≡ pages.old.length }
    ensures header { pages.new.header ≡ pages.old.header }
    ensures starts { let count = pages.old.length / page_length in MatchResult result
        (λ starts. OpensStarts count (S.view pages.old.source) section.now fixed starts (S.view pages.new.source))
        (λ found. OpensNoStarts count (S.view pages.old.source) section.now found (S.view pages.new.source)) }
{
    if section.index == 0 {
        return Ok(Starts::Counted(fixed));
    }
    match all_entries(alloc, pages, section) {
        Ok(entries) => Ok(Starts::Indexed(entries)),
        Err(fault) => Err(fault),
    }
}
