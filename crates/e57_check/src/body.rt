//! The packets, chunks and fields of a section, in one pass.

ghost use Rattle.std.specs.Prelude.{◌≡◌, ◌*◌, ◌/◌, ◌≤◌, length, MatchResult};
ghost use Rattle.e57_base.specs.Source.{page_length};
ghost use Rattle.e57_page.specs.Place.{payload_length};
ghost use Rattle.e57_nodes.specs.Items.{leaves_of};
ghost use Rattle.e57_section.specs.Opening.{LiesIn};
ghost use Rattle.e57_tree.specs.Held.{AreCloudFields};
ghost use Rattle.e57_check.specs.Starts.{AreStarts, IsField, IsWidth};
ghost use Rattle.e57_check.specs.Clouds.{JudgesRecords, RefusesRecords};

use crate::block::Block;
use crate::fields::{block_length, judge_block, open_columns};
use crate::packets::{none_passed, walk_to, walk_to_end};
use crate::starts::Starts;
use e57_base::{OpenFault, Source};
use e57_column::records_at_a_time;
use e57_layout::{Field, Fixed, Section};
use e57_page::Pages;
use e57_section::Packet;
use std::alloc::Global;

/// Judges the packets of a section in order, its chunks, and its fields in order, each over its records (ASTM E2807, data
/// packets and bytestreams). Its index has no fault.
///
/// After each block of records the packets are judged up to where the first field took them, so that their pages are mostly
/// still kept. A packet's fault is answered at once. A fault of an item is kept until all packets are judged.
pub fn judge_records<S: Source>(
    alloc: Global,
    section: &Section,
    starts: &Starts,
    fixed: Option<Fixed>,
    fields: &[Field],
    pages: &mut Pages<S>,
) -> Result<(), OpenFault>
    requires lies { LiesIn section.now (pages.old.length / page_length * payload_length) }
    requires starts { AreStarts section.now starts.now }
    requires as_many { length fields.now ≡ section.now.fields }
    requires fields { AreCloudFields fields.now }
    requires fixed_field { IsField section.now fixed }
    requires fixed_width { IsWidth fixed }
    ensures length { pages.new.length ≡ pages.old.length }
    ensures header { pages.new.header ≡ pages.old.header }
    ensures records { let count = pages.old.length / page_length in MatchResult result
        (λ _. JudgesRecords count (S.view pages.old.source) section.now starts.now fixed (leaves_of fields.now) (S.view pages.new.source))
        (λ found. RefusesRecords count (S.view pages.old.source) section.now starts.now fixed (leaves_of fields.now) found (S.view pages.new.source)) }
{
    let Ok(mut packet) = Packet::new(alloc) else {
        return Err(OpenFault::Memory);
    };
    let Ok(mut block) = Block::new(alloc) else {
        return Err(OpenFault::Memory);
    };
    let mut judging = match open_columns(alloc, section, fixed, fields, pages) {
        Ok(judging) => judging,
        Err(fault) => return Err(fault),
    };
    let many = records_at_a_time(fields);
    let mut passed = none_passed(section);
    let mut at = 0;
    while at < section.count && !judging.columns.is_empty() {
        let n = block_length(section.count - at, many);
        if let Err(fault) = judge_block(section, &mut judging, &mut block, pages, at, n) {
            return Err(fault);
        }
        at += n as u64;
        match walk_to(section, starts, passed, judging.taken(), pages, &mut packet) {
            Ok(next) => passed = next,
            Err(fault) => return Err(OpenFault::from(fault)),
        }
    }
    if let Err(fault) = walk_to_end(section, starts, passed, pages, &mut packet) {
        return Err(OpenFault::from(fault));
    }
    match judging.found {
        Some(found) => Err(OpenFault::Refused(found)),
        None => Ok(()),
    }
}
