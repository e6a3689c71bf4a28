//! The section of the cloud.

ghost use Rattle.std.specs.Prelude.{◌≡◌, [], ◌∷◌, ◌<◌, ◌≤◌, false, None, MatchResult};
ghost use Rattle.e57_layout.specs.Written.{physical, section_spelled};
ghost use Rattle.e57_page.specs.Place.{payload_length};
ghost use Rattle.e57_page_out.specs.Sequences.{Puts};
ghost use Rattle.e57_elements.specs.Tree.{preorder};
ghost use Rattle.e57_nodes.specs.Items.{stated_items};
ghost use Rattle.e57_nodes.specs.Shape.{shape_of};
ghost use Rattle.e57_chunk_out.specs.CloudCalls.{new_cloud, IsChunkLength};
ghost use Rattle.e57_chunk_out.specs.Going.{LosesRecords};
ghost use Rattle.e57_copy.specs.Several.{PutsItems};
ghost use Rattle.e57_trial.specs.Content.{columns_from, most_records, trial_tree};
ghost use Rattle.e57_trial.specs.Records.{trial_bodies, trial_kinds};

use crate::records::put_records;
use e57_base::{Target, WriteFault};
use e57_chunk_out::CloudOut;
use e57_page_out::PagesOut;
use e57_tree::Tree;
use std::alloc::Global;

/// Puts the section of the tree's cloud with all records, from page 1 on, and zeros up to the end of its last page. Answers its
/// physical offset. Of no records nothing is put, and the offset is 0.
///
/// Refuses `Target` if the target failed, and `Memory`; never `Large`. What the target holds is no whole file then.
pub fn put_section<T: Target>(
    alloc: Global,
    tree: &Tree,
    start: u64,
    count: u64,
    chunk: u32,
    out: &mut PagesOut<T>,
) -> Result<u64, WriteFault>
    requires tree { tree.now ≡ preorder (trial_tree count) }
    requires count { count ≤ most_records }
    requires chunk { IsChunkLength chunk }
    requires unspent { out.old.is_spent ≡ false }
    requires free { out.old.held ≡ None }
    requires begun { out.old.size ≡ payload_length }
    ensures { MatchResult result
        (λ offset. PutsItems T.view chunk (stated_items (shape_of (trial_tree count))) (trial_bodies start count) out.old (offset ∷ []) out.new)
        (λ fault. LosesRecords T.view out.old ⊥ (Unit {0}) fault (T.view out.new.target)) }
{
    let _size = out.size();
    if count == 0 {
        return Ok(0);
    }
    let cloud = match CloudOut::open(alloc, tree.fields(0), chunk, count) {
        Ok(cloud) => cloud,
        Err(_) => return Err(WriteFault::Memory),
    };
    let offset = match put_cloud(start, count, cloud, out) {
        Ok(offset) => offset,
        Err(fault) => return Err(fault),
    };
    if let Err(_) = out.fresh_page() {
        return Err(WriteFault::Target);
    }
    Ok(offset)
}

/// Puts the section of a new cloud with all records, one at least, and no zeros behind it.
fn put_cloud<T: Target>(
    start: u64,
    count: u64,
    mut cloud: CloudOut,
    out: &mut PagesOut<T>,
) -> Result<u64, WriteFault>
    requires some { 0 < count }
    requires count { count ≤ most_records }
    requires fresh { cloud ≡ new_cloud trial_kinds cloud.chunk count }
    requires chunk { IsChunkLength cloud.chunk }
    requires unspent { out.old.is_spent ≡ false }
    requires free { out.old.held ≡ None }
    requires begun { out.old.size ≡ payload_length }
    ensures { MatchResult result
        (λ offset. (offset ≡ physical out.old.size)
        × Puts T.view out.old (section_spelled out.old.size trial_kinds cloud.chunk count (columns_from start 0 count)) out.new)
        (λ fault. LosesRecords T.view out.old ⊥ (Unit {0}) fault (T.view out.new.target)) }
{
    let _size = out.size();
    if let Err(fault) = put_records(start, count, &mut cloud, out) {
        return Err(fault);
    }
    match cloud.close(out) {
        Ok(written) => Ok(written.place),
        Err(fault) => Err(fault),
    }
}
