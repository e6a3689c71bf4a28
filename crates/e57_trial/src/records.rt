//! All records of the content, put into the cloud.

ghost use Rattle.std.specs.Prelude.{◌≡◌, ◌<◌, ◌≤◌, false, None, MatchResult};
ghost use Rattle.e57_page.specs.Place.{payload_length};
ghost use Rattle.e57_chunk_out.specs.CloudCalls.{most_of_block, new_cloud, IsChunkLength};
ghost use Rattle.e57_chunk_out.specs.Going.{LosesRecords};
ghost use Rattle.e57_copy.specs.Adding.{AddsRecords};
ghost use Rattle.e57_trial.specs.Content.{columns_from, most_records};
ghost use Rattle.e57_trial.specs.Records.{trial_kinds};

use crate::block::put_block;
use e57_base::{Target, WriteFault};
use e57_chunk_out::CloudOut;
use e57_page_out::PagesOut;

/// The most records of a block.
const MOST: u64 = 1024;

/// Puts all records into a new cloud, the section of which begins with page 1.
///
/// Refuses `Target` if the target failed, and `Memory`; never `Large`.
pub fn put_records<T: Target>(
    start: u64,
    count: u64,
    cloud: &mut CloudOut,
    out: &mut PagesOut<T>,
) -> Result<(), WriteFault>
    requires count { count ≤ most_records }
    requires fresh { cloud.old ≡ new_cloud trial_kinds cloud.old.chunk count }
    requires chunk { IsChunkLength cloud.old.chunk }
    requires unspent { out.old.is_spent ≡ false }
    requires free { out.old.held ≡ None }
    requires begun { out.old.size ≡ payload_length }
    ensures { MatchResult result
        (λ _. AddsRecords T.view count (columns_from start 0 count) cloud.old out.old cloud.new out.new)
        (λ fault. LosesRecords T.view out.old ⊥ (Unit {0}) fault (T.view out.new.target)) }
{
    let _size = out.size();
    let mut at = 0;
    while at < count {
        let n = block_length(count - at);
        if let Err(fault) = put_block(start, at, n, cloud, out) {
            return Err(fault);
        }
        at += n as u64;
    }
    Ok(())
}

/// How many of the records that are left are put at a time.
fn block_length(left: u64) -> usize
    requires { 0 < left }
    ensures some { 0 < result }
    ensures few { result ≤ left }
    ensures most { result ≤ most_of_block }
{
    left.min(MOST) as usize
}
