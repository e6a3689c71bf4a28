//! Records of an open cloud, copied run after run.

ghost use Rattle.std.specs.Prelude.{◌≡◌, ◌+◌, ◌*◌, ◌/◌, ◌<◌, ◌≤◌, false, length, MatchResult};
ghost use Rattle.e57_base.specs.Source.{page_length};
ghost use Rattle.e57_page.specs.Place.{payload_length};
ghost use Rattle.e57_section.specs.Opening.{LiesIn};
ghost use Rattle.e57_page_out.specs.Writing.{IsBeingWritten};
ghost use Rattle.e57_blocks.specs.Fields.{slice_at};
ghost use Rattle.e57_chunk_out.specs.CloudCalls.{kinds_in, IsBetween};
ghost use Rattle.e57_copy.specs.Adding.{block_kinds, IsStanding};
ghost use Rattle.e57_copy.specs.Copying.{AreSame, CopiesAll, CopiesNot, StandBefore};
ghost use Rattle.e57_copy.specs.Items.{AreAlike};

use crate::limits::test_run;
use crate::run::put_run;
use e57_base::{RunFault, Source, Target};
use e57_blocks::{FieldBlocks, MOST};
use e57_chunk_out::CloudOut;
use e57_layout::Field;
use e57_page::Pages;
use e57_page_out::PagesOut;

/// Copies the `count` records from record `from` on: puts them behind those that the cloud has. `fields` are those of
/// the cloud, in its order; the blocks are of the same fields, but for the limits of integers, and are ready for record
/// `from`. It may be called again for records further on.
///
/// Refuses the fault of the first of these records that has one, and of that record the fault of the first field that
/// has one; `Source` if the source failed. The records before it were put then, and cloud and blocks can be used
/// further.
///
/// Refuses a value outside of the limits of its field of `fields`, too: by `ValueRange`, with the number of the record
/// and that of the field's node. Some records before it were put then, up to 1,023 may not have been, and cloud and
/// blocks can be used further.
///
/// `Out` says that the target failed, `Ask` with `Large` that the new file would pass the last page, and `Memory` that
/// there is none, which is wanted for strings alone; then the cloud is spent, but for some cases of `Memory`.
pub fn copy_records<S: Source, T: Target>(
    blocks: &mut FieldBlocks,
    from: u64,
    count: u64,
    fields: &[Field],
    pages: &mut Pages<S>,
    cloud: &mut CloudOut,
    out: &mut PagesOut<T>,
) -> Result<(), RunFault>
    requires lies { LiesIn blocks.old.section (pages.old.length / page_length * payload_length) }
    requires stand { StandBefore blocks.old from (S.view pages.old.source) }
    requires left { from + count ≤ blocks.old.section.count }
    requires many { (0 < length blocks.old.blocks) × (length blocks.old.blocks ≤ 512) }
    requires kinds { cloud.old.kinds ≡ kinds_in fields.now }
    requires alike { AreAlike (block_kinds blocks.old.blocks) (kinds_in fields.now) }
    requires unspent { cloud.old.is_spent ≡ false }
    requires between { IsBetween cloud.old }
    requires standing { IsStanding cloud.old out.old }
    requires state { IsBeingWritten T.view out.old }
    requires limit { cloud.old.count + count ≤ cloud.old.at_most }
    ensures length { pages.new.length ≡ pages.old.length }
    ensures header { pages.new.header ≡ pages.old.header }
    ensures same { AreSame blocks.old blocks.new }
    ensures copies { let a = slice_at blocks.old from count in
        let old = S.view pages.old.source in
        let new = S.view pages.new.source in
        MatchResult result
        (λ _. CopiesAll T.view a old cloud.old out.old new blocks.new cloud.new out.new)
        (λ fault. CopiesNot T.view a old cloud.old out.old fault new blocks.new cloud.new out.new) }
{
    let _size = pages.logical_len();
    let until = from + count;
    let mut at = from;
    while at < until {
        let n = match blocks.fill(pages, at, run_length(until - at)) {
            Ok(n) => n,
            Err(fault) => return Err(fault.into()),
        };
        if let Err(found) = test_run(blocks.blocks(), at, n, fields) {
            return Err(RunFault::Refused(found));
        }
        if let Err(fault) = put_run(blocks.blocks(), at, n, cloud, out) {
            return Err(fault.into());
        }
        at += n as u64;
    }
    Ok(())
}

/// How many of the records that are left are copied at a time.
fn run_length(left: u64) -> usize
    requires { 0 < left }
    ensures some { 0 < result }
    ensures few { result ≤ left }
    ensures most { result ≤ 1024 }
{
    if left < MOST as u64 {
        left as usize
    } else {
        MOST
    }
}
