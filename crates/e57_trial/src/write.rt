//! The content of two numbers written as a new file.

ghost use Rattle.std.specs.Prelude.{◌≡◌, ◌≤◌, false, None, MatchResult};
ghost use Rattle.e57_base.specs.Fault.{write_as_run};
ghost use Rattle.e57_page.specs.Place.{payload_length};
ghost use Rattle.e57_elements.specs.Tree.{preorder};
ghost use Rattle.e57_chunk_out.specs.CloudCalls.{IsChunkLength};
ghost use Rattle.e57_copy.specs.Ending.{Aim, EndsFile, EndsNot};
ghost use Rattle.e57_trial.specs.Content.{most_records, trial_tree};
ghost use Rattle.e57_trial.specs.Writing.{trial_aim, WritesTrial, WritesNoTrial};

use crate::section::put_section;
use crate::tree::tree_for;
use e57_base::{Target, WriteFault};
use e57_file_out::close_file;
use e57_page_out::PagesOut;
use e57_tree::Tree;
use std::alloc::Global;

/// Writes a new file, under the empty name, with one cloud of `count` records, up to 2^24, made from the two numbers
/// (ASTM E2807, file structure): of record i, counted from 0, the raw cartesianX is `(start + 3 * i) mod 2^20`, the raw cartesianY
/// `(start + 5 * i) mod 2^20`, the intensity `i mod 256`, the rowIndex 0, the bits of cartesianZ are `0x3F800000 + i mod 2^20`,
/// and the tag is `i mod 4` times the letter a. Chunks have `chunk` records, a multiple of 8 from 8 to 2^20. Gives the target
/// back, and answers the file's length in bytes.
///
/// Refuses `Target` if the target failed, and `Memory`; never `Large`. What the target holds is then no whole file.
///
/// Memory is taken for the tree and its text, and for what a cloud under way wants.
pub fn write_trial<T: Target>(
    alloc: Global,
    start: u64,
    count: u64,
    chunk: u32,
    target: T,
) -> (T, Result<u64, WriteFault>)
    requires count { count ≤ most_records }
    requires chunk { IsChunkLength chunk }
    ensures { MatchResult result.1
        (λ total. WritesTrial chunk start count (T.view target) total (T.view result.0))
        (λ fault. WritesNoTrial T.view chunk start count target fault result.0) }
{
    let tree = match tree_for(alloc, count) {
        Ok(tree) => tree,
        Err(_) => return (target, Err(WriteFault::Memory)),
    };
    let mut out = match PagesOut::open(target, "") {
        Ok(out) => out,
        Err((target, _)) => return (target, Err(WriteFault::Target)),
    };
    let result = write_rest(alloc, &tree, start, count, chunk, &mut out);
    (out.into_target(), result)
}

/// Puts what follows page 0, and then the header.
fn write_rest<T: Target>(
    alloc: Global,
    tree: &Tree,
    start: u64,
    count: u64,
    chunk: u32,
    out: &mut PagesOut<T>,
) -> Result<u64, WriteFault>
    requires tree { tree.now ≡ preorder (trial_tree count) }
    requires count { count ≤ most_records }
    requires chunk { IsChunkLength chunk }
    requires unspent { out.old.is_spent ≡ false }
    requires free { out.old.held ≡ None }
    requires begun { out.old.size ≡ payload_length }
    ensures { let aim : Aim = trial_aim chunk start count in MatchResult result
        (λ total. EndsFile T.view aim out.old total (T.view out.new.target))
        (λ fault. EndsNot T.view aim out.old (write_as_run fault) (T.view out.new.target)) }
{
    let _size = out.size();
    let offset = match put_section(alloc, tree, start, count, chunk, out) {
        Ok(offset) => offset,
        Err(fault) => return Err(fault),
    };
    close_file(alloc, tree, &[offset], out)
}
