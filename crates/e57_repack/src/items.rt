//! The items of a file, copied into a new one.

ghost use Rattle.std.specs.Prelude.{◌≡◌, ◌/◌, ◌%◌, false, None, MatchResult};
ghost use Rattle.e57_base.specs.Source.{page_length};
ghost use Rattle.e57_page.specs.Place.{payload_length};
ghost use Rattle.e57_elements.specs.Tree.{Element, preorder};
ghost use Rattle.e57_nodes.specs.Items.{stated_items};
ghost use Rattle.e57_nodes.specs.Shape.{shape_of};
ghost use Rattle.e57_verdict.specs.Things.{things_in};
ghost use Rattle.e57_chunk_out.specs.CloudCalls.{IsChunkLength};
ghost use Rattle.e57_repack.specs.Copying.{AreAlikeItems, CopiesItems, LosesItems};

use e57_base::{RunFault, Source, Target};
use e57_copy::copy_item;
use e57_file::E57;
use e57_page::Pages;
use e57_page_out::PagesOut;
use e57_tree::Tree;
use std::alloc::Global;

/// Copies all clouds and blobs of a file into a new one, each with its section from a fresh page on, and answers their physical
/// offsets, one for each in document order and 0 for a cloud of no records. `tree` is the tree of the new file: its items are
/// those of the file, but for the limits of integer fields. The new file's last page is whole, and none is held.
///
/// Refuses `Refused` where an item has a fault, or a value outside of the limits in `tree`; `Source` and `Out` if the source or the
/// target failed; `Large` if a section would pass the last page of a file. What the target holds is then no whole file.
pub fn copy_items<S: Source, T: Target>(
    alloc: Global,
    file: &E57,
    tree: &Tree,
    chunk: u32,
    pages: &mut Pages<S>,
    out: &mut PagesOut<T>,
) -> Result<Vec<u64>, RunFault>
    requires alike { (e d : Element) → file.now ≡ preorder e → tree.now ≡ preorder d → AreAlikeItems (stated_items (shape_of e)) (stated_items (shape_of d)) }
    requires chunk { IsChunkLength chunk }
    requires unspent { out.old.is_spent ≡ false }
    requires free { out.old.held ≡ None }
    requires whole { out.old.size % payload_length ≡ 0 }
    ensures length { pages.new.length ≡ pages.old.length }
    ensures header { pages.new.header ≡ pages.old.header }
    ensures copies { (e d : Element) → file.now ≡ preorder e → tree.now ≡ preorder d → let count = pages.old.length / page_length in MatchResult result
        (λ offsets. CopiesItems T.view chunk (stated_items (shape_of d)) (things_in e) count (S.view pages.old.source) (S.view pages.new.source) out.old offsets.items out.new)
        (λ fault. LosesItems T.view chunk (stated_items (shape_of d)) (things_in e) count (S.view pages.old.source) (S.view pages.new.source) out.old fault out.new) }
{
    let _size = out.size();
    let _old = file.tree().raw();
    let _new = tree.raw();
    let mut offsets = Vec::new(alloc);
    for item in file.tree().items() {
        let offset = match copy_item(alloc, file, tree, *item, chunk, pages, out) {
            Ok(offset) => offset,
            Err(fault) => return Err(fault),
        };
        if let Err(_) = offsets.push(offset) {
            return Err(RunFault::Memory);
        }
    }
    Ok(offsets)
}
