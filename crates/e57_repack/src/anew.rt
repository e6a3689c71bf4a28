//! A file written anew.

ghost use Rattle.std.specs.Prelude.{◌≡◌, ◌/◌, false, None, MatchResult};
ghost use Rattle.e57_base.specs.Source.{page_length};
ghost use Rattle.e57_page.specs.Place.{payload_length};
ghost use Rattle.e57_elements.specs.Tree.{Element, preorder};
ghost use Rattle.e57_nodes.specs.Items.{stated_items};
ghost use Rattle.e57_nodes.specs.Shape.{shape_of};
ghost use Rattle.e57_verdict.specs.Things.{things_in};
ghost use Rattle.e57_check.specs.Asking.{AsksWhere};
ghost use Rattle.e57_chunk_out.specs.CloudCalls.{IsChunkLength};
ghost use Rattle.e57_copy.specs.Ending.{Aim, EndsFile, EndsNot, WritesFile, WritesNoFile};
ghost use Rattle.e57_repack.specs.Anew.{copied};
ghost use Rattle.e57_repack.specs.Copying.{AreAlikeItems};

use crate::items::copy_items;
use e57_base::{RunFault, Source, Target};
use e57_file::E57;
use e57_file_out::close_file;
use e57_page::Pages;
use e57_page_out::PagesOut;
use e57_tree::Tree;
use std::alloc::Global;

/// Writes a new file of this name with the clouds and blobs of an open file, and with `tree` as its tree, whose items are those
/// of the file but for the limits of integer fields (ASTM E2807, file structure). Chunks have `chunk` records. Gives the target
/// back, and answers the file's length in bytes.
///
/// Refuses what `copy_items` and `close_file` refuse, and `Out` too if the file can't be created.
pub fn write_anew<S: Source, T: Target>(
    alloc: Global,
    file: &E57,
    tree: &Tree,
    chunk: u32,
    pages: &mut Pages<S>,
    target: T,
    name: &str,
) -> (T, Result<u64, RunFault>)
    requires alike { (e d : Element) → file.now ≡ preorder e → tree.now ≡ preorder d → AreAlikeItems (stated_items (shape_of e)) (stated_items (shape_of d)) }
    requires chunk { IsChunkLength chunk }
    ensures length { pages.new.length ≡ pages.old.length }
    ensures header { pages.new.header ≡ pages.old.header }
    ensures source { AsksWhere (λ file. Unit {0}) (pages.old.length / page_length) (S.view pages.old.source) (S.view pages.new.source) }
    ensures writes { (e d : Element) → file.now ≡ preorder e → tree.now ≡ preorder d →
        let aim : Aim = copied chunk d (things_in e) (S.view pages.old.source) (S.view pages.new.source) in
        MatchResult result.1
        (λ total. WritesFile aim (T.view target) name.now total (T.view result.0))
        (λ fault. WritesNoFile aim (T.view target) name.now fault (T.view result.0)) }
{
    let _length = pages.logical_len();
    let mut out = match PagesOut::open(target, name) {
        Ok(out) => out,
        Err((target, _)) => return (target, Err(RunFault::Out)),
    };
    let result = write_rest(alloc, file, tree, chunk, pages, &mut out);
    (out.into_target(), result)
}

/// Puts what follows page 0, and then the header.
fn write_rest<S: Source, T: Target>(
    alloc: Global,
    file: &E57,
    tree: &Tree,
    chunk: u32,
    pages: &mut Pages<S>,
    out: &mut PagesOut<T>,
) -> Result<u64, RunFault>
    requires alike { (e d : Element) → file.now ≡ preorder e → tree.now ≡ preorder d → AreAlikeItems (stated_items (shape_of e)) (stated_items (shape_of d)) }
    requires chunk { IsChunkLength chunk }
    requires unspent { out.old.is_spent ≡ false }
    requires free { out.old.held ≡ None }
    requires begun { out.old.size ≡ payload_length }
    ensures length { pages.new.length ≡ pages.old.length }
    ensures header { pages.new.header ≡ pages.old.header }
    ensures source { AsksWhere (λ file. Unit {0}) (pages.old.length / page_length) (S.view pages.old.source) (S.view pages.new.source) }
    ensures ends { (e d : Element) → file.now ≡ preorder e → tree.now ≡ preorder d →
        let aim : Aim = copied chunk d (things_in e) (S.view pages.old.source) (S.view pages.new.source) in
        MatchResult result
        (λ total. EndsFile T.view aim out.old total (T.view out.new.target))
        (λ fault. EndsNot T.view aim out.old fault (T.view out.new.target)) }
{
    let _size = out.size();
    let _old = file.tree().raw();
    let _new = tree.raw();
    let offsets = match copy_items(alloc, file, tree, chunk, pages, out) {
        Ok(offsets) => offsets,
        Err(fault) => return Err(fault),
    };
    match close_file(alloc, tree, &offsets, out) {
        Ok(total) => Ok(total),
        Err(fault) => Err(RunFault::from(fault)),
    }
}
