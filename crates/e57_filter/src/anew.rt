//! A file written anew with what is kept of one cloud.

ghost use Rattle.std.specs.Prelude.{◌≡◌, ◌/◌, ◌<◌, false, None, MatchResult};
ghost use Rattle.e57_base.specs.Source.{page_length};
ghost use Rattle.e57_page.specs.Place.{payload_length};
ghost use Rattle.e57_elements.specs.Tree.{Element, preorder};
ghost use Rattle.e57_check.specs.Asking.{AsksWhere};
ghost use Rattle.e57_copy.specs.Ending.{Aim, EndsFile, EndsNot, WritesFile, WritesNoFile};
ghost use Rattle.e57_filter.specs.Filtering.{filtered, IsOfTree};
ghost use Rattle.e57_filter.specs.Selecting.{selection_of};

use crate::items::filter_items;
use crate::select::Selected;
use e57_base::{RunFault, Source, Target};
use e57_edits::with_cloud;
use e57_file::E57;
use e57_file_out::close_file;
use e57_page::Pages;
use e57_page_out::PagesOut;
use std::alloc::Global;

/// Writes a new file of this name with the clouds and blobs of an open file, and of the selected cloud with the records
/// and fields that are kept (ASTM E2807, file structure). Gives the target back, and answers the file's length in bytes.
///
/// Refuses what `filter_items` and `close_file` refuse, `Memory` if there is none for the tree, and `Out` too if the file
/// can't be created.
pub fn write_filtered<S: Source, T: Target>(
    alloc: Global,
    file: &E57,
    selected: &Selected,
    every: u64,
    pages: &mut Pages<S>,
    target: T,
    name: &str,
) -> (T, Result<u64, RunFault>)
    requires selected { (e : Element) → file.now ≡ preorder e → IsOfTree e selected.now }
    requires every { 0 < every }
    ensures length { pages.new.length ≡ pages.old.length }
    ensures header { pages.new.header ≡ pages.old.header }
    ensures source { AsksWhere (λ file. Unit {0}) (pages.old.length / page_length) (S.view pages.old.source) (S.view pages.new.source) }
    ensures writes { (e : Element) → file.now ≡ preorder e →
        let aim : Aim = filtered (selection_of every selected.now) e (S.view pages.old.source) (S.view pages.new.source) in
        MatchResult result.1
        (λ total. WritesFile aim (T.view target) name.now total (T.view result.0))
        (λ fault. WritesNoFile aim (T.view target) name.now fault (T.view result.0)) }
{
    let _length = pages.logical_len();
    let mut out = match PagesOut::open(target, name) {
        Ok(out) => out,
        Err((target, _)) => return (target, Err(RunFault::Out)),
    };
    let result = write_rest(alloc, file, selected, every, pages, &mut out);
    (out.into_target(), result)
}

/// Puts what follows page 0, and then the header.
fn write_rest<S: Source, T: Target>(
    alloc: Global,
    file: &E57,
    selected: &Selected,
    every: u64,
    pages: &mut Pages<S>,
    out: &mut PagesOut<T>,
) -> Result<u64, RunFault>
    requires selected { (e : Element) → file.now ≡ preorder e → IsOfTree e selected.now }
    requires every { 0 < every }
    requires unspent { out.old.is_spent ≡ false }
    requires free { out.old.held ≡ None }
    requires begun { out.old.size ≡ payload_length }
    ensures length { pages.new.length ≡ pages.old.length }
    ensures header { pages.new.header ≡ pages.old.header }
    ensures source { AsksWhere (λ file. Unit {0}) (pages.old.length / page_length) (S.view pages.old.source) (S.view pages.new.source) }
    ensures ends { (e : Element) → file.now ≡ preorder e →
        let aim : Aim = filtered (selection_of every selected.now) e (S.view pages.old.source) (S.view pages.new.source) in
        MatchResult result
        (λ total. EndsFile T.view aim out.old total (T.view out.new.target))
        (λ fault. EndsNot T.view aim out.old fault (T.view out.new.target)) }
{
    let _size = out.size();
    let _old = file.tree().raw();
    let done = match filter_items(alloc, file, selected, every, pages, out) {
        Ok(done) => done,
        Err(fault) => return Err(fault),
    };
    let tree = match with_cloud(
        alloc,
        file.tree(),
        selected.k,
        &selected.chosen,
        done.number,
    ) {
        Ok(tree) => tree,
        Err(_) => return Err(RunFault::Memory),
    };
    let _new = tree.raw();
    match close_file(alloc, &tree, &done.offsets, out) {
        Ok(total) => Ok(total),
        Err(fault) => Err(RunFault::from(fault)),
    }
}
