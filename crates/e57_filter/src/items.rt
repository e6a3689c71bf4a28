//! The items of a file put into a new one, with what is kept of one cloud.

ghost use Rattle.std.specs.Prelude.{◌≡◌, ◌/◌, ◌%◌, ◌<◌, ◌≤◌, false, None, MatchResult};
ghost use Rattle.e57_base.specs.Source.{page_length};
ghost use Rattle.e57_page.specs.Place.{payload_length};
ghost use Rattle.e57_elements.specs.Tree.{Element, preorder};
ghost use Rattle.e57_nodes.specs.Items.{stated_items};
ghost use Rattle.e57_nodes.specs.Shape.{shape_of};
ghost use Rattle.e57_section.specs.Opening.{most_records};
ghost use Rattle.e57_tree.specs.Held.{fields_in};
ghost use Rattle.e57_verdict.specs.Things.{things_in};
ghost use Rattle.e57_copy.specs.Items.{IsItem};
ghost use Rattle.e57_filter.specs.Asking.{filter_chunk};
ghost use Rattle.e57_filter.specs.Filtering.{is_cloud, FiltersItem, FiltersItems, IsOfTree, KeepsCloud, LosesItems, LosesOne};
ghost use Rattle.e57_filter.specs.KeptSection.{LosesFiltered};
ghost use Rattle.e57_filter.specs.Selecting.{selection_of};

use crate::section::filter_section;
use crate::select::Selected;
use e57_base::{RunFault, Source, Target};
use e57_chunk_out::Written;
use e57_copy::copy_item;
use e57_file::E57;
use e57_page::Pages;
use e57_page_out::PagesOut;
use e57_tree::Item;
use std::alloc::Global;

/// How many records a chunk has.
const CHUNK: u32 = 8192;

/// What was put of the items of a file.
#[derive(Drop)]
pub struct Filtered {
    /// How many records of the cloud are kept.
    pub number: u64,
    /// The physical offsets of the sections, one for each cloud and blob in document order, and 0 for a cloud of no
    /// records.
    pub offsets: Vec<u64>,
}

/// Puts all clouds and blobs of a file into a new one, each with its section from a fresh page on: of the selected cloud
/// the records and fields that are kept, and all else as it is. The new file's last page is whole, and none is held.
///
/// Refuses `Refused` where an item has a fault; `Source` and `Out` if the source or the target failed; `Large` if a
/// section would leave no page of the file. What the target holds is then no whole file.
pub fn filter_items<S: Source, T: Target>(
    alloc: Global,
    file: &E57,
    selected: &Selected,
    every: u64,
    pages: &mut Pages<S>,
    out: &mut PagesOut<T>,
) -> Result<Filtered, RunFault>
    requires selected { (e : Element) → file.now ≡ preorder e → IsOfTree e selected.now }
    requires every { 0 < every }
    requires unspent { out.old.is_spent ≡ false }
    requires free { out.old.held ≡ None }
    requires whole { out.old.size % payload_length ≡ 0 }
    ensures length { pages.new.length ≡ pages.old.length }
    ensures header { pages.new.header ≡ pages.old.header }
    ensures filters { (e : Element) → file.now ≡ preorder e →
        let count = pages.old.length / page_length in
        let old = S.view pages.old.source in
        let new = S.view pages.new.source in
        let items = stated_items (shape_of e) in
        let selection = selection_of every selected.now in
        MatchResult result
        (λ done. FiltersItems T.view filter_chunk items (things_in e) selection count old new out.old done.number done.offsets.items out.new)
        (λ fault. LosesItems T.view filter_chunk items (things_in e) selection count old new out.old fault out.new) }
{
    let _size = out.size();
    let _raw = file.tree().raw();
    let mut offsets = Vec::new(alloc);
    let mut number = 0;
    for item in file.tree().items() {
        let written = match put_item(alloc, file, selected, every, *item, number, pages, out) {
            Ok(written) => written,
            Err(fault) => return Err(fault),
        };
        if let Err(_) = offsets.push(written.place) {
            return Err(RunFault::Memory);
        }
        number = written.count;
    }
    Ok(Filtered { number, offsets })
}

/// Puts an item: what is kept of the selected cloud, or another item as it is. Answers the offset of its section, and how
/// many records of the selected cloud are kept, which are `number` if this isn't the one.
fn put_item<S: Source, T: Target>(
    alloc: Global,
    file: &E57,
    selected: &Selected,
    every: u64,
    item: Item,
    number: u64,
    pages: &mut Pages<S>,
    out: &mut PagesOut<T>,
) -> Result<Written, RunFault>
    requires item { (e : Element) → file.now ≡ preorder e → IsItem e item }
    requires selected { (e : Element) → file.now ≡ preorder e → IsOfTree e selected.now }
    requires every { 0 < every }
    requires unspent { out.old.is_spent ≡ false }
    requires free { out.old.held ≡ None }
    requires whole { out.old.size % payload_length ≡ 0 }
    ensures length { pages.new.length ≡ pages.old.length }
    ensures header { pages.new.header ≡ pages.old.header }
    ensures filters { (e : Element) → file.now ≡ preorder e →
        let count = pages.old.length / page_length in
        let old = S.view pages.old.source in
        let new = S.view pages.new.source in
        let selection = selection_of every selected.now in
        let chosen = is_cloud selected.now.k item in
        MatchResult result
        (λ written. FiltersItem T.view filter_chunk e selection item chosen number count old new out.old written out.new)
        (λ fault. LosesOne T.view filter_chunk e selection item chosen count old new out.old fault out.new) }
{
    let _raw = file.tree().raw();
    if is_cloud(item, selected.k) {
        return put_cloud(alloc, file, selected, every, pages, out);
    }
    match copy_item(alloc, file, file.tree(), item, CHUNK, pages, out) {
        Ok(place) => Ok(Written {
            place,
            count: number,
        }),
        Err(fault) => Err(fault),
    }
}

/// Whether an item is cloud k.
fn is_cloud(item: Item, k: usize) -> bool
    ensures { result ≡ is_cloud k item }
{
    match item {
        Item::Cloud(c) => c as usize == k,
        Item::Blob(_) => false,
    }
}

/// Puts what is kept of the selected cloud, with zeros up to the end of its last page.
fn put_cloud<S: Source, T: Target>(
    alloc: Global,
    file: &E57,
    selected: &Selected,
    every: u64,
    pages: &mut Pages<S>,
    out: &mut PagesOut<T>,
) -> Result<Written, RunFault>
    requires selected { (e : Element) → file.now ≡ preorder e → IsOfTree e selected.now }
    requires few { selected.now.cloud.count ≤ most_records }
    requires every { 0 < every }
    requires unspent { out.old.is_spent ≡ false }
    requires free { out.old.held ≡ None }
    requires whole { out.old.size % payload_length ≡ 0 }
    ensures length { pages.new.length ≡ pages.old.length }
    ensures header { pages.new.header ≡ pages.old.header }
    ensures keeps { (e : Element) → file.now ≡ preorder e →
        let count = pages.old.length / page_length in
        let old = S.view pages.old.source in
        let new = S.view pages.new.source in
        let cloud = selected.now.cloud in
        let fields = fields_in e selected.now.k in
        let selection = selection_of every selected.now in
        MatchResult result
        (λ written. KeepsCloud T.view filter_chunk cloud fields selection count old new out.old written out.new)
        (λ fault. LosesFiltered T.view filter_chunk cloud fields selection count old new out.old fault out.new) }
{
    let _size = out.size();
    let _raw = file.tree().raw();
    let fields = file.tree().fields(selected.k);
    let fixed = file.tree().fixed(selected.k);
    let written = match filter_section(alloc, selected, every, fixed, fields, pages, out) {
        Ok(written) => written,
        Err(fault) => return Err(fault),
    };
    if let Err(_) = out.fresh_page() {
        return Err(RunFault::Out);
    }
    Ok(written)
}
