//! The least and the greatest items of the integer fields of a file.

ghost use Rattle.std.specs.Prelude.{◌≡◌, ℕ, ◌/◌, length, replicate, None, IfOk, MatchResult};
ghost use Rattle.e57_base.specs.Source.{page_length};
ghost use Rattle.e57_elements.specs.Tree.{Element, preorder};
ghost use Rattle.e57_tree.specs.Held.{cloud_in};
ghost use Rattle.e57_tree.specs.declared.items.Item.TheVariants as the_item;
ghost use Rattle.e57_check.specs.Checking.{IsCloud, thing_in};
ghost use Rattle.e57_copy.specs.Items.{IsItem, stated_in};
ghost use Rattle.e57_repack.specs.Ranges.{AreLimits, FindsNoRanges, FindsRanges};
ghost use Rattle.e57_repack.specs.Widening.{WidensByItem, WidensNotByItem};

use crate::clouds::widen_by_cloud;
use e57_base::{OpenFault, Source};
use e57_edits::Range;
use e57_file::E57;
use e57_page::Pages;
use e57_tree::{Cloud, Item, Tree};
use std::alloc::{AllocError, Global};

/// The least and the greatest item of each integer field of an open file: one entry for each node in preorder, which is none
/// of a node that isn't an integer field, and of a field of no records.
///
/// Refuses a fault that is met in a cloud, `Source` if the source failed, and `Memory` if there is none. It is taken for the
/// entries, and of one cloud at a time for a column and a block of each field, and for strings.
#[tactic(auto, using(e57_check::proofs::AskingLaws::asks_where_none))]
pub fn narrow_ranges<S: Source>(
    alloc: Global,
    file: &E57,
    pages: &mut Pages<S>,
) -> Result<Vec<Option<Range>>, OpenFault>
    ensures length { pages.new.length ≡ pages.old.length }
    ensures header { pages.new.header ≡ pages.old.header }
    ensures limits { IfOk result (λ ranges. AreLimits (length file.now) ranges.items) }
    ensures ranges { (e : Element) → file.now ≡ preorder e → let count = pages.old.length / page_length in MatchResult result
        (λ ranges. FindsRanges e count (S.view pages.old.source) ranges.items (S.view pages.new.source))
        (λ fault. FindsNoRanges e count (S.view pages.old.source) fault (S.view pages.new.source)) }
{
    let _length = pages.logical_len();
    let raw = file.tree().raw();
    let mut ranges = match no_ranges(alloc, raw.len()) {
        Ok(ranges) => ranges,
        Err(_) => return Err(OpenFault::Memory),
    };
    for item in file.tree().items() {
        if let Err(fault) = widen_by_item(alloc, file.tree(), *item, &mut ranges, pages) {
            return Err(fault);
        }
    }
    Ok(ranges)
}

/// So many entries that are none.
fn no_ranges(alloc: Global, n: usize) -> Result<Vec<Option<Range>>, AllocError>
    ensures { IfOk result (λ ranges. ranges.items ≡ replicate n None) }
{
    let mut ranges = Vec::new(alloc);
    for _k in 0..n {
        ranges.push(None)?;
    }
    Ok(ranges)
}

/// Widens the entries of a cloud's integer fields to the items of all its records. A blob changes none.
fn widen_by_item<S: Source>(
    alloc: Global,
    tree: &Tree,
    item: Item,
    ranges: &mut Vec<Option<Range>>,
    pages: &mut Pages<S>,
) -> Result<(), OpenFault>
    requires item { (e : Element) → tree.now ≡ preorder e → IsItem e item }
    requires all { length ranges.old.items ≡ length tree.now }
    requires limits { AreLimits (length ranges.old.items) ranges.old.items }
    ensures length { pages.new.length ≡ pages.old.length }
    ensures header { pages.new.header ≡ pages.old.header }
    ensures limits { AreLimits (length ranges.old.items) ranges.new.items }
    ensures widens { (e : Element) → tree.now ≡ preorder e → let count = pages.old.length / page_length in
        let stated = stated_in e item in
        let thing = thing_in e item in
        MatchResult result
        (λ _. WidensByItem stated thing count (S.view pages.old.source) ranges.old.items (S.view pages.new.source) ranges.new.items)
        (λ fault. WidensNotByItem thing count (S.view pages.old.source) fault (S.view pages.new.source)) }
{
    match item {
        Item::Cloud(k) => widen_by_cloud_at(alloc, tree, k, ranges, pages),
        Item::Blob(_k) => Ok(()),
    }
}

/// The same of cloud k.
fn widen_by_cloud_at<S: Source>(
    alloc: Global,
    tree: &Tree,
    k: u32,
    ranges: &mut Vec<Option<Range>>,
    pages: &mut Pages<S>,
) -> Result<(), OpenFault>
    requires item { (e : Element) → tree.now ≡ preorder e → IsCloud e k }
    requires all { length ranges.old.items ≡ length tree.now }
    requires limits { AreLimits (length ranges.old.items) ranges.old.items }
    ensures length { pages.new.length ≡ pages.old.length }
    ensures header { pages.new.header ≡ pages.old.header }
    ensures limits { AreLimits (length ranges.old.items) ranges.new.items }
    ensures widens { (e : Element) → tree.now ≡ preorder e → let count = pages.old.length / page_length in
        let stated = stated_in e (the_item.Cloud k) in
        let thing = thing_in e (the_item.Cloud k) in
        MatchResult result
        (λ _. WidensByItem stated thing count (S.view pages.old.source) ranges.old.items (S.view pages.new.source) ranges.new.items)
        (λ fault. WidensNotByItem thing count (S.view pages.old.source) fault (S.view pages.new.source)) }
{
    let _raw = tree.raw();
    let cloud = cloud_at(tree, k);
    let fields = tree.fields(k as usize);
    let fixed = tree.fixed(k as usize);
    widen_by_cloud(alloc, &cloud, fixed, fields, ranges, pages)
}

/// Cloud k, as its element states it.
fn cloud_at(tree: &Tree, k: u32) -> Cloud
    requires { (e : Element) → tree.now ≡ preorder e → IsCloud e k }
    ensures { (e : Element) → tree.now ≡ preorder e → result ≡ cloud_in e k }
{
    let _raw = tree.raw();
    tree.clouds()[k as usize]
}
