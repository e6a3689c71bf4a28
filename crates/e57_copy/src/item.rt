//! An item of a file, copied whole into a new one.

ghost use Rattle.std.specs.Prelude.{◌≡◌, ℕ, ◌*◌, ◌/◌, ◌%◌, ◌≤◌, ◌<◌, length, false, None, MatchResult};
ghost use Rattle.e57_base.specs.Source.{page_length};
ghost use Rattle.e57_page.specs.Place.{payload_length};
ghost use Rattle.e57_elements.specs.Tree.{Element, preorder};
ghost use Rattle.e57_tree.specs.declared.items.Item.TheVariants as the_item;
ghost use Rattle.e57_check.specs.Checking.{IsCloud, thing_in};
ghost use Rattle.e57_chunk_out.specs.CloudCalls.{IsChunkLength};
ghost use Rattle.e57_file.specs.Blob.{HasBlob};
ghost use Rattle.e57_copy.specs.Items.{CopiesItem, IsAlikeItem, IsItem, LosesItem, stated_in};
ghost use Rattle.e57_copy.specs.Sections.{CopiesBody, CopiesBlobOf, LosesBlobOf, copy_as_run};
ghost use Rattle.e57_tree.specs.Held.{cloud_in};

use crate::cloud::copy_cloud_section;
use e57_base::{AskFault, PutFault, RunFault, Source, Target};
use e57_file::E57;
use e57_file_out::{CopyFault, copy_blob};
use e57_page::Pages;
use e57_page_out::PagesOut;
use e57_tree::{Cloud, Item, Tree};
use std::alloc::Global;

/// Copies a cloud with all its records, or a blob, into a new file (ASTM E2807, compressed vector and blob sections). Its
/// section is put where the new file ends, which is at the end of a page, with zeros up to the end of the section's last
/// page. Answers the section's physical offset, or 0 of a cloud without records, which has none. `file` is the file that
/// is read, and `tree` that of the new one: they have the same item, but for the limits of its integer fields. A chunk of
/// a cloud has `chunk` records.
///
/// Refuses the first fault that is met in the file, or `ValueRange` for a value outside of the limits of the new one;
/// `Source` if the source failed, `Out` if the target did, `Ask` with `Large` if the new file would pass its last page,
/// and `Memory` if there is none. What the target holds is no file then.
///
/// Of a cloud with records memory is taken for a column and a block of each field, for the packets under way, for each
/// chunk, and for strings. Of a blob none is.
pub fn copy_item<S: Source, T: Target>(
    alloc: Global,
    file: &E57,
    tree: &Tree,
    item: Item,
    chunk: u32,
    pages: &mut Pages<S>,
    out: &mut PagesOut<T>,
) -> Result<u64, RunFault>
    requires item { (e : Element) → file.now ≡ preorder e → IsItem e item }
    requires written { (d : Element) → tree.now ≡ preorder d → IsItem d item }
    requires alike { (e d : Element) → file.now ≡ preorder e → tree.now ≡ preorder d
        → IsAlikeItem (stated_in e item) (stated_in d item) }
    requires chunk { IsChunkLength chunk }
    requires unspent { out.old.is_spent ≡ false }
    requires free { out.old.held ≡ None }
    requires whole { out.old.size % payload_length ≡ 0 }
    ensures length { pages.new.length ≡ pages.old.length }
    ensures header { pages.new.header ≡ pages.old.header }
    ensures copies { (e d : Element) → file.now ≡ preorder e → tree.now ≡ preorder d →
        let count = pages.old.length / page_length in
        let old = S.view pages.old.source in
        let new = S.view pages.new.source in
        MatchResult result
        (λ offset. CopiesItem T.view chunk (stated_in d item) (thing_in e item) count old new out.old offset out.new)
        (λ fault. LosesItem T.view chunk (stated_in d item) (thing_in e item) count old new out.old fault out.new) }
{
    let _size = out.size();
    let _raw = file.tree().raw();
    let _raw = tree.raw();
    let offset = match copy_section(alloc, file, tree, item, chunk, pages, out) {
        Ok(offset) => offset,
        Err(fault) => return Err(fault),
    };
    if let Err(_) = out.fresh_page() {
        return Err(RunFault::Out);
    }
    Ok(offset)
}

/// Puts the section of a cloud or a blob, and no zeros behind it.
fn copy_section<S: Source, T: Target>(
    alloc: Global,
    file: &E57,
    tree: &Tree,
    item: Item,
    chunk: u32,
    pages: &mut Pages<S>,
    out: &mut PagesOut<T>,
) -> Result<u64, RunFault>
    requires item { (e : Element) → file.now ≡ preorder e → IsItem e item }
    requires written { (d : Element) → tree.now ≡ preorder d → IsItem d item }
    requires alike { (e d : Element) → file.now ≡ preorder e → tree.now ≡ preorder d
        → IsAlikeItem (stated_in e item) (stated_in d item) }
    requires chunk { IsChunkLength chunk }
    requires unspent { out.old.is_spent ≡ false }
    requires free { out.old.held ≡ None }
    requires whole { out.old.size % payload_length ≡ 0 }
    ensures length { pages.new.length ≡ pages.old.length }
    ensures header { pages.new.header ≡ pages.old.header }
    ensures copies { (e d : Element) → file.now ≡ preorder e → tree.now ≡ preorder d →
        let count = pages.old.length / page_length in
        let old = S.view pages.old.source in
        let new = S.view pages.new.source in
        MatchResult result
        (λ offset. CopiesBody T.view chunk (stated_in d item) (thing_in e item) count old new out.old offset out.new)
        (λ fault. LosesItem T.view chunk (stated_in d item) (thing_in e item) count old new out.old fault out.new) }
{
    match item {
        Item::Cloud(k) => copy_cloud(alloc, file.tree(), tree, k, chunk, pages, out),
        Item::Blob(k) => copy_blob_section(file, k, pages, out),
    }
}

/// Puts the section of cloud k with all its records.
fn copy_cloud<S: Source, T: Target>(
    alloc: Global,
    read: &Tree,
    written: &Tree,
    k: u32,
    chunk: u32,
    pages: &mut Pages<S>,
    out: &mut PagesOut<T>,
) -> Result<u64, RunFault>
    requires item { (e : Element) → read.now ≡ preorder e → IsCloud e k }
    requires written { (d : Element) → written.now ≡ preorder d → IsCloud d k }
    requires alike { (e d : Element) → read.now ≡ preorder e → written.now ≡ preorder d
        → IsAlikeItem (stated_in e (the_item.Cloud k)) (stated_in d (the_item.Cloud k)) }
    requires chunk { IsChunkLength chunk }
    requires unspent { out.old.is_spent ≡ false }
    requires free { out.old.held ≡ None }
    requires whole { out.old.size % payload_length ≡ 0 }
    ensures length { pages.new.length ≡ pages.old.length }
    ensures header { pages.new.header ≡ pages.old.header }
    ensures copies { (e d : Element) → read.now ≡ preorder e → written.now ≡ preorder d →
        let x = the_item.Cloud k in
        let count = pages.old.length / page_length in
        let old = S.view pages.old.source in
        let new = S.view pages.new.source in
        MatchResult result
        (λ offset. CopiesBody T.view chunk (stated_in d x) (thing_in e x) count old new out.old offset out.new)
        (λ fault. LosesItem T.view chunk (stated_in d x) (thing_in e x) count old new out.old fault out.new) }
{
    let _raw = read.raw();
    let _raw = written.raw();
    let cloud = cloud_at(read, k);
    let fields = read.fields(k as usize);
    let fixed = read.fixed(k as usize);
    let others = written.fields(k as usize);
    copy_cloud_section(alloc, &cloud, fixed, fields, others, chunk, pages, out)
}

/// Cloud k, as its element states it.
fn cloud_at(tree: &Tree, k: u32) -> Cloud
    requires { (e : Element) → tree.now ≡ preorder e → IsCloud e k }
    ensures { (e : Element) → tree.now ≡ preorder e → result ≡ cloud_in e k }
{
    let _raw = tree.raw();
    tree.clouds()[k as usize]
}

/// Puts the section of blob k.
fn copy_blob_section<S: Source, T: Target>(
    file: &E57,
    k: u32,
    pages: &mut Pages<S>,
    out: &mut PagesOut<T>,
) -> Result<u64, RunFault>
    requires item { HasBlob file.now k }
    requires unspent { out.old.is_spent ≡ false }
    requires whole { out.old.size % payload_length ≡ 0 }
    ensures length { pages.new.length ≡ pages.old.length }
    ensures header { pages.new.header ≡ pages.old.header }
    ensures copies { (e : Element) → file.now ≡ preorder e →
        let count = pages.old.length / page_length in
        let old = S.view pages.old.source in
        let new = S.view pages.new.source in
        MatchResult result
        (λ offset. CopiesBlobOf T.view e k count old new out.old offset out.new)
        (λ fault. LosesBlobOf T.view e k count old new out.old fault out.new) }
{
    let _size = out.size();
    let _length = pages.logical_len();
    if let Err(fault) = file.open_blob(pages, k as usize) {
        return Err(RunFault::from(fault));
    }
    match copy_blob(file, pages, k as usize, out) {
        Ok(offset) => Ok(offset),
        Err(fault) => Err(as_run(fault)),
    }
}

/// How the copying of a blob fails, as that of an item.
fn as_run(fault: CopyFault) -> RunFault
    ensures { result ≡ copy_as_run fault }
{
    match fault {
        CopyFault::Read(fault) => RunFault::from(fault),
        CopyFault::Put(PutFault::Target) => RunFault::Out,
        CopyFault::Put(PutFault::Large) => RunFault::Ask(AskFault::Large),
    }
}
