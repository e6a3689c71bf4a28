//! The clouds and blobs of a file, in lines.

ghost use Rattle.std.specs.Prelude.{◌≡◌, IfOk, MatchResult, None, OnOk, Some};
ghost use Rattle.e57_elements.specs.Tree.{Element, preorder};
ghost use Rattle.e57_nodes.specs.Shape.{shape_of};
ghost use Rattle.e57_file.specs.Text.{AsksForXml};
ghost use Rattle.e57_show.specs.Opening.{JudgesPlaceFirst};
ghost use Rattle.e57_show.specs.Listing.{list_shown, list_text};
ghost use Rattle.e57_show.specs.Showing.{ShowEnds};
ghost use Rattle.e57_show.specs.Items.{IsItemFrom, AppendsItem};
ghost use Rattle.e57_show.specs.Trail.{IsTrail};
ghost use Rattle.e57_tree.specs.declared.items.Item.TheVariants as item;

use crate::lines::{push_blob, push_cloud, push_fields};
use crate::trail::Trail;
use e57_base::{RunFault, Sink, Source};
use e57_elements::one_answer;
use e57_file::E57;
use e57_page::Pages;
use e57_tree::{Item, Tree};
use std::alloc::{AllocError, Global};

/// Puts the file's clouds with their fields and its blobs on `out`, one a line, in one call. It asks the source for those
/// pages of the XML section that aren't kept, in ascending order, each at most once, and for no other.
///
/// Refuses what `E57::open` refuses. `Out` if the sink failed. After every fault but `Out` nothing was put.
pub fn list<S: Source, O: Sink>(
    alloc: Global,
    pages: &mut Pages<S>,
    out: &mut O,
) -> Result<(), RunFault>
    ensures length { pages.new.length ≡ pages.old.length }
    ensures header { pages.new.header ≡ pages.old.header }
    ensures asked { AsksForXml pages.old (S.view pages.old.source) (S.view pages.new.source) }
    ensures place { JudgesPlaceFirst pages.old (O.view out.old) result pages.new (O.view out.new) }
    ensures ends { MatchResult result
        (λ _. ShowEnds list_shown (S.view pages.old.source) (S.view pages.new.source) (O.view out.old) (O.view out.new) None)
        (λ fault. ShowEnds list_shown (S.view pages.old.source) (S.view pages.new.source) (O.view out.old) (O.view out.new) (Some fault)) }
{
    // A text spells one tree, and then it has no fault.
    one_answer();
    let file = E57::open(alloc, pages)?;
    let text = listing(alloc, file.tree())?;
    match out.put(&text) {
        Ok(()) => Ok(()),
        Err(_) => Err(RunFault::Out),
    }
}

/// The lines of the tree's clouds, their fields, and its blobs, in document order.
fn listing(alloc: Global, tree: &Tree) -> Result<Vec<u8>, AllocError>
    ensures { (e : Element) → tree.now ≡ preorder e → IfOk result (λ text. text.items ≡ list_text (shape_of e)) }
{
    let mut lines = Vec::new(alloc);
    let mut trail = Trail::new(alloc, tree.raw())?;
    for item in tree.items() {
        push_item(&mut lines, tree, &mut trail, *item)?;
    }
    Ok(lines)
}

/// Appends the lines of a cloud or a blob, to whose node the trail goes.
fn push_item(
    lines: &mut Vec<u8>,
    tree: &Tree,
    trail: &mut Trail,
    item: Item,
) -> Result<(), AllocError>
    requires item { (e : Element) → tree.now ≡ preorder e → IsItemFrom e trail.old.node item }
    requires trail { IsTrail tree.now trail.old }
    ensures lines { (e : Element) → tree.now ≡ preorder e → OnOk result (AppendsItem e item lines.old.items lines.new.items trail.new.node) }
    ensures trail { OnOk result (IsTrail tree.now trail.new) }
{
    match item {
        Item::Cloud(k) => push_cloud_item(lines, tree, trail, k),
        Item::Blob(k) => push_blob_item(lines, tree, trail, k),
    }
}

/// Appends the lines of cloud k and its fields.
fn push_cloud_item(
    lines: &mut Vec<u8>,
    tree: &Tree,
    trail: &mut Trail,
    k: u32,
) -> Result<(), AllocError>
    requires item { (e : Element) → tree.now ≡ preorder e → IsItemFrom e trail.old.node (item.Cloud k) }
    requires trail { IsTrail tree.now trail.old }
    ensures lines { (e : Element) → tree.now ≡ preorder e → OnOk result (AppendsItem e (item.Cloud k) lines.old.items lines.new.items trail.new.node) }
    ensures trail { OnOk result (IsTrail tree.now trail.new) }
{
    let raw = tree.raw();
    let cloud = tree.clouds()[k as usize];
    let fields = tree.fields(k as usize);
    trail.go_to(raw, cloud.node as usize)?;
    push_cloud(
        lines,
        u64::from(k),
        &trail.path,
        cloud.count,
        fields.len() as u64,
    )?;
    push_fields(lines, fields)
}

/// Appends the line of blob k.
fn push_blob_item(
    lines: &mut Vec<u8>,
    tree: &Tree,
    trail: &mut Trail,
    k: u32,
) -> Result<(), AllocError>
    requires item { (e : Element) → tree.now ≡ preorder e → IsItemFrom e trail.old.node (item.Blob k) }
    requires trail { IsTrail tree.now trail.old }
    ensures lines { (e : Element) → tree.now ≡ preorder e → OnOk result (AppendsItem e (item.Blob k) lines.old.items lines.new.items trail.new.node) }
    ensures trail { OnOk result (IsTrail tree.now trail.new) }
{
    let raw = tree.raw();
    let blob = tree.blobs()[k as usize];
    trail.go_to(raw, blob.node as usize)?;
    push_blob(lines, u64::from(k), &trail.path, blob.length)
}
