//! Some fields of one cloud.

ghost use Rattle.std.specs.Prelude.{◌≡◌, ◌&&◌, ◌+◌, ◌++◌, ◌∷◌, ◌-◌, ◌<◌, ◌≤◌, List, true, false, drop, length, slice_index_or, IfOk, OnOk};
ghost use Rattle.e57_elements.specs.declared.tree.RawNode.{RawNode};
ghost use Rattle.e57_elements.specs.Tree.{Element, Elements, preorder, preorder_all};
ghost use Rattle.e57_nodes.specs.Typed.{max_records};
ghost use Rattle.e57_plain.specs.Pruned.{keeps_some, with_cloud};
ghost use Rattle.e57_tree.specs.Flat.{end_of};
ghost use Rattle.e57_tree.specs.Held.{cloud_fields, clouds_of};
ghost use Rattle.e57_edits.specs.Changes.{changes_behind, choice_change, choice_changes, cloud_changes, kept, nodes_below};
ghost use Rattle.e57_edits.specs.Choosing.{HasChoices};
ghost use Rattle.e57_edits.specs.Editing.{Gives};

use crate::changes::Change;
use crate::trees::edited;
use e57_elements::RawTree;
use e57_tree::{Tree, child_named, element_type, end_of, is_field};
use std::alloc::{AllocError, Global};

/// The tree in which cloud k has only the fields that are chosen, by one truth value for each field of which
/// at least one is true, and this number of records, at most 2^40 (ASTM E2807, CompressedVector). Elements
/// of its prototype that hold no field are gone, also those that never held one. Takes time and memory
/// linear in the tree.
pub fn with_cloud(
    alloc: Global,
    tree: &Tree,
    k: usize,
    chosen: &[bool],
    count: u64,
) -> Result<Tree, AllocError>
    requires cloud { (e : Element) → tree.now ≡ preorder e → k < length (clouds_of e) }
    requires all { (e : Element) → tree.now ≡ preorder e → HasChoices (cloud_fields e) k chosen.now }
    requires some { keeps_some chosen.now ≡ true }
    requires few { count ≤ max_records }
    ensures { Gives (with_cloud k chosen.now count) tree.now result }
{
    let raw = tree.raw();
    let node = tree.clouds()[k].node as usize;
    let changes = cloud_changes(alloc, raw, node, chosen, count)?;
    edited(alloc, raw, &changes)
}

/// The change of each node, where the cloud is at this node.
fn cloud_changes(
    alloc: Global,
    raw: &RawTree,
    node: usize,
    chosen: &[bool],
    count: u64,
) -> Result<Vec<Change>, AllocError>
    requires { node < length raw.now }
    ensures { (es : Elements) (rest : List RawNode)
        → drop (node + 1) raw.now ≡ preorder_all es ++ rest
        → node + 1 + length (preorder_all es) ≡ end_of raw.now node
        → IfOk result (λ changes. changes.items ≡ cloud_changes node chosen.now count es rest) }
{
    let mut changes = Vec::with_capacity(alloc, raw.len())?;
    keep_until(&mut changes, node)?;
    changes.push(Change::Records(count))?;
    choose_fields(raw, node, chosen, &mut changes)?;
    Ok(changes)
}

/// Adds the changes of the nodes behind that of the cloud.
fn choose_fields(
    raw: &RawTree,
    node: usize,
    chosen: &[bool],
    changes: &mut Vec<Change>,
) -> Result<(), AllocError>
    requires node { node < length raw.now }
    requires behind { length changes.old.items ≡ node + 1 }
    ensures { (es : Elements) (rest : List RawNode)
        → drop (node + 1) raw.now ≡ preorder_all es ++ rest
        → node + 1 + length (preorder_all es) ≡ end_of raw.now node
        → OnOk result (changes.new.items ≡ changes.old.items ++ changes_behind chosen.now es rest) }
{
    let count = raw.len();
    let Some(prototype) = child_named(raw, node, b"prototype".as_slice()) else {
        return keep_until(changes, count);
    };
    keep_until(changes, prototype + 1)?;
    choose_below(raw, prototype, chosen, changes)?;
    keep_until(changes, count)
}

/// Adds the changes of the nodes below a prototype.
fn choose_below(
    raw: &RawTree,
    prototype: usize,
    chosen: &[bool],
    changes: &mut Vec<Change>,
) -> Result<(), AllocError>
    requires { prototype < length raw.now }
    ensures { OnOk result (changes.new.items
        ≡ changes.old.items ++ choice_changes chosen.now (nodes_below raw.now prototype)) }
{
    let end = end_of(raw, prototype);
    let mut used = 0;
    for n in prototype + 1..end {
        let is_field = is_field(element_type(&raw.node(n).attrs));
        changes.push(choice_change(is_field, is_chosen(chosen, used)))?;
        used += is_field as usize;
    }
    Ok(())
}

/// The change of a node below a prototype.
fn choice_change(is_field: bool, is_chosen: bool) -> Change
    ensures { result ≡ choice_change (is_field && is_chosen) }
{
    if is_field && is_chosen {
        return Change::Keep;
    }
    Change::Omit
}

/// Whether a field is chosen. One without a truth value isn't.
fn is_chosen(chosen: &[bool], field: usize) -> bool
    ensures { result ≡ slice_index_or chosen.now field false }
{
    field < chosen.len() && chosen[field]
}

/// Adds nodes that stay as they are, until there are so many changes.
fn keep_until(changes: &mut Vec<Change>, count: usize) -> Result<(), AllocError>
    ensures { OnOk result (changes.new.items ≡ changes.old.items ++ kept (count - length changes.old.items)) }
{
    for _ in changes.len()..count {
        changes.push(Change::Keep)?;
    }
    Ok(())
}
