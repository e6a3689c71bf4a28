//! Other numbers of records and lengths.

ghost use Rattle.std.specs.Prelude.{◌≡◌, length, slice_index_or, IfOk};
ghost use Rattle.e57_elements.specs.Tree.{Element, preorder};
ghost use Rattle.e57_tree.specs.Held.{items_of};
ghost use Rattle.e57_edits.specs.Changes.{count_change, count_changes};
ghost use Rattle.e57_edits.specs.Counts.{with_counts, AreCounts};
ghost use Rattle.e57_edits.specs.Editing.{Gives};

use crate::changes::Change;
use crate::trees::edited;
use e57_elements::RawTree;
use e57_nodes::ElementType;
use e57_tree::{Tree, element_type, has_section};
use std::alloc::{AllocError, Global};

/// The tree with these counts, one for each cloud and blob in document order, each in decimal: the number
/// of records of a cloud, at most 2^40, and the length of a blob in bytes (ASTM E2807, CompressedVector and
/// Blob). Takes time and memory linear in the tree.
pub fn with_counts(alloc: Global, tree: &Tree, counts: &[u64]) -> Result<Tree, AllocError>
    requires all { (e : Element) → tree.now ≡ preorder e → length counts.now ≡ length (items_of e) }
    requires few { (e : Element) → tree.now ≡ preorder e → AreCounts (items_of e) counts.now }
    ensures { Gives (with_counts counts.now) tree.now result }
{
    let changes = count_changes(alloc, tree.raw(), counts)?;
    edited(alloc, tree.raw(), &changes)
}

/// The change of each node.
fn count_changes(alloc: Global, raw: &RawTree, counts: &[u64]) -> Result<Vec<Change>, AllocError>
    ensures { IfOk result (λ changes. changes.items ≡ count_changes counts.now raw.now) }
{
    let mut changes = Vec::with_capacity(alloc, raw.len())?;
    let mut used = 0;
    for n in 0..raw.len() {
        let node_type = element_type(&raw.node(n).attrs);
        changes.push(count_change(node_type, count_at(counts, used)))?;
        used += has_section(node_type) as usize;
    }
    Ok(changes)
}

/// The count at a place, or 0 past the last one.
fn count_at(counts: &[u64], i: usize) -> u64
    ensures { result ≡ slice_index_or counts.now i 0 }
{
    if i < counts.len() { counts[i] } else { 0 }
}

/// The change of a node of this type to this count.
fn count_change(node_type: Option<ElementType>, count: u64) -> Change
    ensures { result ≡ count_change node_type count }
{
    match node_type {
        Some(ElementType::CompressedVector) => Change::Records(count),
        Some(ElementType::Blob) => Change::Length(count),
        None
        | Some(
            ElementType::Structure
            | ElementType::Vector
            | ElementType::Integer
            | ElementType::ScaledInteger
            | ElementType::Float
            | ElementType::String,
        ) => Change::Keep,
    }
}
