//! The nodes that stay.

ghost use Rattle.std.specs.Prelude.{◌≡◌, ◌+◌, ◌-◌, ◌++◌, ◌^◌, ◌<◌, ◌≤◌, drop, length, slice_index_or, IfOk, OnOk};
ghost use Rattle.e57_elements.specs.Lawful.{AreNodes};
ghost use Rattle.e57_edits.specs.declared.changes.Change.TheVariants.{Keep};
ghost use Rattle.e57_edits.specs.Nodes.{count_at, count_before, edited_node, edited_nodes, node_left, remaining};
ghost use Rattle.e57_tree.specs.Flat.{end_of, raw_at};

use crate::attrs::changed_attrs;
use crate::changes::{Change, stays_alone};
use e57_elements::{RawNode, RawTree};
use e57_tree::{end_of, node_with};
use std::alloc::{AllocError, Global};

/// The nodes that stay of a tree, with these changes, one for each node.
pub fn edited_nodes(
    alloc: Global,
    raw: &RawTree,
    changes: &[Change],
) -> Result<Vec<RawNode>, AllocError>
    requires { length changes.now ≡ length raw.now }
    ensures { IfOk result (λ nodes. nodes.items ≡ edited_nodes changes.now raw.now) }
{
    let counts = remaining(alloc, raw, changes)?;
    let mut nodes = Vec::with_capacity(alloc, raw.len())?;
    for n in 0..raw.len() {
        let size = size_left(raw, n, &counts);
        put(alloc, &mut nodes, raw.node(n), change_at(changes, n), size)?;
    }
    Ok(nodes)
}

/// How many stay of a node and those below it, by how many of the nodes from each one on do.
fn size_left(raw: &RawTree, n: usize, counts: &[usize]) -> usize
    requires within { n < length raw.now }
    requires all { length counts.now ≡ length raw.now + 1 }
    requires fall { count_at counts.now (end_of raw.now n) ≤ count_at counts.now n }
    ensures { result ≡ count_at counts.now n - count_at counts.now (end_of raw.now n) }
{
    counts[n] - counts[end_of(raw, n)]
}

/// Adds a copy of a node with this change and this size; nothing if the size is 0, as of one that doesn't stay.
fn put(
    alloc: Global,
    nodes: &mut Vec<RawNode>,
    node: &RawNode,
    change: Change,
    size: usize,
) -> Result<(), AllocError>
    requires { size < 2 ^ 32 }
    ensures { OnOk result (nodes.new.items ≡ nodes.old.items ++ node_left change node.now size) }
{
    if size == 0 {
        return Ok(());
    }
    nodes.push(edited_node(alloc, node, change, size)?)?;
    Ok(())
}

/// How many of the nodes from each one on stay, and 0 at the end.
fn remaining(alloc: Global, raw: &RawTree, changes: &[Change]) -> Result<Vec<usize>, AllocError>
    requires { length changes.now ≡ length raw.now }
    ensures { IfOk result (λ counts. counts.items ≡ remaining changes.now raw.now) }
{
    let all = raw.len();
    let mut counts = vec![in alloc; 0; all + 1]?;
    for n in (0..all).rev() {
        counts[n] = count_before(raw, n, change_at(changes, n), &counts);
    }
    Ok(counts)
}

/// How many of the nodes from this one on stay, by how many of those behind it do.
fn count_before(raw: &RawTree, n: usize, change: Change, counts: &[usize]) -> usize
    requires within { n < length raw.now }
    requires all { length counts.now ≡ length raw.now + 1 }
    requires few { count_at counts.now (n + 1) ≤ length raw.now }
    ensures { result ≡ count_before change (raw_at raw.now n) (drop (n + 1) counts.now) }
{
    let later = counts[n + 1];
    if stays_alone(change) || counts[end_of(raw, n)] < later {
        return later + 1;
    }
    later
}

/// A copy of a node with this change and this size.
fn edited_node(
    alloc: Global,
    node: &RawNode,
    change: Change,
    size: usize,
) -> Result<RawNode, AllocError>
    requires { size < 2 ^ 32 }
    ensures { IfOk result (λ new. new ≡ edited_node change node.now size) }
{
    let attrs = changed_attrs(alloc, &node.attrs, change)?;
    let mut new = node_with(alloc, node, attrs)?;
    new.size = size as u32;
    Ok(new)
}

/// The change of a node.
fn change_at(changes: &[Change], n: usize) -> Change
    requires { n < length changes.now }
    ensures { result ≡ slice_index_or changes.now n Keep }
{
    changes[n]
}
