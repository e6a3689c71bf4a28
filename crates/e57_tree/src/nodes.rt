//! The nodes of a tree by their numbers.

ghost use Rattle.std.specs.Prelude.{◌≡◌, ◌+◌, ◌<◌, ◌≤◌, length, find, slice_get};
ghost use Rattle.std.specs.Option.{option_map, ForSome};
ghost use Rattle.e57_elements.specs.Limits.{max_elements};
ghost use Rattle.e57_nodes.specs.Facts.{type_in};
ghost use Rattle.e57_nodes.specs.Shape.{children_of};
ghost use Rattle.e57_nodes.specs.Fields.{child_named};
ghost use Rattle.e57_nodes.specs.Typed.{is_misplaced};
ghost use Rattle.e57_tree.specs.Flat.{end_of, is_other, node_in, raw_at, AreElements};

use crate::attributes::element_type;
use e57_elements::{RawNode, RawTree};
use e57_nodes::ElementType;

/// The node with this number.
pub fn node(raw: &RawTree, n: usize) -> &RawNode
    requires { n < length raw.now }
    ensures { result.now ≡ raw_at raw.now n }
{
    raw.node(n)
}

/// The number after those of a node and the nodes below it.
pub fn end_of(raw: &RawTree, n: usize) -> usize
    requires { n < length raw.now }
    ensures end { result ≡ end_of raw.now n }
    ensures forward { n < result }
    ensures within { result ≤ length raw.now }
    ensures few { length raw.now ≤ max_elements }
    ensures elements { AreElements raw.now (n + 1) result }
{
    let _count = raw.len();
    n + node(raw, n).size as usize
}

/// The type of a node, if it is known.
pub fn type_of(raw: &RawTree, n: usize) -> Option<ElementType>
    requires { n < length raw.now }
    ensures { result ≡ type_in (raw_at raw.now n).attrs }
{
    element_type(&node(raw, n).attrs)
}

/// The number of the first child.
pub fn first_child(raw: &RawTree, n: usize) -> Option<usize>
    requires { n < length raw.now }
    ensures { option_map (node_in raw.now) result ≡ slice_get (children_of (node_in raw.now n)) 0 }
{
    let end = end_of(raw, n);
    if n + 1 < end {
        return Some(n + 1);
    }
    None
}

/// The number of the first child of this name.
pub fn child_named(raw: &RawTree, n: usize, name: &[u8]) -> Option<usize>
    requires { n < length raw.now }
    ensures child { option_map (node_in raw.now) result ≡ child_named name.now (children_of (node_in raw.now n)) }
    ensures within { ForSome result (λ child. child < length raw.now) }
{
    let end = end_of(raw, n);
    let mut child = n + 1;
    while child < end {
        if node(raw, child).name.as_slice() == name {
            return Some(child);
        }
        child = end_of(raw, child);
    }
    None
}

/// The number of the first child that is neither `prototype` nor `codecs`.
pub fn misplaced_child(raw: &RawTree, n: usize) -> Option<usize>
    requires { n < length raw.now }
    ensures { option_map (node_in raw.now) result ≡ find is_misplaced (children_of (node_in raw.now n)) }
{
    let end = end_of(raw, n);
    let mut child = n + 1;
    while child < end {
        if is_misplaced(node(raw, child).name.as_slice()) {
            return Some(child);
        }
        child = end_of(raw, child);
    }
    None
}

/// Whether a child of a CompressedVector may not have this name.
fn is_misplaced(name: &[u8]) -> bool
    ensures { result ≡ is_other name.now }
{
    name != b"prototype".as_slice() && name != b"codecs".as_slice()
}
