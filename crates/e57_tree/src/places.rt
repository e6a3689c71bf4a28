//! Other places in a tree.

ghost use Rattle.std.specs.Prelude.{◌≡◌, ◌+◌, ◌≤◌, ◌||◌, drop, length, map, IfOk};
ghost use Rattle.std.specs.Fmt.{decimal};
ghost use Rattle.e57_nodes.specs.Places.{place_name, with_value, item_count, placed_node, placed_nodes};
ghost use Rattle.e57_tree.specs.Copies.{is_place, next_attr, section_count};

use crate::attributes::element_type;
use crate::vectors::has_section;
use e57_base::Octets;
use e57_elements::{Attrs, RawNode, RawTree};
use e57_pieces::Attr;
use itoa::Buffer;
use std::alloc::{AllocError, Global};

/// The nodes of a tree, with these places of clouds and blobs in document order.
pub fn with_places(alloc: Global, raw: &RawTree, places: &[u64]) -> Result<RawTree, AllocError>
    requires { item_count raw.now ≤ length places.now }
    ensures { IfOk result (λ new. new ≡ placed_nodes (map decimal places.now) raw.now) }
{
    let mut nodes = Vec::with_capacity(alloc, raw.len())?;
    let mut used = 0;
    for n in 0..raw.len() {
        let node = raw.node(n);
        nodes.push(next_node(alloc, node, places, used)?)?;
        used += section_count(node);
    }
    Ok(RawTree::new(nodes))
}

/// How many sections a node has.
fn section_count(node: &RawNode) -> usize
    ensures { result ≡ section_count node.now }
{
    if has_section(element_type(&node.attrs)) {
        1
    } else {
        0
    }
}

/// A copy of a node, of a cloud or blob with the first place that isn't used yet.
fn next_node(
    alloc: Global,
    node: &RawNode,
    places: &[u64],
    used: usize,
) -> Result<RawNode, AllocError>
    requires { used + section_count node.now ≤ length places.now }
    ensures { IfOk result (λ new. new ≡ placed_node (drop used (map decimal places.now)) node.now) }
{
    if has_section(element_type(&node.attrs)) {
        return placed(alloc, node, places[used]);
    }
    copied(alloc, node)
}

/// A copy of a node.
fn copied(alloc: Global, node: &RawNode) -> Result<RawNode, AllocError>
    ensures { IfOk result (λ new. new ≡ node.now) }
{
    let mut attrs = Attrs::new(alloc);
    for i in 0..node.attrs.len() {
        let attr = node.attrs.get(i);
        attrs.push(copied_attr(alloc, attr)?)?;
    }
    node_with(alloc, node, attrs)
}

/// A copy of a node with other attributes.
pub fn node_with(alloc: Global, node: &RawNode, attrs: Attrs) -> Result<RawNode, AllocError>
    ensures { IfOk result (λ new. new ≡ record { name = node.now.name; attrs = attrs; text = node.now.text; size = node.now.size }) }
{
    Ok(RawNode {
        name: copy(alloc, &node.name)?,
        attrs,
        text: copy(alloc, &node.text)?,
        size: node.size,
    })
}

/// A copy of an attribute.
pub fn copied_attr(alloc: Global, attr: &Attr) -> Result<Attr, AllocError>
    ensures { IfOk result (λ new. new ≡ attr.now) }
{
    Ok(Attr {
        name: copy(alloc, &attr.name)?,
        value: copy(alloc, &attr.value)?,
    })
}

/// A copy of a text.
fn copy(alloc: Global, text: &Octets) -> Result<Octets, AllocError>
    ensures { IfOk result (λ new. new ≡ text.now) }
{
    Ok(Octets::new(Vec::from_slice(alloc, text.as_slice())?))
}

/// A copy of a node with this place in decimal.
fn placed(alloc: Global, node: &RawNode, place: u64) -> Result<RawNode, AllocError>
    ensures { IfOk result (λ new. new ≡ record { name = node.now.name; attrs = with_value place_name (decimal place) node.now.attrs; text = node.now.text; size = node.now.size }) }
{
    let attrs = with_place(alloc, &node.attrs, place)?;
    node_with(alloc, node, attrs)
}

/// A copy of attributes, in which the first `fileOffset` is this place in decimal.
fn with_place(alloc: Global, attrs: &Attrs, place: u64) -> Result<Attrs, AllocError>
    ensures { IfOk result (λ new. new ≡ with_value place_name (decimal place) attrs.now) }
{
    let mut new = Attrs::new(alloc);
    let mut is_set = false;
    for i in 0..attrs.len() {
        new.push(next_attr(alloc, attrs.get(i), place, &mut is_set)?)?;
    }
    Ok(new)
}

/// A copy of an attribute; of the first `fileOffset` with this place in decimal.
fn next_attr(alloc: Global, attr: &Attr, place: u64, is_set: &mut bool) -> Result<Attr, AllocError>
    ensures copy { IfOk result (λ new. new ≡ next_attr is_set.old (decimal place) attr.now) }
    ensures set { is_set.new ≡ (is_set.old || is_place attr.now) }
{
    if *is_set {
        return copied_attr(alloc, attr);
    }
    if attr.name.as_slice() == b"fileOffset".as_slice() {
        *is_set = true;
        return valued_attr(alloc, attr, place);
    }
    copied_attr(alloc, attr)
}

/// A copy of an attribute with a number in decimal as its value.
fn valued_attr(alloc: Global, attr: &Attr, number: u64) -> Result<Attr, AllocError>
    ensures { IfOk result (λ new. new ≡ record { name = attr.now.name; value = decimal number }) }
{
    let mut buffer = Buffer::new();
    let value = Vec::from_slice(alloc, buffer.format(number).as_bytes())?;
    Ok(Attr {
        name: copy(alloc, &attr.name)?,
        value: Octets::new(value),
    })
}
