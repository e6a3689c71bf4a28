//! The tests of a CompressedVector alone.

ghost use Rattle.std.specs.Prelude.{◌≡◌, ◌+◌, ◌-◌, ◌<◌, ◌≤◌, length, find, codes, Some};
ghost use Rattle.std.specs.Option.{option_map, ForSome};
ghost use Rattle.e57_nodes.specs.declared.ElementType.TheVariants.{CompressedVector};
ghost use Rattle.e57_nodes.specs.Shape.{children_of, nodes_below};
ghost use Rattle.e57_nodes.specs.Fields.{child_named, fields_below};
ghost use Rattle.e57_nodes.specs.Typed.{codecs_fault, compressed_vector_fault, field_count_fault, prototype_fields_fault, is_structure, prototype_fault, record_limit_fault};
ghost use Rattle.e57_nodes.specs.Places.{has_section};
ghost use Rattle.e57_tree.specs.Flat.{facts_in, has_section_node, is_field_type, node_in};

use crate::attributes::record_count;
use crate::nodes::{child_named, end_of, first_child, node, type_of};
use crate::rules::fault;
use e57_base::{Fault, Kind};
use e57_elements::{RawNode, RawTree};
use e57_nodes::ElementType;

/// The most records of a cloud.
const MAX_RECORDS: u64 = 1 << 40;

/// The most fields of a cloud.
const MAX_FIELDS: usize = 512;

/// The first fault of a CompressedVector's number of records, its codecs, its prototype and its fields.
#[tactic(auto, unfolding(e57_nodes::specs::Typed::compressed_vector_fault))]
pub fn vector_fault(raw: &RawTree, n: usize) -> Option<Fault>
    requires { n < length raw.now }
    ensures { result ≡ compressed_vector_fault (node_in raw.now n) (Some CompressedVector) }
{
    if let Some(found) = record_limit_fault(n, node(raw, n)) {
        return Some(found);
    }
    if let Some(found) = codecs_fault(raw, n) {
        return Some(found);
    }
    prototype_fields_fault(raw, n)
}

/// The fault of a number of records above 2^40.
#[tactic(auto, unfolding(e57_nodes::specs::Facts::facts_of))]
fn record_limit_fault(n: usize, node: &RawNode) -> Option<Fault>
    ensures { result ≡ record_limit_fault n (facts_in node.now) }
{
    let count = record_count(&node.attrs).unwrap_or(0);
    if count > MAX_RECORDS {
        return Some(fault(Kind::RecordLimit, n, count));
    }
    None
}

/// The first fault of the prototype and of the number of fields.
fn prototype_fields_fault(raw: &RawTree, n: usize) -> Option<Fault>
    requires { n < length raw.now }
    ensures { result ≡ prototype_fields_fault (node_in raw.now n) }
{
    let prototype = child_named(raw, n, b"prototype".as_slice());
    if let Some(found) = prototype_fault(raw, n, prototype) {
        return Some(found);
    }
    field_count_fault(n, field_count(raw, prototype))
}

/// The fault of codecs that have a child.
fn codecs_fault(raw: &RawTree, n: usize) -> Option<Fault>
    requires { n < length raw.now }
    ensures { result ≡ codecs_fault n (child_named (codes "codecs") (children_of (node_in raw.now n))) }
{
    let codecs = child_named(raw, n, b"codecs".as_slice())?;
    let _child = first_child(raw, codecs)?;
    Some(fault(Kind::Codecs, n, codecs as u64))
}

/// The fault of a prototype that is no Structure, or below which a cloud or a blob stands.
#[tactic(auto, unfolding(e57_nodes::specs::Facts::facts_of))]
fn prototype_fault(raw: &RawTree, n: usize, prototype: Option<usize>) -> Option<Fault>
    requires { ForSome prototype (λ p. p < length raw.now) }
    ensures { result ≡ prototype_fault n (option_map (node_in raw.now) prototype) }
{
    let prototype = prototype?;
    if !is_structure(type_of(raw, prototype)) {
        return Some(fault(Kind::Prototype, n, prototype as u64));
    }
    let section = section_below(raw, prototype)?;
    Some(fault(Kind::Prototype, n, section as u64))
}

/// Whether it is the type Structure.
fn is_structure(t: Option<ElementType>) -> bool
    ensures { result ≡ is_structure t }
{
    match t {
        Some(ElementType::Structure) => true,
        None
        | Some(
            ElementType::Vector
            | ElementType::CompressedVector
            | ElementType::Integer
            | ElementType::ScaledInteger
            | ElementType::Float
            | ElementType::String
            | ElementType::Blob,
        ) => false,
    }
}

/// The number of the first cloud or blob below a node.
fn section_below(raw: &RawTree, n: usize) -> Option<usize>
    requires { n < length raw.now }
    ensures { option_map (node_in raw.now) result ≡ find has_section_node (nodes_below (node_in raw.now n)) }
{
    let end = end_of(raw, n);
    for below in n + 1..end {
        if has_section(type_of(raw, below)) {
            return Some(below);
        }
    }
    None
}

/// Whether a node of this type has a section.
pub fn has_section(t: Option<ElementType>) -> bool
    ensures { result ≡ has_section t }
{
    match t {
        Some(ElementType::CompressedVector | ElementType::Blob) => true,
        None
        | Some(
            ElementType::Structure
            | ElementType::Vector
            | ElementType::Integer
            | ElementType::ScaledInteger
            | ElementType::Float
            | ElementType::String,
        ) => false,
    }
}

/// How many fields there are below a prototype.
fn field_count(raw: &RawTree, prototype: Option<usize>) -> usize
    requires { ForSome prototype (λ p. p < length raw.now) }
    ensures { result ≡ length (fields_below (option_map (node_in raw.now) prototype)) }
{
    match prototype {
        None => 0,
        Some(prototype) => fields_below(raw, prototype),
    }
}

/// How many fields there are below a node.
fn fields_below(raw: &RawTree, n: usize) -> usize
    requires { n < length raw.now }
    ensures { result ≡ length (fields_below (Some (node_in raw.now n))) }
{
    let end = end_of(raw, n);
    let mut count = 0;
    for below in n + 1..end {
        if is_field(type_of(raw, below)) {
            count += 1;
        }
    }
    count
}

/// Whether a node of this type is a field.
pub fn is_field(t: Option<ElementType>) -> bool
    ensures { result ≡ is_field_type t }
{
    match t {
        Some(
            ElementType::Integer
            | ElementType::ScaledInteger
            | ElementType::Float
            | ElementType::String,
        ) => true,
        None
        | Some(
            ElementType::Structure
            | ElementType::Vector
            | ElementType::CompressedVector
            | ElementType::Blob,
        ) => false,
    }
}

/// The fault of a number of fields that isn't 1 to 512.
fn field_count_fault(n: usize, count: usize) -> Option<Fault>
    ensures { result ≡ field_count_fault n count }
{
    if count == 0 || count > MAX_FIELDS {
        return Some(fault(Kind::FieldCount, n, count as u64));
    }
    None
}
