//! What is read of the attributes of a node.

ghost use Rattle.std.specs.Prelude.{◌≡◌, codes};
ghost use Rattle.std.specs.Option.{option_and_then, option_copied};
ghost use Rattle.e57_nodes.specs.Facts.{greatest_integer, least_integer, precision_named, read_or, signed_in, type_in, type_named, unsigned_in, value_of};

use crate::numbers::{signed, unsigned};
use e57_elements::Attrs;
use e57_nodes::ElementType;

/// The value of the first attribute of this name.
pub fn value<'a>(attrs: &'a Attrs, name: &[u8]) -> Option<&'a [u8]>
    ensures { option_copied result ≡ value_of name.now attrs.now }
{
    for i in 0..attrs.len() {
        let attr = attrs.get(i);
        if attr.name.as_slice() == name {
            return Some(attr.value.as_slice());
        }
    }
    None
}

/// The type that the attributes state, if it is known.
#[tactic(auto, unfolding(e57_nodes::specs::Facts::type_in))]
pub fn element_type(attrs: &Attrs) -> Option<ElementType>
    ensures { result ≡ type_in attrs.now }
{
    type_named(value(attrs, b"type".as_slice())?)
}

/// The type of this name.
#[tactic(auto, unfolding(e57_nodes::specs::Facts::type_named))]
fn type_named(word: &[u8]) -> Option<ElementType>
    ensures { result ≡ type_named word.now }
{
    if word == b"Structure".as_slice() {
        return Some(ElementType::Structure);
    }
    if word == b"Vector".as_slice() {
        return Some(ElementType::Vector);
    }
    if word == b"CompressedVector".as_slice() {
        return Some(ElementType::CompressedVector);
    }
    if word == b"Integer".as_slice() {
        return Some(ElementType::Integer);
    }
    if word == b"ScaledInteger".as_slice() {
        return Some(ElementType::ScaledInteger);
    }
    if word == b"Float".as_slice() {
        return Some(ElementType::Float);
    }
    if word == b"String".as_slice() {
        return Some(ElementType::String);
    }
    if word == b"Blob".as_slice() {
        return Some(ElementType::Blob);
    }
    None
}

/// The least value of an integer: that of the type where none is stated.
pub fn minimum(attrs: &Attrs) -> Option<i64>
    ensures { result ≡ read_or least_integer signed_in (value_of (codes "minimum") attrs.now) }
{
    match value(attrs, b"minimum".as_slice()) {
        None => Some(i64::MIN),
        Some(text) => signed(text),
    }
}

/// The greatest value of an integer: that of the type where none is stated.
pub fn maximum(attrs: &Attrs) -> Option<i64>
    ensures { result ≡ read_or greatest_integer signed_in (value_of (codes "maximum") attrs.now) }
{
    match value(attrs, b"maximum".as_slice()) {
        None => Some(i64::MAX),
        Some(text) => signed(text),
    }
}

/// How many bits a floating point number has: 64 where no precision is stated.
pub fn precision(attrs: &Attrs) -> Option<u8>
    ensures { result ≡ read_or 64 precision_named (value_of (codes "precision") attrs.now) }
{
    match value(attrs, b"precision".as_slice()) {
        None => Some(64),
        Some(word) => precision_named(word),
    }
}

/// How many bits a floating point number of this precision has.
#[tactic(auto, unfolding(e57_nodes::specs::Facts::precision_named))]
fn precision_named(word: &[u8]) -> Option<u8>
    ensures { result ≡ precision_named word.now }
{
    if word == b"single".as_slice() {
        return Some(32);
    }
    if word == b"double".as_slice() {
        return Some(64);
    }
    None
}

/// The physical offset of a section.
pub fn place(attrs: &Attrs) -> Option<u64>
    ensures { result ≡ option_and_then unsigned_in (value_of (codes "fileOffset") attrs.now) }
{
    unsigned(value(attrs, b"fileOffset".as_slice())?)
}

/// The number of records.
pub fn record_count(attrs: &Attrs) -> Option<u64>
    ensures { result ≡ option_and_then unsigned_in (value_of (codes "recordCount") attrs.now) }
{
    unsigned(value(attrs, b"recordCount".as_slice())?)
}

/// The length of a blob in bytes.
pub fn blob_length(attrs: &Attrs) -> Option<u64>
    ensures { result ≡ option_and_then unsigned_in (value_of (codes "length") attrs.now) }
{
    unsigned(value(attrs, b"length".as_slice())?)
}
