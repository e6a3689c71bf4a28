//! The fields of a record.

use e57_base::Octets;

/// A field of a cloud: a leaf of its prototype.
#[derive(Drop)]
pub struct Field {
    /// The number of the field's node, in preorder from 0.
    pub node: u32,
    /// The names from the prototype's children down, joined by `/`.
    pub path: Octets,
    /// What its items are.
    pub kind: FieldKind,
    /// How many bits an item has, or 0 for a `Text`, whose items have no common width.
    pub width: u8,
}

/// What the items of a field are (ASTM E2807, data types of a prototype).
#[derive(Drop)]
pub enum FieldKind {
    /// Integers from `min` to `max`.
    Int {
        min: i64,
        max: i64,
    },
    /// Integers from `min` to `max`, with the texts of the scale and the offset that make numbers of them.
    Scaled {
        min: i64,
        max: i64,
        scale: Octets,
        offset: Octets,
    },
    /// Floating point numbers of 32 bits.
    Bits32,
    /// Floating point numbers of 64 bits.
    Bits64,
    /// Strings.
    Text,
}

/// A field whose items have a fixed number of whole bytes. Without an index the records of a chunk are counted by it.
#[derive(Clone, Copy, Debug, PartialEq, Eq)]
pub struct Fixed {
    /// The field's number among the fields, from 0.
    pub field: u16,
    /// The bytes of an item, 4 or 8.
    pub bytes: u8,
}
