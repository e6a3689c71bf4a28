//! Which stream is read.

use e57_layout::{Fixed, Section};

/// The stream of one field of a section (ASTM E2807, bytestreams).
#[derive(Clone, Copy, Debug, PartialEq, Eq)]
pub struct Bytestream {
    /// The section.
    pub section: Section,
    /// The first Float field of the section's cloud, if it has one.
    pub fixed: Option<Fixed>,
    /// The field's number among the fields, from 0.
    pub field: u16,
    /// The number of the field's node, in preorder from 0.
    pub node: u32,
}

/// Integers from `low` to `high`, of which an item has `width` bits, one or more.
#[derive(Clone, Copy, Debug, PartialEq, Eq)]
pub struct Integers {
    /// The lowest value.
    pub low: i64,
    /// The highest value.
    pub high: i64,
    /// The bits of an item.
    pub width: u8,
}

/// A read that stopped.
#[derive(Clone, Copy, Debug, PartialEq, Eq)]
pub struct Stopped {
    /// How many items were read before.
    pub done: usize,
    /// Why the next one wasn't.
    pub fault: e57_base::ReadFault,
}
