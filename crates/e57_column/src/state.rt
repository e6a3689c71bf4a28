//! What a column keeps.

use crate::finder::Finder;
use e57_stream::{Bytestream, Chunk, Integers};

/// What the items of a field are.
#[derive(Clone, Copy, Debug, PartialEq, Eq)]
pub enum Items {
    /// Integers, whose width is 0 where only one value is possible.
    Whole(Integers),
    /// Words of 32 bits.
    Words32,
    /// Words of 64 bits.
    Words64,
    /// Strings.
    Strings,
}

/// Where a column is placed.
#[derive(Clone, Copy, Debug, PartialEq, Eq)]
pub enum Place {
    /// It isn't placed.
    Nowhere,
    /// At a record, in no chunk: behind the last record, or where the items take no bits.
    Outside,
    /// At a record, in the chunk that is kept.
    Inside,
}

/// The field, what finds its chunks, and how far it was read.
#[derive(Drop)]
pub struct State {
    /// The stream of the field.
    pub stream: Bytestream,
    /// What its items are.
    pub items: Items,
    /// Where the column is placed.
    pub place: Place,
    /// The chunk in which it stands, if it stands in one. Its next record is the column's.
    pub chunk: Chunk,
    /// What finds the chunk of a record.
    pub finder: Finder,
}
