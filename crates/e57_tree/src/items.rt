//! Clouds and blobs, as a tree states them.

/// A cloud, as its CompressedVector states it (ASTM E2807, CompressedVector).
#[derive(Clone, Copy, Debug, PartialEq, Eq)]
pub struct Cloud {
    /// The number of its node, in preorder from 0.
    pub node: u32,
    /// The physical offset of its section.
    pub place: u64,
    /// How many records it has.
    pub count: u64,
}

/// A blob, as its element states it (ASTM E2807, Blob).
#[derive(Clone, Copy, Debug, PartialEq, Eq)]
pub struct Blob {
    /// The number of its node, in preorder from 0.
    pub node: u32,
    /// The physical offset of its section.
    pub place: u64,
    /// Its length in bytes.
    pub length: u64,
}

/// A cloud or a blob, by its number among the clouds or among the blobs, from 0.
#[derive(Clone, Copy, Debug, PartialEq, Eq)]
pub enum Item {
    Cloud(u32),
    Blob(u32),
}
