//! Sections and their headers.

/// The compressed vector section of a cloud (ASTM E2807, compressed vector binary sections), and what its element states.
#[derive(Clone, Copy, Debug, PartialEq, Eq)]
pub struct Section {
    /// The number of the cloud's node, in preorder from 0.
    pub node: u32,
    /// How many fields a record has.
    pub fields: u16,
    /// The logical place of the section's header.
    pub start: u64,
    /// The logical place behind the section.
    pub end: u64,
    /// The logical place of the first packet of records.
    pub data_place: u64,
    /// The physical offset of the root of the index, or 0 where there is no index.
    pub index: u64,
    /// How many records there are.
    pub count: u64,
}

/// The numbers of a compressed vector section's header of 32 bytes (ASTM E2807, compressed vector section header).
#[derive(Clone, Copy, Debug, PartialEq, Eq)]
pub struct SectionHeader {
    /// The section's id, which is 1.
    pub id: u8,
    /// The section's length in logical bytes, the header counted.
    pub length: u64,
    /// The physical offset of the first packet of records.
    pub data_place: u64,
    /// The physical offset of the root of the index, or 0 where there is no index.
    pub index: u64,
}

/// The numbers of a blob section's header of 16 bytes (ASTM E2807, blob section header).
#[derive(Clone, Copy, Debug, PartialEq, Eq)]
pub struct BlobHeader {
    /// The section's id, which is 0.
    pub id: u8,
    /// The section's length in logical bytes, the header counted.
    pub length: u64,
}
