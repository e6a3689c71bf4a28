//! The index packet that a cursor holds.

/// An index packet whose entries are held: its physical offset, its level, how many entries it has, and the records from
/// the first one up to the bound.
#[derive(Clone, Copy)]
pub struct Held {
    pub place: u64,
    pub level: u8,
    pub entries: u16,
    pub first: u64,
    pub bound: u64,
}
