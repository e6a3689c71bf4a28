//! What judged clouds and blobs have.

/// How many clouds and blobs were judged, and how many records the clouds have.
#[derive(Clone, Copy, Debug, PartialEq, Eq)]
pub struct Summary {
    /// How many clouds.
    pub clouds: u64,
    /// How many blobs.
    pub blobs: u64,
    /// The records of all clouds.
    pub records: u64,
}
