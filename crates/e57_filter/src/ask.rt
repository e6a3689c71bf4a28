//! What is asked of one cloud.

use arrayvec::ArrayVec;

/// Limits of the items of a field of integers.
#[derive(Clone, Copy, Debug, PartialEq, Eq, Default)]
pub struct Keep<'a> {
    /// The path of the field.
    pub field: &'a str,
    /// The least value.
    pub low: i64,
    /// The greatest value.
    pub high: i64,
}

/// Which records and which fields of one cloud are kept.
#[derive(Clone, Debug, PartialEq, Eq, Drop)]
pub struct FilterAsk<'a> {
    /// The number of the cloud, counted from 0 in document order.
    pub cloud: u64,
    /// The paths of the fields that are kept, separated by commas: 1 to 512, none of them empty and all different. All
    /// fields if there is no list.
    pub fields: Option<&'a str>,
    /// Records are kept whose items lie within all of these limits.
    pub keeps: ArrayVec<Keep<'a>, 8>,
    /// Of the records from `from` on each one of so many is looked at, at least 1.
    pub every: u64,
    /// The number of the first record, at most 2^40.
    pub from: u64,
    /// From how many records these are taken, at most 2^40; all from `from` on if no number is given.
    pub count: Option<u64>,
}
