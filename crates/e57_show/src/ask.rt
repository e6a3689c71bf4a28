//! What is asked of the records of a cloud.

/// The asked records and fields of a cloud.
#[derive(Clone, Copy, Debug, PartialEq, Eq)]
pub struct RowsAsk<'a> {
    /// The number of the cloud, from 0 in document order.
    pub cloud: u64,
    /// The paths of the asked fields in the asked order, separated by commas; all fields if there is no list.
    pub fields: Option<&'a str>,
    /// The number of the first record.
    pub from: u64,
    /// How many records; all from the first one on if there is no number.
    pub count: Option<u64>,
    /// Whether scaled integers are put as the numbers that they stand for, `raw * scale + offset`.
    pub decimal: bool,
}
