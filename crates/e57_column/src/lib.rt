//! Columns of a cloud (ASTM E2807, compressed vector binary sections): the items of one field, record after record, read into
//! buffers that the caller lends. Once a column is open, nothing takes memory.
#![tactic(auto)]

mod bits;
mod column;
mod finder;
mod going;
mod ints;
mod state;
mod texts;
mod together;

pub use column::Column;
pub use e57_ahead::{Ahead, Covered};
pub use e57_stream::Stopped;
pub use texts::TextsRead;
pub use together::records_at_a_time;

#[cfg(test)]
mod tests;
