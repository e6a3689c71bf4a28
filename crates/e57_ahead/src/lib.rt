//! Reading ahead in a section without an index (ASTM E2807, compressed vector binary sections): the chunk of a record, found
//! by counting the items of the cloud's first Float field, chunk after chunk.
#![tactic(auto)]

mod ahead;
mod look;
mod reached;
mod step;

pub use ahead::Ahead;
pub use reached::Covered;

#[cfg(test)]
mod tests;
