//! The records of a cloud, one field at a time (ASTM E2807, compressed vector binary sections): a field's items are read ahead
//! block by block, and looked at by the numbers of their records, one field or several side by side.
#![tactic(auto)]

mod block;
mod buffer;
mod fields;
mod read;
mod texts;

pub use block::{FieldBlock, Item, Run};
pub use fields::{FieldBlocks, MOST};

#[cfg(test)]
mod tests;
