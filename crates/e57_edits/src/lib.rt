//! Trees edited: with other limits of integer fields, with some fields of one cloud, with other numbers
//! of records and other lengths of blobs. Each edit is one walk over the nodes, which gives a tree again
//! and fails only for want of memory.
#![tactic(auto)]

mod attrs;
mod changes;
mod cloud;
mod counts;
mod limits;
mod nodes;
#[cfg(test)]
mod tests;
mod trees;

pub use cloud::with_cloud;
pub use counts::with_counts;
pub use limits::{Range, with_limits};
