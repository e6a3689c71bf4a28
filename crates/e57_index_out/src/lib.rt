//! The index of a section as it is written (ASTM E2807, index packets): the entries of its chunks, and the packets that
//! lead to them, level by level.
#![tactic(auto)]

mod index_out;
mod level;
mod levels;

pub use index_out::IndexOut;

#[cfg(test)]
mod tests;
