//! The index of a cloud's section (ASTM E2807, index packets), read from the pages of a file.
#![tactic(auto)]

mod all;
mod cursor;
mod entries;
mod gather;
mod held;
#[cfg(test)]
mod large_tests;
#[cfg(test)]
mod made;
mod once;
mod onward;
mod read;
mod start;
mod target;

pub use all::{Entries, all_entries};
pub use cursor::{Found, IndexCursor};
pub use once::no_packet_twice;
pub use onward::next_chunk_begins;

#[cfg(test)]
mod tests;
