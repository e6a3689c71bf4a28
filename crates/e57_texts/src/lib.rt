//! The strings of a field's stream over the packets of one chunk (ASTM E2807, bytestreams of strings), read into buffers
//! that the caller lends. No call takes memory.
#![tactic(auto)]

mod piece;
mod prefix;
mod short;
mod skip;
mod strings;

pub use skip::skip_strings;
pub use strings::{StringsRead, read_strings};

#[cfg(test)]
mod tests;
