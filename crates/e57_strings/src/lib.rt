//! The strings of a stream (ASTM E2807): read from pieces, wherever they are cut, and the prefix that is written. No
//! call takes memory.
#![tactic(auto)]

mod cursor;
mod prefix;

pub use cursor::{Fed, StringCursor};
pub use prefix::spell_prefix;

#[cfg(test)]
mod tests;
