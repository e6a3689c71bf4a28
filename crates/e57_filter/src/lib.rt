//! A file written anew with some records and fields of one cloud (ASTM E2807, compressed vector binary sections).
#![tactic(auto)]

mod anew;
mod ask;
mod filtering;
mod items;
mod keep;
mod mark;
mod pick;
mod section;
pub mod select;

pub use ask::{FilterAsk, Keep};
pub use filtering::filter;
pub use keep::{Limits, keep_records};
