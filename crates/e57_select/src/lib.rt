//! What is asked of some fields and records of a cloud, looked up in an open file.
#![tactic(auto)]

mod asked;

pub use asked::{field_named, field_numbers, past_asked};
