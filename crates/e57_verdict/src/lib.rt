//! The verdict on a file, and the content of an accepted one (ASTM E2807): definitions and their laws; no call computes
//! them here.
#![tactic(auto)]

mod theorems;

pub use theorems::{one_content, one_verdict, opening_agrees};
