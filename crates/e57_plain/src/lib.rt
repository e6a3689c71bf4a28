//! The written form of a content (ASTM E2807, file structure): one file for each content and each length of chunks.
//! Definitions and their laws; no call computes them here.
#![tactic(auto)]

mod theorems;

pub use theorems::{accepted_content, kept_records, narrow_limits, written_form};
