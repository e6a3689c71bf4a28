//! What is sound of a damaged file (ASTM E2807, file structure): what is lost and kept of its clouds and blobs, and the content
//! that is saved. Definitions and their laws; no call computes them yet.
#![tactic(auto)]

mod theorems;

pub use theorems::{saved_content, sound_file};
