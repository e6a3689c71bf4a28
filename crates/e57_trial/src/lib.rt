//! A large file made of two numbers, and what its check as a whole comes to (ASTM E2807, file structure).
#![tactic(auto)]

mod block;
mod build;
mod file;
mod items;
mod records;
mod section;
mod sum;
mod tree;
mod write;

pub use build::{TrialFiles, build_trial};
pub use write::write_trial;

#[cfg(test)]
mod build_tests;
