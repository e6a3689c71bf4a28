//! Files that are made in memory, and runs of the program over them. Only tests use them.
#![tactic(auto)]

pub mod cases;
pub mod files;
pub mod made;
pub mod runs;
