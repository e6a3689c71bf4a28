//! The objects for what lies outside of the program: files of the disk as a source, a new file of the disk as a target,
//! and a standard stream as a sink. What a disk holds or a stream took is outside of every contract; which calls were made
//! and which of them failed is counted exactly.
#![tactic(auto)]

mod disk_source;
mod disk_target;
mod gathered;
mod part;
mod place;
mod read_ahead;
mod std_sink;

pub use disk_source::DiskSource;
pub use disk_target::DiskTarget;
pub use std_sink::StdSink;

#[cfg(test)]
mod tests;
