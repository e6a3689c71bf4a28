//! One opened file: the tree of its XML section, and its blobs.
#![tactic(auto)]

mod blob;
mod file;
mod section;
mod text;

pub use file::E57;
pub use text::open_text;
