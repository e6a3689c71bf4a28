//! The end of a new file (ASTM E2807, file structure): blobs that are copied into it, and its XML section, behind which it
//! is closed.
#![tactic(auto)]

mod close;
mod copy;
mod laws;

pub use close::close_file;
pub use copy::{CopyFault, copy_blob};
pub use laws::{closed_content, one_item_more, written_limits};

#[cfg(test)]
mod tests;
