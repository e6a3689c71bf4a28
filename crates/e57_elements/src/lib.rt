//! The element tree of a file: read from its text, written, and made by calls.
#![tactic(auto)]

mod builder;
#[cfg(test)]
mod large_tests;
mod limits;
mod read;
#[cfg(test)]
mod tests;
mod text;
mod tree;
mod tree_out;
mod write;
#[cfg(test)]
mod write_tests;

pub use e57_pieces::{Attr, Attrs};
pub use limits::{MAX_ATTRS, MAX_DEPTH, MAX_ELEMENTS, MAX_TEXT};
pub use read::{one_answer, read_elements};
pub use tree::{RawNode, RawTree};
pub use tree_out::TreeOut;
pub use write::{spelling_spells, write_elements};
