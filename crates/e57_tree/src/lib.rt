//! The tree of typed elements: clouds with their fields, and blobs; or the first fault of the first node at fault.
#![tactic(auto)]

mod attributes;
mod fields;
mod found;
mod items;
mod judge;
mod names;
mod nodes;
mod numbers;
mod path;
mod places;
mod rules;
mod tree;
mod vectors;

pub use attributes::{element_type, value};
pub use items::{Blob, Cloud, Item};
pub use nodes::{child_named, end_of};
pub use places::{copied_attr, node_with};
pub use tree::Tree;
pub use vectors::{has_section, is_field};
