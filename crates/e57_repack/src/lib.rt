//! A file written anew (ASTM E2807, file structure).
#![tactic(auto)]

mod anew;
mod clouds;
mod items;
mod ranges;
mod repacking;
mod widening;

pub use anew::write_anew;
pub use items::copy_items;
pub use ranges::narrow_ranges;
pub use repacking::repack;
