//! The pages of a file: its header, physical and logical offsets, and reads that give no byte of a page with a wrong
//! checksum word.
#![tactic(auto)]

mod fetch;
mod header;
mod kept;
mod named;
mod pages;
mod piece;
mod place;

pub use header::Header;
pub use named::open_file;
pub use pages::{Cut, Pages};
pub use place::{one_physical, physical_of, place_of};

#[cfg(test)]
mod tests;
