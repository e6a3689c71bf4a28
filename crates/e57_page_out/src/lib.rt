//! A new file, as it is written: its header, and its pages with their checksum words.
#![tactic(auto)]

mod buffer;
mod bytes;
mod header;
mod pages_out;
mod theorems;

pub use header::write_header;
pub use pages_out::PagesOut;
pub use theorems::{closed_pages, unfinished_faults};

#[cfg(test)]
mod tests;
