//! The program `e57` as one function over the objects that it is given.
#![tactic(auto)]

mod blob;
mod check;
mod commands;
mod cursor;
mod ending;
mod extract;
mod filter;
mod filter_options;
mod given;
mod info;
mod lines;
mod list;
mod options;
mod pages;
mod program;
mod repack;
mod repack_options;
mod status;
mod text;
mod trials;
mod words;

pub use cursor::WordFault;
pub use program::run;
pub use status::Status;
pub use trials::trial;
pub use words::{Ask, read_words};
