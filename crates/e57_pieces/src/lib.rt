//! The pieces of an element text: tags, comments, CDATA and text runs, each read from the front of a text.
#![tactic(auto)]

mod attributes;
mod characters;
mod markup;
mod piece;
mod pieces;
mod start;
mod stop;
mod text;
mod theorems;
mod words;

pub use characters::valid_len;
pub use piece::{Attr, Attrs, Piece};
pub use pieces::Pieces;
pub use theorems::one_cut;

#[cfg(test)]
mod tests;
