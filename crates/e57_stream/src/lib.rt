//! The stream of one field over the packets of one chunk (ASTM E2807, data packets and bytestreams), read packet by packet
//! into buffers that the caller lends.
#![tactic(auto)]

mod bytestream;
mod chunk;
mod integers;
mod taking;
mod window;
mod words;

pub use bytestream::{Bytestream, Integers, Stopped};
pub use chunk::{Chunk, let_go};
pub use integers::read_integers;
pub use taking::take_packet;
pub use window::Window;
pub use words::{read_words32, read_words64};

#[cfg(test)]
mod tests;
