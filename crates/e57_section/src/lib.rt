//! The compressed vector section of a cloud and its packets (ASTM E2807, compressed vector binary sections), read from the
//! pages of a file.
#![tactic(auto)]

mod data;
mod head;
mod header;
mod load;
mod next;
mod packet;

pub use header::open_section;
pub use load::{Loaded, load_packet};
pub use next::next_packet;
pub use packet::Packet;

#[cfg(test)]
mod tests;
