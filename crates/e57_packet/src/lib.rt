//! Headers of sections, packets and index packets as bytes (ASTM E2807, binary sections): readers and writers on slices.
//! None takes memory. What they mean is said by the definitions of `e57_layout`.
#![tactic(auto)]

mod data_packet;
mod headers;
mod index_packet;
mod numbers;
mod packet_head;

pub use data_packet::{read_data_lengths, write_data_lengths};
pub use e57_layout::{BlobHeader, Entry, IndexHead, PacketHead, Section, SectionHeader};
pub use headers::{read_blob_header, read_section_header, write_blob_header, write_section_header};
pub use index_packet::{read_entry, read_index_head, write_entry, write_index_head};
pub use packet_head::{read_packet_head, write_packet_head};

#[cfg(test)]
mod tests;
