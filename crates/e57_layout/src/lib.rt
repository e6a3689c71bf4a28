//! Compressed vector sections and blob sections (ASTM E2807, binary sections): the plain types that cross crates, and in
//! `specs` how headers, packets and items are spelled and read, and how a section is written.
#![tactic(auto)]

mod field;
mod packet;
mod section;
mod theorems;

pub use field::{Field, FieldKind, Fixed};
pub use packet::{Entry, IndexHead, PacketHead};
pub use section::{BlobHeader, Section, SectionHeader};
pub use theorems::{blob_header_read_again, items_read_again};
