//! What the binary section of a cloud holds (ASTM E2807, compressed vector sections): its first fault, its packets, its
//! index, its chunks, its records, and one item by its record number. Definitions and their laws; no call computes them.
#![tactic(auto)]

mod theorems;

pub use theorems::{item_by_record, written_section};
