//! What is sound of a damaged cloud (ASTM E2807, compressed vector sections): its records in spans, which are lost and which are
//! kept. Definitions and their laws; no call computes them here.
#![tactic(auto)]

mod theorems;

pub use theorems::{sound_cloud, sound_records, span_of_record, spans_in_order};
