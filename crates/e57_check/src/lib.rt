//! The whole verdict on a file (ASTM E2807): its first fault over all that is judged, in order, or that it has none, and then
//! how many clouds, blobs and records it has.
#![tactic(auto)]

mod block;
mod body;
mod cloud;
mod column;
mod fields;
mod item;
mod packets;
mod row;
mod starts;
mod step;
mod summary;
mod verdict;

pub use summary::Summary;
pub use verdict::{check, judge};
