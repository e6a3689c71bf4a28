//! Records of an open cloud copied into a cloud that is written, and whole clouds and blobs copied into a new file
//! (ASTM E2807, compressed vector and blob sections).
#![tactic(auto)]

mod cloud;
mod item;
mod limits;
mod records;
mod run;

pub use item::copy_item;
pub use records::copy_records;
pub use run::copy_run;
