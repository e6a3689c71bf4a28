//! A cloud's records, written as a compressed vector section (ASTM E2807, compressed vector binary sections): records are
//! gathered into groups of eight, groups into packets, packets into chunks, and an index of the chunks stands behind them.
#![tactic(auto)]

mod block;
mod bytes;
mod cloud_out;
mod field_out;
mod fields;
mod gathered;
mod packet;
mod pending;
mod pour;
mod run;
mod section;
mod texts;
mod theorems;
mod turn;

pub use cloud_out::{CloudOut, Written};
pub use theorems::{items_stand, new_cloud_stands};
