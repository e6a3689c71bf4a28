//! Rows of text imported as a new file with one cloud (ASTM E2807, compressed vector binary sections).
#![tactic(auto)]

mod cells;
mod columns;
mod judge;
mod rows;
mod text;

pub use columns::{ColumnAsk, ColumnKind};
