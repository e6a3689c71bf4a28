//! Records of a cloud as rows of text: items as cells, the row of each record, and the rows of some records put on a sink one
//! after another (ASTM E2807, compressed vector binary sections).
#![tactic(auto)]

mod cell;
mod hexadecimal;
mod numbers;
mod paths;
mod put;
mod shown;
mod text;

pub use numbers::has_decimals;
pub use paths::heading;
pub use put::put_rows;
