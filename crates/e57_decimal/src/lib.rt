//! Decimal numbers, exactly: texts as they stand for a scale and an offset in an E57 file (ASTM E2807, ScaledInteger),
//! and `raw * scale + offset` as a text, in whole numbers of 128 bits. No call takes memory.
#![tactic(auto)]

mod gathering;
mod laws;
mod parts;
mod powers;
mod reading;
mod scaling;
mod values;
mod writing;

pub use laws::{one_decimal, one_sum, one_text, text_is_read};
pub use reading::read_decimal;
pub use scaling::Linear;
pub use values::Decimal;
pub use writing::Text;

#[cfg(test)]
mod tests;
