//! The items that cells have, by the kind of their column.

ghost use Rattle.std.specs.Prelude.{◌≡◌, ◌^◌, ◌<◌, ◌≤◌, ◌==◌, is_some, length, true, IfSome};
ghost use Rattle.std.specs.Option.{option_map};
ghost use Rattle.std.specs.Char.{digit_value as value_of_digit};
ghost use Rattle.std.specs.List.{list_all};
ghost use Rattle.e57_pieces.specs.Words.{is_decimal, is_hexadecimal, numeral as numeral_of};
ghost use Rattle.e57_import.specs.Cells.{cell_value, digits_cell, integer_cell, most_digits, signed_cell, text_cell, when_within, word_cell};
ghost use Rattle.e57_import.specs.Columns.{kind_asked};

use crate::columns::ColumnKind;

/// The most digits of an integer.
const MOST_DIGITS: usize = 20;

/// The most bytes of a string.
const STRING_LIMIT: usize = 1 << 24;

/// Whether a cell is of its column's form.
#[tactic(auto, unfolding(crate::specs::Cells::cell_value))]
pub fn is_of_kind(cell: &[u8], kind: ColumnKind<'_>) -> bool
    ensures { result ≡ is_some (cell_value (kind_asked kind.entry) cell.now) }
{
    match kind {
        ColumnKind::Int { low, high } => integer(cell, low, high).is_some(),
        ColumnKind::Scaled { low, high, .. } => integer(cell, low, high).is_some(),
        ColumnKind::F32 => word32(cell).is_some(),
        ColumnKind::F64 => word64(cell).is_some(),
        ColumnKind::Text => text(cell).is_some(),
    }
}

/// The integer of a cell that is an optional `-` and 1 to 20 decimal digits, if it is within these limits.
#[tactic(auto, unfolding(crate::specs::Cells::integer_cell))]
pub fn integer(cell: &[u8], low: i64, high: i64) -> Option<i64>
    ensures { result ≡ integer_cell low high cell.now }
{
    let number = signed(cell)?;
    within(number, low, high)
}

/// The word of a cell that is 8 hexadecimal digits.
pub fn word32(cell: &[u8]) -> Option<u32>
    ensures { result ≡ word_cell 8 cell.now }
{
    let number = word(cell, 8)?;
    Some(number as u32)
}

/// The word of a cell that is 16 hexadecimal digits.
pub fn word64(cell: &[u8]) -> Option<u64>
    ensures { result ≡ word_cell 16 cell.now }
{
    let number = word(cell, 16)?;
    Some(number as u64)
}

/// The string of a cell of at most 2^24 bytes.
#[tactic(auto, unfolding(crate::specs::Cells::text_cell))]
pub fn text(cell: &[u8]) -> Option<&[u8]>
    ensures { option_map (λ found. found.now) result ≡ text_cell cell.now }
{
    if cell.len() <= STRING_LIMIT {
        return Some(cell);
    }
    None
}

/// The integer, if it is within these limits.
#[tactic(auto, unfolding(crate::specs::Cells::when_within))]
fn within(number: i128, low: i64, high: i64) -> Option<i64>
    ensures { result ≡ when_within low high number }
{
    if i128::from(low) <= number && number <= i128::from(high) {
        return Some(number as i64);
    }
    None
}

/// The number of a cell that is an optional `-` and 1 to 20 decimal digits.
#[tactic(auto, unfolding(crate::specs::Cells::signed_cell))]
fn signed(cell: &[u8]) -> Option<i128>
    ensures { result ≡ signed_cell cell.now }
{
    let (first, rest) = cell.split_first()?;
    if *first == b'-' {
        let number = digits(rest)?;
        return Some(-(number as i128));
    }
    let number = digits(cell)?;
    Some(number as i128)
}

/// The number that 1 to 20 decimal digits write.
#[tactic(auto, unfolding(crate::specs::Cells::digits_cell))]
fn digits(cell: &[u8]) -> Option<u128>
    ensures value { result ≡ digits_cell cell.now }
    ensures small { IfSome result (λ number. number < 2 ^ 120) }
{
    if cell.is_empty() || cell.len() > MOST_DIGITS {
        return None;
    }
    if !are_decimal(cell) {
        return None;
    }
    Some(numeral(cell, 10))
}

/// The number that this many hexadecimal digits write.
#[tactic(auto, unfolding(crate::specs::Cells::word_cell))]
fn word(cell: &[u8], count: usize) -> Option<u128>
    requires { count ≤ most_digits }
    ensures value { result ≡ word_cell count cell.now }
    ensures small { IfSome result (λ number. number < 16 ^ count) }
{
    if cell.len() != count {
        return None;
    }
    if !are_hexadecimal(cell) {
        return None;
    }
    Some(numeral(cell, 16))
}

/// Whether each byte is a decimal digit.
#[tactic(auto, unfolding(e57_pieces::specs::Words::is_decimal))]
fn are_decimal(cell: &[u8]) -> bool
    ensures { result ≡ list_all is_decimal cell.now }
{
    cell.iter().all(|b| b.is_ascii_digit())
}

/// Whether each byte is a hexadecimal digit.
#[tactic(auto, unfolding(e57_pieces::specs::Words::is_hexadecimal))]
fn are_hexadecimal(cell: &[u8]) -> bool
    ensures { result ≡ list_all is_hexadecimal cell.now }
{
    cell.iter().all(|b| b.is_ascii_hexdigit())
}

/// The value of a digit or a letter, and 36 of any other byte.
fn digit_value(b: u8) -> u128
    ensures value { result ≡ value_of_digit b }
    ensures small { result ≤ 36 }
{
    match b {
        b'0'..=b'9' => u128::from(b - b'0'),
        b'A'..=b'Z' => u128::from(b - b'A') + 10,
        b'a'..=b'z' => u128::from(b - b'a') + 10,
        _ => 36,
    }
}

/// The number that digits write.
fn numeral(digits: &[u8], base: u128) -> u128
    requires base { base ≤ 16 }
    requires few { length digits.now ≤ most_digits }
    ensures value { result ≡ numeral_of base digits.now }
    ensures small { result < 2 ^ 120 }
{
    let mut number = 0;
    for b in digits {
        number = number * base + digit_value(*b);
    }
    number
}
