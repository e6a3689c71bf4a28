//! Decimals in texts.

ghost use Rattle.std.specs.Prelude.{◌≡◌, ◌%◌, ◌≤◌, MatchOption};
ghost use Rattle.e57_decimal.specs.Fractions.{limit};
ghost use Rattle.e57_decimal.specs.Reading.{IsReadAs};
ghost use Rattle.e57_decimal.specs.Decided.{decimal_in};
ghost use Rattle.e57_decimal.specs.Deciding.{Decides, IsFar, IsShift, signed_fraction};

use crate::gathering::number_of_digits;
use crate::parts::split_parts;
use crate::powers::{SHIFT_LIMIT, signed};
use crate::values::Decimal;

/// `up - down` as a shift, if its magnitude is at most 60.
fn shift_of(up: u128, down: u128) -> Option<i16>
    ensures { MatchOption result (IsFar up down) (IsShift up down) }
{
    if up >= down {
        let raised = up - down;
        if raised > u128::from(SHIFT_LIMIT) {
            return None;
        }
        Some(raised as i16)
    } else {
        let lowered = down - up;
        if lowered > u128::from(SHIFT_LIMIT) {
            return None;
        }
        Some(-(lowered as i16))
    }
}

/// The decimal of the value `magnitude * 10^up / 10^down`, with a sign, if there is one.
fn decimal_of(negative: bool, magnitude: u128, up: u128, down: u128) -> Option<Decimal>
    requires within { magnitude ≤ limit }
    requires tens { magnitude % 10 ≡ 0 → magnitude ≡ 0 }
    ensures { Decides (signed_fraction negative magnitude up down) result }
{
    if magnitude == 0 {
        return Some(Decimal { whole: 0, shift: 0 });
    }
    let shift = shift_of(up, down)?;
    Some(Decimal {
        whole: signed(negative, magnitude),
        shift,
    })
}

/// The decimal whose value a decimal text has. Without white space at its ends (space, tab, carriage return, line
/// feed) such a text is an optional `-` or `+`, digits with at most one `.` among them, before or after them, at least
/// one digit, and perhaps `e` or `E`, an optional sign and 1 to 5 digits.
///
/// None if the text isn't such a text, or no decimal has its value.
pub fn read_decimal(text: &[u8]) -> Option<Decimal>
    ensures read { MatchOption result ((d : Decimal) → IsReadAs text.now d → ⊥) (λ d. IsReadAs text.now d) }
    ensures decimal { result ≡ decimal_in text.now }
{
    decimal_read(text)
}

/// The decimal whose value a decimal text has, if there is one.
fn decimal_read(text: &[u8]) -> Option<Decimal>
    ensures { MatchOption result ((d : Decimal) → IsReadAs text.now d → ⊥) (λ d. IsReadAs text.now d) }
{
    let parts = split_parts(text)?;
    let number = number_of_digits(parts.whole, parts.places)?;
    let up = u128::from(number.zeros) + u128::from(parts.raised);
    let down = parts.places.len() as u128 + u128::from(parts.lowered);
    decimal_of(parts.negative, number.magnitude, up, down)
}
