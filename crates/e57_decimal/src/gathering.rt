//! A number by its digits.

ghost use Rattle.std.specs.Prelude.{◌≡◌, ◌+◌, ◌*◌, ◌^◌, ◌<◌, ◌++◌, length, true};
ghost use Rattle.std.specs.List.{list_all};
ghost use Rattle.e57_decimal.specs.Reading.{is_digit, number_after};
ghost use Rattle.e57_decimal.specs.Gathering.{Gathers, IsGathered, total};

use crate::powers::{LIMIT, power_of_ten};

/// The number `magnitude * 10^zeros`.
#[derive(Clone, Copy)]
pub struct Gathered {
    pub magnitude: u128,
    pub zeros: u64,
}

/// The number with one digit more, or none if it is too long.
fn appended(number: Gathered, digit: u8) -> Option<Gathered>
    requires kept { IsGathered number }
    requires digit { digit < 10 }
    requires room { number.zeros + 1 < 2 ^ 64 }
    ensures { Gathers (total number * 10 + digit) (number.zeros + 1) result }
{
    let Gathered { magnitude, zeros } = number;
    if digit == 0 {
        if magnitude == 0 {
            return Some(number);
        }
        return Some(Gathered {
            magnitude,
            zeros: zeros + 1,
        });
    }
    let power = power_of_ten(u128::from(zeros) + 1)?;
    let magnitude = magnitude
        .checked_mul(power)?
        .checked_add(u128::from(digit))?;
    if magnitude > LIMIT {
        return None;
    }
    Some(Gathered {
        magnitude,
        zeros: 0,
    })
}

/// The number with these digits behind its own, or none if it is too long.
fn with_digits(number: Gathered, digits: &[u8]) -> Option<Gathered>
    requires kept { IsGathered number }
    requires each { list_all is_digit digits.now ≡ true }
    requires room { number.zeros + length digits.now < 2 ^ 64 }
    ensures { let n = number_after (total number) digits.now in Gathers n (number.zeros + length digits.now) result }
{
    let mut number = number;
    for b in digits {
        number = appended(number, *b - b'0')?;
    }
    Some(number)
}

/// The number of the digits before and behind a point, or none if it is too long: without its last zeros it is above
/// 2^127 - 1.
pub fn number_of_digits(whole: &[u8], places: &[u8]) -> Option<Gathered>
    requires whole { list_all is_digit whole.now ≡ true }
    requires places { list_all is_digit places.now ≡ true }
    ensures { let n = number_after 0 (whole.now ++ places.now) in Gathers n (length whole.now + length places.now) result }
{
    let nothing = Gathered {
        magnitude: 0,
        zeros: 0,
    };
    with_digits(with_digits(nothing, whole)?, places)
}
