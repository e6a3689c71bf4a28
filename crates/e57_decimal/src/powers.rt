//! Powers of ten, and magnitudes with a sign.

ghost use Rattle.std.specs.Prelude.{◌≡◌, ◌^◌, ◌<◌, ◌≤◌};
ghost use Rattle.std.specs.Option.{SomeIff};
ghost use Rattle.e57_decimal.specs.Fractions.{limit, signed as signed_number};

/// The greatest magnitude of a whole number: 2^127 - 1.
pub const LIMIT: u128 = i128::MAX as u128;

/// The greatest magnitude of a shift.
pub const SHIFT_LIMIT: u32 = 60;

/// 10^k, if it is below 2^128.
pub fn power_of_ten(k: u128) -> Option<u128>
    ensures { SomeIff result (10 ^ k < 2 ^ 128) (10 ^ k) }
{
    if k > 38 {
        return None;
    }
    10u128.checked_pow(k as u32)
}

/// The whole number of this magnitude, below 0 if it is negative.
pub fn signed(negative: bool, magnitude: u128) -> i128
    requires { magnitude ≤ limit }
    ensures { result ≡ signed_number negative magnitude }
{
    let whole = magnitude as i128;
    if negative { -whole } else { whole }
}
