//! The text of a number.

ghost use Rattle.std.specs.Prelude.{◌≡◌, ◌+◌, ◌-◌, ◌*◌, ◌/◌, ◌%◌, ◌^◌, ◌<◌, ◌≤◌, ◌++◌, ◌∷◌, [], length, replicate, unsigned_abs, decimal};
ghost use Rattle.arrayvec.specs.ArrayString.{array_string_len};
ghost use Rattle.e57_decimal.specs.Fractions.{limit, shift_limit};
ghost use Rattle.e57_decimal.specs.Writing.{places_of, point_text, magnitude_text, sign_text};

use crate::powers::{SHIFT_LIMIT, power_of_ten};
use arrayvec::ArrayString;
use itoa::Buffer;

/// Room for every text: at most 101 bytes are written.
pub type Text = ArrayString<112>;

/// The most places of which the power of ten is below 2^64.
const SHORT_PLACES: u32 = 19;

/// Appends the digits of a number.
fn put_digits(text: &mut Text, number: u128)
    requires room { array_string_len text.old + 40 ≤ 112 }
    ensures put { text.new.bytes ≡ text.old.bytes ++ decimal number }
    ensures short { array_string_len text.new ≤ array_string_len text.old + 40 }
{
    let mut buffer = Buffer::new();
    text.push_str(buffer.format(number));
}

/// Appends so many zeros.
fn put_zeros(text: &mut Text, count: u32)
    requires room { array_string_len text.old + count ≤ 112 }
    ensures { text.new.bytes ≡ text.old.bytes ++ replicate count 48 }
{
    for _ in 0..count {
        text.push_str("0");
    }
}

/// The whole part of `magnitude / 10^places`, and the rest.
fn split_whole(magnitude: u128, places: u32) -> (u128, u128)
    ensures whole { result.0 ≡ magnitude / 10 ^ places }
    ensures rest { result.1 ≡ magnitude % 10 ^ places }
{
    match power_of_ten(u128::from(places)) {
        Some(power) => (magnitude / power, magnitude % power),
        None => (0, magnitude),
    }
}

/// The digit in front of `places` other ones, and the rest.
fn split_digit(number: u128, places: u32) -> (u8, u128)
    requires { number < 10 ^ (places + 1) }
    ensures digit { result.0 ≡ number / 10 ^ places }
    ensures small { result.0 < 10 }
    ensures rest { result.1 ≡ number % 10 ^ places }
{
    let (digit, rest) = split_whole(number, places);
    (digit as u8, rest)
}

/// Appends the digits behind the point of `rest / 10^places`, up to the last one that isn't 0.
fn put_places(text: &mut Text, rest: u128, places: u32)
    requires below { rest < 10 ^ places }
    requires room { array_string_len text.old + places ≤ 112 }
    ensures { text.new.bytes ≡ text.old.bytes ++ places_of places rest }
{
    let mut rest = rest;
    for done in 0..places {
        if rest == 0 {
            return;
        }
        let (digit, less) = split_digit(rest, places - done - 1);
        text.push((b'0' + digit) as char);
        rest = less;
    }
}

/// Appends the text of `magnitude * 10^zeros`.
fn put_raised(text: &mut Text, magnitude: u128, zeros: u32)
    requires within { magnitude ≤ limit }
    requires few { zeros ≤ shift_limit }
    requires room { array_string_len text.old + 100 ≤ 112 }
    ensures { text.new.bytes ≡ text.old.bytes ++ magnitude_text (magnitude * 10 ^ zeros) 0 }
{
    put_digits(text, magnitude);
    if magnitude != 0 {
        put_zeros(text, zeros);
    }
}

/// Appends the digits of a number below 2^64.
fn put_short_digits(text: &mut Text, number: u64)
    requires room { array_string_len text.old + 40 ≤ 112 }
    ensures put { text.new.bytes ≡ text.old.bytes ++ decimal number }
    ensures short { array_string_len text.new ≤ array_string_len text.old + 40 }
{
    let mut buffer = Buffer::new();
    text.push_str(buffer.format(number));
}

/// Appends the digits behind the point of `rest / power`, which is 10^places, up to the last one that isn't 0.
fn put_short_places(text: &mut Text, rest: u64, places: u32, power: u64)
    requires power { power ≡ 10 ^ places }
    requires below { rest < power }
    requires room { array_string_len text.old + places ≤ 112 }
    ensures { text.new.bytes ≡ text.old.bytes ++ places_of places rest }
{
    let mut left = rest;
    let mut power = power;
    for _ in 0..places {
        if left == 0 {
            return;
        }
        power /= 10;
        let digit = left / power;
        text.push((b'0' + digit as u8) as char);
        left %= power;
    }
}

/// Appends the text of `magnitude / 10^places`, in 64 bits.
fn put_short(text: &mut Text, magnitude: u64, places: u32)
    requires few { places ≤ 19 }
    requires room { array_string_len text.old + 101 ≤ 112 }
    ensures { text.new.bytes ≡ text.old.bytes ++ magnitude_text magnitude places }
{
    let power = 10u64.pow(places);
    let whole = magnitude / power;
    let rest = magnitude % power;
    put_short_digits(text, whole);
    if rest != 0 {
        text.push_str(".");
        put_short_places(text, rest, places, power);
    }
}

/// Appends the text of `magnitude / 10^places`.
fn put_lowered(text: &mut Text, magnitude: u128, places: u32)
    requires within { magnitude ≤ limit }
    requires few { places ≤ shift_limit }
    requires room { array_string_len text.old + 101 ≤ 112 }
    ensures { text.new.bytes ≡ text.old.bytes ++ magnitude_text magnitude places }
{
    if places <= SHORT_PLACES && magnitude <= u128::from(u64::MAX) {
        put_short(text, magnitude as u64, places);
        return;
    }
    let (whole, rest) = split_whole(magnitude, places);
    put_digits(text, whole);
    if rest != 0 {
        text.push_str(".");
        put_places(text, rest, places);
    }
}

/// Writes a `-` if the number is below 0, and nothing else, in place of what was there.
fn write_sign(text: &mut Text, number: i128)
    ensures sign { text.new.bytes ≡ sign_text number }
    ensures short { array_string_len text.new ≤ 1 }
{
    text.clear();
    if number < 0 {
        text.push_str("-");
    }
}

/// Writes the text of `number * 10^(up - 60)`, in place of what was there.
pub fn write_number(text: &mut Text, number: i128, up: u32)
    requires within { unsigned_abs number ≤ limit }
    requires high { up ≤ 2 * shift_limit }
    ensures { let n = unsigned_abs number * 10 ^ up in text.new.bytes ≡ sign_text number ++ magnitude_text n shift_limit }
{
    write_sign(text, number);
    let magnitude = number.unsigned_abs();
    if up < SHIFT_LIMIT {
        put_lowered(text, magnitude, SHIFT_LIMIT - up);
    } else {
        put_raised(text, magnitude, up - SHIFT_LIMIT);
    }
}
