//! Worked texts and values, and the calls beside a slow exact program.

ghost use Rattle.std.specs.Prelude.{◌*◌, ◌≤◌, ◌≤ℤ◌, unsigned_abs};
ghost use Rattle.e57_decimal.specs.Fractions.{limit, shift_limit};

use crate::writing::{Text, write_number};
use crate::{Decimal, Linear, read_decimal};
use arrayvec::ArrayString;
use std::alloc::{AllocError, Global};
use std::test::*;

/// Texts, and the decimals that they are read as.
const READ: [(&str, i128, i16); 20] = [
    ("0.001", 1, -3),
    ("1e-3", 1, -3),
    (" \t-1.5\r\n", -15, -1),
    ("1.00000000000000002e-03", 100000000000000002, -20),
    ("25E2", 25, 2),
    ("+7e+1", 7, 1),
    (".5", 5, -1),
    ("5.", 5, 0),
    ("007", 7, 0),
    ("-0", 0, 0),
    ("0e50", 0, 0),
    ("00.00e-99999", 0, 0),
    ("10000000000000000000000000000000000000000e-40", 1, 0),
    ("0.00000000000000000000000000000000000000001e41", 1, 0),
    ("10e59", 1, 60),
    ("0.1e-59", 1, -60),
    ("1e00060", 1, 60),
    ("170141183460469231731687303715884105727", i128::MAX, 0),
    ("-1701411834604692317316873037158841057.27e3", -i128::MAX, 1),
    (
        "1701411834604692317316873037158841057270000e-64",
        i128::MAX,
        -60,
    ),
];

/// Texts that aren't read: no decimal texts, and values without a decimal.
const UNREAD: [&str; 24] = [
    "",
    " ",
    ".",
    "-.",
    "nan",
    "-",
    "+",
    "--1",
    "1e",
    "1e+",
    "e5",
    ".e5",
    "1e123456",
    "1e000001",
    "1e5x",
    "1.2.3",
    "1 2",
    "0x10",
    "1,5",
    "\u{c}1",
    "1e61",
    "1e-61",
    "170141183460469231731687303715884105728",
    "-1701411834604692317316873037158841057280e-1",
];

/// Scales, offsets, raw numbers and the texts of their values.
const SHOWN: [(&str, &str, i64, &str); 10] = [
    ("0.001", "0", 30003, "30.003"),
    ("1e-3", "-1.5", 2, "-1.498"),
    ("1.00000000000000002e-03", "0", 1000, "1.00000000000000002"),
    ("25E2", "0", -4, "-10000"),
    ("0.5", "-1", 2, "0"),
    ("0", "0", 7, "0"),
    ("-0.25", "0.125", 1, "-0.125"),
    (
        "1e60",
        "0",
        3,
        "3000000000000000000000000000000000000000000000000000000000000",
    ),
    (
        "1e-60",
        "0",
        -1,
        "-0.000000000000000000000000000000000000000000000000000000000001",
    ),
    (
        "1",
        "170141183460469231722463931679029329919",
        9223372036854775807,
        "170141183460469231731687303715884105726",
    ),
];

/// Whether the text is read as this decimal.
fn is_read(text: &[u8], whole: i128, shift: i16) -> bool {
    match read_decimal(text) {
        Some(decimal) => decimal.whole == whole && decimal.shift == shift,
        None => false,
    }
}

/// Whether the value of a raw number between both limits has this text.
fn is_shown(scale: &str, offset: &str, raw: i64, text: &str) -> bool {
    let Some(scale) = read_decimal(scale.as_bytes()) else {
        return false;
    };
    let Some(offset) = read_decimal(offset.as_bytes()) else {
        return false;
    };
    match Linear::new(scale, offset, raw, raw) {
        Some(line) => line.text(raw).as_str() == text,
        None => false,
    }
}

/// Whether there is a line for these limits.
fn has_line(scale: &str, offset: &str, min: i64, max: i64) -> bool
    requires { min ≤ℤ max }
{
    let Some(scale) = read_decimal(scale.as_bytes()) else {
        return false;
    };
    let Some(offset) = read_decimal(offset.as_bytes()) else {
        return false;
    };
    Linear::new(scale, offset, min, max).is_some()
}

#[test]
fn texts_are_read(rt: HostRuntime) {
    for k in 0..READ.len() {
        let (text, whole, shift) = READ[k];
        assert!(rt; is_read(text.as_bytes(), whole, shift), "{text}");
    }
    for k in 0..UNREAD.len() {
        let text = UNREAD[k];
        assert!(rt; read_decimal(text.as_bytes()).is_none(), "{text}");
    }
}

#[test]
fn values_have_texts(rt: HostRuntime) {
    for k in 0..SHOWN.len() {
        let (scale, offset, raw, text) = SHOWN[k];
        assert!(rt; is_shown(scale, offset, raw, text), "{text}");
    }
    assert!(rt; has_line("0.1", "1e19", 0, 1));
    assert!(rt; !has_line("0.1", "1e60", 0, 1));
    assert!(rt; has_line("1e60", "0", i64::MIN, i64::MAX));
    assert!(rt; !has_line("18446744073709551616", "0", i64::MIN, i64::MAX));
}

// ---- a slow exact program

/// The text of `number * 10^(up - 60)`.
fn text_of(number: i128, up: u32) -> Text
    requires within { unsigned_abs number ≤ limit }
    requires high { up ≤ 2 * shift_limit }
{
    let mut text = Text::new();
    write_number(&mut text, number, up);
    text
}

/// `whole * 10^-places` with an exponent.
fn spelled(whole: i128, places: u32, exponent: i16) -> ArrayString<240>
    requires { places ≤ 60 }
{
    let mut text = ArrayString::new();
    if whole == i128::MIN {
        return text;
    }
    text.push_str(text_of(whole, 60 - places).as_str());
    text.push_str("e");
    text.push_str(text_of(i128::from(exponent), 60).as_str());
    text
}

/// What is to be read of `whole * 10^shift`: the zeros are taken off one by one.
fn stripped(whole: i128, shift: i32) -> Option<Decimal> {
    let mut left = whole;
    let mut shift = shift;
    if left == 0 {
        return Some(Decimal { whole: 0, shift: 0 });
    }
    for _ in 0..40 {
        if left % 10 == 0 {
            left /= 10;
            shift = shift.saturating_add(1);
        }
    }
    if shift < -60 || shift > 60 {
        return None;
    }
    Some(Decimal {
        whole: left,
        shift: shift as i16,
    })
}

/// Whether the spelled number is read as that.
fn is_read_slowly(whole: i128, places: u32, exponent: i16) -> bool
    requires { places ≤ 60 }
{
    let text = spelled(whole, places, exponent);
    let shift = i32::from(exponent).saturating_sub(places as i32);
    match (read_decimal(text.as_bytes()), stripped(whole, shift)) {
        (Some(a), Some(b)) => a.whole == b.whole && a.shift == b.shift,
        (None, None) => true,
        _ => false,
    }
}

/// A trillion times the number that a text writes: a sign, digits, and at most twelve digits behind a point, the last not 0.
fn slow_value(text: &[u8]) -> i128 {
    let mut number = 0i128;
    let mut places = 0usize;
    let mut behind = false;
    let mut last = b'1';
    for b in text {
        if *b == b'.' {
            behind = true;
        } else if *b != b'-' {
            number = number
                .wrapping_mul(10)
                .wrapping_add(i128::from(*b))
                .wrapping_sub(48);
            if behind {
                places = places.saturating_add(1);
            }
        }
        last = *b;
    }
    if behind && last == b'0' {
        return i128::MIN;
    }
    for _ in places..12 {
        number = number.wrapping_mul(10);
    }
    if text.first() == Some(&b'-') {
        number.wrapping_neg()
    } else {
        number
    }
}

/// Whether the text of `raw * a * 10^-i + b * 10^-j` has this value.
fn is_shown_slowly(a: i32, i: u32, b: i32, j: u32, raw: i32) -> bool
    requires scale { i ≤ 12 }
    requires offset { j ≤ 12 }
{
    let scale = spelled(i128::from(a), i, 0);
    let offset = spelled(i128::from(b), j, 0);
    let Some(scale) = read_decimal(scale.as_bytes()) else {
        return false;
    };
    let Some(offset) = read_decimal(offset.as_bytes()) else {
        return false;
    };
    let raw = i64::from(raw);
    let Some(line) = Linear::new(scale, offset, raw, raw) else {
        return false;
    };
    let scaled = i128::from(raw)
        .wrapping_mul(i128::from(a))
        .wrapping_mul(10i128.pow(12 - i));
    let value = scaled.wrapping_add(i128::from(b).wrapping_mul(10i128.pow(12 - j)));
    slow_value(line.text(raw).as_bytes()) == value
}

/// The next number without a pattern.
fn next(number: u64) -> u64 {
    number
        .wrapping_mul(6364136223846793005)
        .wrapping_add(1442695040888963407)
}

/// The number of the first of so many texts that is read wrongly.
fn first_misread(count: u64) -> Option<u64> {
    let mut number = 1u64;
    for k in 0..count {
        number = next(number);
        let mut whole = i128::from(number >> 1);
        for _ in 0..k % 19 {
            whole = whole.wrapping_mul(10);
        }
        if number % 2 == 1 {
            whole = whole.wrapping_neg();
        }
        let exponent = (k % 181) as i16 - 90;
        if !is_read_slowly(whole, (k % 61) as u32, exponent) {
            return Some(k);
        }
    }
    None
}

/// The number of the first of so many values that is shown wrongly.
fn first_misshown(count: u64) -> Option<u64> {
    let mut number = 1u64;
    for k in 0..count {
        let first = next(number);
        number = next(first);
        let a = (first >> 40) as i32 - 8_388_608;
        let b = (number >> 40) as i32 - 8_388_608;
        let raw = (first & 0xffff) as i32 - 32_768;
        if !is_shown_slowly(a, (k % 13) as u32, b, (k / 13 % 13) as u32, raw) {
            return Some(k);
        }
    }
    None
}

/// The first shift at which a number is read wrongly.
fn first_shift_misread(whole: i128) -> Option<i16> {
    for shift in -60..61i16 {
        if !is_read_slowly(whole, 0, shift) {
            return Some(shift);
        }
    }
    None
}

#[test]
fn every_shift(rt: HostRuntime) {
    for whole in [0, 1, 10, -1, i128::MAX] {
        assert!(rt; first_shift_misread(whole).is_none(), "{whole}");
    }
}

#[test]
fn many_texts_and_values(rt: HostRuntime) {
    assert!(rt; first_misread(60_000).is_none());
    assert!(rt; first_misshown(60_000).is_none());
}

/// So many zeros.
fn zeros(alloc: Global, count: usize) -> Result<Vec<u8>, AllocError> {
    vec![in alloc; b'0'; count]
}

#[test]
fn a_million_zeros(rt: HostRuntime) -> Result<(), Fail> {
    let text = zeros(rt.alloc(), 1_000_000)?;
    assert!(rt; is_read(&text, 0, 0));
    Ok(())
}
