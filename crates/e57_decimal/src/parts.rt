//! A decimal text by its parts.

ghost use Rattle.std.specs.Prelude.{◌≡◌, ◌≤◌, true, reverse, length, option_map};
ghost use Rattle.std.specs.List.{list_all};
ghost use Rattle.e57_decimal.specs.Reading.{is_space as is_white, is_digit as is_numeral, run, after, trimmed as trimmed_of, number_after, sign_at, places_at, power_in, exponent_in, parts_in, unsigned_in};
ghost use Rattle.e57_decimal.specs.Viewing.{parts_of};

/// A decimal text by its parts: the digits before and behind the point, and by how many powers of ten the exponent
/// raises or lowers the number.
#[derive(Clone, Copy)]
pub struct Parts<'a> {
    pub negative: bool,
    pub whole: &'a [u8],
    pub places: &'a [u8],
    pub raised: u32,
    pub lowered: u32,
}

/// The most digits of an exponent.
const EXPONENT_DIGITS: usize = 5;

/// Whether the byte is white space.
#[tactic(auto, unfolding(crate::specs::Reading::is_space))]
fn is_space(b: u8) -> bool
    ensures { result ≡ is_white b }
{
    b == b' ' || b == b'\t' || b == b'\r' || b == b'\n'
}

/// Whether the byte is a decimal digit.
#[tactic(auto, unfolding(crate::specs::Reading::is_digit))]
fn is_digit(b: u8) -> bool
    ensures { result ≡ is_numeral b }
{
    b.is_ascii_digit()
}

/// Whether each byte is a decimal digit.
fn are_digits(text: &[u8]) -> bool
    ensures { result ≡ list_all is_numeral text.now }
{
    text.iter().all(|b| is_digit(*b))
}

/// The text without the white space in front.
fn trimmed_start(text: &[u8]) -> &[u8]
    ensures { result.now ≡ after is_white text.now }
{
    for (i, b) in text.iter().enumerate() {
        if !is_space(*b) {
            return text.split_at(i).1;
        }
    }
    text.split_at(text.len()).1
}

/// The text without the white space at its end.
fn trimmed_end(text: &[u8]) -> &[u8]
    ensures { result.now ≡ reverse (after is_white (reverse text.now)) }
{
    let mut end = text.len();
    while end > 0 {
        if !is_space(text[end - 1]) {
            return text.split_at(end).0;
        }
        end -= 1;
    }
    text.split_at(0).0
}

/// The text without the white space at both ends.
#[tactic(auto, unfolding(crate::specs::Reading::trimmed))]
fn trimmed(text: &[u8]) -> &[u8]
    ensures { result.now ≡ trimmed_of text.now }
{
    trimmed_end(trimmed_start(text))
}

/// The digits in front, and what follows them.
fn split_digits(text: &[u8]) -> (&[u8], &[u8])
    ensures front { result.0.now ≡ run is_numeral text.now }
    ensures rest { result.1.now ≡ after is_numeral text.now }
{
    for (i, b) in text.iter().enumerate() {
        if !is_digit(*b) {
            return text.split_at(i);
        }
    }
    text.split_at(text.len())
}

/// Whether a `-` stands in front, and what follows a sign.
#[tactic(auto, unfolding(crate::specs::Reading::sign_at))]
fn split_sign(text: &[u8]) -> (bool, &[u8])
    ensures negative { result.0 ≡ (sign_at text.now).0 }
    ensures rest { result.1.now ≡ (sign_at text.now).1 }
{
    match text {
        [b'-', rest @ ..] => (true, rest),
        [b'+', rest @ ..] => (false, rest),
        _ => (false, text),
    }
}

/// The digits behind a point, and what follows them.
#[tactic(auto, unfolding(crate::specs::Reading::places_at))]
fn split_places(text: &[u8]) -> (&[u8], &[u8])
    ensures front { result.0.now ≡ (places_at text.now).0 }
    ensures rest { result.1.now ≡ (places_at text.now).1 }
{
    match text {
        [b'.', rest @ ..] => split_digits(rest),
        _ => text.split_at(0),
    }
}

/// The number that a few digits write.
fn number(digits: &[u8]) -> u32
    requires few { length digits.now ≤ 9 }
    requires each { list_all is_numeral digits.now ≡ true }
    ensures { result ≡ number_after 0 digits.now }
{
    let mut number = 0;
    for b in digits {
        number = number * 10 + u32::from(*b - b'0');
    }
    number
}

/// The number of an exponent without its sign.
#[tactic(auto, unfolding(crate::specs::Reading::power_in))]
fn power(digits: &[u8]) -> Option<u32>
    ensures { result ≡ power_in digits.now }
{
    if digits.is_empty() || digits.len() > EXPONENT_DIGITS || !are_digits(digits) {
        return None;
    }
    Some(number(digits))
}

/// By how many powers of ten the exponent raises a number, and by how many it lowers it.
#[tactic(auto, unfolding(crate::specs::Reading::exponent_in))]
fn exponent(text: &[u8]) -> Option<(u32, u32)>
    ensures { result ≡ exponent_in text.now }
{
    let Some((first, rest)) = text.split_first() else {
        return Some((0, 0));
    };
    if *first != b'e' && *first != b'E' {
        return None;
    }
    let (negative, digits) = split_sign(rest);
    let number = power(digits)?;
    if negative {
        Some((0, number))
    } else {
        Some((number, 0))
    }
}

/// The parts behind the sign.
#[tactic(auto, unfolding(crate::specs::Reading::unsigned_in))]
fn unsigned_parts(negative: bool, text: &[u8]) -> Option<Parts<'_>>
    ensures { option_map parts_of result ≡ unsigned_in negative text.now }
{
    let (whole, rest) = split_digits(text);
    let (places, rest) = split_places(rest);
    if whole.is_empty() && places.is_empty() {
        return None;
    }
    let (raised, lowered) = exponent(rest)?;
    Some(Parts {
        negative,
        whole,
        places,
        raised,
        lowered,
    })
}

/// The parts of a decimal text.
#[tactic(auto, unfolding(crate::specs::Reading::parts_in))]
pub fn split_parts(text: &[u8]) -> Option<Parts<'_>>
    ensures { option_map parts_of result ≡ parts_in text.now }
{
    let (negative, rest) = split_sign(trimmed(text));
    unsigned_parts(negative, rest)
}
