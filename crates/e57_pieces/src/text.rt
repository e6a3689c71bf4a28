//! Text with references.

ghost use Rattle.std.specs.Prelude.{◌≡◌, ◌++◌, ◌≤◌, ◌<◌, ◌^◌, length, IfOk, OnOk, encode_utf8};
ghost use Rattle.std.specs.Option.{option_map};
ghost use Rattle.std.specs.Char.{digit_value as value_of_digit};
ghost use Rattle.e57_pieces.specs.Characters.{is_character};
ghost use Rattle.e57_pieces.specs.Words.{class_test, is_plain, max_digits, numeral as numeral_of_digits};
ghost use Rattle.e57_pieces.specs.Reading.{run, after, given, named_at, numbered_at, reference_at, text_at};

use crate::words::{Class, after_word, split_front};
use memchr::memchr3;
use std::alloc::{AllocError, Global};

/// The most digits of a reference by number.
const MAX_DIGITS: usize = 10;

/// The value of a digit or a letter, and 36 of any other byte.
fn digit_value(b: u8) -> u64
    ensures value { result ≡ value_of_digit b }
    ensures small { result ≤ 36 }
{
    match b {
        b'0'..=b'9' => u64::from(b - b'0'),
        b'A'..=b'Z' => u64::from(b - b'A') + 10,
        b'a'..=b'z' => u64::from(b - b'a') + 10,
        _ => 36,
    }
}

/// The number that digits write.
fn numeral(digits: &[u8], base: u64) -> u64
    requires base { base ≤ 16 }
    requires few { length digits.now ≤ max_digits }
    ensures { result ≡ numeral_of_digits base digits.now }
{
    let mut number = 0;
    for b in digits {
        number = number * base + digit_value(*b);
    }
    number
}

/// The character with this number.
#[tactic(auto, unfolding(crate::specs::Characters::is_character))]
fn character(number: u64) -> Option<char>
    ensures { result ≡ given (is_character number) number }
{
    let c = char::from_u32(u32::try_from(number).ok()?)?;
    match c {
        '\t'
        | '\n'
        | '\r'
        | ' '..='\u{D7FF}'
        | '\u{E000}'..='\u{FFFD}'
        | '\u{10000}'..='\u{10FFFF}' => Some(c),
        _ => None,
    }
}

/// The character, and what follows the word that names it.
fn named<'a>(text: &'a [u8], word: &[u8], c: char) -> Option<(char, &'a [u8])>
    ensures { option_map (λ x. (x.0, x.1.now)) result ≡ named_at word.now c text.now }
{
    let rest = after_word(text, word)?;
    Some((c, rest))
}

/// The character whose number follows the mark, and what follows it.
#[tactic(auto, unfolding(crate::specs::Reading::numbered_at))]
fn numbered<'a>(text: &'a [u8], mark: &[u8], class: Class, base: u64) -> Option<(char, &'a [u8])>
    requires { base ≤ 16 }
    ensures { option_map (λ x. (x.0, x.1.now)) result ≡ numbered_at mark.now (class_test class) base text.now }
{
    let start = after_word(text, mark)?;
    let (digits, after) = split_front(start, class);
    let rest = after_word(after, b";")?;
    if digits.is_empty() || digits.len() > MAX_DIGITS {
        return None;
    }
    let c = character(numeral(digits, base))?;
    Some((c, rest))
}

/// The character of the reference at the front, and what follows it.
#[tactic(auto, unfolding(crate::specs::Reading::reference_at))]
fn reference(text: &[u8]) -> Option<(char, &[u8])>
    ensures { option_map (λ x. (x.0, x.1.now)) result ≡ reference_at text.now }
{
    let [first, ..] = text else {
        return None;
    };
    if *first != b'&' {
        return None;
    }
    if let Some(found) = named(text, b"&lt;", '<') {
        return Some(found);
    }
    if let Some(found) = named(text, b"&gt;", '>') {
        return Some(found);
    }
    if let Some(found) = named(text, b"&amp;", '&') {
        return Some(found);
    }
    if let Some(found) = named(text, b"&apos;", '\'') {
        return Some(found);
    }
    if let Some(found) = named(text, b"&quot;", '"') {
        return Some(found);
    }
    if let Some(found) = numbered(text, b"&#", Class::Decimal, 10) {
        return Some(found);
    }
    numbered(text, b"&#x", Class::Hexadecimal, 16)
}

/// The plain bytes at the front, and what follows them.
fn split_plain(text: &[u8], quote: u8) -> (&[u8], &[u8])
    ensures front { result.0.now ≡ run (is_plain quote) text.now }
    ensures rest { result.1.now ≡ after (is_plain quote) text.now }
{
    let place = memchr3(b'<', b'&', quote, text).unwrap_or(text.len());
    text.split_at(place)
}

/// Adds the bytes of a character.
fn push_character(out: &mut Vec<u8>, c: char) -> Result<(), AllocError>
    ensures { OnOk result (out.new.items ≡ out.old.items ++ encode_utf8 c) }
{
    let mut buffer = [0; 4];
    out.extend_from_slice(c.encode_utf8(&mut buffer).as_bytes())?;
    Ok(())
}

/// What the text with references at the front means, and what follows it: `<`, `&`, the quote, or nothing.
pub fn meaning(alloc: Global, text: &[u8], quote: u8) -> Result<(Vec<u8>, &[u8]), AllocError>
    ensures { IfOk result (λ x. (x.0.items, x.1.now) ≡ text_at quote text.now) }
{
    let mut meaning = Vec::new(alloc);
    let mut rest = text;
    for _ in 0..text.len() {
        let (front, after) = split_plain(rest, quote);
        meaning.extend_from_slice(front)?;
        let Some((c, next)) = reference(after) else {
            return Ok((meaning, after));
        };
        push_character(&mut meaning, c)?;
        rest = next;
    }
    Ok((meaning, rest))
}
