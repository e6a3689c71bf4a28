//! Words at the front of a text.

ghost use Rattle.std.specs.Prelude.{◌≡◌, ◌<◌, length};
ghost use Rattle.std.specs.Option.{option_map};
ghost use Rattle.e57_pieces.specs.Words.{class_test, begins_name as is_begin, goes_on_name, is_space, is_decimal, is_hexadecimal};
ghost use Rattle.e57_pieces.specs.Start.{strip};
ghost use Rattle.e57_pieces.specs.Reading.{run, after, cut_at, name_at, space_at};

use memchr::memmem;

/// A class of bytes. A name begins with a byte of `Name` that is no digit, `-` or `.`.
#[derive(Clone, Copy)]
pub enum Class {
    Space,
    Name,
    Decimal,
    Hexadecimal,
}

/// Whether a name begins with this byte.
#[tactic(auto, unfolding(crate::specs::Words::begins_name))]
fn begins_name(b: u8) -> bool
    ensures { result ≡ is_begin b }
{
    b.is_ascii_alphabetic() || b == b'_' || b == b':' || b >= 128
}

/// Whether the byte is in the class.
#[tactic(auto, unfolding(crate::specs::Words::goes_on_name, crate::specs::Words::is_space, crate::specs::Words::is_decimal, crate::specs::Words::is_hexadecimal))]
pub fn is_in(class: Class, b: u8) -> bool
    ensures { result ≡ class_test class b }
{
    match class {
        Class::Space => b == b' ' || b == b'\t' || b == b'\r' || b == b'\n',
        Class::Name => begins_name(b) || b.is_ascii_digit() || b == b'-' || b == b'.',
        Class::Decimal => b.is_ascii_digit(),
        Class::Hexadecimal => b.is_ascii_hexdigit(),
    }
}

/// The front of the text that is in the class, and what follows it.
pub fn split_front(text: &[u8], class: Class) -> (&[u8], &[u8])
    ensures front { result.0.now ≡ run (class_test class) text.now }
    ensures rest { result.1.now ≡ after (class_test class) text.now }
{
    for (i, b) in text.iter().enumerate() {
        if !is_in(class, *b) {
            return text.split_at(i);
        }
    }
    text.split_at(text.len())
}

/// What follows white space, where there is some.
pub fn skip_space(text: &[u8]) -> &[u8]
    ensures { result.now ≡ after is_space text.now }
{
    split_front(text, Class::Space).1
}

/// What follows white space, which has to be there.
#[tactic(auto, unfolding(crate::specs::Reading::space_at))]
pub fn some_space(text: &[u8]) -> Option<&[u8]>
    ensures { option_map (λ rest. rest.now) result ≡ space_at text.now }
{
    let [first, rest @ ..] = text else {
        return None;
    };
    if !is_in(Class::Space, *first) {
        return None;
    }
    Some(skip_space(rest))
}

/// What follows the word, where the text begins with it.
pub fn after_word<'a>(text: &'a [u8], word: &[u8]) -> Option<&'a [u8]>
    ensures { option_map (λ rest. rest.now) result ≡ strip word.now text.now }
{
    text.strip_prefix(word)
}

/// The name at the front, and what follows it.
#[tactic(auto, unfolding(crate::specs::Reading::name_at))]
pub fn name(text: &[u8]) -> Option<(&[u8], &[u8])>
    ensures { option_map (λ x. (x.0.now, x.1.now)) result ≡ name_at text.now }
{
    let [first, ..] = text else {
        return None;
    };
    if !begins_name(*first) {
        return None;
    }
    Some(split_front(text, Class::Name))
}

/// What stands before the first place of the word, and what follows the word.
pub fn cut<'a>(text: &'a [u8], word: &[u8]) -> Option<(&'a [u8], &'a [u8])>
    requires { 0 < length word.now }
    ensures { option_map (λ x. (x.0.now, x.1.now)) result ≡ cut_at word.now text.now }
{
    let Some(place) = memmem::find(text, word) else {
        return None;
    };
    let (front, back) = text.split_at(place);
    let (_, rest) = back.split_at(word.len());
    Some((front, rest))
}
