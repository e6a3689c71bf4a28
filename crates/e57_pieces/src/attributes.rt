//! Attributes, and what stands in a tag after its name.

ghost use Rattle.std.specs.Prelude.{◌≡◌, IfOk, length};
ghost use Rattle.std.specs.Option.{option_map};
ghost use Rattle.e57_pieces.specs.Grammar.{differ as names_differ};
ghost use Rattle.e57_pieces.specs.Gives.{Gives};
ghost use Rattle.e57_pieces.specs.Reading.{quote_at, value_at, attr_at, attrs_at, inside_at};

use crate::piece::{Attr, Attrs};
use crate::stop::Stop;
use crate::text::meaning;
use crate::words::{after_word, name, skip_space, some_space};
use e57_base::Octets;
use std::alloc::{AllocError, Global};
use std::collections::BTreeSet;

/// The quote at the front, and what follows it.
#[tactic(auto, unfolding(crate::specs::Reading::quote_at))]
fn quote(text: &[u8]) -> Option<(u8, &[u8])>
    ensures { option_map (λ x. (x.0, x.1.now)) result ≡ quote_at text.now }
{
    let [first, rest @ ..] = text else {
        return None;
    };
    if *first != b'"' && *first != b'\'' {
        return None;
    }
    Some((*first, rest))
}

/// The value between quotes at the front, and what follows it.
#[tactic(auto, unfolding(crate::specs::Reading::value_at))]
fn value(alloc: Global, text: &[u8]) -> Result<(Octets, &[u8]), Stop>
    ensures { Gives (λ x. (x.0, x.1.now)) result (value_at text.now) }
{
    let Some((quote, inner)) = quote(text) else {
        return Err(Stop::Absent);
    };
    let (mut value, close) = meaning(alloc, inner, quote)?;
    let Some(rest) = after_word(close, &[quote]) else {
        return Err(Stop::Absent);
    };
    value.shrink_to_fit();
    Ok((Octets::new(value), rest))
}

/// The attribute at the front with the white space before it, and what follows it.
#[tactic(auto, unfolding(crate::specs::Reading::attr_at))]
fn attr(alloc: Global, text: &[u8]) -> Result<(Attr, &[u8]), Stop>
    ensures { Gives (λ x. (x.0, x.1.now)) result (attr_at text.now) }
{
    let Some(start) = some_space(text) else {
        return Err(Stop::Absent);
    };
    let Some((name, after)) = name(start) else {
        return Err(Stop::Absent);
    };
    let Some(sign) = after_word(skip_space(after), b"=") else {
        return Err(Stop::Absent);
    };
    let (value, rest) = value(alloc, skip_space(sign))?;
    let name = Octets::new(Vec::from_slice(alloc, name)?);
    Ok((Attr { name, value }, rest))
}

/// The attributes at the front, and what follows them.
fn attrs(alloc: Global, text: &[u8]) -> Result<(Attrs, &[u8]), AllocError>
    ensures { IfOk result (λ x. (x.0, x.1.now) ≡ attrs_at (length text.now) text.now) }
{
    let mut attrs = Attrs::new(alloc);
    let mut rest = text;
    for _ in 0..text.len() {
        match attr(alloc, rest) {
            Ok((next, after)) => {
                attrs.push(next)?;
                rest = after;
            }
            Err(Stop::Absent) => return Ok((attrs, rest)),
            Err(Stop::Memory) => return Err(AllocError),
        }
    }
    Ok((attrs, rest))
}

/// Whether no name is that of another attribute.
fn differ(alloc: Global, attrs: &Attrs) -> Result<bool, AllocError>
    ensures { IfOk result (λ b. b ≡ names_differ attrs.now) }
{
    if attrs.len() < 2 {
        return Ok(true);
    }
    let mut names = BTreeSet::new(alloc);
    for i in (0..attrs.len()).rev() {
        if !names.insert(attrs.get(i).name.as_slice())? {
            return Ok(false);
        }
    }
    Ok(true)
}

/// The attributes of a tag, whose names differ, and what follows them and white space.
#[tactic(auto, unfolding(crate::specs::Reading::inside_at))]
pub fn inside(alloc: Global, text: &[u8]) -> Result<(Attrs, &[u8]), Stop>
    ensures { Gives (λ x. (x.0, x.1.now)) result (inside_at text.now) }
{
    let (mut attrs, rest) = attrs(alloc, text)?;
    if !differ(alloc, &attrs)? {
        return Err(Stop::Absent);
    }
    attrs.shrink_to_fit();
    Ok((attrs, skip_space(rest)))
}
