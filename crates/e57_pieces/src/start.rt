//! What stands before the pieces: the byte order mark and the declaration.

ghost use Rattle.std.specs.Prelude.{◌≡◌};
ghost use Rattle.e57_pieces.specs.Start.{after_mark, declares as is_declared, attr_fits, encoding_fits as fits};
ghost use Rattle.e57_pieces.specs.Gives.{Gives};
ghost use Rattle.e57_pieces.specs.Reading.{declaration_at};

use crate::attributes::inside;
use crate::piece::{Attr, Attrs};
use crate::stop::Stop;
use crate::words::{Class, after_word, is_in};
use std::alloc::Global;

/// What follows the byte order mark, where it is there.
pub fn skip_mark(text: &[u8]) -> &[u8]
    ensures { result.now ≡ after_mark text.now }
{
    match after_word(text, b"\xEF\xBB\xBF") {
        Some(rest) => rest,
        None => text,
    }
}

/// Whether a declaration has to stand here: `<?xml`, and then white space or `?`.
pub fn declares(text: &[u8]) -> bool
    ensures { result ≡ is_declared text.now }
{
    let Some(rest) = after_word(text, b"<?xml") else {
        return false;
    };
    let [first, ..] = rest else {
        return false;
    };
    is_in(Class::Space, *first) || *first == b'?'
}

/// Whether the attribute isn't `encoding`, or is `UTF-8` in any ASCII case.
fn encoding_fits(attr: &Attr) -> bool
    ensures { result ≡ attr_fits attr.now }
{
    attr.name.as_slice() != b"encoding".as_slice()
        || attr.value.as_slice().eq_ignore_ascii_case(b"utf-8")
}

/// Whether each attribute `encoding` is `UTF-8`.
fn encodings_fit(attrs: &Attrs) -> bool
    ensures { result ≡ fits attrs.now }
{
    for i in 0..attrs.len() {
        if !encoding_fits(attrs.get(i)) {
            return false;
        }
    }
    true
}

/// What follows the declaration at the front.
#[tactic(auto, unfolding(crate::specs::Reading::declaration_at))]
pub fn declaration(alloc: Global, text: &[u8]) -> Result<&[u8], Stop>
    ensures { Gives (λ x. x.now) result (declaration_at text.now) }
{
    let Some(start) = after_word(text, b"<?xml") else {
        return Err(Stop::Absent);
    };
    let (attrs, close) = inside(alloc, start)?;
    let Some(rest) = after_word(close, b"?>") else {
        return Err(Stop::Absent);
    };
    if !encodings_fit(&attrs) {
        return Err(Stop::Absent);
    }
    Ok(rest)
}
