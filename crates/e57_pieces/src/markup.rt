//! The piece at the front of a text of characters.

ghost use Rattle.std.specs.Prelude.{◌≡◌};
ghost use Rattle.std.specs.Option.{option_map};
ghost use Rattle.e57_pieces.specs.Gives.{Gives};
ghost use Rattle.e57_pieces.specs.Reading.{tag_at, end_at, comment_at, cdata_at, run_at, piece_at};

use crate::attributes::inside;
use crate::piece::Piece;
use crate::stop::Stop;
use crate::text::meaning;
use crate::words::{after_word, cut, name, skip_space};
use e57_base::Octets;
use std::alloc::Global;

/// The start tag or the empty tag at the front, and what follows it.
#[tactic(auto, unfolding(crate::specs::Reading::tag_at))]
fn tag(alloc: Global, text: &[u8]) -> Result<(Piece, &[u8]), Stop>
    ensures { Gives (λ x. (x.0, x.1.now)) result (tag_at text.now) }
{
    let Some(start) = after_word(text, b"<") else {
        return Err(Stop::Absent);
    };
    let Some((name, after)) = name(start) else {
        return Err(Stop::Absent);
    };
    let (attrs, close) = inside(alloc, after)?;
    let name = Octets::new(Vec::from_slice(alloc, name)?);
    if let Some(rest) = after_word(close, b">") {
        return Ok((Piece::Start { name, attrs }, rest));
    }
    let Some(rest) = after_word(close, b"/>") else {
        return Err(Stop::Absent);
    };
    Ok((Piece::Empty { name, attrs }, rest))
}

/// The end tag at the front, and what follows it.
#[tactic(auto, unfolding(crate::specs::Reading::end_at))]
fn end(alloc: Global, text: &[u8]) -> Result<(Piece, &[u8]), Stop>
    ensures { Gives (λ x. (x.0, x.1.now)) result (end_at text.now) }
{
    let Some(start) = after_word(text, b"</") else {
        return Err(Stop::Absent);
    };
    let Some((name, after)) = name(start) else {
        return Err(Stop::Absent);
    };
    let Some(rest) = after_word(skip_space(after), b">") else {
        return Err(Stop::Absent);
    };
    let name = Octets::new(Vec::from_slice(alloc, name)?);
    Ok((Piece::End { name }, rest))
}

/// The comment at the front, and what follows it.
#[tactic(auto, unfolding(crate::specs::Reading::comment_at))]
fn comment(text: &[u8]) -> Option<(Piece, &[u8])>
    ensures { option_map (λ x. (x.0, x.1.now)) result ≡ comment_at text.now }
{
    let start = after_word(text, b"<!--")?;
    let (_, after) = cut(start, b"--")?;
    let rest = after_word(after, b">")?;
    Some((Piece::Comment, rest))
}

/// The CDATA at the front, and what follows it.
#[tactic(auto, unfolding(crate::specs::Reading::cdata_at))]
fn cdata(alloc: Global, text: &[u8]) -> Result<(Piece, &[u8]), Stop>
    ensures { Gives (λ x. (x.0, x.1.now)) result (cdata_at text.now) }
{
    let Some(start) = after_word(text, b"<![CDATA[") else {
        return Err(Stop::Absent);
    };
    let Some((text, rest)) = cut(start, b"]]>") else {
        return Err(Stop::Absent);
    };
    let text = Octets::new(Vec::from_slice(alloc, text)?);
    Ok((Piece::CData { text }, rest))
}

/// The text run at the front, as long as possible, and what follows it.
#[tactic(auto, unfolding(crate::specs::Reading::run_at))]
fn run(alloc: Global, text: &[u8]) -> Result<(Piece, &[u8]), Stop>
    ensures { Gives (λ x. (x.0, x.1.now)) result (run_at text.now) }
{
    let (meaning, rest) = meaning(alloc, text, b'<')?;
    if rest.len() >= text.len() {
        return Err(Stop::Absent);
    }
    Ok((
        Piece::Text {
            text: Octets::new(meaning),
        },
        rest,
    ))
}

/// The piece at the front, and what follows it.
#[tactic(auto, unfolding(crate::specs::Reading::piece_at))]
pub fn piece(alloc: Global, text: &[u8]) -> Result<(Piece, &[u8]), Stop>
    ensures { Gives (λ x. (x.0, x.1.now)) result (piece_at text.now) }
{
    match tag(alloc, text) {
        Err(Stop::Absent) => {}
        other => return other,
    }
    match end(alloc, text) {
        Err(Stop::Absent) => {}
        other => return other,
    }
    match run(alloc, text) {
        Err(Stop::Absent) => {}
        other => return other,
    }
    if let Some(found) = comment(text) {
        return Ok(found);
    }
    cdata(alloc, text)
}
