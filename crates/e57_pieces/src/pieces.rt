//! The pieces of a text, one after another.

ghost use Rattle.std.specs.Prelude.{◌≡◌, ◌==◌, ◌<◌, IfOk, IfNone, OnErr, OnSome, MatchOption, MatchResult, IsUtf8, Some, None, List, ℕ, length};
ghost use Rattle.e57_pieces.specs.declared.piece.Piece.{Piece};
ghost use Rattle.e57_pieces.specs.Cut.{IsNext, NoPiece};
ghost use Rattle.e57_pieces.specs.Start.{Begins, IsStartFault};
ghost use Rattle.e57_pieces.specs.Reading.{IsCleanAt, body_at};
ghost use Rattle.e57_pieces.specs.Gives.{StopsNext, DeclaredClean, StopsDeclaration, StopsStart, IsFoundNext, IsNextRead};

use crate::characters::characters_len;
use crate::markup::piece;
use crate::piece::Piece;
use crate::start::{declaration, declares, skip_mark};
use crate::stop::Stop;
use e57_base::{Fault, Kind, TextFault};
use std::alloc::{AllocError, Global};
use std::marker::Model;

/// What is left of a text whose pieces are read, which contracts see as the list of its bytes.
#[derive(Drop)]
pub struct Pieces<'a> {
    /// What is left.
    text: &'a [u8],
    /// How many of these bytes stand before the first that begins no character.
    clean: usize,
}

impl<'a> Model for Pieces<'a> {
    ghost use Rattle.std.specs.Prelude.{List, ℕ};
    ghost use Rattle.e57_pieces.specs.Reading.{IsCleanAt};

    ghost Value = { List ℕ };

    ghost view = { λ pieces. pieces.text.now };

    ghost invariant = { λ pieces. IsCleanAt pieces.text.now pieces.clean };
}

/// The next piece of a text, what follows it, and how many bytes of that are characters.
fn next_of(alloc: Global, text: &[u8], clean: usize) -> Result<(Piece, &[u8], usize), Stop>
    requires { IsCleanAt text.now clean }
    ensures { MatchResult result (λ x. IsNext text.now x.0 x.1.now × IsCleanAt x.1.now x.2) (λ stop. StopsNext stop text.now) }
{
    let (front, _) = text.split_at(clean);
    let (found, rest) = piece(alloc, front)?;
    let (_, left) = text.split_at(clean - rest.len());
    Ok((found, left, rest.len()))
}

/// What follows the declaration of a text, and how many bytes of that are characters.
fn after_declaration(alloc: Global, text: &[u8], clean: usize) -> Result<(&[u8], usize), Stop>
    requires { IsCleanAt text.now clean }
    ensures { MatchResult result (λ x. DeclaredClean text.now x.0.now x.1) (λ stop. StopsDeclaration stop text.now) }
{
    let (front, _) = text.split_at(clean);
    let rest = declaration(alloc, front)?;
    let (_, left) = text.split_at(clean - rest.len());
    Ok((left, rest.len()))
}

/// Where the pieces of a text begin, and how many bytes from there on are characters.
fn body_of(alloc: Global, text: &[u8]) -> Result<(&[u8], usize), Stop>
    requires { IsUtf8 text.now }
    ensures { MatchResult result (λ x. Begins text.now x.0.now × IsCleanAt x.0.now x.1) (λ stop. StopsStart stop text.now) }
{
    let body = skip_mark(text);
    let clean = characters_len(body);
    if !declares(body) {
        return Ok((body, clean));
    }
    after_declaration(alloc, body, clean)
}

impl<'a> Pieces<'a> {
    /// The pieces of a text, after its byte order mark and its declaration, each where it is there. Refused: `Piece` at
    /// the place where a declaration has to stand and doesn't.
    pub fn start(alloc: Global, text: &'a [u8]) -> Result<Pieces<'a>, TextFault>
        requires { IsUtf8 text.now }
        ensures begins { MatchResult result (λ body. Begins text.now body) (λ fault. IsStartFault text.now fault) }
        ensures exact { IfOk result (λ body. body_at text.now ≡ Some body) }
        ensures utf8 { IfOk result (λ body. IsUtf8 body) }
    {
        match body_of(alloc, text) {
            Ok((text, clean)) => Ok(Pieces { text, clean }),
            Err(Stop::Absent) => {
                let place = text.len() - skip_mark(text).len();
                Err(TextFault::Refused(Fault::new(Kind::Piece, place as u64, 0)))
            }
            Err(Stop::Memory) => Err(TextFault::Memory),
        }
    }

    /// How many bytes are left.
    pub fn len(&self) -> usize
        ensures { result ≡ length self.now }
    {
        self.text.len()
    }

    /// Whether nothing is left.
    pub fn is_empty(&self) -> bool
        ensures { result ≡ (length self.now == 0) }
    {
        self.text.is_empty()
    }

    /// The next piece, or none where no piece is spelled at the front of what is left. After want of memory, and where
    /// there is none, what is left is as it was.
    pub fn next(&mut self, alloc: Global) -> Result<Option<Piece>, AllocError>
        ensures next { IfOk result (λ found. MatchOption found (NoPiece self.old) (λ piece. IsNext self.old piece self.new)) }
        ensures only { IfOk result (λ found. IsFoundNext self.old found self.new) }
        ensures exact { IfOk result (λ found. IsNextRead self.old found self.new) }
        ensures shorter { IfOk result (λ found. OnSome found (length self.new < length self.old)) }
        ensures none { IfOk result (λ found. IfNone found (self.new ≡ self.old)) }
        ensures err { OnErr result (self.new ≡ self.old) }
    {
        match next_of(alloc, self.text, self.clean) {
            Ok((found, text, clean)) => {
                self.text = text;
                self.clean = clean;
                Ok(Some(found))
            }
            Err(Stop::Absent) => Ok(None),
            Err(Stop::Memory) => Err(AllocError),
        }
    }
}
