//! The reading of a text.

ghost use Rattle.std.specs.Prelude.{◌≡◌, ◌≤◌, List, ℕ, length, IsUtf8, IfOk, IfErr};
ghost use Rattle.e57_base.specs.declared.fault.Fault.{Fault};
ghost use Rattle.e57_elements.specs.Limits.{max_text};
ghost use Rattle.e57_elements.specs.Tree.{Element};
ghost use Rattle.e57_elements.specs.Spells.{Spells, Reads};
ghost use Rattle.e57_elements.specs.Fault.{IsFirstFault, IsReadFault, HasAnswer, HasNotBoth};
ghost use Rattle.e57_elements.specs.Builder.{ReadsBody, IsBodyFailure};

use crate::builder::Builder;
use crate::tree::RawTree;
use e57_base::{Fault, Kind, TextFault};
use e57_pieces::{Pieces, valid_len};
use std::alloc::Global;

/// Reads the tree that a text spells, of at most `MAX_TEXT` bytes. Refused: the text's first fault of the kinds
/// `XmlUtf8`, `Piece`, `Nest` and `TreeLimit`. Memory runs out only where the text is UTF-8. Memory and time are linear
/// in the text, but for the search for equal attribute names in one tag.
pub fn read_elements(alloc: Global, text: &[u8]) -> Result<RawTree, TextFault>
    requires { length text.now ≤ max_text }
    ensures found { IfOk result (λ nodes. Reads text.now nodes) }
    ensures fault { IfErr result (λ failure. IsReadFault text.now failure) }
{
    if let Some(valid) = valid_len(text) {
        let fault = Fault::new(Kind::XmlUtf8, valid as u64, 0);
        return Err(TextFault::Refused(fault));
    }
    let pieces = Pieces::start(alloc, text)?;
    read_pieces(alloc, pieces, text.len())
}

/// Reads the tree of the pieces that are left of a text of this length.
fn read_pieces(alloc: Global, mut pieces: Pieces<'_>, len: usize) -> Result<RawTree, TextFault>
    requires { length pieces ≤ len }
    ensures found { IfOk result (λ nodes. ReadsBody pieces.entry nodes) }
    ensures fault { IfErr result (λ failure. IsBodyFailure len pieces.entry failure) }
{
    let mut builder = Builder::new(alloc);
    loop {
        let byte = (len - pieces.len()) as u64;
        match pieces.next(alloc) {
            Err(_error) => return Err(TextFault::Memory),
            Ok(None) => return builder.finish(pieces.is_empty(), byte),
            Ok(Some(piece)) => match builder.take(alloc, piece) {
                Err(fault) => return Err(fault.at(byte)),
                Ok(()) => {}
            },
        }
    }
}

/// A law, which does nothing: each text spells a lawful tree or has a first fault, and not both; and it spells at most
/// one tree, and has at most one first fault.
pub fn one_answer()
    ensures some { (text : List ℕ) → HasAnswer text }
    ensures tree { (text : List ℕ) (a b : Element) → Spells text a → Spells text b → a ≡ b }
    ensures fault { (text : List ℕ) (a b : Fault) → IsFirstFault text a → IsFirstFault text b → a ≡ b }
    ensures either { (text : List ℕ) → HasNotBoth text }
{}
