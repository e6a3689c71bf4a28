//! Laws of the grammar, which no call computes.

ghost use Rattle.std.specs.Prelude.{List, ℕ, IsUtf8};
ghost use Rattle.e57_pieces.specs.declared.piece.Piece.{Piece};
ghost use Rattle.e57_pieces.specs.Cut.{IsCut, HasOneCut};

/// A text in UTF-8 has one cut into pieces.
pub fn one_cut()
    ensures some { (text : List ℕ) → IsUtf8 text → (pieces : List Piece) × (rest : List ℕ) × IsCut text pieces rest }
    ensures one { (text : List ℕ) → IsUtf8 text → HasOneCut text }
{}
