//! What the definitions of a new file say.

ghost use Rattle.std.specs.Prelude.{◌≡◌, ◌⊎◌, ◌+◌, ◌++◌, ℕ, List, length, Some};
ghost use Rattle.e57_base.specs.declared.fault.Fault.{Fault};
ghost use Rattle.e57_base.specs.declared.kind.Kind.TheVariants.{FileLength, Signature};
ghost use Rattle.e57_page.specs.File.{opening_fault};
ghost use Rattle.e57_page.specs.declared.header.Header.{Header};
ghost use Rattle.e57_page_out.specs.HeaderBytes.{header_bytes};
ghost use Rattle.e57_page_out.specs.Sealed.{filled, pages_for, sealed};
ghost use Rattle.e57_page_out.specs.Writing.{IsUnfinished, closed_file};

/// A law: the first fault of an unfinished file is of its length or its signature.
#[tactic(auto, using(crate::proofs::WritingLaws::unfinished_kind))]
pub fn unfinished_faults()
    ensures { (file : List ℕ) (found : Fault) → IsUnfinished file → opening_fault file ≡ Some found → (found.kind ≡ FileLength) ⊎ (found.kind ≡ Signature) }
{}

/// A law: of a closed file the first page is the header's, and the bytes behind page 0 fill the others.
#[tactic(auto, using(crate::proofs::WritingLaws::closed_behind))]
pub fn closed_pages()
    ensures { (header : Header) (first bytes : List ℕ) → length first ≡ 1020 → closed_file header (first ++ bytes) ≡ sealed (1 + pages_for (length bytes)) (filled 1 (header_bytes header) ++ filled (pages_for (length bytes)) bytes) }
{}
