//! Laws of the written form, which no call computes.

ghost use Rattle.std.specs.Prelude.{◌≡◌, ℕ, List};
ghost use Rattle.e57_verdict.specs.Content.{Content, IsContent};
ghost use Rattle.e57_verdict.specs.Verdict.{IsVerdict, accepted_with};
ghost use Rattle.e57_plain.specs.Kept.{Selection, Selects, kept};
ghost use Rattle.e57_plain.specs.Tight.{tight};
ghost use Rattle.e57_plain.specs.Valid.{IsValid, items_in};
ghost use Rattle.e57_plain.specs.Written.{IsWritable, plain};

use e57_elements::{one_answer, spelling_spells};

/// A law, which does nothing: the written form of a content that can be written is accepted, with as many clouds, blobs and records as
/// the content has, and has just this content. So two contents that have one written form, be it with other chunks, are the same.
pub fn written_form()
    ensures content { (n : ℕ) (content : Content) → IsWritable n content → IsContent (plain n content) content }
    ensures accepted { (n : ℕ) (content : Content) → IsWritable n content →
        IsVerdict (plain n content) (accepted_with (items_in content)) }
    ensures determines { (n m : ℕ) (a b : Content) → IsWritable n a → IsWritable m b → plain n a ≡ plain m b → a ≡ b }
{
    one_answer();
    spelling_spells();
}

/// A law, which does nothing: the content of an accepted file is valid. So it can be written again, if what is written is within the
/// format's limits, and the file that this gives has the same content.
pub fn accepted_content()
    ensures { (file : List ℕ) (content : Content) → IsContent file content → IsValid content }
{}

/// A law, which does nothing: a valid content is valid with limits as narrow as its items, and narrow limits stay as they are when
/// they are made narrow again.
pub fn narrow_limits()
    ensures valid { (content : Content) → IsValid content → IsValid (tight content) }
    ensures twice { (content : Content) → tight (tight content) ≡ tight content }
{}

/// A law, which does nothing: some records and fields of one cloud of a valid content are a valid content, where the cloud is there and
/// one of its fields is kept.
pub fn kept_records()
    ensures { (selection : Selection) (content : Content) → IsValid content → Selects selection content →
        IsValid (kept selection content) }
{}
