//! Laws of what is saved, which no call computes.

ghost use Rattle.std.specs.Prelude.{◌≡◌, ◌<◌, ℕ, List, [], map, None};
ghost use Rattle.e57_elements.specs.Lawful.{IsLawful};
ghost use Rattle.e57_elements.specs.Tree.{Element};
ghost use Rattle.e57_nodes.specs.Items.{stated_items};
ghost use Rattle.e57_nodes.specs.Shape.{shape_of};
ghost use Rattle.e57_nodes.specs.Typed.{typed_fault};
ghost use Rattle.e57_verdict.specs.Content.{Content, IsContent};
ghost use Rattle.e57_verdict.specs.Things.{blob_count, body_of, record_count, things_in};
ghost use Rattle.e57_verdict.specs.Verdict.{IsSoundFile};
ghost use Rattle.e57_plain.specs.Valid.{IsValid, items_in};
ghost use Rattle.e57_plain.specs.Written.{Fits, plain};
ghost use Rattle.e57_salvage.specs.Lines.{kept_line, lost_lines, records_kept, salvage_lines};
ghost use Rattle.e57_salvage.specs.Saved.{IsSaved, saved, saved_body};

use e57_plain::written_form;

/// A law, which does nothing: what is saved of a file is a valid content, which states as many records as are kept. So its written
/// form is accepted, and has just this content, if it is within the limits of the format.
pub fn saved_content()
    ensures valid { (file : List ℕ) (tree : Element) → IsLawful tree → typed_fault (shape_of tree) ≡ None → IsValid (saved file tree) }
    ensures of_file { (file : List ℕ) (content : Content) → IsSaved file content → IsValid content }
    ensures records { (file : List ℕ) (tree : Element) → IsLawful tree → typed_fault (shape_of tree) ≡ None →
        record_count (items_in (saved file tree)) ≡ records_kept file (things_in tree) }
    ensures written { (n : ℕ) (file : List ℕ) (content : Content) → 0 < n → IsSaved file content → Fits n content →
        IsContent (plain n content) content }
{
    written_form();
}

/// A law, which does nothing: of a file without fault nothing is lost, its clouds and blobs are saved as they are, and one line
/// says that all of its records and blobs are kept.
pub fn sound_file()
    ensures lost { (file : List ℕ) (tree : Element) → IsSoundFile file tree → lost_lines file 0 0 (things_in tree) ≡ [] }
    ensures bodies { (file : List ℕ) (tree : Element) → IsSoundFile file tree →
        map (saved_body file) (things_in tree) ≡ map (body_of file) (things_in tree) }
    ensures lines { (file : List ℕ) (tree : Element) → IsSoundFile file tree → salvage_lines file tree
        ≡ kept_line (record_count (stated_items (shape_of tree))) (blob_count (stated_items (shape_of tree))) }
{}
