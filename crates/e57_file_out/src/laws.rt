//! Laws of the sections of a new file, which no call computes.

ghost use Rattle.std.specs.Prelude.{◌≡◌, ℕ, ◌+◌, ◌*◌, ◌<◌, [], ◌∷◌, ◌++◌, List, length};
ghost use Rattle.e57_elements.specs.Tree.{Element};
ghost use Rattle.e57_nodes.specs.Items.{StatedItem};
ghost use Rattle.e57_nodes.specs.Places.{without_places};
ghost use Rattle.e57_page.specs.Place.{payload_length};
ghost use Rattle.e57_page_out.specs.Writing.{most_bytes};
ghost use Rattle.e57_plain.specs.Written.{Fits, body_section, offsets_from, offsets_of, plain, section_offset, sections_from, sections_of, whole_pages, written_text};
ghost use Rattle.e57_verdict.specs.Content.{Content};
ghost use Rattle.e57_verdict.specs.Things.{Body};
ghost use Rattle.e57_file_out.specs.Closing.{IsTooLong, IsWithinFile, whole_file, xml_text};
ghost use Rattle.e57_file_out.specs.InARow.{next_page};

/// A law, which does nothing: of a tree whose content has these sections, the file that `close_file` makes behind them and a first
/// page is the written form of the content.
#[tactic(auto, using(crate::proofs::InARow::content_closed))]
pub fn closed_content()
    ensures { (n : ℕ) (content : Content) (tree : Element) (first : List ℕ) → content.tree ≡ without_places tree → length first ≡ payload_length →
        whole_file (first ++ sections_of n content) (xml_text tree (offsets_of n content)) ≡ plain n content }
{}

/// A law, which does nothing: the section of one item more begins with the next page, behind those of the items before it.
#[tactic(auto, using(crate::proofs::InARow::sections_more, crate::proofs::InARow::offsets_more))]
pub fn one_item_more()
    ensures sections { (n p : ℕ) (items : List StatedItem) (bodies : List Body) (item : StatedItem) (body : Body) → length items ≡ length bodies →
        sections_from n p (items ++ item ∷ []) (bodies ++ body ∷ [])
        ≡ sections_from n p items bodies ++ whole_pages (body_section n (payload_length * next_page n p items bodies) item body) }
    ensures offsets { (n p : ℕ) (items : List StatedItem) (bodies : List Body) (item : StatedItem) (body : Body) → length items ≡ length bodies →
        offsets_from n p (items ++ item ∷ []) (bodies ++ body ∷ [])
        ≡ offsets_from n p items bodies ++ section_offset (next_page n p items bodies) (body_section n (payload_length * next_page n p items bodies) item body) ∷ [] }
{}

/// A law, which does nothing: the written form of a content is within the format's limits if its text is within the file behind its
/// sections, and not if the text is too long, or some first sections pass the last page.
#[tactic(auto, using(crate::proofs::InARow::fits_within, crate::proofs::InARow::unfit_text, crate::proofs::InARow::unfit_sections))]
pub fn written_limits()
    ensures fits { (n : ℕ) (content : Content) → IsWithinFile (payload_length + length (sections_of n content)) (written_text n content) → Fits n content }
    ensures text { (n : ℕ) (content : Content) → IsTooLong (payload_length + length (sections_of n content)) (written_text n content) → Fits n content → ⊥ }
    ensures sections { (n : ℕ) (content : Content) (before after : List ℕ) → sections_of n content ≡ before ++ after → most_bytes < payload_length + length before → Fits n content → ⊥ }
{}
