//! Laws of spans, which no call computes.

ghost use Rattle.std.specs.Prelude.{◌≡◌, ◌+◌, ◌<◌, ◌≤◌, ◌==◌, false, ℕ, List, [], ◌∷◌, flat_map, Option, Some, None, Err, Contains};
ghost use Rattle.std.specs.List.{AllByRecursion, range_with_len};
ghost use Rattle.e57_base.specs.declared.fault.Fault.{Fault};
ghost use Rattle.e57_layout.specs.Values.{IsKind};
ghost use Rattle.e57_layout.specs.Items.{AreColumns};
ghost use Rattle.e57_layout.specs.declared.field.Fixed.{Fixed};
ghost use Rattle.e57_layout.specs.declared.section.Section.{Section};
ghost use Rattle.e57_cloud.specs.Chunks.{float_items};
ghost use Rattle.e57_cloud.specs.Cloud.{Cloud, Leaf, cloud_fault, kinds_of, records_of, section_of};
ghost use Rattle.e57_cloud.specs.PathItem.{chunk_at, path, stretch};
ghost use Rattle.e57_spans.specs.Spans.{Span, IsChain, IsSpanOf, index_spans, next_start, records_in, section_spans, spans_on, walk_spans_from};
ghost use Rattle.e57_spans.specs.Judged.{HasOneWay, IsSoundRecord, judged, spans_of};
ghost use Rattle.e57_spans.specs.Lost.{kept_count, kept_records, lost_spans};
ghost use Rattle.e57_spans.specs.Saved.{saved_columns};

/// A law, which does nothing: the spans of a section, and those of a cloud, follow one another from record 0 to the last one. So
/// each record has one span, and all spans together have each record once, in order. Without an index the spans from a chunk on
/// are its own, and those from the start of the next chunk on.
pub fn spans_in_order()
    ensures section { (file : List ℕ) (s : Section) (fixed : Option Fixed) → 0 < s.count → IsChain 0 s.count (section_spans file s fixed) }
    ensures cloud { (file : List ℕ) (c : Cloud) → IsChain 0 c.count (spans_of file c) }
    ensures records { (file : List ℕ) (c : Cloud) → flat_map records_in (spans_of file c) ≡ range_with_len 0 c.count }
    ensures some { (file : List ℕ) (c : Cloud) (i : ℕ) → i < c.count → (x : Span) × IsSpanOf (spans_of file c) i x }
    ensures one { (file : List ℕ) (c : Cloud) (i : ℕ) (x y : Span) → IsSpanOf (spans_of file c) i x → IsSpanOf (spans_of file c) i y → x ≡ y }
    ensures step { (file : List ℕ) (s : Section) (fixed : Option Fixed) (first q : ℕ) → walk_spans_from file s fixed first q
        ≡ spans_on s first (float_items fixed (stretch file s q).packets) (stretch file s q) (next_start file s q)
        (λ next. walk_spans_from file s fixed (first + float_items fixed (stretch file s q).packets) next) }
{}

/// A law, which does nothing: by an index, the span of a record is found on its path alone, and if it is lost, its fault is the
/// first one on that path. All records of a span that is found have one way: to the chunk of just these records, or to one fault.
pub fn span_of_record()
    ensures judged { (file : List ℕ) (s : Section) (i : ℕ) → i < s.count → IsSpanOf (index_spans file s) i (judged file s i) }
    ensures lost { (file : List ℕ) (s : Section) (i : ℕ) (found : Fault) → (s.index == 0) ≡ false →
        (judged file s i).fault ≡ Some found → path file s i ≡ Err found }
    ensures way { (file : List ℕ) (s : Section) (fixed : Option Fixed) (x : Span) → 0 < s.count →
        Contains (section_spans file s fixed) x → x.fault ≡ None → HasOneWay x (chunk_at file s fixed) }
{}

/// A law, which does nothing: in a span without fault each field of each record is found; what is saved are items of their fields.
/// If there is an index, a span of a cloud with a field has no fault exactly if each field of each of its records is found.
pub fn sound_records()
    ensures found { (file : List ℕ) (c : Cloud) (i : ℕ) (x : Span) → IsSpanOf (spans_of file c) i x → x.fault ≡ None → IsSoundRecord file c i }
    ensures exact { (file : List ℕ) (c : Cloud) (leaf : Leaf) (leaves : List Leaf) (x : Span) → ((section_of file c).index == 0) ≡ false →
        c.leaves ≡ leaf ∷ leaves → Contains (spans_of file c) x →
        ((i : ℕ) → x.first ≤ i → i < x.until → IsSoundRecord file c i) → x.fault ≡ None }
    ensures kept { (file : List ℕ) (c : Cloud) → AllByRecursion (IsSoundRecord file c) (kept_records file c) }
    ensures few { (file : List ℕ) (c : Cloud) → kept_count file c ≤ c.count }
    ensures items { (file : List ℕ) (c : Cloud) → AllByRecursion IsKind (kinds_of c.leaves) →
        AreColumns (kinds_of c.leaves) (kept_count file c) (saved_columns file c) }
{}

/// A law, which does nothing: a cloud without fault has no lost span, all its records are kept, and what is saved of it is what
/// it has.
pub fn sound_cloud()
    ensures lost { (file : List ℕ) (c : Cloud) → cloud_fault file c ≡ None → lost_spans file c ≡ [] }
    ensures kept { (file : List ℕ) (c : Cloud) → cloud_fault file c ≡ None → kept_records file c ≡ range_with_len 0 c.count }
    ensures saved { (file : List ℕ) (c : Cloud) → cloud_fault file c ≡ None → saved_columns file c ≡ records_of file c }
{}
