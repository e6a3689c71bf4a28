//! Laws of sections, which no call computes.

ghost use Rattle.std.specs.Prelude.{◌≡◌, ◌<◌, ℕ, List, [], Option, Some, None, Ok, get_or, slice_get};
ghost use Rattle.e57_layout.specs.Values.{Value};
ghost use Rattle.e57_layout.specs.declared.field.Fixed.{Fixed};
ghost use Rattle.e57_layout.specs.declared.section.Section.{Section};
ghost use Rattle.e57_cloud.specs.Chunks.{chunks};
ghost use Rattle.e57_cloud.specs.Cloud.{Cloud, Leaf, cloud_fault, field_fault, records_of, IsBodySound};
ghost use Rattle.e57_cloud.specs.PathItem.{item_of, path_item, first_refusal};
ghost use Rattle.e57_cloud.specs.Written.{IsCloud, IsWritten, written_cloud};

/// A section that is written, in a file whose pages are right, has no fault, and its records are those that it was given.
pub fn written_section()
    ensures { (file : List ℕ) (node q n count : ℕ) (leaves : List Leaf) (columns : List (List Value)) →
        IsWritten file q n count leaves columns → IsCloud file (written_cloud node q count leaves) columns }
{}

/// The items of a field, each looked for by its record number: where index, packets and chunks have no fault, the first
/// fault that is met is the field's first fault over the chunks. In a cloud without fault they are its records.
pub fn item_by_record()
    ensures refusal { (file : List ℕ) (s : Section) (fixed : Option Fixed) (f : ℕ) (leaf : Leaf) → IsBodySound file s fixed →
        field_fault f leaf (chunks file s fixed) ≡ first_refusal (item_of file s fixed f leaf) 0 s.count }
    ensures record_of { (file : List ℕ) (c : Cloud) (f : ℕ) (leaf : Leaf) (i : ℕ) (d : Value) → cloud_fault file c ≡ None →
        slice_get c.leaves f ≡ Some leaf → i < c.count →
        path_item file c f leaf i ≡ Ok (get_or (get_or (records_of file c) f []) i d) }
{}
