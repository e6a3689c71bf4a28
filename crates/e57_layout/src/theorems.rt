//! Laws of layouts, which no call computes.

ghost use Rattle.std.specs.Prelude.{◌≡◌, ◌<◌, ◌^◌, ℕ, List, length, get_or};
ghost use Rattle.e57_layout.specs.declared.section.BlobHeader.{BlobHeader};
ghost use Rattle.e57_layout.specs.Headers.{blob_head_at, blob_head_of};
ghost use Rattle.e57_layout.specs.Items.{AreItems, field_bytes, item_at};
ghost use Rattle.e57_layout.specs.Standing.{Stands};
ghost use Rattle.e57_layout.specs.Values.{IsKind, ItemKind, Value, here};

/// A law, which does nothing: the bytes that are written of some items, of any kind, are read as these items.
pub fn items_read_again()
    ensures { (kind : ItemKind) (values : List Value) (k : ℕ) (d : Value) → IsKind kind → AreItems kind values → k < length values →
        item_at kind (field_bytes kind values) k ≡ here (get_or values k d) }
{}

/// A law, which does nothing: the header of a blob's section is read as it is spelled, wherever it stands.
pub fn blob_header_read_again()
    ensures { (b : List ℕ) (q : ℕ) (h : BlobHeader) → h.id < 2 ^ 8 → h.length < 2 ^ 64 → Stands b q (blob_head_of h) →
        blob_head_at b q ≡ h }
{}
