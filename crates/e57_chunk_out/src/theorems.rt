//! What the definitions of a cloud that is written say.

ghost use Rattle.std.specs.Prelude.{◌≡◌, ℕ, ◌<◌, List, [], length, map, Option, None, IfSome};
ghost use Rattle.e57_layout.specs.Values.{ItemKind, Value};
ghost use Rattle.e57_page_out.specs.Writing.{Writing};
ghost use Rattle.e57_chunk_out.specs.CloudCalls.{new_cloud, with_items};
ghost use Rattle.e57_chunk_out.specs.Standing.{Cloud, Stands};

use e57_base::Target;

/// A law: a new cloud stands for no records with every file that holds no page.
pub fn new_cloud_stands<T: Target>()
    ensures { (kinds : List ItemKind) (n most : ℕ) (before : Option (List ℕ)) (start : ℕ) (out : Writing T)
        → IfSome before (λ b. length b ≡ start) → out.told_bytes ≡ before → out.size ≡ start → out.held ≡ None
        → Stands before start (map (λ (kind : ItemKind). []) kinds) (new_cloud kinds n most) out }
{}

/// A law: the calls that take items leave the records for which a cloud stands as they are.
pub fn items_stand<T: Target>()
    ensures { (c : Cloud) (f : ℕ) (values : List Value) (before : Option (List ℕ)) (start : ℕ) (cs : List (List Value)) (out : Writing T)
        → f < length c.pending → Stands before start cs c out → Stands before start cs (with_items c f values) out }
{}
