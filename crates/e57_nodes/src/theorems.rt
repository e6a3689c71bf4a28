//! Laws of the tree with other places of its sections, which no call computes.

ghost use Rattle.std.specs.Prelude.{◌≡◌, ◌<◌, ◌≤◌, ◌^◌, ℕ, List, length, map};
ghost use Rattle.std.specs.Fmt.{decimal};
ghost use Rattle.std.specs.List.{AllByRecursion};
ghost use Rattle.e57_elements.specs.Lawful.{IsLawful};
ghost use Rattle.e57_elements.specs.Tree.{Element, preorder};
ghost use Rattle.e57_nodes.specs.Places.{AreReadable, AreTexts, ArePlaced, item_count, places_in, with_places};
ghost use Rattle.e57_nodes.specs.Shape.{shape_of};

/// A law, which does nothing: a tree with other places of its sections means the same, is lawful if it was, and is read with those
/// places.
pub fn other_places()
    ensures meaning { (texts : List (List ℕ)) (e : Element) → item_count (preorder e) ≤ length texts → AreReadable texts →
        ArePlaced (preorder e) → shape_of (with_places texts e) ≡ shape_of e }
    ensures lawful { (texts : List (List ℕ)) (e : Element) → AreTexts texts → IsLawful e → IsLawful (with_places texts e) }
    ensures places { (places : List ℕ) (e : Element) → length places ≡ length (places_in e) →
        AllByRecursion (λ n. n < 2 ^ 64) places → ArePlaced (preorder e) → places_in (with_places (map decimal places) e) ≡ places }
{}
