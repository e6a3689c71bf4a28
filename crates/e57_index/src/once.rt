//! A law of the walk over an index.

ghost use Rattle.std.specs.Prelude.{ℕ, List};
ghost use Rattle.e57_layout.specs.declared.packet.Entry.{Entry};
ghost use Rattle.e57_layout.specs.declared.section.Section.{Section};
ghost use Rattle.e57_index.specs.Reading.{IsRefusedAgain};

/// A law: an index packet that has no fault for one entry that leads to it has the fault `IndexOrder` for every other entry
/// with another record. The records of the entries of one level rise over a walk, so a walk takes no packet of a level twice.
#[tactic(auto, using(crate::proofs::Laws::Once::refused_again))]
pub fn no_packet_twice()
    ensures { (file : List ℕ) (s : Section) (level : ℕ) (x y : Entry) (a b : ℕ) → IsRefusedAgain file s level x y a b }
{}
