//! A law of the path of a record.

ghost use Rattle.std.specs.Prelude.{ℕ, List};
ghost use Rattle.e57_layout.specs.declared.section.Section.{Section};
ghost use Rattle.e57_cloud.specs.PathItem.{ChunkAt};
ghost use Rattle.e57_index.specs.Finding.{IsFollowed};

/// A law: where a chunk that the index leads to ends below the count, the path of the next record leads, if to a chunk, to one
/// that begins with that record. So that record isn't of the same chunk.
#[tactic(auto, using(crate::proofs::Laws::Onward::path_onward))]
pub fn next_chunk_begins()
    ensures { (file : List ℕ) (s : Section) (i : ℕ) (c d : ChunkAt) → IsFollowed file s i c d }
{}
