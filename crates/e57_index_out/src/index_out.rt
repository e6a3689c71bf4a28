//! An index that will be written behind its section's data.

ghost use Rattle.std.specs.Prelude.{◌≡◌, ◌+◌, ◌<◌, ◌≤◌, ◌^◌, [], ◌∷◌, ◌++◌, false, true, length, IfOk, MatchResult};
ghost use Rattle.e57_layout.specs.Written.{index_spelled, most_levels, packets_bytes, physical, root_place};
ghost use Rattle.e57_page_out.specs.Sequences.{Loses, Puts};
ghost use Rattle.e57_page_out.specs.Writing.{most_bytes};

use crate::level::lowest;
use crate::levels::write_levels;
use e57_base::{PutFault, Target};
use e57_layout::Entry;
use e57_page_out::PagesOut;
use std::alloc::{AllocError, Global};
use std::marker::Model;

/// The entries of the chunks of a section that is being written, in ascending order, for its index (ASTM E2807, index
/// packets).
#[derive(Drop)]
pub struct IndexOut {
    entries: Vec<Entry>,
    used: usize,
}

impl Model for IndexOut {
    ghost use Rattle.std.specs.Prelude.{◌≤◌, ◌^◌, length, take};
    ghost use Rattle.e57_index_out.specs.EntryList.{EntryList};

    ghost Value = { EntryList };

    ghost view = { λ i. record { entries = take i.used i.entries.items; room = length i.entries.items } };

    ghost invariant = { λ i. (i.used ≤ length i.entries.items) × (length i.entries.items ≤ 2 ^ 40) };
}

impl IndexOut {
    /// An index without an entry, with room for those of so many chunks, at most 2^40. Nothing takes memory later.
    pub fn reserve(alloc: Global, chunks: usize) -> Result<IndexOut, AllocError>
        requires most { chunks ≤ 2 ^ 40 }
        ensures { IfOk result (λ index. index ≡ record { entries = []; room = chunks }) }
    {
        let entries = vec![in alloc; Entry { first: 0, place: 0 }; chunks]?;
        Ok(IndexOut { entries, used: 0 })
    }

    /// Adds the entry of the next chunk: its first record, and the physical offset of its first packet. There is room for it.
    pub fn push(&mut self, entry: Entry)
        requires room { length self.old.entries < self.old.room }
        ensures { self.new ≡ record self.old { entries = self.old.entries ++ entry ∷ [] } }
    {
        self.entries[self.used] = entry;
        self.used += 1;
    }

    /// Puts the packets of the index behind what was put before: level by level, packets of 2048 entries, the last one of a
    /// level with the rest. There is an entry at least. Answers the physical offset of the root, the last packet.
    ///
    /// Refuses `Large` where the packets would pass the last page, else `Target` where the target failed; the writer is
    /// then spent.
    pub fn write<T: Target>(&self, out: &mut PagesOut<T>) -> Result<u64, PutFault>
        requires some { 0 < length self.now.entries }
        requires unspent { out.old.is_spent ≡ false }
        ensures { let packets = packets_bytes (index_spelled most_levels 0 out.old.size self.now.entries) in
            MatchResult result
            (λ root. Puts T.view out.old packets out.new × (root ≡ physical (root_place most_levels 0 out.old.size self.now.entries)))
            (λ fault. (out.new.is_spent ≡ true) × Loses T.view out.old (most_bytes < out.old.size + length packets) fault (T.view out.new.target)) }
    {
        write_levels(&self.entries[..self.used], &lowest(self.used), out)
    }
}
