//! All entries of an index.

ghost use Rattle.std.specs.Prelude.{◌≡◌, ◌≢◌, ◌*◌, ◌/◌, ◌<◌, length, slice_get, Some, MatchResult};
ghost use Rattle.e57_base.specs.Source.{page_length};
ghost use Rattle.e57_page.specs.Place.{payload_length};
ghost use Rattle.e57_section.specs.Opening.{LiesIn};
ghost use Rattle.e57_index.specs.Gathering.{GathersIndex, GathersNoIndex};

use crate::gather::gather;
use e57_base::{OpenFault, Source};
use e57_layout::{Entry, Section};
use e57_page::Pages;
use std::alloc::Global;
use std::marker::Model;

/// The entries of level 0 of an index, one for each chunk, in the order of their records. Contracts see them as a list of
/// `Entry`.
#[derive(Drop)]
pub struct Entries {
    list: Vec<Entry>,
}

impl Model for Entries {
    ghost use Rattle.std.specs.Prelude.{List};
    ghost use Rattle.e57_layout.specs.declared.packet.Entry.{Entry};

    ghost Value = { List Entry };

    ghost view = { λ entries. entries.list.items };
}

impl Entries {
    /// How many there are.
    pub fn len(&self) -> usize
        ensures { result ≡ length self.now }
    {
        self.list.len()
    }

    /// Entry `i`: the first record of a chunk, and the physical offset of its first packet.
    pub fn get(&self, i: usize) -> Entry
        requires { i < length self.now }
        ensures { slice_get self.now i ≡ Some result }
    {
        self.list[i]
    }
}

/// All entries of level 0 of a section's index, in order: each chunk's first record and the physical offset of its first
/// packet.
///
/// Walks the index depth first. Refuses the first fault that it comes to: of each index packet `IndexShape`, `Page`,
/// `IndexShape`, `Page`, `IndexOrder`, and then of each of its entries, one after another, what it names (`IndexTarget`,
/// `Page`, `IndexTarget`) or what it leads to. `Source` if the source failed, `Memory` if memory ran out.
///
/// Memory is taken for the entries that were found sound, and for the entries of one index packet a level. In each level
/// the records of the packets' entries rise over the whole walk, and a packet that is led to again with another record is
/// refused, so no index packet is read twice without that fault.
pub fn all_entries<S: Source>(
    alloc: Global,
    pages: &mut Pages<S>,
    section: &Section,
) -> Result<Entries, OpenFault>
    requires lies { LiesIn section.now (pages.old.length / page_length * payload_length) }
    requires indexed { section.now.index ≢ 0 }
    ensures length { pages.new.length ≡ pages.old.length }
    ensures header { pages.new.header ≡ pages.old.header }
    ensures entries { MatchResult result
        (λ entries. GathersIndex (S.view pages.old.source) section.now entries (S.view pages.new.source))
        (λ found. GathersNoIndex (S.view pages.old.source) section.now found (S.view pages.new.source)) }
{
    let root = Entry {
        first: 0,
        place: section.index,
    };
    let mut list = Vec::new(alloc);
    if let Err(found) = gather(alloc, pages, section, None, &root, section.count, &mut list) {
        return Err(found);
    }
    Ok(Entries { list })
}
