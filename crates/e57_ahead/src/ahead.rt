//! What reads ahead in a section without an index.

ghost use Rattle.std.specs.Prelude.{◌≡◌, ◌+◌, ◌*◌, ◌/◌, ◌<◌, ◌≤◌, ℕ, List, IfOk, MatchResult};
ghost use Rattle.e57_base.specs.Source.{page_length};
ghost use Rattle.e57_page.specs.Place.{payload_length};
ghost use Rattle.e57_section.specs.Opening.{LiesIn};
ghost use Rattle.e57_ahead.specs.Counting.{IsWidth, IsWithin, StandsIn, begun, from};
ghost use Rattle.e57_ahead.specs.Finding.{Moves, Finds, FindsNot};

use crate::look::look;
use crate::reached::{Covered, Reached};
use e57_base::{ReadFault, Source};
use e57_layout::{Fixed, Section};
use e57_page::Pages;
use e57_section::Packet;
use std::alloc::{AllocError, Global};
use std::marker::Model;

/// Finds the chunk of a record in a section without an index whose cloud has a Float field. It keeps how far it counted the
/// items of the first such field, so that records asked for in ascending order are found in one walk.
#[derive(Drop)]
pub struct Ahead {
    section: Section,
    fixed: Fixed,
    reached: Reached,
    packet: Packet,
}

impl Model for Ahead {
    ghost use Rattle.e57_ahead.specs.Counting.{Search, IsSearch};

    ghost Value = { Search };

    ghost view = { λ a. record { section = a.section; fixed = a.fixed; reached = a.reached } };

    ghost invariant = { λ a. IsSearch a.section a.fixed a.reached };
}

impl Ahead {
    /// One that has counted nothing yet, so that it stands in every file. The section has no index; `fixed` is the first
    /// Float field of its cloud, with 4 or 8 bytes an item. It takes the memory of one packet, and nothing takes more later.
    pub fn open(alloc: Global, section: &Section, fixed: Fixed) -> Result<Ahead, AllocError>
        requires unindexed { section.now.index ≡ 0 }
        requires is_field { fixed.field < section.now.fields }
        requires width { IsWidth fixed }
        ensures opened { IfOk result (λ ahead. ahead ≡ record { section = section.now; fixed = fixed; reached = begun section.now }) }
        ensures stands { IfOk result (λ ahead. (file : List ℕ) → StandsIn file ahead.section ahead.fixed ahead.reached) }
    {
        let packet = Packet::new(alloc)?;
        Ok(Ahead {
            section: *section,
            fixed,
            reached: start(section),
            packet,
        })
    }

    /// The chunk of record `i`, which is below the number of records. It takes no memory.
    ///
    /// It goes on from where it counted last, or from the section's data on where it counted past record `i`. It loads
    /// packets until the whole items of the Float field pass record `i` or the walk ends, and no further.
    ///
    /// Refuses what ends the walk before the chunk is known to have the record: the first fault of a packet, as
    /// `load_packet` does; or `RestartUnindexed` where a chunk without a whole item is followed by another. `Source` comes
    /// only where the source failed. After every answer what is kept is of the file.
    pub fn find<S: Source>(&mut self, pages: &mut Pages<S>, i: u64) -> Result<Covered, ReadFault>
        requires lies { LiesIn self.old.section (pages.old.length / page_length * payload_length) }
        requires high { i < self.old.section.count }
        ensures length { pages.new.length ≡ pages.old.length }
        ensures header { pages.new.header ≡ pages.old.header }
        ensures section { self.new.section ≡ self.old.section }
        ensures fixed { self.new.fixed ≡ self.old.fixed }
        ensures moves { Moves self.old.section i (from self.old.section self.old.reached i) self.new.reached }
        ensures found { let stands = λ (file : List ℕ). StandsIn file self.old.section self.old.fixed self.old.reached in
            let low = (from self.old.section self.old.reached i).taken in
            MatchResult result
            (λ covered. Finds (S.view pages.old.source) stands self.old.section self.old.fixed i low covered self.new.reached (S.view pages.new.source))
            (λ found. FindsNot (S.view pages.old.source) stands self.old.section self.old.fixed i low found self.new.reached (S.view pages.new.source)) }
    {
        let reached = resumed(&self.section, self.reached, i);
        let (reached, answer) = look(
            &self.section,
            self.fixed,
            reached,
            pages,
            &mut self.packet,
            i,
        );
        self.reached = reached;
        answer
    }
}

/// From where record `i` is searched: from where the count stands, or anew where the record is before its chunk.
fn resumed(section: &Section, reached: Reached, i: u64) -> Reached
    ensures { result ≡ from section.now reached i }
{
    if i < reached.first {
        return start(section);
    }
    reached
}

/// Nothing is counted yet.
fn start(section: &Section) -> Reached
    ensures { result ≡ begun section.now }
{
    Reached {
        first: 0,
        place: section.data_place,
        taken: section.data_place,
        bytes: 0,
        has_data: false,
    }
}
