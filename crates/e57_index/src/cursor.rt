//! The search for the chunk of a record.

ghost use Rattle.std.specs.Prelude.{◌≡◌, ◌≢◌, ◌+◌, ◌-◌, ◌*◌, ◌/◌, ◌≤◌, ◌<◌, ◌==◌, None, true, false, IfOk, IsTrue, IfSome, MatchResult};
ghost use Rattle.e57_base.specs.Source.{page_length, SourceView};
ghost use Rattle.e57_page.specs.Place.{payload_length};
ghost use Rattle.e57_cloud.specs.Index.{begins_and_rises};
ghost use Rattle.e57_section.specs.Opening.{LiesIn};
ghost use Rattle.e57_index.specs.Picking.{IsPicked};
ghost use Rattle.e57_index.specs.Holding.{holds_place, LoadsIndex, LosesLoad};
ghost use Rattle.e57_index.specs.Finding.{FindsChunk, LosesChunk, StepsDown, HoldsRecord, held_level};
ghost use Rattle.e57_index.specs.Spans.{AsksPacketSpans, holds_leaf, AsksPath, AsksLoad, DescendsSpans, StopsSpans, StepsSpans, AsksBelow};

use crate::entries::{is_ordered, pick};
use crate::held::Held;
use crate::read::read_index;
use crate::start::{is_wanted, refused};
use crate::target::read_target;
use e57_base::{Kind, ReadFault, Source};
use e57_layout::{Entry, Section};
use e57_page::Pages;
use std::alloc::{AllocError, Global};
use std::marker::Model;

/// The bytes of the most entries of an index packet.
const BYTES: usize = 32_768;

/// The bytes of an entry.
const ENTRY: usize = 16;

/// The chunk of a record: its first record, the first record past it, and the logical place of its first packet.
#[derive(Clone, Copy, Debug, PartialEq, Eq)]
pub struct Found {
    pub start: u64,
    pub until: u64,
    pub place: u64,
}

/// A search in the index of a section, which holds the index packet that it read last.
///
/// It stands in a file if that packet is of the file, and on the path of its records. A new one stands in every file, and
/// each call on the pages of a file in which it stands leaves it standing there, refused or not.
#[derive(Drop)]
pub struct IndexCursor {
    section: Section,
    held: Option<Held>,
    bytes: Vec<u8>,
}

impl Model for IndexCursor {
    ghost use Rattle.e57_index.specs.Standing.{Cursor};
    ghost use Rattle.e57_index.specs.Holding.{held_packets, IsCursor};

    ghost Value = { Cursor };

    ghost view = { λ c. record { section = c.section; held = held_packets c.held c.bytes.items } };

    ghost invariant = { λ c. IsCursor c.section c.held c.bytes.items };
}

impl IndexCursor {
    /// A cursor for a section that has an index. It takes the bytes of one index packet's entries, and nothing takes more
    /// later.
    pub fn open(alloc: Global, section: &Section) -> Result<IndexCursor, AllocError>
        requires { section.now.index ≢ 0 }
        ensures { IfOk result (λ cursor. cursor ≡ record { section = section.now; held = None }) }
    {
        let section = *section;
        let bytes = vec![in alloc; 0; BYTES]?;
        Ok(IndexCursor {
            section,
            held: None,
            bytes,
        })
    }

    /// Holds the packet that an entry leads to, with the wanted level, or the root.
    fn load<S: Source>(
        &mut self,
        pages: &mut Pages<S>,
        entry: &Entry,
        wanted: Option<u8>,
        bound: u64,
    ) -> Result<(), ReadFault>
        requires header { self.old.section.start + 32 ≤ self.old.section.end }
        requires within { self.old.section.end ≤ pages.old.length / page_length * payload_length }
        requires below { bound ≤ self.old.section.count }
        ensures length { pages.new.length ≡ pages.old.length }
        ensures header { pages.new.header ≡ pages.old.header }
        ensures section { self.new.section ≡ self.old.section }
        ensures spans { AsksLoad self.old wanted entry.now (S.view pages.old.source) (S.view pages.new.source) }
        ensures load { MatchResult result
            (λ _. LoadsIndex (S.view pages.old.source) self.old wanted entry.now bound (S.view pages.new.source) self.new)
            (λ found. LosesLoad (S.view pages.old.source) self.old wanted entry.now bound found (S.view pages.new.source) self.new) }
    {
        if self.holds(entry.place) {
            return self.judge_held(entry, wanted, bound);
        }
        self.read_held(pages, entry, wanted, bound)
    }

    /// Whether the packet at this physical offset is held.
    fn holds(&self, place: u64) -> bool
        ensures { result ≡ holds_place self.now.held place }
    {
        match self.held {
            None => false,
            Some(held) => held.place == place,
        }
    }

    /// Judges the packet that is held anew, for the entry that leads to it now. It stays held, refused or not.
    fn judge_held(&mut self, entry: &Entry, wanted: Option<u8>, bound: u64) -> Result<(), ReadFault>
        requires holds { holds_place self.old.held entry.now.place ≡ true }
        requires below { bound ≤ self.old.section.count }
        ensures section { self.new.section ≡ self.old.section }
        ensures load { (old : SourceView) → MatchResult result
            (λ _. LoadsIndex old self.old wanted entry.now bound old self.new)
            (λ found. LosesLoad old self.old wanted entry.now bound found old self.new) }
    {
        let entry = *entry;
        let node = self.section.node;
        let Some(held) = self.held else {
            unreachable!()
        };
        if !is_wanted(held.level, wanted) {
            return Err(refused(node, Kind::IndexShape, entry.place));
        }
        let count = held.entries as usize;
        if !is_ordered(&self.bytes[..ENTRY * count], count, entry.first, bound) {
            return Err(refused(node, Kind::IndexOrder, entry.place));
        }
        self.held = Some(Held {
            place: held.place,
            level: held.level,
            entries: held.entries,
            first: entry.first,
            bound,
        });
        Ok(())
    }

    /// Reads the packet that an entry leads to. After a refusal none is held.
    fn read_held<S: Source>(
        &mut self,
        pages: &mut Pages<S>,
        entry: &Entry,
        wanted: Option<u8>,
        bound: u64,
    ) -> Result<(), ReadFault>
        requires header { self.old.section.start + 32 ≤ self.old.section.end }
        requires within { self.old.section.end ≤ pages.old.length / page_length * payload_length }
        requires below { bound ≤ self.old.section.count }
        ensures length { pages.new.length ≡ pages.old.length }
        ensures header { pages.new.header ≡ pages.old.header }
        ensures section { self.new.section ≡ self.old.section }
        ensures spans { AsksPacketSpans self.old.section wanted entry.now (S.view pages.old.source) (S.view pages.new.source) }
        ensures load { MatchResult result
            (λ _. LoadsIndex (S.view pages.old.source) self.old wanted entry.now bound (S.view pages.new.source) self.new)
            (λ found. LosesLoad (S.view pages.old.source) self.old wanted entry.now bound found (S.view pages.new.source) self.new) }
    {
        let section = self.section;
        let entry = *entry;
        self.held = None;
        let head = match read_index(&section, pages, &entry, wanted, bound, &mut self.bytes) {
            Ok(head) => head,
            Err(found) => return Err(found),
        };
        self.held = Some(Held {
            place: entry.place,
            level: head.level,
            entries: head.entries,
            first: entry.first,
            bound,
        });
        Ok(())
    }

    /// The chunk of record `i`: its first record, the first record past it, and the place of its first packet.
    ///
    /// Where the packet of level 0 that is held has the record, the search begins there, else at the root. It reads one index
    /// packet a level, and takes no memory. After it the packet of level 0 that has the record is held, unless it was refused.
    ///
    /// Asks for pages of what it judges alone: of each index packet its first 16 bytes and then its entries, and the four bytes
    /// that the entry names; one after another, each of them at most once. A packet that is held isn't asked for again, so
    /// where that of level 0 is held, the four bytes alone are.
    ///
    /// Refuses the first fault on the way: of each index packet `IndexShape`, `Page`, `IndexShape`, `Page`, `IndexOrder`, and
    /// of the entry that has the record `IndexTarget`, `Page`, `IndexTarget`.
    pub fn find<S: Source>(&mut self, pages: &mut Pages<S>, i: u64) -> Result<Found, ReadFault>
        requires lies { LiesIn self.old.section (pages.old.length / page_length * payload_length) }
        requires below { i < self.old.section.count }
        ensures length { pages.new.length ≡ pages.old.length }
        ensures header { pages.new.header ≡ pages.old.header }
        ensures section { self.new.section ≡ self.old.section }
        ensures leaf { MatchResult result (λ _. holds_leaf self.new.held i ≡ true) (λ _. Unit {0}) }
        ensures spans { AsksPath self.old i (S.view pages.old.source) (S.view pages.new.source) }
        ensures chunk { MatchResult result
            (λ found. FindsChunk (S.view pages.old.source) self.old i found (S.view pages.new.source) self.new)
            (λ fault. LosesChunk (S.view pages.old.source) self.old i fault (S.view pages.new.source) self.new) }
    {
        if let Err(fault) = self.find_leaf(pages, i) {
            return Err(fault);
        }
        self.find_in_leaf(pages, i)
    }

    /// Holds the packet of the lowest level that has record `i`.
    fn find_leaf<S: Source>(&mut self, pages: &mut Pages<S>, i: u64) -> Result<(), ReadFault>
        requires lies { LiesIn self.old.section (pages.old.length / page_length * payload_length) }
        requires below { i < self.old.section.count }
        ensures length { pages.new.length ≡ pages.old.length }
        ensures header { pages.new.header ≡ pages.old.header }
        ensures section { self.new.section ≡ self.old.section }
        ensures leaf { MatchResult result (λ _. held_level self.new.held ≡ 0) (λ _. Unit {0}) }
        ensures spans { MatchResult result
            (λ _. DescendsSpans self.old i (S.view pages.old.source) (S.view pages.new.source) self.new)
            (λ _. StopsSpans self.old i (S.view pages.old.source) (S.view pages.new.source)) }
        ensures chunk { MatchResult result
            (λ _. StepsDown (S.view pages.old.source) self.old i (S.view pages.new.source) self.new)
            (λ fault. LosesChunk (S.view pages.old.source) self.old i fault (S.view pages.new.source) self.new) }
    {
        if self.has_leaf(i) {
            return Ok(());
        }
        if let Err(fault) = self.go_to_root(pages, i) {
            return Err(fault);
        }
        'down: while self.level() > 0 {
            if let Err(fault) = self.go_down(pages, i) {
                return Err(fault);
            }
        }
        Ok(())
    }

    /// Holds the root.
    fn go_to_root<S: Source>(&mut self, pages: &mut Pages<S>, i: u64) -> Result<(), ReadFault>
        requires lies { LiesIn self.old.section (pages.old.length / page_length * payload_length) }
        requires below { i < self.old.section.count }
        requires away { holds_leaf self.old.held i ≡ false }
        ensures length { pages.new.length ≡ pages.old.length }
        ensures header { pages.new.header ≡ pages.old.header }
        ensures section { self.new.section ≡ self.old.section }
        ensures spans { MatchResult result
            (λ _. DescendsSpans self.old i (S.view pages.old.source) (S.view pages.new.source) self.new)
            (λ _. StopsSpans self.old i (S.view pages.old.source) (S.view pages.new.source)) }
        ensures chunk { MatchResult result
            (λ _. StepsDown (S.view pages.old.source) self.old i (S.view pages.new.source) self.new)
            (λ fault. LosesChunk (S.view pages.old.source) self.old i fault (S.view pages.new.source) self.new) }
    {
        let section = self.section();
        let root = Entry {
            first: 0,
            place: section.index,
        };
        self.load(pages, &root, None, section.count)
    }

    /// Holds the packet one level lower that has record `i`.
    fn go_down<S: Source>(&mut self, pages: &mut Pages<S>, i: u64) -> Result<(), ReadFault>
        requires lies { LiesIn self.old.section (pages.old.length / page_length * payload_length) }
        requires has { HoldsRecord self.old.held i }
        requires higher { 0 < held_level self.old.held }
        ensures length { pages.new.length ≡ pages.old.length }
        ensures header { pages.new.header ≡ pages.old.header }
        ensures section { self.new.section ≡ self.old.section }
        ensures lower { MatchResult result (λ _. held_level self.new.held < held_level self.old.held) (λ _. Unit {0}) }
        ensures spans { MatchResult result
            (λ _. StepsSpans self.old i (S.view pages.old.source) (S.view pages.new.source) self.new)
            (λ _. AsksBelow 2 self.old i (S.view pages.old.source) (S.view pages.new.source)) }
        ensures chunk { MatchResult result
            (λ _. StepsDown (S.view pages.old.source) self.old i (S.view pages.new.source) self.new)
            (λ fault. LosesChunk (S.view pages.old.source) self.old i fault (S.view pages.new.source) self.new) }
    {
        let (entry, bound) = self.pick_held(i);
        let level = self.level() - 1;
        self.load(pages, &entry, Some(level), bound)
    }

    /// The chunk of record `i`, of which the packet of level 0 is held.
    fn find_in_leaf<S: Source>(&mut self, pages: &mut Pages<S>, i: u64) -> Result<Found, ReadFault>
        requires lies { LiesIn self.old.section (pages.old.length / page_length * payload_length) }
        requires has { HoldsRecord self.old.held i }
        requires leaf { held_level self.old.held ≡ 0 }
        ensures length { pages.new.length ≡ pages.old.length }
        ensures header { pages.new.header ≡ pages.old.header }
        ensures same { self.new ≡ self.old }
        ensures spans { AsksBelow 1 self.old i (S.view pages.old.source) (S.view pages.new.source) }
        ensures chunk { MatchResult result
            (λ found. FindsChunk (S.view pages.old.source) self.old i found (S.view pages.new.source) self.old)
            (λ fault. LosesChunk (S.view pages.old.source) self.old i fault (S.view pages.new.source) self.old) }
    {
        let section = self.section();
        let (entry, until) = self.pick_held(i);
        match read_target(&section, pages, &entry) {
            Ok(place) => Ok(Found {
                start: entry.first,
                until,
                place,
            }),
            Err(fault) => Err(fault),
        }
    }

    /// The section of the index, which has one.
    fn section(&self) -> Section
        ensures same { result ≡ self.now.section }
        ensures indexed { (result.index == 0) ≡ false }
    {
        self.section
    }

    /// The level of the packet that is held.
    fn level(&self) -> u8
        ensures { result ≡ held_level self.now.held }
    {
        match self.held {
            None => 0,
            Some(held) => held.level,
        }
    }

    /// Whether a packet of level 0 that has record `i` is held.
    fn has_leaf(&self, i: u64) -> bool
        ensures is { result ≡ holds_leaf self.now.held i }
        ensures has { IsTrue result → (held_level self.now.held ≡ 0) × HoldsRecord self.now.held i }
    {
        match self.held {
            None => false,
            Some(held) => held.level == 0 && held.first <= i && i < held.bound,
        }
    }

    /// The entry of the held packet that has record `i`, and the record at which it ends.
    fn pick_held(&self, i: u64) -> (Entry, u64)
        requires { HoldsRecord self.now.held i }
        ensures picked { IfSome self.now.held (λ h. IsPicked h.bound h.entries i result.0 result.1) }
        ensures ordered { IfSome self.now.held (λ h. begins_and_rises h.first h.bound h.entries ≡ true) }
        ensures most { result.1 ≤ self.now.section.count }
    {
        let Some(held) = self.held else {
            unreachable!()
        };
        let count = held.entries as usize;
        pick(&self.bytes[..ENTRY * count], count, held.bound, i)
    }
}
