//! The walk over an index, depth first.

ghost use Rattle.std.specs.Prelude.{◌≡◌, ℕ, ◌*◌, ◌/◌, ◌<◌, MatchResult};
ghost use Rattle.e57_base.specs.Source.{page_length};
ghost use Rattle.e57_page.specs.Place.{payload_length};
ghost use Rattle.e57_cloud.specs.Index.{entry_fault, entries_below};
ghost use Rattle.e57_section.specs.Opening.{LiesIn};
ghost use Rattle.e57_index.specs.Gathering.{branch_fault, branch_entries, Gathers, GathersNot};

use crate::entries::{end_of, entry as entry_at};
use crate::read::read_index;
use crate::target::read_target;
use e57_base::{OpenFault, Source};
use e57_layout::{Entry, Section};
use e57_page::Pages;
use std::alloc::Global;

/// The bytes of the most entries of an index packet.
const BYTES: usize = 32_768;

/// The bytes of an entry.
const ENTRY: usize = 16;

/// Reads the index packet to which an entry leads, and appends the entries of level 0 below it to `out`. Its level is to be
/// the wanted one; that of the root, for which none is wanted, is at most 5.
///
/// Refuses the packet's first fault, and then the first one of what its entries lead to, one after another.
#[cycle(gather)]
pub fn gather<S: Source>(
    alloc: Global,
    pages: &mut Pages<S>,
    section: &Section,
    wanted: Option<u8>,
    entry: &Entry,
    bound: u64,
    out: &mut Vec<Entry>,
) -> Result<(), OpenFault>
    requires lies { LiesIn section.now (pages.old.length / page_length * payload_length) }
    requires low { entry.now.first < bound }
    ensures length { pages.new.length ≡ pages.old.length }
    ensures header { pages.new.header ≡ pages.old.header }
    ensures branch { MatchResult result
        (λ _. Gathers section.now entry.now.first bound (λ file. branch_fault file section.now wanted entry.now bound) (λ file. branch_entries file wanted entry.now)
        (S.view pages.old.source) out.old.items (S.view pages.new.source) out.new.items)
        (λ found. GathersNot section.now (λ file. branch_fault file section.now wanted entry.now bound) (S.view pages.old.source) found (S.view pages.new.source)) }
{
    let mut bytes = vec![in alloc; 0; BYTES]?;
    let head = match read_index(section, pages, entry, wanted, bound, &mut bytes) {
        Ok(head) => head,
        Err(found) => return Err(OpenFault::from(found)),
    };
    let count = head.entries as usize;
    let entries = &bytes[..ENTRY * count];
    for k in 0..count {
        let below = entry_at(entries, k);
        let until = end_of(entries, count, k, bound);
        if let Err(found) = gather_below(alloc, pages, section, head.level, &below, until, out) {
            return Err(found);
        }
    }
    Ok(())
}

/// Appends the entries of level 0 that an entry of this height leads to: itself at height 0, else those below its packet.
#[cycle(gather)]
fn gather_below<S: Source>(
    alloc: Global,
    pages: &mut Pages<S>,
    section: &Section,
    height: u8,
    entry: &Entry,
    bound: u64,
    out: &mut Vec<Entry>,
) -> Result<(), OpenFault>
    requires lies { LiesIn section.now (pages.old.length / page_length * payload_length) }
    requires low { entry.now.first < bound }
    ensures length { pages.new.length ≡ pages.old.length }
    ensures header { pages.new.header ≡ pages.old.header }
    ensures below { MatchResult result
        (λ _. Gathers section.now entry.now.first bound (λ file. entry_fault file section.now height entry.now bound) (λ file. entries_below file height entry.now)
        (S.view pages.old.source) out.old.items (S.view pages.new.source) out.new.items)
        (λ found. GathersNot section.now (λ file. entry_fault file section.now height entry.now bound) (S.view pages.old.source) found (S.view pages.new.source)) }
{
    if height == 0 {
        return take_target(pages, section, entry, out);
    }
    gather(alloc, pages, section, Some(height - 1), entry, bound, out)
}

/// Appends an entry of height 0, if what it names has no fault.
fn take_target<S: Source>(
    pages: &mut Pages<S>,
    section: &Section,
    entry: &Entry,
    out: &mut Vec<Entry>,
) -> Result<(), OpenFault>
    requires lies { LiesIn section.now (pages.old.length / page_length * payload_length) }
    ensures length { pages.new.length ≡ pages.old.length }
    ensures header { pages.new.header ≡ pages.old.header }
    ensures target { (bound : ℕ) → entry.now.first < bound → MatchResult result
        (λ _. Gathers section.now entry.now.first bound (λ file. entry_fault file section.now 0 entry.now bound) (λ file. entries_below file 0 entry.now)
        (S.view pages.old.source) out.old.items (S.view pages.new.source) out.new.items)
        (λ found. GathersNot section.now (λ file. entry_fault file section.now 0 entry.now bound) (S.view pages.old.source) found (S.view pages.new.source)) }
{
    match read_target(section, pages, entry) {
        Ok(_) => {
            out.push(*entry)?;
            Ok(())
        }
        Err(found) => Err(OpenFault::from(found)),
    }
}
