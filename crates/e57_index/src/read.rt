//! The reading of one index packet.

ghost use Rattle.std.specs.Prelude.{◌≡◌, ◌+◌, ◌*◌, ◌/◌, ◌≤◌, ◌<◌, length, take, MatchResult};
ghost use Rattle.e57_base.specs.Source.{page_length};
ghost use Rattle.e57_page.specs.Place.{payload_length};
ghost use Rattle.e57_index.specs.Reading.{most_entry_bytes, ReadsIndex, LosesIndex};
ghost use Rattle.e57_index.specs.Spans.{AsksPacketSpans};

use crate::entries::is_ordered;
use crate::start::{is_wanted, read_start, refused};
use e57_base::{Kind, ReadFault, Source};
use e57_layout::{Entry, IndexHead, Section};
use e57_page::Pages;

/// The bytes before an index packet's entries.
const START: u64 = 16;

/// The bytes of an entry.
const ENTRY: usize = 16;

/// Reads the index packet of a section to which an entry leads, its entries to the front of `bytes`, which have room for
/// 2048. Its level is to be the wanted one; that of the root, for which none is wanted, is at most 5. Its records begin
/// with the entry's, rise, and are below the bound.
///
/// Refuses, in this order: what `read_start` refuses; `IndexShape` for another level; `Page` for the first page of the
/// entries whose word is wrong; `IndexOrder` where the records aren't in order.
pub fn read_index<S: Source>(
    section: &Section,
    pages: &mut Pages<S>,
    entry: &Entry,
    wanted: Option<u8>,
    bound: u64,
    bytes: &mut [u8],
) -> Result<IndexHead, ReadFault>
    requires header { section.now.start + 32 ≤ section.now.end }
    requires within { section.now.end ≤ pages.old.length / page_length * payload_length }
    requires room { length bytes.old ≡ most_entry_bytes }
    ensures length { pages.new.length ≡ pages.old.length }
    ensures header { pages.new.header ≡ pages.old.header }
    ensures spans { AsksPacketSpans section.now wanted entry.now (S.view pages.old.source) (S.view pages.new.source) }
    ensures index { MatchResult result
        (λ head. ReadsIndex (S.view pages.old.source) section.now wanted entry.now bound head (take (16 * head.entries) bytes.new) (S.view pages.new.source))
        (λ found. LosesIndex (S.view pages.old.source) section.now wanted entry.now bound found (S.view pages.new.source)) }
{
    let section = *section;
    let entry = *entry;
    let size = pages.logical_len();
    prove!(section.end <= size);
    let start = match read_start(&section, pages, entry.place) {
        Ok(start) => start,
        Err(found) => return Err(found),
    };
    if !is_wanted(start.level, wanted) {
        return Err(refused(section.node, Kind::IndexShape, entry.place));
    }
    let count = start.entries as usize;
    let entries = &mut bytes[..ENTRY * count];
    if let Err(cut) = pages.read(start.place + START, entries) {
        return Err(cut.fault);
    }
    if !is_ordered(entries, count, entry.first, bound) {
        return Err(refused(section.node, Kind::IndexOrder, entry.place));
    }
    Ok(IndexHead {
        entries: start.entries,
        level: start.level,
    })
}
