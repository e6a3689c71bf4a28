//! What an entry of height 0 names.

ghost use Rattle.std.specs.Prelude.{◌≡◌, ◌+◌, ◌*◌, ◌/◌, ◌≤◌, ◌<◌, ◌%◌, ◌==◌, ◌&&◌, length, MatchResult};
ghost use Rattle.e57_base.specs.Source.{page_length};
ghost use Rattle.e57_bits.specs.Bits.{number};
ghost use Rattle.e57_page.specs.Place.{payload_length};
ghost use Rattle.e57_cloud.specs.Index.{is_target as the_is_target};
ghost use Rattle.e57_index.specs.Reading.{ReadsTarget, LosesTarget};
ghost use Rattle.e57_index.specs.Spans.{AsksTargetSpans};

use crate::start::refused;
use e57_base::{Kind, ReadFault, Source};
use e57_layout::{Entry, Section};
use e57_page::{Pages, place_of};

/// The bytes of a packet that tell whether it begins a chunk.
const HEAD: u64 = 4;

/// The type of a data packet.
const DATA_PACKET: u8 = 1;

/// Judges what an entry of height 0 of a section names, by the four bytes there, and answers its logical place.
///
/// Refuses, in this order: `IndexTarget` where the offset has no place, lies before the data or has fewer than four bytes
/// of the section left; `Page` for the first page of the four bytes whose word is wrong; `IndexTarget` where they don't
/// begin a data packet, or one that doesn't begin a chunk though the entry's record isn't 0.
pub fn read_target<S: Source>(
    section: &Section,
    pages: &mut Pages<S>,
    entry: &Entry,
) -> Result<u64, ReadFault>
    requires start { section.now.start ≤ section.now.data_place }
    requires header { section.now.start + 32 ≤ section.now.end }
    requires within { section.now.end ≤ pages.old.length / page_length * payload_length }
    ensures length { pages.new.length ≡ pages.old.length }
    ensures header { pages.new.header ≡ pages.old.header }
    ensures spans { AsksTargetSpans section.now entry.now (S.view pages.old.source) (S.view pages.new.source) }
    ensures target { MatchResult result
        (λ place. ReadsTarget (S.view pages.old.source) section.now entry.now place (S.view pages.new.source))
        (λ found. LosesTarget (S.view pages.old.source) section.now entry.now found (S.view pages.new.source)) }
{
    let section = *section;
    let entry = *entry;
    let wrong = refused(section.node, Kind::IndexTarget, entry.first);
    let Some(place) = place_of(entry.place) else {
        return Err(wrong);
    };
    if place < section.data_place {
        return Err(wrong);
    }
    if section.end - HEAD < place {
        return Err(wrong);
    }
    let mut bytes = [0; 4];
    if let Err(cut) = pages.read(place, &mut bytes) {
        return Err(cut.fault);
    }
    if !is_target(&bytes, &entry) {
        return Err(wrong);
    }
    Ok(place)
}

/// Whether these bytes begin a data packet, and a chunk, unless the entry's record is 0.
#[tactic(auto, unfolding(e57_layout::specs::Packets::sort_at))]
fn is_target(bytes: &[u8; 4], entry: &Entry) -> bool
    ensures { result ≡ the_is_target bytes.now entry.now 0 }
{
    let bytes = bytes.as_slice();
    let sort = u8_at(bytes, 0);
    let flags = u8_at(bytes, 1);
    sort == DATA_PACKET && (flags % 2 == 1 || entry.first == 0)
}

/// The byte at `at`, as a number of 8 bits.
fn u8_at(bytes: &[u8], at: usize) -> u8
    requires { at < length bytes.now }
    ensures { result ≡ number bytes.now (8 * at) 8 }
{
    bytes[at]
}
