//! The first 16 bytes of an index packet.

ghost use Rattle.std.specs.Prelude.{◌≡◌, ◌+◌, ◌*◌, ◌/◌, ◌≤◌, ◌<◌, ◌||◌, nat_lt, true, false, MatchResult, MatchOption};
ghost use Rattle.e57_base.specs.Source.{page_length};
ghost use Rattle.e57_base.specs.Fault.{fault};
ghost use Rattle.e57_page.specs.Place.{payload_length};
ghost use Rattle.e57_layout.specs.Packets.{length_at};
ghost use Rattle.e57_packet.specs.Reading.{is_misshapen_head, index_head_at};
ghost use Rattle.e57_index.specs.OnePacket.{level_fits};
ghost use Rattle.e57_index.specs.Reading.{ReadsStart, LosesStart};
ghost use Rattle.e57_index.specs.Spans.{AsksStartSpans};

use e57_base::{Fault, Kind, ReadFault, Source};
use e57_bits::u16_at;
use e57_layout::{IndexHead, Section};
use e57_packet::read_index_head;
use e57_page::{Pages, place_of};

/// The bytes of a section's header.
const HEADER: u64 = 32;

/// The bytes before an index packet's entries.
const START: u64 = 16;

/// The highest level of a root.
const HIGHEST_LEVEL: u8 = 5;

/// The start of an index packet: its logical place, how many entries it has, and its level.
#[derive(Clone, Copy)]
pub struct Start {
    pub place: u64,
    pub entries: u16,
    pub level: u8,
}

/// Reads the first 16 bytes of the index packet at this physical offset of a section.
///
/// Refuses, in this order: `IndexShape` where the offset has no place, or the 16 bytes aren't in the section after its
/// header; `Page` for the first of their pages whose word is wrong; `IndexShape` where the type isn't 0, the length is no
/// multiple of 4 or passes the section, there is no entry or more than 2048, or the entries pass the length.
pub fn read_start<S: Source>(
    section: &Section,
    pages: &mut Pages<S>,
    offset: u64,
) -> Result<Start, ReadFault>
    requires header { section.now.start + 32 ≤ section.now.end }
    requires within { section.now.end ≤ pages.old.length / page_length * payload_length }
    ensures length { pages.new.length ≡ pages.old.length }
    ensures header { pages.new.header ≡ pages.old.header }
    ensures spans { AsksStartSpans section.now offset (S.view pages.old.source) (S.view pages.new.source) }
    ensures start { MatchResult result
        (λ start. ReadsStart (S.view pages.old.source) section.now offset start (S.view pages.new.source))
        (λ found. LosesStart (S.view pages.old.source) section.now offset found (S.view pages.new.source)) }
{
    let section = *section;
    let shape = refused(section.node, Kind::IndexShape, offset);
    let Some(place) = place_of(offset) else {
        return Err(shape);
    };
    if place < section.start + HEADER {
        return Err(shape);
    }
    if section.end - START < place {
        return Err(shape);
    }
    let mut bytes = [0; 16];
    if let Err(cut) = pages.read(place, &mut bytes) {
        return Err(cut.fault);
    }
    match judge_head(&bytes, section.end - place) {
        Some(head) => Ok(Start {
            place,
            entries: head.entries,
            level: head.level,
        }),
        None => Err(shape),
    }
}

/// The head of the index packet that begins with these bytes, unless it is misshapen or longer than the `room`.
fn judge_head(bytes: &[u8; 16], room: u64) -> Option<IndexHead>
    ensures { MatchOption result
        ((is_misshapen_head bytes.now || nat_lt room (length_at bytes.now 0)) ≡ true)
        (λ head. ((is_misshapen_head bytes.now || nat_lt room (length_at bytes.now 0)) ≡ false) × (head ≡ index_head_at bytes.now 0)) }
{
    let length = packet_length(bytes);
    match read_index_head(bytes) {
        Ok(head) => {
            if room < length {
                return None;
            }
            Some(head)
        }
        Err(_) => None,
    }
}

/// The length in bytes that these bytes state.
#[tactic(auto, unfolding(e57_layout::specs::Packets::length_at))]
fn packet_length(bytes: &[u8; 16]) -> u64
    ensures { result ≡ length_at bytes.now 0 }
{
    u16_at(bytes.as_slice(), 2) as u64 + 1
}

/// Whether a packet's level is the wanted one; that of a root, for which none is wanted, is at most the highest.
pub fn is_wanted(level: u8, wanted: Option<u8>) -> bool
    ensures { result ≡ level_fits wanted level }
{
    match wanted {
        None => level <= HIGHEST_LEVEL,
        Some(wanted) => level == wanted,
    }
}

/// The fault of the section of a node at this physical offset.
pub fn refused(node: u32, kind: Kind, at: u64) -> ReadFault
    ensures { result ≡ ReadFault.Refused (fault kind node at) }
{
    ReadFault::Refused(Fault::new(kind, node as u64, at))
}
