//! The header of a section.

ghost use Rattle.std.specs.Prelude.{◌≡◌, ◌+◌, ◌*◌, ◌/◌, ◌<◌, ◌≤◌, ◌^◌, Some, None, MatchResult};
ghost use Rattle.e57_base.specs.Source.{page_length};
ghost use Rattle.e57_page.specs.Place.{payload_length, place as the_place};
ghost use Rattle.e57_cloud.specs.Section.{section_header_fault};
ghost use Rattle.e57_section.specs.Opening.{most_records, most_fields, header_place as the_header_place, OpensSection, OpensNoSection};

use e57_base::{Fault, Kind, ReadFault, Source};
use e57_layout::{Section, SectionHeader};
use e57_packet::read_section_header;
use e57_page::{Pages, place_of};

/// The bytes of a section's header.
const HEADER: u64 = 32;

/// The id of a compressed vector section.
const SECTION_ID: u8 = 1;

/// Opens the section of a cloud (ASTM E2807, compressed vector section header): the cloud of element number `node`, whose
/// element states the physical offset `place`, `count` records from 1 to 2^40, and 1 to 512 `fields`.
///
/// Asks for the pages of the 32 bytes of its header, where they are in the file. The section lies in the file: its data begin
/// behind its header and at most at its end, and it ends at most at the end of the logical bytes.
///
/// Refuses, in this order: `SectionPlace` where the offset has no place or the header passes the file; `Page` for the
/// first page of the header whose word is wrong; `SectionPlace` where the section has fewer than 32 bytes or passes the
/// file; `SectionId` where its id isn't 1; `DataPlace` where its data have no place or don't begin there.
pub fn open_section<S: Source>(
    pages: &mut Pages<S>,
    node: u32,
    place: u64,
    count: u64,
    fields: u16,
) -> Result<Section, ReadFault>
    requires some_records { 0 < count }
    requires few_records { count ≤ most_records }
    requires some_fields { 0 < fields }
    requires few_fields { fields ≤ most_fields }
    ensures length { pages.new.length ≡ pages.old.length }
    ensures header { pages.new.header ≡ pages.old.header }
    ensures section { let size = pages.old.length / page_length * payload_length in MatchResult result
        (λ section. OpensSection (S.view pages.old.source) pages.old.kept size node place count fields section (S.view pages.new.source) pages.new.kept)
        (λ found. OpensNoSection (S.view pages.old.source) pages.old.kept size node place found (S.view pages.new.source) pages.new.kept) }
{
    let size = pages.logical_len();
    let Some(start) = header_place(size, place) else {
        return Err(ReadFault::Refused(Fault::new(Kind::SectionPlace, node as u64, place)));
    };
    let mut bytes = [0; 32];
    if let Err(cut) = pages.read(start, &mut bytes) {
        return Err(cut.fault);
    }
    let header = read_section_header(&bytes);
    match judge_header(node, place, size, start, &header) {
        Ok(data_place) => Ok(Section {
            node,
            fields,
            start,
            end: start + header.length,
            data_place,
            index: header.index,
            count,
        }),
        Err(found) => Err(ReadFault::Refused(found)),
    }
}

/// The place of the header at a physical offset, where its 32 bytes are among the `size` logical bytes.
fn header_place(size: u64, place: u64) -> Option<u64>
    ensures { result ≡ the_header_place size place }
{
    let start = place_of(place)?;
    if size < HEADER || size - HEADER < start {
        None
    } else {
        Some(start)
    }
}

/// The place of the data of a section whose header stands at `start` in a file of `size` logical bytes; or the header's
/// first fault.
#[tactic(auto, unfolding(e57_cloud::specs::Section::section_header_fault))]
fn judge_header(
    node: u32,
    place: u64,
    size: u64,
    start: u64,
    header: &SectionHeader,
) -> Result<u64, Fault>
    requires { start ≤ size }
    ensures { MatchResult result
        (λ data_place. (section_header_fault node place size start header.now ≡ None) × (the_place header.now.data_place ≡ Some data_place))
        (λ found. section_header_fault node place size start header.now ≡ Some found) }
{
    let node = node as u64;
    if header.length < HEADER || header.length > size - start {
        return Err(Fault::new(Kind::SectionPlace, node, place));
    }
    if header.id != SECTION_ID {
        return Err(Fault::new(Kind::SectionId, node, header.id as u64));
    }
    let outside = Fault::new(Kind::DataPlace, node, header.data_place);
    let Some(data_place) = place_of(header.data_place) else {
        return Err(outside);
    };
    if data_place < start || data_place - start < HEADER || header.length < data_place - start {
        return Err(outside);
    }
    Ok(data_place)
}
