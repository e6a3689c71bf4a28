//! The bytes of a data packet.

ghost use Rattle.std.specs.Prelude.{◌≡◌, ◌+◌, ◌*◌, ◌/◌, ◌<◌, ◌≤◌, length, take, MatchResult};
ghost use Rattle.e57_base.specs.Source.{page_length};
ghost use Rattle.e57_page.specs.Place.{payload_length};
ghost use Rattle.e57_section.specs.Steps.{ReadsData, LosesData};

use crate::head::refused;
use e57_base::{ReadFault, Source};
use e57_layout::Section;
use e57_packet::read_data_lengths;
use e57_page::Pages;

/// Reads all bytes of the data packet at place `at` of a section, of so many bytes, to the front of `bytes`, and sets the end of
/// each of its streams, one for each field, at the front of `ends`.
///
/// Refuses, in this order: `Page` for the first of its pages whose word is wrong; `DataShape` where it has fewer than 6
/// bytes, another number of streams, or streams that pass the packet.
pub fn read_data<S: Source>(
    section: &Section,
    pages: &mut Pages<S>,
    at: u64,
    packet_length: u32,
    bytes: &mut [u8],
    ends: &mut [u32],
) -> Result<(), ReadFault>
    requires within { at + packet_length ≤ pages.old.length / page_length * payload_length }
    requires some { 0 < section.now.fields }
    requires few { section.now.fields ≤ 512 }
    requires bytes { packet_length ≤ length bytes.old }
    requires ends { section.now.fields ≤ length ends.old }
    ensures length { pages.new.length ≡ pages.old.length }
    ensures header { pages.new.header ≡ pages.old.header }
    ensures data { MatchResult result
        (λ _. ReadsData (S.view pages.old.source) pages.old.kept at packet_length section.now.fields (take packet_length bytes.new) (take section.now.fields ends.new) (S.view pages.new.source) pages.new.kept)
        (λ found. LosesData (S.view pages.old.source) pages.old.kept section.now.node at packet_length section.now.fields found (S.view pages.new.source) pages.new.kept) }
{
    let node = section.node;
    let fields = section.fields;
    let bytes = &mut bytes[..packet_length as usize];
    let ends = &mut ends[..fields as usize];
    if let Err(cut) = pages.read(at, bytes) {
        return Err(cut.fault);
    }
    match read_data_lengths(bytes, fields, ends) {
        Ok(()) => Ok(()),
        Err(kind) => Err(refused(node, kind, at)),
    }
}
