//! The first four bytes of a packet.

ghost use Rattle.std.specs.Prelude.{◌≡◌, ◌+◌, ◌*◌, ◌/◌, ◌≤◌, MatchResult};
ghost use Rattle.e57_base.specs.Source.{page_length};
ghost use Rattle.e57_page.specs.Place.{payload_length};
ghost use Rattle.e57_section.specs.Steps.{ReadsHead, LosesHead};

use e57_base::{Fault, Kind, ReadFault, Source};
use e57_layout::{PacketHead, Section};
use e57_packet::read_packet_head;
use e57_page::Pages;

/// Reads the first four bytes of the packet at place `at` of a section.
///
/// Refuses, in this order: `Page` for the first of their pages whose word is wrong; `PacketType` where the type is above 2;
/// `PacketLength` where the length isn't a multiple of 4 or passes the section's end.
pub fn read_head<S: Source>(
    section: &Section,
    pages: &mut Pages<S>,
    at: u64,
) -> Result<PacketHead, ReadFault>
    requires within { section.now.end ≤ pages.old.length / page_length * payload_length }
    requires there { at + 4 ≤ section.now.end }
    ensures length { pages.new.length ≡ pages.old.length }
    ensures header { pages.new.header ≡ pages.old.header }
    ensures head { MatchResult result
        (λ head. ReadsHead (S.view pages.old.source) pages.old.kept section.now at head (S.view pages.new.source) pages.new.kept)
        (λ found. LosesHead (S.view pages.old.source) pages.old.kept section.now at found (S.view pages.new.source) pages.new.kept) }
{
    let section = *section;
    let mut bytes = [0; 4];
    if let Err(cut) = pages.read(at, &mut bytes) {
        return Err(cut.fault);
    }
    match read_packet_head(&bytes) {
        Ok(head) => {
            if head.length as u64 > section.end - at {
                return Err(refused(section.node, Kind::PacketLength, at));
            }
            Ok(head)
        }
        Err(kind) => Err(refused(section.node, kind, at)),
    }
}

/// The fault of the packet at place `at` of the section of a node.
pub fn refused(node: u32, kind: Kind, at: u64) -> ReadFault
    ensures { result ≡ ReadFault.Refused (record { kind = kind; a = node; b = at }) }
{
    ReadFault::Refused(Fault::new(kind, node as u64, at))
}
