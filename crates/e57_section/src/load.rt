//! Loading a packet.

ghost use Rattle.std.specs.Prelude.{◌≡◌, ◌+◌, ◌*◌, ◌/◌, ◌≤◌, MatchResult};
ghost use Rattle.e57_base.specs.Source.{page_length};
ghost use Rattle.e57_page.specs.Place.{payload_length};
ghost use Rattle.e57_section.specs.Opening.{LiesIn};
ghost use Rattle.e57_section.specs.Loading.{LoadsPacket, LosesPacket};

use crate::data::read_data;
use crate::head::read_head;
use crate::packet::Packet;
use e57_base::{ReadFault, Source};
use e57_layout::Section;
use e57_page::Pages;

/// A packet that was loaded, by its type, with its length in bytes (ASTM E2807, packets).
#[derive(Clone, Copy, Debug, PartialEq, Eq)]
pub enum Loaded {
    /// A data packet, and whether its flag says that a chunk begins here. The buffer holds its streams.
    Stream { length: u32, restart: bool },
    /// An index packet.
    Index { length: u32 },
    /// An empty packet.
    Empty { length: u32 },
}

/// The type of an index packet.
const INDEX_PACKET: u8 = 0;

/// The type of a data packet.
const DATA_PACKET: u8 = 1;

/// Loads the packet at place `at` of a section, of which at least four bytes stand from there: of a data packet its streams
/// into `buf`. After any other answer `buf` holds no packet.
///
/// Asks for the pages of its first four bytes and then, if it is a data packet whose first four bytes have no fault, for
/// those of all its bytes; not for pages that are kept.
///
/// Refuses, in this order: `Page` for the first page of its first four bytes whose word is wrong; `PacketType` where the
/// type is above 2; `PacketLength` where the length isn't a multiple of 4 or passes the section's end; and of a data packet
/// `Page` for the first of its pages whose word is wrong, then `DataShape` where it has fewer than 6 bytes, not one stream
/// for each field, or streams that pass the packet.
pub fn load_packet<S: Source>(
    section: &Section,
    pages: &mut Pages<S>,
    at: u64,
    buf: &mut Packet,
) -> Result<Loaded, ReadFault>
    requires lies { LiesIn section.now (pages.old.length / page_length * payload_length) }
    requires there { at + 4 ≤ section.now.end }
    ensures length { pages.new.length ≡ pages.old.length }
    ensures header { pages.new.header ≡ pages.old.header }
    ensures packet { MatchResult result
        (λ answer. LoadsPacket (S.view pages.old.source) pages.old.kept section.now at answer buf.new (S.view pages.new.source) pages.new.kept)
        (λ found. LosesPacket (S.view pages.old.source) pages.old.kept section.now at found buf.new (S.view pages.new.source) pages.new.kept) }
{
    let section = *section;
    let size = pages.logical_len();
    prove!(section.end <= size);
    buf.fields = None;
    let head = match read_head(&section, pages, at) {
        Ok(head) => head,
        Err(found) => return Err(found),
    };
    let length = head.length;
    if head.sort == INDEX_PACKET {
        return Ok(Loaded::Index { length });
    }
    if head.sort != DATA_PACKET {
        return Ok(Loaded::Empty { length });
    }
    if let Err(found) = read_data(&section, pages, at, length, &mut buf.bytes, &mut buf.ends) {
        return Err(found);
    }
    buf.fields = Some(section.fields);
    Ok(Loaded::Stream {
        length,
        restart: head.flags % 2 == 1,
    })
}
