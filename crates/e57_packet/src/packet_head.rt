//! The four bytes with which each packet begins.

ghost use Rattle.std.specs.Prelude.{◌≡◌, ◌+◌, ◌≤◌, ◌<◌, ◌%◌, ℕ, List, Some, None, MatchResult};
ghost use Rattle.e57_layout.specs.Standing.{Stands};
ghost use Rattle.e57_layout.specs.Packets.{packet_head, packet_head_at};
ghost use Rattle.e57_packet.specs.Reading.{head_kind};

use crate::numbers::{put, u8_at};
use e57_base::Kind;
use e57_bits::u16_at;
use e57_layout::PacketHead;

/// The greatest packet type: 0 is an index packet, 1 a data packet, 2 an empty packet.
const LAST_SORT: u8 = 2;

/// Each packet has a multiple of this many bytes.
const UNIT: u32 = 4;

/// Reads the first four bytes of a packet (ASTM E2807, packets).
///
/// Refuses `PacketType` where the type is above 2, else `PacketLength` where the length isn't a multiple of 4 bytes.
#[tactic(auto, unfolding(e57_layout::specs::Packets::packet_head_at, e57_layout::specs::Packets::sort_at, e57_layout::specs::Packets::length_at))]
pub fn read_packet_head(bytes: &[u8; 4]) -> Result<PacketHead, Kind>
    ensures { MatchResult result
        (λ head. (head_kind bytes.now ≡ None) × (head ≡ packet_head_at bytes.now 0))
        (λ kind. head_kind bytes.now ≡ Some kind) }
{
    let bytes = bytes.as_slice();
    let sort = u8_at(bytes, 0);
    let length = u16_at(bytes, 2) as u32 + 1;
    if sort > LAST_SORT {
        return Err(Kind::PacketType);
    }
    if length % UNIT != 0 {
        return Err(Kind::PacketLength);
    }
    Ok(PacketHead {
        sort,
        flags: u8_at(bytes, 1),
        length,
    })
}

/// Writes the first four bytes of a packet (ASTM E2807, packets): its type is 0, 1 or 2, and its length a multiple of 4
/// from 4 to 65536 bytes. Wherever these bytes stand, they are read as this head.
pub fn write_packet_head(head: &PacketHead, out: &mut [u8; 4])
    requires sort { head.now.sort ≤ 2 }
    requires some { 0 < head.now.length }
    requires most { head.now.length ≤ 65536 }
    requires whole { head.now.length % 4 ≡ 0 }
    ensures bytes { out.new ≡ packet_head head.now }
    ensures reads { (b : List ℕ) (q : ℕ) → Stands b q out.new → packet_head_at b q ≡ head.now }
{
    let out = out.as_mut_slice();
    let stored = (head.length - 1) as u16;
    put(out, 0, &head.sort.to_le_bytes());
    put(out, 1, &head.flags.to_le_bytes());
    put(out, 2, &stored.to_le_bytes());
}
