//! The head and the entries of an index packet.

ghost use Rattle.std.specs.Prelude.{◌≡◌, ◌+◌, ◌≤◌, ◌<◌, ℕ, List, true, false, MatchResult};
ghost use Rattle.e57_layout.specs.Standing.{Stands};
ghost use Rattle.e57_layout.specs.IndexPackets.{index_head, entry_bytes, entry_at};
ghost use Rattle.e57_packet.specs.Reading.{is_misshapen_head, index_head_at};

use crate::numbers::{put, u8_at};
use e57_base::Kind;
use e57_bits::{u16_at, u64_at};
use e57_layout::{Entry, IndexHead};

/// The bytes before an index packet's entries.
const INDEX_HEAD: u32 = 16;

/// The bytes of an entry.
const ENTRY: u32 = 16;

/// How many entries an index packet has at most.
const MOST_ENTRIES: u16 = 2048;

/// Reads the first 16 bytes of an index packet (ASTM E2807, index packets), the packet's first four among them.
///
/// Refuses `IndexShape` where the packet's type isn't 0, its length is no multiple of 4, it has no entry or more than
/// 2048, or its entries pass its length. Its level and its place in the section aren't judged.
#[tactic(auto, unfolding(crate::specs::Reading::is_misshapen_head))]
pub fn read_index_head(bytes: &[u8; 16]) -> Result<IndexHead, Kind>
    ensures { MatchResult result
        (λ head. (is_misshapen_head bytes.now ≡ false) × (head ≡ index_head_at bytes.now 0))
        (λ kind. (is_misshapen_head bytes.now ≡ true) × (kind ≡ Kind.IndexShape)) }
{
    let bytes = bytes.as_slice();
    let length = u16_at(bytes, 2) as u32 + 1;
    let entries = u16_at(bytes, 4);
    if u8_at(bytes, 0) != 0 || length % 4 != 0 {
        return Err(Kind::IndexShape);
    }
    if entries == 0 || entries > MOST_ENTRIES || length < INDEX_HEAD + ENTRY * entries as u32 {
        return Err(Kind::IndexShape);
    }
    Ok(IndexHead {
        entries,
        level: u8_at(bytes, 6),
    })
}

/// Writes the 12 bytes of an index packet between its first four and its entries (ASTM E2807, index packets), with zeros
/// as its reserved bytes; it has 1 to 2048 entries. Wherever these bytes stand behind a packet's first four, they are read
/// as this head.
pub fn write_index_head(head: &IndexHead, out: &mut [u8; 12])
    requires some { 0 < head.now.entries }
    requires most { head.now.entries ≤ 2048 }
    ensures bytes { out.new ≡ index_head head.now }
    ensures reads { (b : List ℕ) (q : ℕ) → Stands b (q + 4) out.new → index_head_at b q ≡ head.now }
{
    let out = out.as_mut_slice();
    put(out, 0, &head.entries.to_le_bytes());
    put(out, 2, &head.level.to_le_bytes());
    put(out, 3, &[0; 9]);
}

/// Reads an entry of an index packet (ASTM E2807, index packets); nothing is judged.
pub fn read_entry(bytes: &[u8; 16]) -> Entry
    ensures { result ≡ entry_at bytes.now 0 }
{
    let bytes = bytes.as_slice();
    Entry {
        first: u64_at(bytes, 0),
        place: u64_at(bytes, 8),
    }
}

/// Writes an entry of an index packet (ASTM E2807, index packets). Wherever these bytes stand, they are read as this entry.
pub fn write_entry(entry: &Entry, out: &mut [u8; 16])
    ensures bytes { out.new ≡ entry_bytes entry.now }
    ensures reads { (b : List ℕ) (q : ℕ) → Stands b q out.new → entry_at b q ≡ entry.now }
{
    let out = out.as_mut_slice();
    put(out, 0, &entry.first.to_le_bytes());
    put(out, 8, &entry.place.to_le_bytes());
}
