//! The lengths of the streams of a data packet.

ghost use Rattle.std.specs.Prelude.{◌≡◌, ◌+◌, ◌*◌, ◌≤◌, ◌<◌, ℕ, List, length, sum, Some, None, true, false, MatchResult};
ghost use Rattle.e57_layout.specs.Standing.{Stands};
ghost use Rattle.e57_layout.specs.Packets.{stream_lengths, stream_count_at, lengths_at};
ghost use Rattle.e57_packet.specs.Reading.{is_misshapen, stream_ends, IsLengths};

use crate::numbers::put;
use e57_base::Kind;
use e57_bits::u16_at;

/// Where the lengths of a data packet's streams begin.
const LENGTHS: usize = 6;

/// Where the number of a data packet's streams stands.
const STREAM_COUNT: usize = 4;

/// Sets the end of each stream inside a data packet of 1 to 512 fields (ASTM E2807, data packets). `packet` is the whole
/// packet, and `ends` has one place for each field.
///
/// Refuses `DataShape` where the packet has fewer than 6 bytes, the number of streams isn't that of the fields, or the
/// streams pass the packet; `ends` is then as it was.
#[tactic(auto, unfolding(crate::specs::Reading::is_misshapen))]
pub fn read_data_lengths(packet: &[u8], fields: u16, ends: &mut [u32]) -> Result<(), Kind>
    requires some { 0 < fields }
    requires most { fields ≤ 512 }
    requires ends { length ends.old ≡ fields }
    ensures { MatchResult result
        (λ _. (is_misshapen packet.now fields ≡ false) × (ends.new ≡ stream_ends (6 + 2 * fields) (lengths_at packet.now 6 fields)))
        (λ kind. (is_misshapen packet.now fields ≡ true) × (kind ≡ Kind.DataShape) × (ends.new ≡ ends.old)) }
{
    if packet.len() < LENGTHS || u16_at(packet, STREAM_COUNT) != fields {
        return Err(Kind::DataShape);
    }
    let begin = LENGTHS + 2 * fields as usize;
    if packet.len() < begin || packet.len() - begin < lengths_sum(packet, fields) {
        return Err(Kind::DataShape);
    }
    set_ends(packet, ends);
    Ok(())
}

/// The number of bytes of all streams together.
fn lengths_sum(packet: &[u8], fields: u16) -> usize
    requires most { fields ≤ 512 }
    requires room { 6 + 2 * fields ≤ length packet.now }
    ensures { result ≡ sum (lengths_at packet.now 6 fields) }
{
    let mut total = 0;
    for k in 0..fields as usize {
        total += u16_at(packet, LENGTHS + 2 * k) as usize;
    }
    total
}

/// Sets the end of each stream inside the packet.
fn set_ends(packet: &[u8], ends: &mut [u32])
    requires most { length ends.old ≤ 512 }
    requires room { 6 + 2 * length ends.old ≤ length packet.now }
    ensures { ends.new ≡ stream_ends (6 + 2 * length ends.old) (lengths_at packet.now 6 (length ends.old)) }
{
    let mut end = (LENGTHS + 2 * ends.len()) as u32;
    for k in 0..ends.len() {
        end += u16_at(packet, LENGTHS + 2 * k) as u32;
        ends[k] = end;
    }
}

/// Writes the number of streams of a data packet, 1 to 512, and the length of each in bytes (ASTM E2807, data packets);
/// `out` has 2 bytes and 2 for each. Wherever these bytes stand behind a packet's first four, they are read as these
/// lengths.
pub fn write_data_lengths(lengths: &[u16], out: &mut [u8])
    requires some { 0 < length lengths.now }
    requires most { length lengths.now ≤ 512 }
    requires room { length out.old ≡ 2 + 2 * length lengths.now }
    ensures bytes { out.new ≡ stream_lengths lengths.now }
    ensures reads { (b : List ℕ) (q : ℕ) → Stands b (q + 4) out.new → IsLengths b q lengths.now }
{
    let count = lengths.len() as u16;
    put(out, 0, &count.to_le_bytes());
    for k in 0..lengths.len() {
        let length = lengths[k];
        put(out, 2 + 2 * k, &length.to_le_bytes());
    }
}
