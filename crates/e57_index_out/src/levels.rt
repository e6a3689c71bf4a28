//! The packets of an index, level by level.

ghost use Rattle.std.specs.Prelude.{◌≡◌, ◌+◌, ◌-◌, ◌*◌, ◌<◌, ◌≤◌, false, true, length, MatchResult};
ghost use Rattle.std.specs.List.{flat_map};
ghost use Rattle.e57_layout.specs.IndexPackets.{entry_bytes, index_packet};
ghost use Rattle.e57_layout.specs.Written.{entry_runs, index_spelled, level_spelled, most_levels, packets_bytes, physical, root_place};
ghost use Rattle.e57_page_out.specs.Sequences.{Loses, Puts};
ghost use Rattle.e57_page_out.specs.Writing.{IsBeingWritten, most_bytes};
ghost use Rattle.e57_index_out.specs.Levels.{IsLevel, heads, level_entries, level_part, packet_entries};

use crate::level::{Level, MOST_ENTRIES, above, entry_of};
use e57_base::{PutFault, Target};
use e57_layout::{Entry, IndexHead, PacketHead};
use e57_packet::{write_entry, write_index_head, write_packet_head};
use e57_page_out::PagesOut;

/// The bytes of an index packet before its entries, and those of an entry.
const UNIT: u32 = 16;

/// Puts the packets of a level and of those above it. Answers the physical place of the root.
pub fn write_levels<T: Target>(
    chunks: &[Entry],
    level: &Level,
    out: &mut PagesOut<T>,
) -> Result<u64, PutFault>
    requires unspent { out.old.is_spent ≡ false }
    requires level { IsLevel (length chunks.now) level.now }
    ensures { let packets = packets_bytes (index_spelled (most_levels - level.now.number) level.now.number out.old.size (level_entries chunks.now level.now)) in
        MatchResult result
        (λ root. Puts T.view out.old packets out.new × (root ≡ physical (root_place (most_levels - level.now.number) level.now.number out.old.size (level_entries chunks.now level.now))))
        (λ fault. (out.new.is_spent ≡ true) × Loses T.view out.old (most_bytes < out.old.size + length packets) fault (T.view out.new.target)) }
{
    let begin = out.size();
    let place = out.place();
    if let Err(fault) = write_level(chunks, level, out) {
        return Err(fault);
    }
    if level.count <= MOST_ENTRIES {
        return Ok(place);
    }
    write_levels(chunks, &above(level, begin), out)
}

/// Puts the packets of a level.
fn write_level<T: Target>(
    chunks: &[Entry],
    level: &Level,
    out: &mut PagesOut<T>,
) -> Result<(), PutFault>
    requires state { IsBeingWritten T.view out.old }
    requires level { IsLevel (length chunks.now) level.now }
    ensures { let packets = packets_bytes (level_spelled level.now.number (entry_runs (level_entries chunks.now level.now))) in
        MatchResult result
        (λ _. Puts T.view out.old packets out.new)
        (λ fault. (out.new.is_spent ≡ true) × Loses T.view out.old (most_bytes < out.old.size + length packets) fault (T.view out.new.target)) }
{
    for j in 0..level.count.div_ceil(MOST_ENTRIES) {
        if let Err(fault) = write_packet(chunks, level, j, out) {
            return Err(fault);
        }
    }
    Ok(())
}

/// Puts packet `j` of a level.
fn write_packet<T: Target>(
    chunks: &[Entry],
    level: &Level,
    j: usize,
    out: &mut PagesOut<T>,
) -> Result<(), PutFault>
    requires state { IsBeingWritten T.view out.old }
    requires level { IsLevel (length chunks.now) level.now }
    requires within { 2048 * j < level.now.count }
    ensures { let packet = index_packet level.now.number (packet_entries chunks.now level.now j) in
        MatchResult result
        (λ _. Puts T.view out.old packet out.new)
        (λ fault. (out.new.is_spent ≡ true) × Loses T.view out.old (most_bytes < out.old.size + length packet) fault (T.view out.new.target)) }
{
    let first = MOST_ENTRIES * j;
    let count = MOST_ENTRIES.min(level.count - first);
    if let Err(fault) = write_heads(level.number, count as u16, out) {
        return Err(fault);
    }
    write_entries(chunks, level, first, count, out)
}

/// Puts the 16 bytes before the entries of a packet.
fn write_heads<T: Target>(level: u8, entries: u16, out: &mut PagesOut<T>) -> Result<(), PutFault>
    requires unspent { out.old.is_spent ≡ false }
    requires some { 0 < entries }
    requires most { entries ≤ 2048 }
    ensures { MatchResult result
        (λ _. Puts T.view out.old (heads level entries) out.new)
        (λ fault. (out.new.is_spent ≡ true) × Loses T.view out.old (most_bytes < out.old.size + 16) fault (T.view out.new.target)) }
{
    let mut head = [0; 4];
    let length = UNIT + UNIT * entries as u32;
    write_packet_head(
        &PacketHead {
            sort: 0,
            flags: 0,
            length,
        },
        &mut head,
    );
    let mut index = [0; 12];
    write_index_head(&IndexHead { entries, level }, &mut index);
    if let Err(fault) = out.put(&head) {
        return Err(fault);
    }
    if let Err(fault) = out.put(&index) {
        return Err(fault);
    }
    Ok(())
}

/// Puts `count` entries of a level, from entry `first` on.
fn write_entries<T: Target>(
    chunks: &[Entry],
    level: &Level,
    first: usize,
    count: usize,
    out: &mut PagesOut<T>,
) -> Result<(), PutFault>
    requires state { IsBeingWritten T.view out.old }
    requires level { IsLevel (length chunks.now) level.now }
    requires within { first + count ≤ level.now.count }
    ensures { let entries = flat_map entry_bytes (level_part chunks.now level.now first count) in
        MatchResult result
        (λ _. Puts T.view out.old entries out.new)
        (λ fault. (out.new.is_spent ≡ true) × Loses T.view out.old (most_bytes < out.old.size + length entries) fault (T.view out.new.target)) }
{
    for k in first..first + count {
        let mut bytes = [0; 16];
        write_entry(&entry_of(chunks, level, k), &mut bytes);
        if let Err(fault) = out.put(&bytes) {
            return Err(fault);
        }
    }
    Ok(())
}
