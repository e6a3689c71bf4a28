//! The packets of a chunk, put from its fields.

ghost use Rattle.std.specs.Prelude.{◌≡◌, ◌+◌, ◌*◌, ◌^◌, ◌<◌, ◌≤◌, true, false, length, map, MatchResult};
ghost use Rattle.e57_layout.specs.Packets.{data_packet, total};
ghost use Rattle.e57_layout.specs.Packing.{fits_packet, poured};
ghost use Rattle.e57_layout.specs.Written.{flagged, packets_bytes};
ghost use Rattle.e57_page_out.specs.Sequences.{Loses, Puts};
ghost use Rattle.e57_page_out.specs.Writing.{IsBeingWritten, most_bytes};
ghost use Rattle.e57_chunk_out.specs.Waiting.{cleared};
ghost use Rattle.e57_chunk_out.specs.Cutting.{streams_of};

use crate::field_out::FieldOut;
use crate::fields::clear_all;
use crate::packet::{put_packet, room_in_packet};
use e57_base::{PutFault, Target};
use e57_page_out::PagesOut;

/// Puts the groups that are under way as one packet, and empties the streams.
pub fn put_run<T: Target>(
    fields: &mut [FieldOut],
    restart: bool,
    out: &mut PagesOut<T>,
) -> Result<(), PutFault>
    requires unspent { out.old.is_spent ≡ false }
    requires some { 0 < length fields.old }
    requires few { length fields.old ≤ 512 }
    requires fits { fits_packet (streams_of fields.old) ≡ true }
    ensures { let packet = data_packet restart (streams_of fields.old) in
        MatchResult result
        (λ _. (fields.new ≡ map cleared fields.old) × Puts T.view out.old packet out.new)
        (λ fault. (out.new.is_spent ≡ true) × Loses T.view out.old (most_bytes < out.old.size + length packet) fault (T.view out.new.target)) }
{
    if let Err(fault) = put_packet(fields, 0, restart, out) {
        return Err(fault);
    }
    clear_all(fields);
    Ok(())
}

/// Puts the streams of a group that is larger than a packet, in as many packets as it takes, and empties the streams.
pub fn pour<T: Target>(
    fields: &mut [FieldOut],
    restart: bool,
    out: &mut PagesOut<T>,
) -> Result<(), PutFault>
    requires state { IsBeingWritten T.view out.old }
    requires some { 0 < length fields.old }
    requires few { length fields.old ≤ 512 }
    requires limit { total (streams_of fields.old) ≤ 2 ^ 45 }
    ensures { let packets = packets_bytes (flagged restart (poured (streams_of fields.old))) in
        MatchResult result
        (λ _. (fields.new ≡ map cleared fields.old) × Puts T.view out.old packets out.new)
        (λ fault. (out.new.is_spent ≡ true) × Loses T.view out.old (most_bytes < out.old.size + length packets) fault (T.view out.new.target)) }
{
    if let Err(fault) = pour_streams(fields, restart, out) {
        return Err(fault);
    }
    clear_all(fields);
    Ok(())
}

/// Puts the streams in as many packets as it takes.
fn pour_streams<T: Target>(
    fields: &[FieldOut],
    restart: bool,
    out: &mut PagesOut<T>,
) -> Result<(), PutFault>
    requires state { IsBeingWritten T.view out.old }
    requires some { 0 < length fields.now }
    requires few { length fields.now ≤ 512 }
    requires limit { total (streams_of fields.now) ≤ 2 ^ 45 }
    ensures { let packets = packets_bytes (flagged restart (poured (streams_of fields.now))) in
        MatchResult result
        (λ _. Puts T.view out.old packets out.new)
        (λ fault. (out.new.is_spent ≡ true) × Loses T.view out.old (most_bytes < out.old.size + length packets) fault (T.view out.new.target)) }
{
    let all = total_size(fields);
    let room = room_in_packet(fields.len());
    let mut skip = 0;
    let mut first = restart;
    while skip < all {
        if let Err(fault) = put_packet(fields, skip, first, out) {
            return Err(fault);
        }
        first = false;
        skip += room;
    }
    Ok(())
}

/// How many bytes the streams have.
fn total_size(fields: &[FieldOut]) -> usize
    requires limit { total (streams_of fields.now) ≤ 2 ^ 45 }
    ensures { result ≡ total (streams_of fields.now) }
{
    let mut size = 0;
    for k in 0..fields.len() {
        size += fields[k].stream().len();
    }
    size
}
