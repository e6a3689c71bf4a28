//! Data packets, put straight from the fields.

ghost use Rattle.std.specs.Prelude.{◌≡◌, ◌+◌, ◌-◌, ◌*◌, ◌%◌, ◌<◌, ◌≤◌, ◌++◌, true, false, length, take, drop, MatchResult};
ghost use Rattle.std.specs.List.{concat};
ghost use Rattle.e57_layout.specs.Packets.{data_packet, data_size, flag, lengths as lengths_of, packet_head, padding, stream_lengths, whole_words};
ghost use Rattle.e57_layout.specs.Packing.{room_for};
ghost use Rattle.e57_page_out.specs.Sequences.{Loses, Puts};
ghost use Rattle.e57_page_out.specs.Writing.{IsBeingWritten, most_bytes};
ghost use Rattle.e57_chunk_out.specs.Cutting.{cut, heads_of, streams_of};

use crate::field_out::FieldOut;
use e57_base::{PutFault, Target};
use e57_layout::PacketHead;
use e57_packet::{write_data_lengths, write_packet_head};
use e57_page_out::PagesOut;

/// The most fields.
const FIELDS: usize = 512;

/// The bytes of a packet's head, and of its number of streams.
const FIRST: usize = 6;

/// The most bytes of a packet.
pub const PACKET: usize = 65_536;

/// How many bytes of streams a packet of so many fields has room for.
pub fn room_in_packet(fields: usize) -> usize
    requires { fields ≤ 512 }
    ensures { result ≡ room_for fields }
{
    PACKET - (FIRST + 2 * fields)
}

/// Puts a data packet: of the fields' streams, one behind another, the bytes behind the first `skip` for which there is room
/// (ASTM E2807, data packets).
pub fn put_packet<T: Target>(
    fields: &[FieldOut],
    skip: usize,
    restart: bool,
    out: &mut PagesOut<T>,
) -> Result<(), PutFault>
    requires unspent { out.old.is_spent ≡ false }
    requires some { 0 < length fields.now }
    requires few { length fields.now ≤ 512 }
    ensures { let packet = data_packet restart (cut (room_for (length fields.now)) skip (streams_of fields.now)) in
        MatchResult result
        (λ _. Puts T.view out.old packet out.new)
        (λ fault. (out.new.is_spent ≡ true) × Loses T.view out.old (most_bytes < out.old.size + length packet) fault (T.view out.new.target)) }
{
    let mut lengths = [0; FIELDS];
    let size = match put_first(fields, skip, restart, &mut lengths[..fields.len()], out) {
        Ok(size) => size,
        Err(fault) => return Err(fault),
    };
    if let Err(fault) = put_streams(fields, skip, out) {
        return Err(fault);
    }
    if let Err(fault) = put_padding(size, out) {
        return Err(fault);
    }
    Ok(())
}

/// Puts what stands before the streams, and answers how many bytes the packet has before its padding. `lengths` has a place for
/// each field.
fn put_first<T: Target>(
    fields: &[FieldOut],
    skip: usize,
    restart: bool,
    lengths: &mut [u16],
    out: &mut PagesOut<T>,
) -> Result<usize, PutFault>
    requires unspent { out.old.is_spent ≡ false }
    requires some { 0 < length fields.now }
    requires few { length fields.now ≤ 512 }
    requires places { length lengths.old ≡ length fields.now }
    ensures { let streams = cut (room_for (length fields.now)) skip (streams_of fields.now) in
        MatchResult result
        (λ size. (size ≡ data_size streams) × Puts T.view out.old (heads_of restart streams) out.new)
        (λ fault. (out.new.is_spent ≡ true) × Loses T.view out.old (most_bytes < out.old.size + length (heads_of restart streams)) fault (T.view out.new.target)) }
{
    let size = set_lengths(fields, skip, lengths);
    if let Err(fault) = put_heads(lengths, size, restart, out) {
        return Err(fault);
    }
    Ok(size)
}

/// Sets the lengths of a packet's streams, and answers how many bytes the packet has before its padding.
fn set_lengths(fields: &[FieldOut], skip: usize, lengths: &mut [u16]) -> usize
    requires few { length fields.now ≤ 512 }
    requires places { length lengths.old ≡ length fields.now }
    ensures lengths { lengths.new ≡ lengths_of (cut (room_for (length fields.now)) skip (streams_of fields.now)) }
    ensures size { result ≡ data_size (cut (room_for (length fields.now)) skip (streams_of fields.now)) }
{
    let mut skip = skip;
    let mut room = room_in_packet(fields.len());
    let mut size = FIRST + 2 * fields.len();
    for k in 0..fields.len() {
        let stream = fields[k].stream();
        let part = part_of(stream, skip, room);
        skip = skip.saturating_sub(stream.len());
        room -= part.len();
        size += part.len();
        lengths[k] = part.len() as u16;
    }
    size
}

/// `n` rounded up to a multiple of 4.
#[tactic(auto, unfolding(e57_layout::specs::Packets::whole_words))]
fn words_for(n: usize) -> usize
    requires { n ≤ 65536 }
    ensures words { result ≡ whole_words n }
    ensures least { n ≤ result }
    ensures most { result ≤ 65536 }
    ensures few { result ≤ n + 3 }
    ensures whole { result % 4 ≡ 0 }
{
    (n + 3) / 4 * 4
}

/// Puts what stands before the streams.
fn put_heads<T: Target>(
    lengths: &[u16],
    size: usize,
    restart: bool,
    out: &mut PagesOut<T>,
) -> Result<(), PutFault>
    requires unspent { out.old.is_spent ≡ false }
    requires some { 0 < length lengths.now }
    requires few { length lengths.now ≤ 512 }
    requires least { 6 ≤ size }
    requires most { size ≤ 65536 }
    ensures { let heads = packet_head (record { sort = 1; flags = flag restart; length = whole_words size }) ++ stream_lengths lengths.now in
        MatchResult result
        (λ _. Puts T.view out.old heads out.new)
        (λ fault. (out.new.is_spent ≡ true) × Loses T.view out.old (most_bytes < out.old.size + length heads) fault (T.view out.new.target)) }
{
    let mut head = [0; 4];
    let length = words_for(size) as u32;
    write_packet_head(
        &PacketHead {
            sort: 1,
            flags: flags(restart),
            length,
        },
        &mut head,
    );
    let mut spelled = [0; 2 + 2 * FIELDS];
    let end = 2 + 2 * lengths.len();
    write_data_lengths(lengths, &mut spelled[..end]);
    if let Err(fault) = out.put(&head) {
        return Err(fault);
    }
    if let Err(fault) = out.put(&spelled[..end]) {
        return Err(fault);
    }
    Ok(())
}

/// The flags of a packet: bit 0 says that a chunk begins here.
fn flags(restart: bool) -> u8
    ensures { result ≡ flag restart }
{
    if restart { 1 } else { 0 }
}

/// Puts the packet's part of each stream.
fn put_streams<T: Target>(
    fields: &[FieldOut],
    skip: usize,
    out: &mut PagesOut<T>,
) -> Result<(), PutFault>
    requires state { IsBeingWritten T.view out.old }
    requires few { length fields.now ≤ 512 }
    ensures { let streams = concat (cut (room_for (length fields.now)) skip (streams_of fields.now)) in
        MatchResult result
        (λ _. Puts T.view out.old streams out.new)
        (λ fault. (out.new.is_spent ≡ true) × Loses T.view out.old (most_bytes < out.old.size + length streams) fault (T.view out.new.target)) }
{
    let mut skip = skip;
    let mut room = room_in_packet(fields.len());
    for k in 0..fields.len() {
        let stream = fields[k].stream();
        let part = part_of(stream, skip, room);
        skip = skip.saturating_sub(stream.len());
        room -= part.len();
        if let Err(fault) = out.put(part) {
            return Err(fault);
        }
    }
    Ok(())
}

/// Of a stream, the bytes behind the first `skip`, at most `room`.
fn part_of(stream: &[u8], skip: usize, room: usize) -> &[u8]
    ensures { result.now ≡ take room (drop skip stream.now) }
{
    let begin = skip.min(stream.len());
    let taken = room.min(stream.len() - begin);
    &stream[begin..begin + taken]
}

/// Puts the zeros that fill a packet of `size` bytes to a multiple of 4.
fn put_padding<T: Target>(size: usize, out: &mut PagesOut<T>) -> Result<(), PutFault>
    requires state { IsBeingWritten T.view out.old }
    requires most { size ≤ 65536 }
    ensures { MatchResult result
        (λ _. Puts T.view out.old (padding size) out.new)
        (λ fault. (out.new.is_spent ≡ true) × Loses T.view out.old (most_bytes < out.old.size + length (padding size)) fault (T.view out.new.target)) }
{
    let zeros = [0; 3];
    if let Err(fault) = out.put(&zeros[..words_for(size) - size]) {
        return Err(fault);
    }
    Ok(())
}
