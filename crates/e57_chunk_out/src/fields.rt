//! The fields of a cloud, side by side.

ghost use Rattle.std.specs.Prelude.{◌≡◌, ◌⊎◌, ◌+◌, ◌*◌, ◌%◌, ◌<◌, ◌≤◌, true, false, length, map, min, MatchResult};
ghost use Rattle.std.specs.List.{AllByRecursion};
ghost use Rattle.e57_layout.specs.Packing.{fits_packet};
ghost use Rattle.e57_chunk_out.specs.Waiting.{taken, cleared, later_items};
ghost use Rattle.e57_chunk_out.specs.Cutting.{streams_of};
ghost use Rattle.e57_chunk_out.specs.SideBySide.{Has, HasRoomFor, HasText};

use crate::field_out::FieldOut;
use crate::packet::room_in_packet;
use std::alloc::AllocError;

/// Whether the streams with `n` more items of each field, from `from` on, are within one packet.
pub fn fits(fields: &[FieldOut], from: usize, n: usize) -> bool
    requires few { length fields.now ≤ 512 }
    requires there { AllByRecursion (Has (from + n)) fields.now }
    ensures { result ≡ fits_packet (streams_of (map (taken from n) fields.now)) }
{
    let mut left = room_in_packet(fields.len());
    for k in 0..fields.len() {
        let size = fields[k].size_with(from, n);
        if size > left {
            return false;
        }
        left -= size;
    }
    true
}

/// How many of the next `most` records, from `from` on, fit behind the streams: all of them, or so many groups of eight; none only
/// if the first group doesn't fit.
pub fn fitting(fields: &[FieldOut], from: usize, most: usize) -> usize
    requires few { length fields.now ≤ 512 }
    requires some { 0 < most }
    requires limit { most ≤ 1031 }
    requires there { AllByRecursion (Has (from + most)) fields.now }
    ensures most { result ≤ most }
    ensures whole { (result ≡ most) ⊎ (result % 8 ≡ 0) }
    ensures fit { 0 < result → fits_packet (streams_of (map (taken from result) fields.now)) ≡ true }
    ensures none { result ≡ 0 → fits_packet (streams_of (map (taken from (min 8 most)) fields.now)) ≡ false }
{
    if fits(fields, from, most) {
        return most;
    }
    let mut low = 0;
    let mut high = (most + 7) / 8;
    while low + 1 < high {
        let middle = (low + high) / 2;
        if fits(fields, from, 8 * middle) {
            low = middle;
        } else {
            high = middle;
        }
    }
    8 * low
}

/// Writes `n` items of each field, from `from` on, behind the streams. Memory is wanted for strings alone.
pub fn take_all(fields: &mut [FieldOut], from: usize, n: usize) -> Result<(), AllocError>
    requires there { AllByRecursion (Has (from + n)) fields.old }
    requires room { AllByRecursion (HasRoomFor from n) fields.old }
    ensures { MatchResult result (λ _. fields.new ≡ map (taken from n) fields.old) (λ _. HasText fields.old) }
{
    for k in 0..fields.len() {
        if let Err(error) = fields[k].take(from, n) {
            return Err(error);
        }
    }
    Ok(())
}

/// Empties the streams.
pub fn clear_all(fields: &mut [FieldOut])
    ensures { fields.new ≡ map cleared fields.old }
{
    for k in 0..fields.len() {
        fields[k].clear();
    }
}

/// Drops the first `n` items of each field.
pub fn drop_all(fields: &mut [FieldOut], n: usize)
    requires { AllByRecursion (Has n) fields.old }
    ensures { fields.new ≡ map (later_items n) fields.old }
{
    for k in 0..fields.len() {
        fields[k].drop_front(n);
    }
}
