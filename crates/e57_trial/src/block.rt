//! Records in a row, put as a block of the cloud.

ghost use Rattle.std.specs.Prelude.{◌≡◌, ◌+◌, ◌<◌, ◌≤◌, ℕ, pos, false, true, length, map, MatchResult};
ghost use Rattle.std.specs.List.{range_with_len};
ghost use Rattle.e57_layout.specs.Values.{whole, word, octets};
ghost use Rattle.e57_page_out.specs.Writing.{IsBeingWritten};
ghost use Rattle.e57_chunk_out.specs.CloudCalls.{most_of_block, with_items, IsBetween};
ghost use Rattle.e57_copy.specs.Adding.{with_columns, AddsRecords, HasRoom, IsStanding, LosesRun};
ghost use Rattle.e57_trial.specs.Content.{columns_from, intensity_at, most_records, tag_at, z_at};
ghost use Rattle.e57_trial.specs.Records.{coordinate_at, trial_kinds, HasRoomFor};

use crate::items::{coordinates, heights, intensities, row_indices, tag_ends};
use e57_base::{Target, WriteFault};
use e57_chunk_out::CloudOut;
use e57_page_out::PagesOut;
use std::alloc::AllocError;

/// Puts `n` records from record `first` on, 1 to 1,024, behind those that the cloud has.
///
/// Refuses as `CloudOut::end_block` does; the cloud is spent then.
pub fn put_block<T: Target>(
    start: u64,
    first: u64,
    n: usize,
    cloud: &mut CloudOut,
    out: &mut PagesOut<T>,
) -> Result<(), WriteFault>
    requires some { 0 < n }
    requires few { n ≤ most_of_block }
    requires first { first ≤ most_records }
    requires kinds { cloud.old.kinds ≡ trial_kinds }
    requires unspent { cloud.old.is_spent ≡ false }
    requires between { IsBetween cloud.old }
    requires standing { IsStanding cloud.old out.old }
    requires state { IsBeingWritten T.view out.old }
    requires limit { cloud.old.count + n ≤ cloud.old.at_most }
    ensures { MatchResult result
        (λ _. AddsRecords T.view n (columns_from start first n) cloud.old out.old cloud.new out.new)
        (λ fault. LosesRun T.view n (columns_from start first n) cloud.old out.old fault cloud.new out.new) }
{
    if let Err(_) = hand_block(start, first, n, cloud) {
        return Err(WriteFault::Memory);
    }
    if let Err(fault) = cloud.end_block(out) {
        return Err(fault);
    }
    Ok(())
}

/// Hands the items of `n` records from record `first` on to the cloud's block.
///
/// Refuses want of memory, which comes of the tags alone. The cloud is spent then.
fn hand_block(start: u64, first: u64, n: usize, cloud: &mut CloudOut) -> Result<(), AllocError>
    requires first { first ≤ most_records }
    requires kinds { cloud.old.kinds ≡ trial_kinds }
    requires pending { length cloud.old.pending ≡ length cloud.old.kinds }
    requires unspent { cloud.old.is_spent ≡ false }
    requires room { HasRoom cloud.old n }
    ensures { MatchResult result
        (λ _. cloud.new ≡ with_columns cloud.old (columns_from start first n))
        (λ _. cloud.new.is_spent ≡ true) }
{
    hand_coordinates(start, 3, first, n, 0, cloud);
    hand_coordinates(start, 5, first, n, 1, cloud);
    hand_intensities(first, n, cloud);
    hand_rows(n, cloud);
    hand_heights(first, n, cloud);
    hand_tags(first, n, cloud)
}

/// Hands over the coordinates of field `f`, 0 or 1.
fn hand_coordinates(start: u64, factor: u64, first: u64, n: usize, f: u16, cloud: &mut CloudOut)
    requires factor { factor ≤ 5 }
    requires first { first ≤ most_records }
    requires field { f < 2 }
    requires kinds { cloud.old.kinds ≡ trial_kinds }
    requires unspent { cloud.old.is_spent ≡ false }
    requires room { HasRoomFor cloud.old f n }
    ensures { cloud.new ≡ with_items cloud.old f (map (λ i. whole (pos (coordinate_at start factor i))) (range_with_len first n)) }
{
    let values = coordinates(start, factor, first);
    let _ = cloud.ints(f, &values[..n]);
}

/// Hands over the intensities.
fn hand_intensities(first: u64, n: usize, cloud: &mut CloudOut)
    requires first { first ≤ most_records }
    requires kinds { cloud.old.kinds ≡ trial_kinds }
    requires unspent { cloud.old.is_spent ≡ false }
    requires room { HasRoomFor cloud.old 2 n }
    ensures { cloud.new ≡ with_items cloud.old 2 (map (λ i. whole (pos (intensity_at i))) (range_with_len first n)) }
{
    let values = intensities(first);
    let _ = cloud.ints(2, &values[..n]);
}

/// Hands over the row indices, which are 0.
fn hand_rows(n: usize, cloud: &mut CloudOut)
    requires kinds { cloud.old.kinds ≡ trial_kinds }
    requires unspent { cloud.old.is_spent ≡ false }
    requires room { HasRoomFor cloud.old 3 n }
    ensures { (first : ℕ) → cloud.new ≡ with_items cloud.old 3 (map (λ (i : ℕ). whole (pos 0)) (range_with_len first n)) }
{
    let values = row_indices();
    let _ = cloud.ints(3, &values[..n]);
}

/// Hands over the bits of cartesianZ.
fn hand_heights(first: u64, n: usize, cloud: &mut CloudOut)
    requires first { first ≤ most_records }
    requires kinds { cloud.old.kinds ≡ trial_kinds }
    requires unspent { cloud.old.is_spent ≡ false }
    requires room { HasRoomFor cloud.old 4 n }
    ensures { cloud.new ≡ with_items cloud.old 4 (map (λ i. word (z_at i)) (range_with_len first n)) }
{
    let bits = heights(first);
    let _ = cloud.bits32(4, &bits[..n]);
}

/// Hands over the tags.
fn hand_tags(first: u64, n: usize, cloud: &mut CloudOut) -> Result<(), AllocError>
    requires first { first ≤ most_records }
    requires kinds { cloud.old.kinds ≡ trial_kinds }
    requires unspent { cloud.old.is_spent ≡ false }
    requires room { HasRoomFor cloud.old 5 n }
    ensures { MatchResult result
        (λ _. cloud.new ≡ with_items cloud.old 5 (map (λ i. octets (tag_at i)) (range_with_len first n)))
        (λ _. cloud.new.is_spent ≡ true) }
{
    let ends = tag_ends(first);
    cloud.texts(5, &[b'a'; 3072], &ends[..n])
}
