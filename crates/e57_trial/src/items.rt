//! The items of 1,024 records in a row, field by field.

ghost use Rattle.std.specs.Prelude.{◌≡◌, ℕ, ◌+◌, ◌%◌, ◌<◌, ◌≤◌, pos, slice_index_or, slice_index};
ghost use Rattle.e57_chunk_out.specs.CloudCalls.{most_of_block};
ghost use Rattle.e57_trial.specs.Content.{intensity_at, most_records, z_at};
ghost use Rattle.e57_trial.specs.Records.{coordinate_at, tags_end};

/// How many values the coordinates have, and the numbers behind the first bits of cartesianZ.
const RANGE: u64 = 1 << 20;

/// The first bits of cartesianZ: those of 1.0.
const FIRST_BITS: u64 = 0x3F80_0000;

/// The coordinates of the records from `first` on: cartesianX with the factor 3, cartesianY with the factor 5.
pub fn coordinates(start: u64, factor: u64, first: u64) -> [i64; 1024]
    requires factor { factor ≤ 5 }
    requires first { first ≤ most_records }
    ensures { (k : ℕ) → k < most_of_block → slice_index_or result k (pos 0) ≡ pos (coordinate_at start factor (first + k)) }
{
    let mut values = [0; 1024];
    for k in 0..1024 {
        values[k] = ((start % RANGE + factor * (first + k as u64)) % RANGE) as i64;
    }
    values
}

/// The intensities of the records from `first` on.
pub fn intensities(first: u64) -> [i64; 1024]
    requires first { first ≤ most_records }
    ensures { (k : ℕ) → k < most_of_block → slice_index_or result k (pos 0) ≡ pos (intensity_at (first + k)) }
{
    let mut values = [0; 1024];
    for k in 0..1024 {
        values[k] = ((first + k as u64) % 256) as i64;
    }
    values
}

/// The row indices of records, which are 0.
pub fn row_indices() -> [i64; 1024]
    ensures { (k : ℕ) → k < most_of_block → slice_index_or result k (pos 0) ≡ pos 0 }
{
    [0; 1024]
}

/// The bits of cartesianZ of the records from `first` on.
pub fn heights(first: u64) -> [u32; 1024]
    requires first { first ≤ most_records }
    ensures { (k : ℕ) → k < most_of_block → slice_index result k ≡ z_at (first + k) }
{
    let mut bits = [0; 1024];
    for k in 0..1024 {
        bits[k] = (FIRST_BITS + (first + k as u64) % RANGE) as u32;
    }
    bits
}

/// Where the tags of the records from `first` on end, the first of which begins at 0.
pub fn tag_ends(first: u64) -> [u64; 1024]
    requires first { first ≤ most_records }
    ensures { (k : ℕ) → k < most_of_block → slice_index result k ≡ tags_end first (k + 1) }
{
    let mut ends = [0; 1024];
    let mut end = 0;
    for k in 0..1024 {
        end += (first + k as u64) % 4;
        ends[k] = end;
    }
    ends
}
