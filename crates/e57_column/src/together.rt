//! How many records are read at a time, where the columns of several fields are read side by side.

ghost use Rattle.std.specs.Prelude.{◌<◌, ◌≤◌};

use e57_layout::{Field, FieldKind};

/// How many bits the items of the records that are read at a time have, about: so the pages of their packets are among those
/// that are kept, and each column finds there what the one before it asked for.
const BITS_AT_A_TIME: u64 = 8 * 32_768;

/// How many bits a string counts.
const STRING_BITS: u64 = 128;

/// The most records that are read at a time.
const MOST: u64 = 1024;

/// The fewest.
const FEWEST: u64 = 16;

/// How many records of a cloud with these fields are read at a time: from 16 to 1024, fewer where a record has many bits.
pub fn records_at_a_time(fields: &[Field]) -> usize
    ensures some { 0 < result }
    ensures few { result ≤ 1024 }
{
    let records = BITS_AT_A_TIME / record_bits(fields).max(1);
    records.clamp(FEWEST, MOST) as usize
}

/// How many bits the items of a record have, about.
fn record_bits(fields: &[Field]) -> u64 {
    let mut bits = 0u64;
    for k in 0..fields.len() {
        bits = bits.saturating_add(item_bits(&fields[k]));
    }
    bits
}

/// How many bits an item has, about.
fn item_bits(field: &Field) -> u64 {
    match field.kind {
        FieldKind::Text => STRING_BITS,
        _ => field.width as u64,
    }
}
