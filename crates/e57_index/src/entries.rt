//! The entries of an index packet, from their bytes.

ghost use Rattle.std.specs.Prelude.{◌≡◌, ◌+◌, ◌-◌, ◌*◌, ◌<◌, ◌≤◌, length};
ghost use Rattle.e57_layout.specs.IndexPackets.{entry_at, entries_at};
ghost use Rattle.e57_cloud.specs.Index.{begins_and_rises, next_first};
ghost use Rattle.e57_index.specs.Picking.{IsPicked, IsLastAtMost};

use e57_bits::u64_at;
use e57_layout::Entry;

/// The bytes of an entry.
const ENTRY: usize = 16;

/// Entry `k` of these entries' bytes.
#[tactic(auto, unfolding(e57_layout::specs::IndexPackets::entry_at))]
pub fn entry(entries: &[u8], k: usize) -> Entry
    requires { 16 * k + 16 ≤ length entries.now }
    ensures { result ≡ entry_at entries.now (16 * k) }
{
    let at = ENTRY * k;
    Entry {
        first: u64_at(entries, at),
        place: u64_at(entries, at + 8),
    }
}

/// The record at which entry `k` of these entries ends: that of the next entry, or the bound.
pub fn end_of(entries: &[u8], count: usize, k: usize, bound: u64) -> u64
    requires all { length entries.now ≡ 16 * count }
    requires below { k < count }
    ensures { result ≡ next_first bound (entries_at entries.now (16 * (k + 1)) (count - (k + 1))) }
{
    if k + 1 < count {
        return entry(entries, k + 1).first;
    }
    bound
}

/// Whether these entries begin with just the record `first`, and their records rise and are below the bound.
pub fn is_ordered(entries: &[u8], count: usize, first: u64, bound: u64) -> bool
    requires all { length entries.now ≡ 16 * count }
    requires some { 0 < count }
    ensures { result ≡ begins_and_rises first bound (entries_at entries.now 0 count) }
{
    if entry(entries, 0).first != first {
        return false;
    }
    let mut least = first;
    for k in 0..count {
        let record = entry(entries, k).first;
        if record < least {
            return false;
        }
        if record >= bound {
            return false;
        }
        least = record + 1;
    }
    true
}

/// The last of these entries whose record is at most `i`, and the record at which it ends: that of the next entry, or the
/// bound. The first entry's record is at most `i`, and `i` is below the bound.
pub fn pick(entries: &[u8], count: usize, bound: u64, i: u64) -> (Entry, u64)
    requires all { length entries.now ≡ 16 * count }
    requires some { 0 < count }
    requires low { (entry_at entries.now 0).first ≤ i }
    requires high { i < bound }
    ensures { IsPicked bound (entries_at entries.now 0 count) i result.0 result.1 }
{
    let k = last_at_most(entries, count, i);
    let picked = entry(entries, k);
    if k + 1 < count {
        return (picked, entry(entries, k + 1).first);
    }
    (picked, bound)
}

/// The number of the last of these entries whose record is at most `i`, found by halving. The first entry's record is.
fn last_at_most(entries: &[u8], count: usize, i: u64) -> usize
    requires all { length entries.now ≡ 16 * count }
    requires some { 0 < count }
    requires low { (entry_at entries.now 0).first ≤ i }
    ensures { IsLastAtMost entries.now count i result }
{
    let mut low = 0;
    let mut high = count;
    while high - low > 1 {
        let middle = low + (high - low) / 2;
        if entry(entries, middle).first <= i {
            low = middle;
        } else {
            high = middle;
        }
    }
    low
}
