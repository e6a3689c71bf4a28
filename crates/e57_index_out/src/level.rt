//! The levels of an index.

ghost use Rattle.std.specs.Prelude.{◌≡◌, ◌+◌, ◌*◌, ◌<◌, ◌^◌, length};
ghost use Rattle.e57_index_out.specs.Levels.{IsLevel, level_entry, lowest_level, upper_level};

use e57_layout::Entry;
use e57_page::physical_of;

/// How many entries an index packet has at most.
pub const MOST_ENTRIES: usize = 2048;

/// The bytes of an index packet with the most entries.
const LARGEST: u64 = 32_784;

/// A level of an index that is written: the entries of level 0 are those of the chunks, and each entry above it names a
/// packet one level lower.
#[derive(Clone, Copy, Drop)]
pub struct Level {
    /// The number of the level.
    pub number: u8,
    /// How many entries it has.
    pub count: usize,
    /// How many chunks each of them leads to, but perhaps the last.
    pub step: usize,
    /// Above level 0, the logical place of the first packet one level lower.
    pub below: u64,
}

/// Level 0 of an index of so many chunks.
pub fn lowest(chunks: usize) -> Level
    ensures { result ≡ lowest_level chunks }
{
    Level {
        number: 0,
        count: chunks,
        step: 1,
        below: 0,
    }
}

/// The level above one whose packets stand from logical place `begin` on.
pub fn above(level: &Level, begin: u64) -> Level
    requires number { level.now.number < 255 }
    requires step { level.now.step * 2048 < 2 ^ 64 }
    ensures { result ≡ upper_level level.now begin }
{
    Level {
        number: level.number + 1,
        count: level.count.div_ceil(MOST_ENTRIES),
        step: level.step * MOST_ENTRIES,
        below: begin,
    }
}

/// Entry `k` of a level.
pub fn entry_of(chunks: &[Entry], level: &Level, k: usize) -> Entry
    requires level { IsLevel (length chunks.now) level.now }
    requires within { k < level.now.count }
    ensures { result ≡ level_entry chunks.now level.now k }
{
    let entry = chunks[k * level.step];
    if level.number == 0 {
        return entry;
    }
    Entry {
        first: entry.first,
        place: physical_of(level.below + k as u64 * LARGEST),
    }
}
