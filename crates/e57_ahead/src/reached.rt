//! How far the items of the first Float field were counted, and what that says of a record.

ghost use Rattle.std.specs.Prelude.{◌≡◌, ◌+◌, ◌-◌, ◌<◌, ◌≤◌, ◌⊎◌, MatchOption};
ghost use Rattle.e57_section.specs.Opening.{LiesIn};
ghost use Rattle.e57_ahead.specs.Counting.{IsWidth, IsWithin, items as the_items, has_ended as the_has_ended, answered};

use e57_layout::{Fixed, Section};

/// The fewest bytes that are judged as a packet.
const PACKET_HEAD: u64 = 4;

/// How far the packets of a section were taken, chunk after chunk. Places are logical offsets.
#[derive(Clone, Copy, Debug, PartialEq, Eq)]
pub struct Reached {
    /// The first record of the chunk whose packets are taken.
    pub first: u64,
    /// Where the walk through that chunk begins.
    pub place: u64,
    /// The place up to which its packets were taken.
    pub taken: u64,
    /// The bytes of the Float field's stream in these packets.
    pub bytes: u64,
    /// Whether one of them is a data packet.
    pub has_data: bool,
}

/// What is known of the chunk of a record in a section without an index.
#[derive(Clone, Copy, Debug, PartialEq, Eq)]
pub struct Covered {
    /// The first record of the chunk.
    pub start: u64,
    /// The records up to this one, itself excluded, are known to be of the chunk. It may have more.
    pub until: u64,
    /// The logical offset where the walk through the chunk begins.
    pub place: u64,
}

/// How many whole items of the Float field were counted in the chunk. A part of an item doesn't count.
pub fn items(fixed: Fixed, reached: &Reached) -> u64
    requires { IsWidth fixed }
    ensures { result ≡ the_items fixed reached.now }
{
    if fixed.bytes == 8 {
        reached.bytes / 8
    } else {
        reached.bytes / 4
    }
}

/// Whether fewer than four bytes of the section are left.
pub fn has_ended(section: &Section, reached: &Reached) -> bool
    requires { reached.now.taken ≤ section.now.end }
    ensures { result ≡ the_has_ended section.now reached.now }
{
    section.end - reached.taken < PACKET_HEAD
}

/// The chunk where it is known to have record `i`: enough items were counted, or the section ended, so that no other chunk
/// comes. None where neither is so.
pub fn known_chunk(section: &Section, fixed: Fixed, reached: &Reached, i: u64) -> Option<Covered>
    requires width { IsWidth fixed }
    requires within { IsWithin section.now reached.now }
    requires data { section.now.data_place ≤ section.now.end }
    requires low { reached.now.first ≤ i }
    requires high { i < section.now.count }
    ensures { MatchOption result
        ((reached.now.taken + 4 ≤ section.now.end) × (the_items fixed reached.now ≤ i - reached.now.first))
        (λ covered. (covered ≡ answered section.now fixed reached.now) × ((section.now.end < reached.now.taken + 4) ⊎ (i - reached.now.first < the_items fixed reached.now))) }
{
    let known = items(fixed, reached);
    let left = section.count - reached.first;
    let until = if has_ended(section, reached) || known > left {
        section.count
    } else {
        reached.first + known
    };
    if until <= i {
        return None;
    }
    Some(Covered {
        start: reached.first,
        until,
        place: reached.place,
    })
}
