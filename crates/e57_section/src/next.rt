//! The packet that follows another.

ghost use Rattle.std.specs.Prelude.{◌≡◌, ◌+◌, ◌≤◌, ◌<◌, MatchOption};

use e57_layout::Section;

/// The fewest bytes that are judged as a packet.
const PACKET_HEAD: u64 = 4;

/// The place of the packet that follows the one at place `at` with this length in bytes, which ends at most at the section's
/// end; none exactly where fewer than four bytes of the section follow.
pub fn next_packet(section: &Section, at: u64, length: u32) -> Option<u64>
    requires { at + length ≤ section.now.end }
    ensures { MatchOption result
        (section.now.end < at + length + 4)
        (λ next. (next ≡ at + length) × (next + 4 ≤ section.now.end)) }
{
    let end = section.end;
    let next = at + length as u64;
    if end - next < PACKET_HEAD {
        None
    } else {
        Some(next)
    }
}
