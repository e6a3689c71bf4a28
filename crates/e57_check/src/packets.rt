//! The packets of a section, in order, and the chunks that they are.

ghost use Rattle.std.specs.Prelude.{◌≡◌, ◌+◌, ◌*◌, ◌/◌, ◌≤◌, IfOk, MatchResult};
ghost use Rattle.e57_base.specs.Source.{page_length};
ghost use Rattle.e57_page.specs.Place.{payload_length};
ghost use Rattle.e57_section.specs.Opening.{LiesIn};
ghost use Rattle.e57_check.specs.Starts.{AreStarts, none_came};
ghost use Rattle.e57_check.specs.Passing.{IsWithin, Walks, IsAsFar, WalksToEnd, WalksNot};

use crate::starts::{Came, Passed, Starts, left_fault};
use crate::step::step;
use e57_base::{ReadFault, Source};
use e57_layout::Section;
use e57_page::Pages;
use e57_section::Packet;

/// The fewest bytes that are judged as a packet.
const PACKET_HEAD: u64 = 4;

/// No packet of a section was taken.
pub fn none_passed(section: &Section) -> Passed
    ensures { result ≡ record { taken = section.now.data_place; came = none_came } }
{
    Passed {
        taken: section.data_place,
        came: Came {
            starts: 0,
            first: 0,
            bytes: 0,
            found: None,
        },
    }
}

/// Goes on with the packets of a section in order, up to the logical place `place` (ASTM E2807, data packets). It takes no
/// memory; after it `packet` may hold any packet or none.
///
/// Refuses the first fault of a packet, as `load_packet` does.
pub fn walk_to<S: Source>(
    section: &Section,
    starts: &Starts,
    passed: Passed,
    place: u64,
    pages: &mut Pages<S>,
    packet: &mut Packet,
) -> Result<Passed, ReadFault>
    requires lies { LiesIn section.now (pages.old.length / page_length * payload_length) }
    requires starts { AreStarts section.now starts.now }
    requires within { IsWithin section.now passed }
    ensures length { pages.new.length ≡ pages.old.length }
    ensures header { pages.new.header ≡ pages.old.header }
    ensures far { IfOk result (λ next. IsAsFar section.now place next) }
    ensures walk { let count = pages.old.length / page_length in MatchResult result
        (λ next. Walks count (S.view pages.old.source) section.now starts.now passed next (S.view pages.new.source))
        (λ found. WalksNot count (S.view pages.old.source) section.now starts.now passed found (S.view pages.new.source)) }
{
    let mut passed = passed;
    while passed.taken < place && section.end - passed.taken >= PACKET_HEAD {
        match step(section, starts, passed, pages, packet) {
            Ok(next) => passed = next,
            Err(found) => return Err(found),
        }
    }
    Ok(passed)
}

/// Goes on with the packets of a section in order up to its end, and then judges its chunks. As for memory and `packet`, see
/// `walk_to`.
///
/// Refuses the first fault of a packet. Where no packet has one, refuses the first fault of the chunks: with an index,
/// `RestartUnindexed` at a chunk start that no entry names, and `IndexTarget` for an entry that names no chunk start; without
/// one, `RestartUnindexed` at the first chunk start before which the Float field has no whole item or as many as there are
/// records.
pub fn walk_to_end<S: Source>(
    section: &Section,
    starts: &Starts,
    passed: Passed,
    pages: &mut Pages<S>,
    packet: &mut Packet,
) -> Result<(), ReadFault>
    requires lies { LiesIn section.now (pages.old.length / page_length * payload_length) }
    requires starts { AreStarts section.now starts.now }
    requires within { IsWithin section.now passed }
    ensures length { pages.new.length ≡ pages.old.length }
    ensures header { pages.new.header ≡ pages.old.header }
    ensures walk { let count = pages.old.length / page_length in MatchResult result
        (λ _. WalksToEnd count (S.view pages.old.source) section.now starts.now passed (S.view pages.new.source))
        (λ found. WalksNot count (S.view pages.old.source) section.now starts.now passed found (S.view pages.new.source)) }
{
    let passed = match walk_to(section, starts, passed, section.end, pages, packet) {
        Ok(passed) => passed,
        Err(found) => return Err(found),
    };
    match left_fault(section, starts, &passed.came) {
        Some(found) => Err(ReadFault::Refused(found)),
        None => Ok(()),
    }
}
