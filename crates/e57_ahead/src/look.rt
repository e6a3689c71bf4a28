//! The search for the chunk of a record, from where the count stands on.

ghost use Rattle.std.specs.Prelude.{◌≡◌, ◌+◌, ◌*◌, ◌/◌, ◌<◌, ◌≤◌, MatchResult};
ghost use Rattle.e57_base.specs.Source.{page_length};
ghost use Rattle.e57_page.specs.Place.{payload_length};
ghost use Rattle.e57_section.specs.Opening.{LiesIn};
ghost use Rattle.e57_ahead.specs.Counting.{IsWidth, IsWithin, StandsIn};
ghost use Rattle.e57_ahead.specs.Finding.{Moves, Finds, FindsNot};

use crate::reached::{Covered, Reached, known_chunk};
use crate::step::step;
use e57_base::{ReadFault, Source};
use e57_layout::{Fixed, Section};
use e57_page::Pages;
use e57_section::Packet;

/// Takes packets until the chunk is known to have record `i`, or one is refused. Answers how far they were taken too.
pub fn look<S: Source>(
    section: &Section,
    fixed: Fixed,
    reached: Reached,
    pages: &mut Pages<S>,
    packet: &mut Packet,
    i: u64,
) -> (Reached, Result<Covered, ReadFault>)
    requires lies { LiesIn section.now (pages.old.length / page_length * payload_length) }
    requires is_field { fixed.field < section.now.fields }
    requires width { IsWidth fixed }
    requires within { IsWithin section.now reached }
    requires low { reached.first ≤ i }
    requires high { i < section.now.count }
    ensures length { pages.new.length ≡ pages.old.length }
    ensures header { pages.new.header ≡ pages.old.header }
    ensures moves { Moves section.now i reached result.0 }
    ensures found { MatchResult result.1
        (λ covered. Finds (S.view pages.old.source) (λ file. StandsIn file section.now fixed reached) section.now fixed i reached.taken covered result.0 (S.view pages.new.source))
        (λ found. FindsNot (S.view pages.old.source) (λ file. StandsIn file section.now fixed reached) section.now fixed i reached.taken found result.0 (S.view pages.new.source)) }
{
    let mut reached = reached;
    loop {
        if let Some(covered) = known_chunk(section, fixed, &reached, i) {
            return (reached, Ok(covered));
        }
        match step(section, fixed, reached, pages, packet) {
            Ok(next) => reached = next,
            Err(found) => return (reached, Err(found)),
        }
    }
}
