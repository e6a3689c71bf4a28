//! One packet more.

ghost use Rattle.std.specs.Prelude.{◌≡◌, ◌+◌, ◌*◌, ◌/◌, ◌<◌, ◌≤◌, ◌^◌, length, IfSome, IsSomeAnd, MatchResult};
ghost use Rattle.e57_base.specs.Source.{page_length};
ghost use Rattle.e57_page.specs.Place.{payload_length};
ghost use Rattle.e57_section.specs.Opening.{LiesIn};
ghost use Rattle.e57_check.specs.Starts.{AreStarts, float_bytes as the_float_bytes};
ghost use Rattle.e57_check.specs.Passing.{IsWithin, Steps, StepsNot};

use crate::starts::{Passed, Starts, arrived};
use e57_base::{ReadFault, Source};
use e57_layout::Section;
use e57_page::Pages;
use e57_section::{Loaded, Packet, load_packet};

/// Takes the packet at the place up to which packets were taken, of which at least four bytes stand in the section.
///
/// Refuses the packet's first fault, as `load_packet` does.
pub fn step<S: Source>(
    section: &Section,
    starts: &Starts,
    passed: Passed,
    pages: &mut Pages<S>,
    packet: &mut Packet,
) -> Result<Passed, ReadFault>
    requires lies { LiesIn section.now (pages.old.length / page_length * payload_length) }
    requires starts { AreStarts section.now starts.now }
    requires within { IsWithin section.now passed }
    requires there { passed.taken + 4 ≤ section.now.end }
    ensures length { pages.new.length ≡ pages.old.length }
    ensures header { pages.new.header ≡ pages.old.header }
    ensures step { let count = pages.old.length / page_length in MatchResult result
        (λ next. Steps count (S.view pages.old.source) section.now starts.now passed next (S.view pages.new.source))
        (λ found. StepsNot count (S.view pages.old.source) section.now passed found (S.view pages.new.source)) }
{
    let at = passed.taken;
    let size = pages.logical_len();
    prove!(section.end <= size);
    let loaded = match load_packet(section, pages, at, packet) {
        Ok(loaded) => loaded,
        Err(found) => return Err(found),
    };
    let (length, restart) = match loaded {
        Loaded::Stream { length, restart } => (length, restart),
        Loaded::Index { length } => return Ok(past(passed, length)),
        Loaded::Empty { length } => return Ok(past(passed, length)),
    };
    let bytes = float_bytes(section, starts, packet);
    let came = arrived(section, starts, passed.came, at, restart, bytes);
    Ok(Passed {
        taken: at + length as u64,
        came,
    })
}

/// How many bytes of the Float field the data packet has that is held.
fn float_bytes(section: &Section, starts: &Starts, packet: &Packet) -> u64
    requires starts { AreStarts section.now starts.now }
    requires held { IsSomeAnd packet.now (λ streams. length streams ≡ section.now.fields) }
    ensures { IfSome packet.now (λ streams. result ≡ the_float_bytes starts.now streams) }
{
    match starts {
        Starts::Indexed(_) => 0,
        Starts::Counted(None) => 0,
        Starts::Counted(Some(fixed)) => packet.stream(fixed.field).len() as u64,
    }
}

/// The same after a packet of so many bytes that has no streams.
fn past(passed: Passed, length: u32) -> Passed
    requires { passed.taken + length < 2 ^ 64 }
    ensures { result ≡ record passed { taken = passed.taken + length } }
{
    Passed {
        taken: passed.taken + length as u64,
        ..passed
    }
}
