//! One packet more.

ghost use Rattle.std.specs.Prelude.{◌≡◌, ◌+◌, ◌*◌, ◌/◌, ◌^◌, ◌<◌, ◌≤◌, MatchResult};
ghost use Rattle.e57_base.specs.Source.{page_length};
ghost use Rattle.e57_base.specs.Fault.{fault};
ghost use Rattle.e57_base.specs.declared.kind.Kind.TheVariants.{RestartUnindexed};
ghost use Rattle.e57_page.specs.Place.{payload_length};
ghost use Rattle.e57_section.specs.Opening.{LiesIn};
ghost use Rattle.e57_ahead.specs.Counting.{IsWidth, IsWithin, items as the_items, anew};
ghost use Rattle.e57_ahead.specs.Finding.{Steps, StepsNot};

use crate::reached::{Reached, items};
use e57_base::{Fault, Kind, ReadFault, Source};
use e57_layout::{Fixed, Section};
use e57_page::Pages;
use e57_section::{Loaded, Packet, load_packet};

/// Takes the packet at the place that was reached, of which at least four bytes stand in the section. A data packet with
/// restart that isn't the walk's first data packet begins another chunk, whose items are counted anew.
///
/// Refuses the packet's first fault, as `load_packet` does; and `RestartUnindexed` where it begins another chunk and the one
/// before it has no whole item.
pub fn step<S: Source>(
    section: &Section,
    fixed: Fixed,
    reached: Reached,
    pages: &mut Pages<S>,
    packet: &mut Packet,
) -> Result<Reached, ReadFault>
    requires lies { LiesIn section.now (pages.old.length / page_length * payload_length) }
    requires is_field { fixed.field < section.now.fields }
    requires width { IsWidth fixed }
    requires within { IsWithin section.now reached }
    requires there { reached.taken + 4 ≤ section.now.end }
    requires few { reached.first ≤ section.now.count }
    ensures length { pages.new.length ≡ pages.old.length }
    ensures header { pages.new.header ≡ pages.old.header }
    ensures step { MatchResult result
        (λ next. Steps (S.view pages.old.source) section.now fixed reached next (S.view pages.new.source))
        (λ found. StepsNot (S.view pages.old.source) section.now fixed reached found (S.view pages.new.source)) }
{
    let at = reached.taken;
    let _end = section.end;
    let loaded = match load_packet(section, pages, at, packet) {
        Ok(loaded) => loaded,
        Err(found) => return Err(found),
    };
    let (length, restart) = match loaded {
        Loaded::Stream { length, restart } => (length, restart),
        Loaded::Index { length } => return Ok(passed(reached, length)),
        Loaded::Empty { length } => return Ok(passed(reached, length)),
    };
    let bytes = packet.stream(fixed.field).len() as u64;
    if restart && reached.has_data {
        return another(section, fixed, reached, length, bytes);
    }
    Ok(Reached {
        taken: at + length as u64,
        bytes: reached.bytes + bytes,
        has_data: true,
        ..reached
    })
}

/// The chunk that a data packet of `length` bytes begins, which has so many bytes of the Float field.
///
/// Refuses `RestartUnindexed` where the chunk before it has no whole item.
fn another(
    section: &Section,
    fixed: Fixed,
    reached: Reached,
    length: u32,
    bytes: u64,
) -> Result<Reached, ReadFault>
    requires width { IsWidth fixed }
    requires room { reached.taken + length < 2 ^ 64 }
    requires few { reached.first + the_items fixed reached < 2 ^ 64 }
    ensures { MatchResult result
        (λ next. (0 < the_items fixed reached) × (next ≡ anew fixed reached length bytes))
        (λ found. (the_items fixed reached ≡ 0) × (found ≡ ReadFault.Refused (fault RestartUnindexed section.now.node reached.taken))) }
{
    let items = items(fixed, &reached);
    if items == 0 {
        let node = section.node as u64;
        return Err(ReadFault::Refused(Fault::new(Kind::RestartUnindexed, node, reached.taken)));
    }
    Ok(Reached {
        first: reached.first + items,
        place: reached.taken,
        taken: reached.taken + length as u64,
        bytes,
        has_data: true,
    })
}

/// The same chunk after a packet of so many bytes that has no streams.
fn passed(reached: Reached, length: u32) -> Reached
    requires { reached.taken + length < 2 ^ 64 }
    ensures { result ≡ record reached { taken = reached.taken + length } }
{
    Reached {
        taken: reached.taken + length as u64,
        ..reached
    }
}
