//! Taking the packets of a chunk.

ghost use Rattle.std.specs.Prelude.{◌≡◌, ◌+◌, ◌*◌, ◌/◌, ◌<◌, ◌≤◌, length, MatchResult};
ghost use Rattle.e57_base.specs.Source.{page_length};
ghost use Rattle.e57_page.specs.Place.{payload_length};
ghost use Rattle.e57_section.specs.Opening.{LiesIn};
ghost use Rattle.e57_stream.specs.Window.{most_left};
ghost use Rattle.e57_stream.specs.Taking.{TakesPacket, TakesNone, short_at, restart_at_place};

use crate::bytestream::Bytestream;
use crate::chunk::Chunk;
use e57_base::{Fault, Kind, ReadFault, Source};
use e57_page::Pages;
use e57_section::{Loaded, Packet, load_packet};

/// The fewest bytes that are judged as a packet.
const PACKET_HEAD: u64 = 4;

/// Takes the packet that follows those that were taken: of a data packet its bytes of the stream come behind those of the
/// window, of which at most 16 are left.
///
/// Asks for the pages that the packet needs and that aren't kept. After a refusal the chunk is as it was.
///
/// Refuses what is answered for an item for which the chunk's packets have too few bytes: the fault of the packet, or where a
/// packet of another chunk follows and there is neither an index nor a Float field, `RestartUnindexed` at its place, or
/// `StreamShort` at the next record.
pub fn take_packet<S: Source>(
    stream: &Bytestream,
    pages: &mut Pages<S>,
    packet: &mut Packet,
    chunk: &mut Chunk,
) -> Result<(), ReadFault>
    requires lies { LiesIn stream.now.section (pages.old.length / page_length * payload_length) }
    requires field { stream.now.field < stream.now.section.fields }
    requires within { chunk.old.taken ≤ stream.now.section.end }
    requires left { length chunk.old.window ≤ most_left }
    ensures length { pages.new.length ≡ pages.old.length }
    ensures header { pages.new.header ≡ pages.old.header }
    ensures packet { MatchResult result
        (λ _. TakesPacket (S.view pages.old.source) stream.now chunk.old chunk.new (S.view pages.new.source))
        (λ found. TakesNone (S.view pages.old.source) stream.now chunk.old found chunk.new (S.view pages.new.source)) }
{
    let section = stream.section;
    let end = section.end;
    let taken = chunk.taken;
    if end - taken < PACKET_HEAD {
        return Err(short(stream, chunk.at));
    }
    let loaded = match load_packet(&section, pages, taken, packet) {
        Ok(loaded) => loaded,
        Err(found) => return Err(found),
    };
    match loaded {
        Loaded::Stream { length, restart } => {
            if restart && !chunk.fresh {
                return Err(restarted(stream, chunk.at, taken));
            }
            let bytes = packet.stream(stream.field);
            chunk.window.extend(bytes);
            chunk.fresh = false;
            chunk.taken = behind(taken, length, end);
            Ok(())
        }
        Loaded::Index { length } => {
            chunk.taken = behind(taken, length, end);
            Ok(())
        }
        Loaded::Empty { length } => {
            chunk.taken = behind(taken, length, end);
            Ok(())
        }
    }
}

/// The place behind a packet of this length in bytes at place `taken`.
fn behind(taken: u64, length: u32, end: u64) -> u64
    requires { taken + length ≤ end }
    ensures { result ≡ taken + length }
{
    prove!(length as u64 <= end);
    taken + length as u64
}

/// The fault of a stream that ends before the item of record `at`.
fn short(stream: &Bytestream, at: u64) -> ReadFault
    ensures { result ≡ ReadFault.Refused (short_at stream.now at) }
{
    ReadFault::Refused(Fault::new(Kind::StreamShort, at, stream.node as u64))
}

/// The fault of the item of record `at` where a packet of another chunk at `place` comes before it.
fn restarted(stream: &Bytestream, at: u64, place: u64) -> ReadFault
    ensures { result ≡ ReadFault.Refused (restart_at_place stream.now at place) }
{
    if stream.section.index == 0 && stream.fixed.is_none() {
        return ReadFault::Refused(Fault::new(
            Kind::RestartUnindexed,
            stream.section.node as u64,
            place,
        ));
    }
    short(stream, at)
}
