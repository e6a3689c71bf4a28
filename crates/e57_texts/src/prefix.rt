//! The prefix of the next string.

ghost use Rattle.std.specs.Prelude.{◌≡◌, ◌+◌, ◌*◌, ◌/◌, ◌<◌, ◌≤◌, [], length, IfErr, MatchResult};
ghost use Rattle.e57_base.specs.Source.{page_length};
ghost use Rattle.e57_page.specs.Place.{payload_length};
ghost use Rattle.e57_section.specs.Opening.{LiesIn};
ghost use Rattle.e57_stream.specs.Taking.{SamePlace};
ghost use Rattle.e57_texts.specs.Prefix.{BeginsWith};
ghost use Rattle.e57_texts.specs.Pieces.{HasPrefix};
ghost use Rattle.e57_texts.specs.Reading.{IsLengthCause, LacksText, limit_at};
ghost use Rattle.e57_texts.specs.Standing.{IsWithinText};

use e57_base::{Fault, Kind, ReadFault, Source};
use e57_page::Pages;
use e57_section::Packet;
use e57_stream::{Bytestream, Chunk, take_packet};
use e57_strings::{Fed, StringCursor};

/// The most bytes of a string: a limit of ours.
const LIMIT: u64 = 16_777_216;

/// What some bytes begin with.
#[derive(Clone, Copy, Debug, PartialEq, Eq)]
pub enum Prefix {
    /// A prefix of `size` bytes, of a string of `length` bytes.
    Stated { length: u64, size: usize },
    /// A prefix of a string above the limit.
    TooLong,
    /// A part of a prefix.
    Cut,
}

/// The prefix that the next string has, which is left in the window, and how many bytes the prefix has. Packets are taken
/// until it is whole.
///
/// Refuses what is answered where the chunk's stream ends before it is, and a string above the limit, `StringLimit`.
pub fn next_prefix<S: Source>(
    stream: &Bytestream,
    pages: &mut Pages<S>,
    packet: &mut Packet,
    chunk: &mut Chunk,
) -> Result<(u64, usize), ReadFault>
    requires lies { LiesIn stream.now.section (pages.old.length / page_length * payload_length) }
    requires field { stream.now.field < stream.now.section.fields }
    requires within { IsWithinText stream.now.section chunk.old }
    ensures length { pages.new.length ≡ pages.old.length }
    ensures header { pages.new.header ≡ pages.old.header }
    ensures prefix { MatchResult result
        (λ stated. HasPrefix (S.view pages.old.source) stream.now chunk.old stated.0 stated.1 chunk.new (S.view pages.new.source))
        (λ found. LacksText (S.view pages.old.source) stream.now chunk.old found chunk.new (S.view pages.new.source)) }
    ensures unknown { IfErr result (λ found. IsLengthCause (S.view pages.old.source) stream.now chunk.old chunk.old.at found) }
{
    let at = chunk.at;
    loop {
        match prefix_of(chunk.window.bytes()) {
            Prefix::Stated { length, size } => return Ok((length, size)),
            Prefix::TooLong => return Err(too_long(stream, at)),
            Prefix::Cut => {}
        }
        if let Err(fault) = take_packet(stream, pages, packet, chunk) {
            return Err(fault);
        }
    }
}

/// What these bytes begin with. A prefix of one byte, the commonest, is told without a cursor.
fn prefix_of(bytes: &[u8]) -> Prefix
    ensures { BeginsWith bytes.now result }
{
    if !bytes.is_empty() && bytes[0] % 2 == 0 {
        return Prefix::Stated {
            length: bytes[0] as u64 / 2,
            size: 1,
        };
    }
    let mut cursor = StringCursor::new();
    let mut none: [u8; 0] = [];
    match cursor.feed(bytes, &mut none) {
        Fed::Length { taken, length } => {
            if length > LIMIT {
                return Prefix::TooLong;
            }
            Prefix::Stated {
                length,
                size: taken,
            }
        }
        Fed::More { .. } => Prefix::Cut,
        Fed::Whole { .. } => Prefix::Cut,
    }
}

/// The fault of the string of record `at` that is above the limit.
fn too_long(stream: &Bytestream, at: u64) -> ReadFault
    ensures { result ≡ ReadFault.Refused (limit_at stream.now at) }
{
    ReadFault::Refused(Fault::new(Kind::StringLimit, at, stream.node as u64))
}
