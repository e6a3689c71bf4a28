//! Skipping strings of a chunk.

ghost use Rattle.std.specs.Prelude.{◌≡◌, ◌+◌, ◌*◌, ◌/◌, ◌<◌, ◌≤◌, MatchResult};
ghost use Rattle.e57_base.specs.Source.{page_length};
ghost use Rattle.e57_page.specs.Place.{payload_length};
ghost use Rattle.e57_section.specs.Opening.{LiesIn};
ghost use Rattle.e57_texts.specs.Standing.{IsWithinText};
ghost use Rattle.e57_texts.specs.Reading.{LacksText, SkipsStrings, StopsSkipping};
ghost use Rattle.e57_texts.specs.Steps.{SkipsText};

use crate::piece::skip_piece;
use crate::prefix::next_prefix;
use e57_base::{ReadFault, Source};
use e57_page::Pages;
use e57_section::Packet;
use e57_stream::{Bytestream, Chunk};

/// Goes on to record `i` of the chunk: skips the strings before it.
///
/// Asks for pages of the chunk's packets that weren't taken yet, and of no packet before a string needs it. It takes no
/// memory.
///
/// Refuses the fault of the first string before `i` that has one, which is what is answered for record `i`: `StringLimit`
/// with the number of that record; and where the chunk's stream ends within that string, the fault of the packet that ended
/// the chunk, `RestartUnindexed` where another chunk begins and nothing tells of chunks, or `StreamShort` with the number
/// of that record. What is kept can be read on only after the chunk is entered anew.
pub fn skip_strings<S: Source>(
    stream: &Bytestream,
    pages: &mut Pages<S>,
    packet: &mut Packet,
    chunk: &mut Chunk,
    i: u64,
) -> Result<(), ReadFault>
    requires lies { LiesIn stream.now.section (pages.old.length / page_length * payload_length) }
    requires field { stream.now.field < stream.now.section.fields }
    requires within { IsWithinText stream.now.section chunk.old }
    requires low { chunk.old.at ≤ i }
    requires high { i < chunk.old.until }
    ensures length { pages.new.length ≡ pages.old.length }
    ensures header { pages.new.header ≡ pages.old.header }
    ensures skipped { MatchResult result
        (λ _. SkipsStrings (S.view pages.old.source) stream.now chunk.old i chunk.new (S.view pages.new.source))
        (λ found. StopsSkipping (S.view pages.old.source) stream.now chunk.old i found chunk.new (S.view pages.new.source)) }
{
    while chunk.at < i {
        if let Err(fault) = skip_next(stream, pages, packet, chunk) {
            return Err(fault);
        }
    }
    Ok(())
}

/// Skips the next string.
fn skip_next<S: Source>(
    stream: &Bytestream,
    pages: &mut Pages<S>,
    packet: &mut Packet,
    chunk: &mut Chunk,
) -> Result<(), ReadFault>
    requires lies { LiesIn stream.now.section (pages.old.length / page_length * payload_length) }
    requires field { stream.now.field < stream.now.section.fields }
    requires within { IsWithinText stream.now.section chunk.old }
    requires left { chunk.old.at < chunk.old.until }
    ensures length { pages.new.length ≡ pages.old.length }
    ensures header { pages.new.header ≡ pages.old.header }
    ensures next { MatchResult result
        (λ _. SkipsText (S.view pages.old.source) stream.now chunk.old chunk.new (S.view pages.new.source))
        (λ found. LacksText (S.view pages.old.source) stream.now chunk.old found chunk.new (S.view pages.new.source)) }
{
    let (length, size) = match next_prefix(stream, pages, packet, chunk) {
        Ok(stated) => stated,
        Err(fault) => return Err(fault),
    };
    chunk.window.skip(size);
    if let Err(fault) = skip_piece(stream, pages, packet, chunk, length) {
        return Err(fault);
    }
    chunk.at += 1;
    Ok(())
}
