//! Reading strings of a chunk.

ghost use Rattle.std.specs.Prelude.{◌≡◌, ◌+◌, ◌-◌, ◌*◌, ◌/◌, ◌<◌, ◌≤◌, [], length, take, min, IfErr, MatchResult};
ghost use Rattle.e57_base.specs.Source.{page_length};
ghost use Rattle.e57_page.specs.Place.{payload_length};
ghost use Rattle.e57_section.specs.Opening.{LiesIn};
ghost use Rattle.e57_stream.specs.Standing.{wanted as the_wanted};
ghost use Rattle.e57_texts.specs.Standing.{IsWithinText};
ghost use Rattle.e57_texts.specs.Reading.{IsFitting, LacksText, ReadsStrings, StopsStrings};
ghost use Rattle.e57_texts.specs.Steps.{ReadsNext};

use crate::piece::read_piece;
use crate::prefix::next_prefix;
use crate::short::{move_short, short_string};
use e57_base::{ReadFault, Source};
use e57_page::Pages;
use e57_section::Packet;
use e57_stream::{Bytestream, Chunk, Stopped};

/// How many strings were read, and why no more.
#[derive(Clone, Copy, Debug, PartialEq, Eq)]
pub struct StringsRead {
    /// How many strings were read.
    pub count: usize,
    /// The length in bytes of the next string, for which the byte buffer has too few places left. `None`: there is no
    /// place for its end, or no record of the chunk is left.
    pub next: Option<u64>,
}

/// What came of one string.
#[derive(Clone, Copy, Debug, PartialEq, Eq)]
pub enum Next {
    /// It was read, and has so many bytes.
    Read(usize),
    /// It has so many bytes, more than there are places. It wasn't read.
    Needs(u64),
}

/// Reads strings of the chunk from the next record on: the bytes one string after another to `bytes`, the first one from
/// byte `filled` on, and where each of them ends to the front of `ends`. It goes on as long as `ends` has places, the chunk
/// has records left, and the next string fits in what is left of `bytes`. The bytes before `filled` and the rest of `ends`
/// are as they were; bytes behind the last string hold any value.
///
/// Asks for pages of the chunk's packets that weren't taken yet, and of no packet before a string needs it. It takes no
/// memory.
///
/// `Stopped` says that the strings before were read and the next one wasn't, since the source failed or since it has this
/// fault: `StringLimit` where its prefix states more than 2^24 bytes; and where the chunk's stream ends within its prefix,
/// or within its bytes and they would fit, the fault of the packet that ended the chunk, `RestartUnindexed` where another
/// chunk begins and nothing tells of chunks, or `StreamShort`. What is kept can be read on only after the chunk is entered
/// anew.
pub fn read_strings<S: Source>(
    stream: &Bytestream,
    pages: &mut Pages<S>,
    packet: &mut Packet,
    chunk: &mut Chunk,
    bytes: &mut [u8],
    filled: usize,
    ends: &mut [u64],
) -> Result<StringsRead, Stopped>
    requires lies { LiesIn stream.now.section (pages.old.length / page_length * payload_length) }
    requires field { stream.now.field < stream.now.section.fields }
    requires within { IsWithinText stream.now.section chunk.old }
    requires filled { filled ≤ length bytes.old }
    ensures length { pages.new.length ≡ pages.old.length }
    ensures header { pages.new.header ≡ pages.old.header }
    ensures strings { MatchResult result
        (λ read. ReadsStrings (S.view pages.old.source) stream.now chunk.old (the_wanted chunk.old (length ends.old)) filled read.count read.next bytes.old bytes.new ends.old ends.new chunk.new (S.view pages.new.source))
        (λ stopped. StopsStrings (S.view pages.old.source) stream.now chunk.old (the_wanted chunk.old (length ends.old)) filled stopped.done stopped.fault bytes.old bytes.new ends.old ends.new chunk.new (S.view pages.new.source)) }
{
    let want = wanted(chunk, ends.len());
    let mut done = 0;
    let mut end = filled;
    while done < want {
        match read_next(stream, pages, packet, chunk, &mut bytes[end..]) {
            Ok(Next::Read(n)) => {
                end += n;
                ends[done] = end as u64;
                done += 1;
            }
            Ok(Next::Needs(n)) => {
                return Ok(StringsRead {
                    count: done,
                    next: Some(n),
                });
            }
            Err(fault) => return Err(Stopped { done, fault }),
        }
    }
    Ok(StringsRead {
        count: done,
        next: None,
    })
}

/// How many records are read into so many places: as many as the chunk has left at most.
fn wanted(chunk: &Chunk, places: usize) -> usize
    requires { chunk.now.at ≤ chunk.now.until }
    ensures { result ≡ the_wanted chunk.now places }
{
    let left = chunk.until - chunk.at;
    if left < places as u64 {
        left as usize
    } else {
        places
    }
}

/// Reads the next string to the front of `out`, if it fits.
fn read_next<S: Source>(
    stream: &Bytestream,
    pages: &mut Pages<S>,
    packet: &mut Packet,
    chunk: &mut Chunk,
    out: &mut [u8],
) -> Result<Next, ReadFault>
    requires lies { LiesIn stream.now.section (pages.old.length / page_length * payload_length) }
    requires field { stream.now.field < stream.now.section.fields }
    requires within { IsWithinText stream.now.section chunk.old }
    requires left { chunk.old.at < chunk.old.until }
    ensures length { pages.new.length ≡ pages.old.length }
    ensures header { pages.new.header ≡ pages.old.header }
    ensures size { length out.new ≡ length out.old }
    ensures next { MatchResult result
        (λ next. ReadsNext (S.view pages.old.source) stream.now chunk.old next out.old out.new chunk.new (S.view pages.new.source))
        (λ found. LacksText (S.view pages.old.source) stream.now chunk.old found chunk.new (S.view pages.new.source)) }
    ensures fits { IfErr result (λ found. IsFitting (S.view pages.old.source) stream.now chunk.old chunk.old.at (length out.old) found) }
{
    if let Some(count) = short_string(chunk.window.bytes(), out.len()) {
        move_short(out, chunk.window.bytes());
        chunk.window.skip(1 + count);
        chunk.at += 1;
        return Ok(Next::Read(count));
    }
    let (length, size) = match next_prefix(stream, pages, packet, chunk) {
        Ok(stated) => stated,
        Err(fault) => return Err(fault),
    };
    if length > out.len() as u64 {
        return Ok(Next::Needs(length));
    }
    let count = length as usize;
    chunk.window.skip(size);
    if let Err(fault) = read_piece(stream, pages, packet, chunk, &mut out[..count]) {
        return Err(fault);
    }
    chunk.at += 1;
    Ok(Next::Read(count))
}
