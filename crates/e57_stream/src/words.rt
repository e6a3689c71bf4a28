//! Reading raw words of a chunk.

ghost use Rattle.std.specs.Prelude.{◌≡◌, ◌+◌, ◌*◌, ◌/◌, ◌%◌, ◌<◌, ◌≤◌, ◌⊎◌, length, MatchResult, OnOk};
ghost use Rattle.e57_base.specs.Source.{page_length};
ghost use Rattle.e57_page.specs.Place.{payload_length};
ghost use Rattle.e57_section.specs.Opening.{LiesIn};
ghost use Rattle.e57_stream.specs.Standing.{IsWithin, IsOnward, wanted as the_wanted};
ghost use Rattle.e57_stream.specs.Words.{TakesWords, ReadsWords, StopsWords};

use crate::bytestream::{Bytestream, Stopped};
use crate::chunk::{Chunk, held_for, let_go, wanted};
use crate::taking::take_packet;
use e57_base::{ReadFault, Source};
use e57_lanes::{unpack32, unpack64};
use e57_page::Pages;
use e57_section::Packet;

/// Reads items of 32 raw bits of the chunk, the least significant byte first, from the next record on to the front of `out`:
/// as many as `out` has places, or as the chunk has records left. Answers how many. The rest of `out` is as it was.
///
/// Asks for pages of the chunk's packets that weren't taken yet, and of no packet before an item needs it. It takes no
/// memory.
///
/// `Stopped` says that the items before were read and the next one wasn't, since the source failed or since the chunk's stream
/// ends before it: then it has the fault of the packet that ended the chunk, `RestartUnindexed` where another chunk begins and
/// nothing tells of chunks, or `StreamShort`. What is kept can be read on only after the chunk is entered anew.
pub fn read_words32<S: Source>(
    stream: &Bytestream,
    pages: &mut Pages<S>,
    packet: &mut Packet,
    chunk: &mut Chunk,
    out: &mut [u32],
) -> Result<usize, Stopped>
    requires lies { LiesIn stream.now.section (pages.old.length / page_length * payload_length) }
    requires field { stream.now.field < stream.now.section.fields }
    requires within { IsWithin stream.now.section 32 chunk.old }
    ensures length { pages.new.length ≡ pages.old.length }
    ensures header { pages.new.header ≡ pages.old.header }
    ensures within { IsWithin stream.now.section 32 chunk.new }
    ensures items { MatchResult result
        (λ n. (n ≡ the_wanted chunk.old (length out.old))
        × ReadsWords (S.view pages.old.source) stream.now 32 chunk.old (the_wanted chunk.old (length out.old)) n
        out.old out.new chunk.new (S.view pages.new.source))
        (λ stopped. StopsWords (S.view pages.old.source) stream.now 32 chunk.old (the_wanted chunk.old (length out.old))
        stopped.done stopped.fault out.old out.new chunk.new (S.view pages.new.source)) }
{
    let want = wanted(chunk, out.len());
    let mut done = 0;
    while done < want {
        match step_words32(stream, pages, packet, chunk, &mut out[done..want]) {
            Ok(n) => done += n,
            Err(fault) => return Err(Stopped { done, fault }),
        }
    }
    Ok(done)
}

/// Reads the words that the window has, or takes a packet where it has none.
fn step_words32<S: Source>(
    stream: &Bytestream,
    pages: &mut Pages<S>,
    packet: &mut Packet,
    chunk: &mut Chunk,
    out: &mut [u32],
) -> Result<usize, ReadFault>
    requires lies { LiesIn stream.now.section (pages.old.length / page_length * payload_length) }
    requires field { stream.now.field < stream.now.section.fields }
    requires within { IsWithin stream.now.section 32 chunk.old }
    requires some { 0 < length out.old }
    requires left { chunk.old.at + length out.old ≤ chunk.old.until }
    ensures length { pages.new.length ≡ pages.old.length }
    ensures header { pages.new.header ≡ pages.old.header }
    ensures onward { OnOk result (IsOnward chunk.old chunk.new) }
    ensures items { MatchResult result
        (λ n. ReadsWords (S.view pages.old.source) stream.now 32 chunk.old (length out.old) n
        out.old out.new chunk.new (S.view pages.new.source))
        (λ fault. StopsWords (S.view pages.old.source) stream.now 32 chunk.old (length out.old) 0 fault
        out.old out.new chunk.new (S.view pages.new.source)) }
{
    let n = take_words32(chunk, out);
    if n > 0 {
        return Ok(n);
    }
    let_go(chunk);
    match take_packet(stream, pages, packet, chunk) {
        Ok(()) => Ok(0),
        Err(fault) => Err(fault),
    }
}

/// Reads the words that the window has, as many as there are places for, in one run. Answers how many.
fn take_words32(chunk: &mut Chunk, out: &mut [u32]) -> usize
    requires left { chunk.old.at + length out.old ≤ chunk.old.until }
    ensures { TakesWords 32 chunk.old out.old result chunk.new out.new }
{
    let count = held_for(chunk, 32, out.len());
    if count == 0 {
        return 0;
    }
    let until = chunk.until;
    prove!(count as u64 <= until);
    let skipped = (chunk.bit / 8) as usize;
    unpack32(&chunk.window.bytes()[skipped..], &mut out[..count]);
    chunk.at += count as u64;
    chunk.bit += 32 * count as u64;
    count
}

/// Reads items of 64 raw bits of the chunk, the least significant byte first, from the next record on to the front of `out`:
/// as many as `out` has places, or as the chunk has records left. Answers how many. The rest of `out` is as it was.
///
/// Asks for pages of the chunk's packets that weren't taken yet, and of no packet before an item needs it. It takes no
/// memory.
///
/// `Stopped` says that the items before were read and the next one wasn't, since the source failed or since the chunk's stream
/// ends before it: then it has the fault of the packet that ended the chunk, `RestartUnindexed` where another chunk begins and
/// nothing tells of chunks, or `StreamShort`. What is kept can be read on only after the chunk is entered anew.
pub fn read_words64<S: Source>(
    stream: &Bytestream,
    pages: &mut Pages<S>,
    packet: &mut Packet,
    chunk: &mut Chunk,
    out: &mut [u64],
) -> Result<usize, Stopped>
    requires lies { LiesIn stream.now.section (pages.old.length / page_length * payload_length) }
    requires field { stream.now.field < stream.now.section.fields }
    requires within { IsWithin stream.now.section 64 chunk.old }
    ensures length { pages.new.length ≡ pages.old.length }
    ensures header { pages.new.header ≡ pages.old.header }
    ensures within { IsWithin stream.now.section 64 chunk.new }
    ensures items { MatchResult result
        (λ n. (n ≡ the_wanted chunk.old (length out.old))
        × ReadsWords (S.view pages.old.source) stream.now 64 chunk.old (the_wanted chunk.old (length out.old)) n
        out.old out.new chunk.new (S.view pages.new.source))
        (λ stopped. StopsWords (S.view pages.old.source) stream.now 64 chunk.old (the_wanted chunk.old (length out.old))
        stopped.done stopped.fault out.old out.new chunk.new (S.view pages.new.source)) }
{
    let want = wanted(chunk, out.len());
    let mut done = 0;
    while done < want {
        match step_words64(stream, pages, packet, chunk, &mut out[done..want]) {
            Ok(n) => done += n,
            Err(fault) => return Err(Stopped { done, fault }),
        }
    }
    Ok(done)
}

/// Reads the words that the window has, or takes a packet where it has none.
fn step_words64<S: Source>(
    stream: &Bytestream,
    pages: &mut Pages<S>,
    packet: &mut Packet,
    chunk: &mut Chunk,
    out: &mut [u64],
) -> Result<usize, ReadFault>
    requires lies { LiesIn stream.now.section (pages.old.length / page_length * payload_length) }
    requires field { stream.now.field < stream.now.section.fields }
    requires within { IsWithin stream.now.section 64 chunk.old }
    requires some { 0 < length out.old }
    requires left { chunk.old.at + length out.old ≤ chunk.old.until }
    ensures length { pages.new.length ≡ pages.old.length }
    ensures header { pages.new.header ≡ pages.old.header }
    ensures onward { OnOk result (IsOnward chunk.old chunk.new) }
    ensures items { MatchResult result
        (λ n. ReadsWords (S.view pages.old.source) stream.now 64 chunk.old (length out.old) n
        out.old out.new chunk.new (S.view pages.new.source))
        (λ fault. StopsWords (S.view pages.old.source) stream.now 64 chunk.old (length out.old) 0 fault
        out.old out.new chunk.new (S.view pages.new.source)) }
{
    let n = take_words64(chunk, out);
    if n > 0 {
        return Ok(n);
    }
    let_go(chunk);
    match take_packet(stream, pages, packet, chunk) {
        Ok(()) => Ok(0),
        Err(fault) => Err(fault),
    }
}

/// Reads the words that the window has, as many as there are places for, in one run. Answers how many.
fn take_words64(chunk: &mut Chunk, out: &mut [u64]) -> usize
    requires left { chunk.old.at + length out.old ≤ chunk.old.until }
    ensures { TakesWords 64 chunk.old out.old result chunk.new out.new }
{
    let count = held_for(chunk, 64, out.len());
    if count == 0 {
        return 0;
    }
    let until = chunk.until;
    prove!(count as u64 <= until);
    let skipped = (chunk.bit / 8) as usize;
    unpack64(&chunk.window.bytes()[skipped..], &mut out[..count]);
    chunk.at += count as u64;
    chunk.bit += 64 * count as u64;
    count
}
