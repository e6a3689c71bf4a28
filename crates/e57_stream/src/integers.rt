//! Reading integers of a chunk.

ghost use Rattle.std.specs.Prelude.{◌≡◌, ◌+◌, ◌-◌, ◌*◌, ◌/◌, ◌%◌, ◌<◌, ◌≤◌, ◌⊎◌, drop, length, MatchResult, OnOk};
ghost use Rattle.std.specs.Int.{int_gap};
ghost use Rattle.e57_base.specs.Source.{page_length};
ghost use Rattle.e57_page.specs.Place.{payload_length};
ghost use Rattle.e57_section.specs.Opening.{LiesIn};
ghost use Rattle.e57_stream.specs.Standing.{IsWithin, IsOnward, wanted as the_wanted};
ghost use Rattle.e57_stream.specs.Integers.{IsRange, range_at, TakesIntegers, ReadsIntegers, StopsIntegers, UnpacksFrom};

use crate::bytestream::{Bytestream, Integers, Stopped};
use crate::chunk::{Chunk, held_for, let_go, wanted};
use crate::taking::take_packet;
use crate::window::Window;
use e57_base::{Fault, Kind, ReadFault, Source};
use e57_lanes::unpack;
use e57_page::Pages;
use e57_section::Packet;

/// Reads items of the chunk from the next record on to the front of `out`: as many as `out` has places, or as the chunk has
/// records left. Answers how many. The rest of `out` is as it was.
///
/// Asks for pages of the chunk's packets that weren't taken yet, and of no packet before an item needs it. It takes no
/// memory.
///
/// `Stopped` says that the items before were read and the next one wasn't, since the source failed or since it has this
/// fault: `ValueRange` where it is above the highest value; and where the chunk's stream ends before it, the fault of the
/// packet that ended the chunk, `RestartUnindexed` where another chunk begins and nothing tells of chunks, or `StreamShort`.
/// What is kept can be read on only after the chunk is entered anew.
pub fn read_integers<S: Source>(
    stream: &Bytestream,
    range: &Integers,
    pages: &mut Pages<S>,
    packet: &mut Packet,
    chunk: &mut Chunk,
    out: &mut [i64],
) -> Result<usize, Stopped>
    requires lies { LiesIn stream.now.section (pages.old.length / page_length * payload_length) }
    requires field { stream.now.field < stream.now.section.fields }
    requires range { IsRange range.now }
    requires within { IsWithin stream.now.section range.now.width chunk.old }
    ensures length { pages.new.length ≡ pages.old.length }
    ensures header { pages.new.header ≡ pages.old.header }
    ensures within { IsWithin stream.now.section range.now.width chunk.new }
    ensures items { MatchResult result
        (λ n. (n ≡ the_wanted chunk.old (length out.old))
        × ReadsIntegers (S.view pages.old.source) stream.now range.now chunk.old (the_wanted chunk.old (length out.old)) n
        out.old out.new chunk.new (S.view pages.new.source))
        (λ stopped. StopsIntegers (S.view pages.old.source) stream.now range.now chunk.old (the_wanted chunk.old (length out.old))
        stopped.done stopped.fault out.old out.new chunk.new (S.view pages.new.source)) }
{
    let want = wanted(chunk, out.len());
    let mut done = 0;
    while done < want {
        match step_integers(stream, range, pages, packet, chunk, &mut out[done..want]) {
            Ok(n) => done += n,
            Err(stopped) => {
                return Err(Stopped {
                    done: done + stopped.done,
                    fault: stopped.fault,
                });
            }
        }
    }
    Ok(done)
}

/// Reads the items that the window has, or takes a packet where it has none.
fn step_integers<S: Source>(
    stream: &Bytestream,
    range: &Integers,
    pages: &mut Pages<S>,
    packet: &mut Packet,
    chunk: &mut Chunk,
    out: &mut [i64],
) -> Result<usize, Stopped>
    requires lies { LiesIn stream.now.section (pages.old.length / page_length * payload_length) }
    requires field { stream.now.field < stream.now.section.fields }
    requires range { IsRange range.now }
    requires within { IsWithin stream.now.section range.now.width chunk.old }
    requires some { 0 < length out.old }
    requires left { chunk.old.at + length out.old ≤ chunk.old.until }
    ensures length { pages.new.length ≡ pages.old.length }
    ensures header { pages.new.header ≡ pages.old.header }
    ensures onward { OnOk result (IsOnward chunk.old chunk.new) }
    ensures items { MatchResult result
        (λ n. ReadsIntegers (S.view pages.old.source) stream.now range.now chunk.old (length out.old) n
        out.old out.new chunk.new (S.view pages.new.source))
        (λ stopped. StopsIntegers (S.view pages.old.source) stream.now range.now chunk.old (length out.old)
        stopped.done stopped.fault out.old out.new chunk.new (S.view pages.new.source)) }
{
    let at = chunk.at;
    match take_integers(range, chunk, out) {
        Ok(n) => {
            if n > 0 {
                return Ok(n);
            }
        }
        Err(k) => {
            return Err(Stopped {
                done: k,
                fault: out_of_range(stream, at + k as u64),
            });
        }
    }
    let_go(chunk);
    match take_packet(stream, pages, packet, chunk) {
        Ok(()) => Ok(0),
        Err(fault) => Err(Stopped { done: 0, fault }),
    }
}

/// The fault of an integer of record `at` that is above the highest value.
fn out_of_range(stream: &Bytestream, at: u64) -> ReadFault
    ensures { result ≡ ReadFault.Refused (range_at stream.now at) }
{
    ReadFault::Refused(Fault::new(Kind::ValueRange, at, stream.node as u64))
}

/// Reads the items that the window has, as many as there are places for. `Err(k)`: item k is the first above the highest
/// value; those before it are read, and the state is as it was.
fn take_integers(range: &Integers, chunk: &mut Chunk, out: &mut [i64]) -> Result<usize, usize>
    requires range { IsRange range.now }
    requires left { chunk.old.at + length out.old ≤ chunk.old.until }
    ensures { TakesIntegers range.now chunk.old out.old result chunk.new out.new }
{
    let _size = chunk.window.len();
    let count = held_for(chunk, range.width, out.len());
    let until = chunk.until;
    prove!(count as u64 <= until);
    if count == 0 {
        return Ok(0);
    }
    unpack_held(&chunk.window, chunk.bit, range, &mut out[..count])?;
    chunk.at += count as u64;
    chunk.bit += range.width as u64 * count as u64;
    Ok(count)
}

/// Unpacks the items from bit `bit` of a window on.
fn unpack_held(window: &Window, bit: u64, range: &Integers, out: &mut [i64]) -> Result<(), usize>
    requires range { IsRange range.now }
    requires there { bit + range.now.width * length out.old ≤ 8 * length window.now }
    ensures { UnpacksFrom range.now window.now bit out.old result out.new }
{
    unpack_at(window.with_spare(), bit, range, out)
}

/// Unpacks the items from bit `bit` on.
fn unpack_at(bytes: &[u8], bit: u64, range: &Integers, out: &mut [i64]) -> Result<(), usize>
    requires range { IsRange range.now }
    requires there { bit + range.now.width * length out.old ≤ 8 * length bytes.now }
    ensures { UnpacksFrom range.now bytes.now bit out.old result out.new }
{
    let skipped = (bit / 8) as usize;
    let phase = (bit % 8) as u8;
    let (low, high) = (range.low, range.high);
    prove!(low <= high);
    unpack(&bytes[skipped..], phase, range.width, low, span(range), out)
}

/// How far the highest value is above the lowest.
fn span(range: &Integers) -> u64
    requires { IsRange range.now }
    ensures { result ≡ int_gap range.now.low range.now.high }
{
    (range.high as i128 - range.low as i128) as u64
}
