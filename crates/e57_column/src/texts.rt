//! Reading strings.

ghost use Rattle.std.specs.Prelude.{◌≡◌, ◌+◌, ◌*◌, ◌/◌, ◌^◌, ◌<◌, ◌≤◌, length, IsSome, MatchResult};
ghost use Rattle.e57_base.specs.Source.{page_length};
ghost use Rattle.e57_page.specs.Place.{payload_length};
ghost use Rattle.e57_section.specs.Opening.{LiesIn};
ghost use Rattle.e57_column.specs.Column.{IsColumn, placed};
ghost use Rattle.e57_column.specs.Texts.{left_over as the_left, ReadsSome, StopsSome};
ghost use Rattle.e57_texts.specs.Reading.{begin_of};
ghost use Rattle.e57_column.specs.Answers.{AnswersTexts};

use crate::going::go_to;
use crate::ints::wanted;
use crate::state::{Items, Place, State};
use e57_base::Source;
use e57_page::Pages;
use e57_section::Packet;
use e57_stream::Stopped;
use e57_texts::read_strings;

/// How many strings were read, and whether the byte buffer is too short for the first.
#[derive(Clone, Copy, Debug, PartialEq, Eq)]
pub struct TextsRead {
    /// How many strings were read.
    pub count: usize,
    /// The length in bytes of the next string, if there are places for ends, a record is left, and not one string fits.
    pub need: Option<u64>,
}

/// Reads strings from the next record on, over the chunks.
pub fn read_texts<S: Source>(
    state: &mut State,
    pages: &mut Pages<S>,
    packet: &mut Packet,
    bytes: &mut [u8],
    ends: &mut [u64],
) -> Result<TextsRead, Stopped>
    requires lies { LiesIn state.old.stream.section (pages.old.length / page_length * payload_length) }
    requires column { IsColumn state.old }
    requires placed { IsSome (placed state.old) }
    requires kind { state.old.items ≡ Items.Strings }
    ensures length { pages.new.length ≡ pages.old.length }
    ensures header { pages.new.header ≡ pages.old.header }
    ensures column { IsColumn state.new }
    ensures texts { AnswersTexts (S.view pages.old.source) state.old bytes.old ends.old
        result (S.view pages.new.source) state.new bytes.new ends.new }
{
    let want = wanted(state, ends.len());
    let mut done = 0;
    let mut filled = 0;
    while done < want {
        match step_texts(state, pages, packet, bytes, filled, &mut ends[done..want]) {
            Ok(some) => {
                filled = some.filled;
                done += some.count;
                match some.next {
                    Some(n) => return Ok(left(done, n)),
                    None => {}
                }
            }
            Err(stopped) => {
                return Err(Stopped {
                    done: done + stopped.done,
                    fault: stopped.fault,
                });
            }
        }
    }
    Ok(TextsRead {
        count: done,
        need: None,
    })
}

/// The answer where so many strings were read and the next one has `n` bytes, more than are left.
fn left(count: usize, n: u64) -> TextsRead
    ensures { result ≡ the_left count n }
{
    TextsRead {
        count,
        need: if count == 0 { Some(n) } else { None },
    }
}

/// Strings of one chunk, which were read.
#[derive(Clone, Copy, Debug, PartialEq, Eq)]
pub struct Piece {
    /// How many.
    pub count: usize,
    /// The length in bytes of the next one, if it doesn't fit.
    pub next: Option<u64>,
    /// Where the last one ends in the byte buffer.
    pub filled: usize,
}

/// Reads strings of one chunk, the first one to byte `filled` on.
fn step_texts<S: Source>(
    state: &mut State,
    pages: &mut Pages<S>,
    packet: &mut Packet,
    bytes: &mut [u8],
    filled: usize,
    ends: &mut [u64],
) -> Result<Piece, Stopped>
    requires lies { LiesIn state.old.stream.section (pages.old.length / page_length * payload_length) }
    requires column { IsColumn state.old }
    requires placed { IsSome (placed state.old) }
    requires kind { state.old.items ≡ Items.Strings }
    requires filled { filled ≤ length bytes.old }
    requires some { 0 < length ends.old }
    requires left { state.old.chunk.at + length ends.old ≤ state.old.stream.section.count }
    ensures length { pages.new.length ≡ pages.old.length }
    ensures header { pages.new.header ≡ pages.old.header }
    ensures column { IsColumn state.new }
    ensures texts { MatchResult result
        (λ some. (some.filled ≡ begin_of filled ends.new some.count)
        × ReadsSome (S.view pages.old.source) state.old filled some.count some.next
        bytes.old bytes.new ends.old ends.new (S.view pages.new.source) state.new)
        (λ stopped. StopsSome (S.view pages.old.source) state.old filled (length ends.old) stopped.done stopped.fault
        bytes.old bytes.new ends.old ends.new (S.view pages.new.source) state.new) }
{
    let at = state.chunk.at;
    if let Err(fault) = go_to(state, pages, packet, at) {
        return Err(Stopped { done: 0, fault });
    }
    match read_strings(
        &state.stream,
        pages,
        packet,
        &mut state.chunk,
        bytes,
        filled,
        ends,
    ) {
        Ok(read) => Ok(Piece {
            count: read.count,
            next: read.next,
            filled: last_end(filled, ends, read.count),
        }),
        Err(stopped) => {
            state.place = Place::Nowhere;
            Err(stopped)
        }
    }
}

/// Where the last of so many strings ends.
fn last_end(filled: usize, ends: &[u64], count: usize) -> usize
    requires few { count ≤ length ends.now }
    requires fits { begin_of filled ends.now count < 2 ^ 64 }
    ensures { result ≡ begin_of filled ends.now count }
{
    if count == 0 {
        return filled;
    }
    ends[count - 1] as usize
}
