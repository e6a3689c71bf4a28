//! Reading integers.

ghost use Rattle.std.specs.Prelude.{◌≡◌, ◌+◌, ◌*◌, ◌/◌, ◌<◌, ◌≤◌, ◌==◌, min, false, Some, length, replicate, pos, IsSome, MatchResult};
ghost use Rattle.e57_base.specs.Source.{page_length};
ghost use Rattle.e57_page.specs.Place.{payload_length};
ghost use Rattle.e57_layout.specs.Values.{whole};
ghost use Rattle.e57_cloud.specs.PathItem.{constant_of};
ghost use Rattle.e57_section.specs.Opening.{LiesIn};
ghost use Rattle.e57_column.specs.Finding.{IsFinder, FindsNot};
ghost use Rattle.e57_column.specs.Column.{kind_of, IsColumn, placed, wanted as the_wanted};
ghost use Rattle.e57_column.specs.Going.{FindsPaths};
ghost use Rattle.e57_column.specs.Reading.{AreWhole, IsLimited};
ghost use Rattle.e57_column.specs.Answers.{AnswersAll, AnswersSome};

use crate::finder::find_chunk;
use crate::going::go_to;
use crate::state::{Items, Place, State};
use e57_base::{ReadFault, Source};
use e57_page::Pages;
use e57_section::Packet;
use e57_stream::{Stopped, read_integers};

/// Reads integers from the next record on to the front of `out`, over the chunks.
pub fn read_ints<S: Source>(
    state: &mut State,
    pages: &mut Pages<S>,
    packet: &mut Packet,
    out: &mut [i64],
) -> Result<usize, Stopped>
    requires lies { LiesIn state.old.stream.section (pages.old.length / page_length * payload_length) }
    requires column { IsColumn state.old }
    requires placed { IsSome (placed state.old) }
    requires kind { AreWhole (kind_of state.old.items) }
    ensures length { pages.new.length ≡ pages.old.length }
    ensures header { pages.new.header ≡ pages.old.header }
    ensures column { IsColumn state.new }
    ensures items { AnswersAll (pos 0) whole (S.view pages.old.source) state.old out.old
        result (S.view pages.new.source) state.new out.new }
{
    let want = wanted(state, out.len());
    let mut done = 0;
    while done < want {
        match step_ints(state, pages, packet, &mut out[done..want]) {
            Ok(n) => done += n,
            Err(stopped) => {
                return Err(Stopped {
                    done: done + stopped.done,
                    fault: stopped.fault,
                });
            }
        }
    }
    Ok(done)
}

/// How many records are read into so many places: as many as are left at most.
pub fn wanted(state: &State, places: usize) -> usize
    requires column { IsColumn state.now }
    requires placed { IsSome (placed state.now) }
    ensures { result ≡ the_wanted state.now places }
{
    fewer(state.stream.section.count - state.chunk.at, places)
}

/// Reads the integers of one chunk.
fn step_ints<S: Source>(
    state: &mut State,
    pages: &mut Pages<S>,
    packet: &mut Packet,
    out: &mut [i64],
) -> Result<usize, Stopped>
    requires lies { LiesIn state.old.stream.section (pages.old.length / page_length * payload_length) }
    requires column { IsColumn state.old }
    requires placed { IsSome (placed state.old) }
    requires kind { AreWhole (kind_of state.old.items) }
    requires some { 0 < length out.old }
    requires left { state.old.chunk.at + length out.old ≤ state.old.stream.section.count }
    ensures length { pages.new.length ≡ pages.old.length }
    ensures header { pages.new.header ≡ pages.old.header }
    ensures column { IsColumn state.new }
    ensures items { AnswersSome (pos 0) whole (S.view pages.old.source) state.old out.old
        result (S.view pages.new.source) state.new out.new }
{
    let Items::Whole(range) = state.items else {
        unreachable!()
    };
    if range.width == 0 {
        return step_constant(state, pages, range.low, out);
    }
    let at = state.chunk.at;
    if let Err(fault) = go_to(state, pages, packet, at) {
        return Err(Stopped { done: 0, fault });
    }
    match read_integers(&state.stream, &range, pages, packet, &mut state.chunk, out) {
        Ok(n) => Ok(n),
        Err(stopped) => {
            state.place = Place::Nowhere;
            Err(stopped)
        }
    }
}

/// Reads integers of which only one value is possible. With an index it finds the chunk of the next record, and reads those of
/// that chunk; else all, and it asks for nothing.
fn step_constant<S: Source>(
    state: &mut State,
    pages: &mut Pages<S>,
    low: i64,
    out: &mut [i64],
) -> Result<usize, Stopped>
    requires lies { LiesIn state.old.stream.section (pages.old.length / page_length * payload_length) }
    requires column { IsColumn state.old }
    requires placed { IsSome (placed state.old) }
    requires constant { constant_of (kind_of state.old.items) ≡ Some (whole low) }
    requires within { IsLimited (kind_of state.old.items) (whole low) }
    requires some { 0 < length out.old }
    requires left { state.old.chunk.at + length out.old ≤ state.old.stream.section.count }
    ensures length { pages.new.length ≡ pages.old.length }
    ensures header { pages.new.header ≡ pages.old.header }
    ensures column { IsColumn state.new }
    ensures items { AnswersSome (pos 0) whole (S.view pages.old.source) state.old out.old
        result (S.view pages.new.source) state.new out.new }
{
    let n = match find_constant(state, pages, out.len()) {
        Ok(n) => n,
        Err(fault) => {
            state.place = Place::Nowhere;
            return Err(Stopped { done: 0, fault });
        }
    };
    fill(&mut out[..n], low);
    state.chunk.at += n as u64;
    Ok(n)
}

/// Puts one value into all places.
fn fill(out: &mut [i64], low: i64)
    ensures { out.new ≡ replicate (length out.old) low }
{
    out.fill(low);
}

/// How many of the next records, of so many at most, have a path through the index; all without an index.
fn find_constant<S: Source>(
    state: &mut State,
    pages: &mut Pages<S>,
    places: usize,
) -> Result<usize, ReadFault>
    requires lies { LiesIn state.old.stream.section (pages.old.length / page_length * payload_length) }
    requires column { IsColumn state.old }
    requires some { 0 < places }
    requires left { state.old.chunk.at + places ≤ state.old.stream.section.count }
    ensures length { pages.new.length ≡ pages.old.length }
    ensures header { pages.new.header ≡ pages.old.header }
    ensures same { state.new ≡ record state.old { finder = state.new.finder } }
    ensures finder { IsFinder state.old.stream.section state.old.stream.fixed state.new.finder }
    ensures paths { MatchResult result
        (λ n. (0 < n) × (n ≤ places) × FindsPaths (S.view pages.old.source) state.old n (S.view pages.new.source) state.new.finder)
        (λ fault. FindsNot (S.view pages.old.source) state.old.stream state.old.finder state.old.chunk.at fault
        (S.view pages.new.source) state.new.finder
        × ((state.old.stream.section.index == 0) ≡ false)) }
{
    if state.stream.section.index == 0 {
        return Ok(places);
    }
    let at = state.chunk.at;
    match find_chunk(&mut state.finder, &state.stream, pages, at) {
        Ok(found) => Ok(fewer(found.until - at, places)),
        Err(fault) => Err(fault),
    }
}

/// The smaller of the two.
fn fewer(left: u64, places: usize) -> usize
    ensures { result ≡ min places left }
{
    if left < places as u64 {
        left as usize
    } else {
        places
    }
}
