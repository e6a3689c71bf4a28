//! Reading words of 32 and of 64 bits.

ghost use Rattle.std.specs.Prelude.{◌≡◌, ◌+◌, ◌*◌, ◌/◌, ◌<◌, ◌≤◌, length, IsSome};
ghost use Rattle.e57_base.specs.Source.{page_length};
ghost use Rattle.e57_page.specs.Place.{payload_length};
ghost use Rattle.e57_layout.specs.Values.{word};
ghost use Rattle.e57_section.specs.Opening.{LiesIn};
ghost use Rattle.e57_column.specs.Column.{IsColumn, placed};
ghost use Rattle.e57_column.specs.Answers.{AnswersAll, AnswersSome};

use crate::going::go_to;
use crate::ints::wanted;
use crate::state::{Items, Place, State};
use e57_base::Source;
use e57_page::Pages;
use e57_section::Packet;
use e57_stream::{Stopped, read_words32, read_words64};

/// Reads words of 32 bits from the next record on to the front of `out`, over the chunks.
pub fn read_bits32<S: Source>(
    state: &mut State,
    pages: &mut Pages<S>,
    packet: &mut Packet,
    out: &mut [u32],
) -> Result<usize, Stopped>
    requires lies { LiesIn state.old.stream.section (pages.old.length / page_length * payload_length) }
    requires column { IsColumn state.old }
    requires placed { IsSome (placed state.old) }
    requires kind { state.old.items ≡ Items.Words32 }
    ensures length { pages.new.length ≡ pages.old.length }
    ensures header { pages.new.header ≡ pages.old.header }
    ensures column { IsColumn state.new }
    ensures items { AnswersAll 0 word (S.view pages.old.source) state.old out.old
        result (S.view pages.new.source) state.new out.new }
{
    let want = wanted(state, out.len());
    let mut done = 0;
    while done < want {
        match step_bits32(state, pages, packet, &mut out[done..want]) {
            Ok(n) => done += n,
            Err(stopped) => {
                return Err(Stopped {
                    done: done + stopped.done,
                    fault: stopped.fault,
                });
            }
        }
    }
    Ok(done)
}

/// Reads the words of one chunk.
fn step_bits32<S: Source>(
    state: &mut State,
    pages: &mut Pages<S>,
    packet: &mut Packet,
    out: &mut [u32],
) -> Result<usize, Stopped>
    requires lies { LiesIn state.old.stream.section (pages.old.length / page_length * payload_length) }
    requires column { IsColumn state.old }
    requires placed { IsSome (placed state.old) }
    requires kind { state.old.items ≡ Items.Words32 }
    requires some { 0 < length out.old }
    requires left { state.old.chunk.at + length out.old ≤ state.old.stream.section.count }
    ensures length { pages.new.length ≡ pages.old.length }
    ensures header { pages.new.header ≡ pages.old.header }
    ensures column { IsColumn state.new }
    ensures items { AnswersSome 0 word (S.view pages.old.source) state.old out.old
        result (S.view pages.new.source) state.new out.new }
{
    let at = state.chunk.at;
    if let Err(fault) = go_to(state, pages, packet, at) {
        return Err(Stopped { done: 0, fault });
    }
    match read_words32(&state.stream, pages, packet, &mut state.chunk, out) {
        Ok(n) => Ok(n),
        Err(stopped) => {
            state.place = Place::Nowhere;
            Err(stopped)
        }
    }
}

/// Reads words of 64 bits from the next record on to the front of `out`, over the chunks.
pub fn read_bits64<S: Source>(
    state: &mut State,
    pages: &mut Pages<S>,
    packet: &mut Packet,
    out: &mut [u64],
) -> Result<usize, Stopped>
    requires lies { LiesIn state.old.stream.section (pages.old.length / page_length * payload_length) }
    requires column { IsColumn state.old }
    requires placed { IsSome (placed state.old) }
    requires kind { state.old.items ≡ Items.Words64 }
    ensures length { pages.new.length ≡ pages.old.length }
    ensures header { pages.new.header ≡ pages.old.header }
    ensures column { IsColumn state.new }
    ensures items { AnswersAll 0 word (S.view pages.old.source) state.old out.old
        result (S.view pages.new.source) state.new out.new }
{
    let want = wanted(state, out.len());
    let mut done = 0;
    while done < want {
        match step_bits64(state, pages, packet, &mut out[done..want]) {
            Ok(n) => done += n,
            Err(stopped) => {
                return Err(Stopped {
                    done: done + stopped.done,
                    fault: stopped.fault,
                });
            }
        }
    }
    Ok(done)
}

/// Reads the words of one chunk.
fn step_bits64<S: Source>(
    state: &mut State,
    pages: &mut Pages<S>,
    packet: &mut Packet,
    out: &mut [u64],
) -> Result<usize, Stopped>
    requires lies { LiesIn state.old.stream.section (pages.old.length / page_length * payload_length) }
    requires column { IsColumn state.old }
    requires placed { IsSome (placed state.old) }
    requires kind { state.old.items ≡ Items.Words64 }
    requires some { 0 < length out.old }
    requires left { state.old.chunk.at + length out.old ≤ state.old.stream.section.count }
    ensures length { pages.new.length ≡ pages.old.length }
    ensures header { pages.new.header ≡ pages.old.header }
    ensures column { IsColumn state.new }
    ensures items { AnswersSome 0 word (S.view pages.old.source) state.old out.old
        result (S.view pages.new.source) state.new out.new }
{
    let at = state.chunk.at;
    if let Err(fault) = go_to(state, pages, packet, at) {
        return Err(Stopped { done: 0, fault });
    }
    match read_words64(&state.stream, pages, packet, &mut state.chunk, out) {
        Ok(n) => Ok(n),
        Err(stopped) => {
            state.place = Place::Nowhere;
            Err(stopped)
        }
    }
}
