//! The way to a record.

ghost use Rattle.std.specs.Prelude.{◌≡◌, ◌+◌, ◌-◌, ◌*◌, ◌/◌, ◌<◌, ◌≤◌, None, MatchResult};
ghost use Rattle.e57_base.specs.Source.{page_length};
ghost use Rattle.e57_page.specs.Place.{payload_length};
ghost use Rattle.e57_cloud.specs.PathItem.{constant_of};
ghost use Rattle.e57_section.specs.Opening.{LiesIn, most_records};
ghost use Rattle.e57_column.specs.Column.{kind_of, AreItems, IsRead, IsColumn};
ghost use Rattle.e57_column.specs.Reading.{SeeksNot};
ghost use Rattle.e57_column.specs.Going.{has_record as the_has_record, is_same as the_is_same, entered, moved_to, Enters, Skips, SkipsNot, GoesTo};

use crate::finder::find_chunk;
use crate::state::{Items, Place, State};
use e57_base::{ReadFault, Source};
use e57_index::Found;
use e57_page::Pages;
use e57_section::Packet;
use e57_stream::{Bytestream, Chunk};
use e57_texts::skip_strings;

/// Goes to record `i`, which is below the number of records, of a field whose items take bits: the column stands in its chunk
/// afterwards, and the record is the next one. After a refusal the column isn't placed.
///
/// It enters the chunk of the record, unless it stands in that chunk and not behind the record.
pub fn go_to<S: Source>(
    state: &mut State,
    pages: &mut Pages<S>,
    packet: &mut Packet,
    i: u64,
) -> Result<(), ReadFault>
    requires lies { LiesIn state.old.stream.section (pages.old.length / page_length * payload_length) }
    requires column { IsColumn state.old }
    requires varies { constant_of (kind_of state.old.items) ≡ None }
    requires below { i < state.old.stream.section.count }
    ensures length { pages.new.length ≡ pages.old.length }
    ensures header { pages.new.header ≡ pages.old.header }
    ensures column { IsColumn state.new }
    ensures goes { MatchResult result
        (λ _. GoesTo (S.view pages.old.source) state.old i (S.view pages.new.source) state.new)
        (λ fault. SeeksNot (S.view pages.old.source) state.old i fault (S.view pages.new.source) state.new) }
{
    if let Err(fault) = enter_chunk(state, pages, i) {
        return Err(fault);
    }
    match skip_to(
        &state.stream,
        state.items,
        pages,
        packet,
        &mut state.chunk,
        i,
    ) {
        Ok(()) => Ok(()),
        Err(fault) => {
            state.place = Place::Nowhere;
            Err(fault)
        }
    }
}

/// Enters the chunk of record `i`, unless the column stands in it and not behind the record. After a refusal the column isn't
/// placed.
fn enter_chunk<S: Source>(state: &mut State, pages: &mut Pages<S>, i: u64) -> Result<(), ReadFault>
    requires lies { LiesIn state.old.stream.section (pages.old.length / page_length * payload_length) }
    requires column { IsColumn state.old }
    requires varies { constant_of (kind_of state.old.items) ≡ None }
    requires below { i < state.old.stream.section.count }
    ensures length { pages.new.length ≡ pages.old.length }
    ensures header { pages.new.header ≡ pages.old.header }
    ensures enters { MatchResult result
        (λ _. Enters (S.view pages.old.source) state.old i (S.view pages.new.source) state.new)
        (λ fault. IsColumn state.new × SeeksNot (S.view pages.old.source) state.old i fault (S.view pages.new.source) state.new) }
{
    if has_record(state, i) {
        return Ok(());
    }
    match find_chunk(&mut state.finder, &state.stream, pages, i) {
        Ok(found) => {
            enter(state, &found, i);
            Ok(())
        }
        Err(fault) => {
            state.place = Place::Nowhere;
            Err(fault)
        }
    }
}

/// Whether record `i` is one of the chunk in which the column stands, and not before the next one.
fn has_record(state: &State, i: u64) -> bool
    requires { IsColumn state.now }
    ensures { result ≡ the_has_record state.now i }
{
    match state.place {
        Place::Inside => state.chunk.at <= i && i < state.chunk.until,
        _ => false,
    }
}

/// Whether the chunk that was found is the one in which the column stands, and record `i` isn't before the next one.
fn is_same(state: &State, found: &Found, i: u64) -> bool
    ensures { result ≡ the_is_same state.now found.now i }
{
    match state.place {
        Place::Inside => {
            state.chunk.start == found.start
                && state.chunk.entry == found.place
                && state.chunk.at <= i
        }
        _ => false,
    }
}

/// Enters the chunk that was found for record `i`; where the column stands in it already, more of its records are known.
fn enter(state: &mut State, found: &Found, i: u64)
    ensures { state.new ≡ entered state.old found.now i }
{
    let same = is_same(state, found, i);
    state.chunk.until = found.until;
    if same {
        return;
    }
    state.place = Place::Inside;
    state.chunk.start = found.start;
    state.chunk.entry = found.place;
    state.chunk.taken = found.place;
    state.chunk.fresh = true;
    state.chunk.at = found.start;
    state.chunk.bit = 0;
    state.chunk.window.clear();
}

/// Reads the stream in a chunk up to the item of record `i`, which isn't before the next one. Of numbers nothing is read.
fn skip_to<S: Source>(
    stream: &Bytestream,
    items: Items,
    pages: &mut Pages<S>,
    packet: &mut Packet,
    chunk: &mut Chunk,
    i: u64,
) -> Result<(), ReadFault>
    requires lies { LiesIn stream.now.section (pages.old.length / page_length * payload_length) }
    requires items { AreItems items }
    requires is_field { stream.now.field < stream.now.section.fields }
    requires read { IsRead stream.now.section (kind_of items) chunk.old }
    requires low { chunk.old.at ≤ i }
    requires high { i < chunk.old.until }
    ensures length { pages.new.length ≡ pages.old.length }
    ensures header { pages.new.header ≡ pages.old.header }
    ensures skips { MatchResult result
        (λ _. Skips (S.view pages.old.source) stream.now (kind_of items) chunk.old i (S.view pages.new.source) chunk.new)
        (λ fault. SkipsNot (S.view pages.old.source) stream.now (kind_of items) chunk.old i fault (S.view pages.new.source)) }
{
    match items {
        Items::Whole(range) => {
            move_to(chunk, range.width, i);
            Ok(())
        }
        Items::Words32 => {
            move_to(chunk, 32, i);
            Ok(())
        }
        Items::Words64 => {
            move_to(chunk, 64, i);
            Ok(())
        }
        Items::Strings => skip_strings(stream, pages, packet, chunk, i),
    }
}

/// Goes on to record `i` of a chunk of numbers of `width` bits.
fn move_to(chunk: &mut Chunk, width: u8, i: u64)
    requires width { width ≤ 64 }
    requires start { chunk.old.start ≤ chunk.old.at }
    requires low { chunk.old.at ≤ i }
    requires few { i ≤ most_records }
    requires begins { chunk.old.bit ≤ width * (chunk.old.at - chunk.old.start) }
    ensures { chunk.new ≡ moved_to width i chunk.old }
{
    let at = chunk.at;
    chunk.bit += width as u64 * (i - at);
    chunk.at = i;
}
