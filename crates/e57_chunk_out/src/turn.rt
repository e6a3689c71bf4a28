//! The chunks of a section, from items that wait to packets and entries.

ghost use Rattle.std.specs.Prelude.{◌≡◌, ◌+◌, ◌*◌, ◌%◌, ◌<◌, ◌≤◌, true, false, not, length, min, MatchResult};
ghost use Rattle.std.specs.List.{AllByRecursion};
ghost use Rattle.e57_page_out.specs.Sequences.{Puts};
ghost use Rattle.e57_page_out.specs.Writing.{IsBeingWritten, most_bytes};
ghost use Rattle.e57_chunk_out.specs.SideBySide.{Has, HasText};
ghost use Rattle.e57_chunk_out.specs.Going.{run_packets, AreGroups, EndsRun, IsGathered, LosesRecords};
ghost use Rattle.e57_chunk_out.specs.Turns.{chunks_begun, BeginsChunk, IsChunked, PassesAt, Turns};

use crate::field_out::FieldOut;
use crate::run::{Run, advance, flush};
use e57_base::{Target, WriteFault};
use e57_index_out::IndexOut;
use e57_layout::Entry;
use e57_page_out::PagesOut;

/// The chunks of a section that is written.
#[derive(Drop)]
pub struct Chunks {
    /// How many records a chunk has.
    pub records: u64,
    /// How many records there are at most.
    pub at_most: u64,
    /// What is under way of the open one.
    pub run: Run,
    /// The entries of those that were begun.
    pub index: IndexOut,
}

/// Takes the records from `from` on and before `until`, the first of which has number `e`, in as many turns as it takes.
pub fn put_records<T: Target>(
    fields: &mut [FieldOut],
    chunks: &mut Chunks,
    e: u64,
    until: usize,
    out: &mut PagesOut<T>,
) -> Result<(), WriteFault>
    requires state { IsBeingWritten T.view out.old }
    requires chunked { IsChunked e fields.old chunks.old }
    requires whole { e % 8 ≡ 0 }
    requires there { AllByRecursion (Has until) fields.old }
    requires limit { e + until ≤ chunks.old.at_most }
    ensures { MatchResult result
        (λ _. Turns T.view e 0 until fields.old chunks.old out.old fields.new chunks.new out.new)
        (λ fault. (out.new.is_spent ≡ true) × LosesRecords T.view out.old (PassesAt e 0 until fields.old chunks.old out.old) (HasText fields.old) fault (T.view out.new.target)) }
{
    let mut from = 0;
    while from < until {
        match turn(fields, chunks, e + from as u64, from, until - from, out) {
            Ok(k) => from += k,
            Err(fault) => return Err(fault),
        }
    }
    Ok(())
}

/// Takes some of the next `most` records, from `from` on, the first of which has number `e`, and answers how many: all of
/// them, or whole groups. A chunk that they begin gets its entry, and one that they fill is closed.
fn turn<T: Target>(
    fields: &mut [FieldOut],
    chunks: &mut Chunks,
    e: u64,
    from: usize,
    most: usize,
    out: &mut PagesOut<T>,
) -> Result<usize, WriteFault>
    requires state { IsBeingWritten T.view out.old }
    requires chunked { IsChunked e fields.old chunks.old }
    requires whole { e % 8 ≡ 0 }
    requires some { 0 < most }
    requires there { AllByRecursion (Has (from + most)) fields.old }
    requires limit { e + most ≤ chunks.old.at_most }
    ensures { MatchResult result
        (λ k. AreGroups k most × Turns T.view e from k fields.old chunks.old out.old fields.new chunks.new out.new)
        (λ fault. (out.new.is_spent ≡ true) × LosesRecords T.view out.old (PassesAt e from most fields.old chunks.old out.old) (HasText fields.old) fault (T.view out.new.target)) }
{
    let left = chunks.records - e % chunks.records;
    let within = (most as u64).min(left) as usize;
    begin_chunk(chunks, e, out);
    let k = match advance(fields, &mut chunks.run, from, within, out) {
        Ok(k) => k,
        Err(fault) => return Err(fault),
    };
    if (k as u64) < left {
        return Ok(k);
    }
    match end_chunk(fields, &mut chunks.run, out) {
        Ok(()) => Ok(k),
        Err(fault) => Err(fault),
    }
}

/// Gives a chunk its entry, if it begins with record `e`.
fn begin_chunk<T: Target>(chunks: &mut Chunks, e: u64, out: &PagesOut<T>)
    requires state { IsBeingWritten T.view out.now }
    requires some { 0 < chunks.old.records }
    requires entries { length chunks.old.index.entries ≡ chunks_begun chunks.old.records e }
    requires room { chunks.old.index.room ≡ chunks_begun chunks.old.records chunks.old.at_most }
    requires limit { e < chunks.old.at_most }
    ensures { BeginsChunk e out.now.size chunks.old chunks.new }
{
    if e % chunks.records != 0 {
        return;
    }
    let place = out.place();
    chunks.index.push(Entry { first: e, place });
}

/// Ends a chunk: puts the run, if there is one.
pub fn end_chunk<T: Target>(
    fields: &mut [FieldOut],
    run: &mut Run,
    out: &mut PagesOut<T>,
) -> Result<(), WriteFault>
    requires state { IsBeingWritten T.view out.old }
    requires gathered { IsGathered fields.old run.old }
    ensures { MatchResult result
        (λ _. EndsRun T.view fields.old run.old out.old fields.new run.new out.new)
        (λ fault. (out.new.is_spent ≡ true) × LosesRecords T.view out.old (most_bytes < out.old.size + length (run_packets fields.old run.old)) ⊥ fault (T.view out.new.target)) }
{
    if run.records == 0 {
        run.is_begun = false;
        return Ok(());
    }
    if let Err(fault) = flush(fields, run, out) {
        return Err(fault);
    }
    run.is_begun = false;
    Ok(())
}
