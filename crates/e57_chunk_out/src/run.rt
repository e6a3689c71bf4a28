//! Groups of the open chunk, from items that wait to packets.

ghost use Rattle.std.specs.Prelude.{◌≡◌, ◌+◌, ◌*◌, ◌<◌, ◌≤◌, true, false, not, length, map, min, MatchResult};
ghost use Rattle.std.specs.List.{AllByRecursion};
ghost use Rattle.e57_layout.specs.Packets.{data_packet};
ghost use Rattle.e57_layout.specs.Packing.{fits_packet, poured};
ghost use Rattle.e57_layout.specs.Written.{flagged, packets_bytes};
ghost use Rattle.e57_page_out.specs.Sequences.{Puts};
ghost use Rattle.e57_page_out.specs.Writing.{IsBeingWritten, most_bytes};
ghost use Rattle.e57_chunk_out.specs.Waiting.{taken, cleared};
ghost use Rattle.e57_chunk_out.specs.Cutting.{streams_of};
ghost use Rattle.e57_chunk_out.specs.SideBySide.{Has, HasText};
ghost use Rattle.e57_chunk_out.specs.Going.{gone, AreGroups, Goes, IsGathered, LosesRecords};

use crate::field_out::FieldOut;
use crate::fields::{fitting, take_all};
use crate::pour::{pour, put_run};
use e57_base::{Target, WriteFault};
use e57_page_out::PagesOut;

/// What is under way of the open chunk.
#[derive(Drop)]
pub struct Run {
    /// How many records it has at most.
    pub most: usize,
    /// Of how many records the fields' streams are.
    pub records: usize,
    /// Whether a packet of the chunk was put.
    pub is_begun: bool,
}

/// Takes some of the next `most` records, from `from` on, and answers how many: all of them, or whole groups. They join the run,
/// if they fit; else the run is put as a packet first. A group that is larger than a packet is poured.
///
/// Refuses `Memory` only where a field is of strings. After each refusal `out` is spent.
pub fn advance<T: Target>(
    fields: &mut [FieldOut],
    run: &mut Run,
    from: usize,
    most: usize,
    out: &mut PagesOut<T>,
) -> Result<usize, WriteFault>
    requires state { IsBeingWritten T.view out.old }
    requires gathered { IsGathered fields.old run.old }
    requires some { 0 < most }
    requires there { AllByRecursion (Has (from + most)) fields.old }
    requires room { run.old.records + most ≤ run.old.most }
    ensures { let packets = packets_bytes (flagged (not run.old.is_begun) (gone from (min 8 most) fields.old run.old).done) in
        MatchResult result
        (λ k. AreGroups k most × Goes T.view from k fields.old run.old out.old fields.new run.new out.new)
        (λ fault. (out.new.is_spent ≡ true) × LosesRecords T.view out.old (most_bytes < out.old.size + length packets) (HasText fields.old) fault (T.view out.new.target)) }
{
    let n = fitting(fields, from, most);
    if n > 0 {
        return match take_groups(fields, run, from, n, out) {
            Ok(()) => Ok(n),
            Err(fault) => Err(fault),
        };
    }
    if run.records == 0 {
        return begin_run(fields, run, from, most, out);
    }
    if let Err(fault) = flush(fields, run, out) {
        return Err(fault);
    }
    begin_run(fields, run, from, most, out)
}

/// Does so where no run is under way.
fn begin_run<T: Target>(
    fields: &mut [FieldOut],
    run: &mut Run,
    from: usize,
    most: usize,
    out: &mut PagesOut<T>,
) -> Result<usize, WriteFault>
    requires state { IsBeingWritten T.view out.old }
    requires gathered { IsGathered fields.old run.old }
    requires none { run.old.records ≡ 0 }
    requires some { 0 < most }
    requires there { AllByRecursion (Has (from + most)) fields.old }
    requires room { most ≤ run.old.most }
    ensures { let packets = packets_bytes (flagged (not run.old.is_begun) (gone from (min 8 most) fields.old run.old).done) in
        MatchResult result
        (λ k. AreGroups k most × Goes T.view from k fields.old run.old out.old fields.new run.new out.new)
        (λ fault. (out.new.is_spent ≡ true) × LosesRecords T.view out.old (most_bytes < out.old.size + length packets) (HasText fields.old) fault (T.view out.new.target)) }
{
    let n = fitting(fields, from, most);
    if n > 0 {
        return match take_groups(fields, run, from, n, out) {
            Ok(()) => Ok(n),
            Err(fault) => Err(fault),
        };
    }
    let n = most.min(8);
    match pour_group(fields, run, from, n, out) {
        Ok(()) => Ok(n),
        Err(fault) => Err(fault),
    }
}

/// Takes groups that fit behind the run.
fn take_groups<T: Target>(
    fields: &mut [FieldOut],
    run: &mut Run,
    from: usize,
    n: usize,
    out: &mut PagesOut<T>,
) -> Result<(), WriteFault>
    requires state { IsBeingWritten T.view out.old }
    requires gathered { IsGathered fields.old run.old }
    requires there { AllByRecursion (Has (from + n)) fields.old }
    requires room { run.old.records + n ≤ run.old.most }
    requires some { 0 < n }
    requires fits { fits_packet (streams_of (map (taken from n) fields.old)) ≡ true }
    ensures { MatchResult result
        (λ _. (fields.new ≡ map (taken from n) fields.old) × (run.new ≡ record run.old { records = run.old.records + n }) × (out.new ≡ out.old))
        (λ fault. (out.new.is_spent ≡ true) × LosesRecords T.view out.old ⊥ (HasText fields.old) fault (T.view out.new.target)) }
{
    if let Err(_) = take_all(fields, from, n) {
        out.give_up();
        return Err(WriteFault::Memory);
    }
    run.records += n;
    Ok(())
}

/// Puts a group that is larger than a packet, where no run is under way.
fn pour_group<T: Target>(
    fields: &mut [FieldOut],
    run: &mut Run,
    from: usize,
    n: usize,
    out: &mut PagesOut<T>,
) -> Result<(), WriteFault>
    requires state { IsBeingWritten T.view out.old }
    requires gathered { IsGathered fields.old run.old }
    requires none { run.old.records ≡ 0 }
    requires some { 0 < n }
    requires few { n ≤ 8 }
    requires there { AllByRecursion (Has (from + n)) fields.old }
    requires room { n ≤ run.old.most }
    ensures { let packets = packets_bytes (flagged (not run.old.is_begun) (poured (streams_of (map (taken from n) fields.old)))) in
        MatchResult result
        (λ _. (fields.new ≡ map cleared fields.old) × (run.new ≡ record run.old { is_begun = true }) × Puts T.view out.old packets out.new)
        (λ fault. (out.new.is_spent ≡ true) × LosesRecords T.view out.old (most_bytes < out.old.size + length packets) (HasText fields.old) fault (T.view out.new.target)) }
{
    if let Err(_) = take_all(fields, from, n) {
        out.give_up();
        return Err(WriteFault::Memory);
    }
    if let Err(fault) = pour(fields, !run.is_begun, out) {
        return Err(fault.into());
    }
    run.is_begun = true;
    Ok(())
}

/// Puts the run as a packet.
pub fn flush<T: Target>(
    fields: &mut [FieldOut],
    run: &mut Run,
    out: &mut PagesOut<T>,
) -> Result<(), WriteFault>
    requires unspent { out.old.is_spent ≡ false }
    requires gathered { IsGathered fields.old run.old }
    requires some { 0 < run.old.records }
    ensures { let packet = data_packet (not run.old.is_begun) (streams_of fields.old) in
        MatchResult result
        (λ _. (fields.new ≡ map cleared fields.old) × (run.new ≡ record run.old { records = 0; is_begun = true }) × Puts T.view out.old packet out.new)
        (λ fault. (out.new.is_spent ≡ true) × LosesRecords T.view out.old (most_bytes < out.old.size + length packet) ⊥ fault (T.view out.new.target)) }
{
    if let Err(fault) = put_run(fields, !run.is_begun, out) {
        return Err(fault.into());
    }
    run.records = 0;
    run.is_begun = true;
    Ok(())
}
