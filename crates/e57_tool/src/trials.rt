//! `trial START COUNT`

ghost use Rattle.std.specs.Prelude.{◌≤◌, true, MatchResult};
ghost use Rattle.e57_trial.specs.Content.{most_records};
ghost use Rattle.e57_tool.specs.declared.ending.Ending.TheVariants.{Done, Failed};
ghost use Rattle.e57_tool.specs.Putting.{PutsText};
ghost use Rattle.e57_tool.specs.Run.{Keeps};
ghost use Rattle.e57_tool.specs.Trial.{trial_promise, trial_text};

use crate::ending::Ending;
use crate::lines::trial_line;
use e57_base::{RunFault, Sink, Source, Target};
use e57_trial::build_trial;
use std::alloc::Global;

/// Makes a content of the two numbers, with up to 2^24 records, writes it in memory as a file with chunks of 8,192 records and
/// as one with chunks of 1,024, checks both, reads all columns, and puts one line on `out`: the two numbers, the lengths
/// of the files in bytes, and the sum of the raw numbers of cartesianX, modulo 2^64.
///
/// Refuses `Out` if `out` failed, and a prefix of the line was put then; and `Memory`, when nothing was put. Nothing else comes.
///
/// Memory is taken for both files, and for what writing, checking and reading take.
pub fn trial<O: Sink>(alloc: Global, start: u64, count: u64, out: &mut O) -> Result<(), RunFault>
    requires { count ≤ most_records }
    ensures { MatchResult result
        (λ _. PutsText true (trial_text start count) (O.view out.old) (O.view out.new) Done)
        (λ fault. PutsText true (trial_text start count) (O.view out.old) (O.view out.new) (Failed fault)) }
{
    let Ok(files) = build_trial(alloc, start, count) else {
        return Err(RunFault::Memory);
    };
    let first = files.first.as_slice().len() as u64;
    let second = files.second.as_slice().len() as u64;
    let line = trial_line(start, count, first, second, files.sum);
    match out.put(line.as_str().as_bytes()) {
        Ok(()) => Ok(()),
        Err(_) => Err(RunFault::Out),
    }
}

/// Does what `trial` does. The source and the target are given back as they came.
pub fn put_trial<S: Source, T: Target, O: Sink>(
    alloc: Global,
    start: u64,
    count: u64,
    source: S,
    target: T,
    out: &mut O,
) -> (S, T, Ending)
    requires { count ≤ most_records }
    ensures { Keeps S.view T.view O.view (trial_promise start count) source target out.old result out.new }
{
    match trial(alloc, start, count, out) {
        Ok(()) => (source, target, Ending::Done),
        Err(fault) => (source, target, Ending::Failed(fault)),
    }
}
