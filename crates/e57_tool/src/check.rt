//! `check FILE`

ghost use Rattle.e57_tool.specs.declared.ending.Ending.TheVariants.{Done, RefusedOnOut};
ghost use Rattle.e57_tool.specs.Lines.{accepted_line, refused_line};
ghost use Rattle.e57_tool.specs.Check.{JudgesFile, PutsLineAs, PutsAnswer, ChecksFile, check_promise};
ghost use Rattle.e57_tool.specs.Run.{Keeps};

use crate::ending::Ending;
use crate::lines::{accepted_line, refused_line};
use e57_base::{Fault, OpenFault, RunFault, Sink, Source, Target};
use e57_check::{Summary, check};
use e57_page::open_file;
use e57_verdict::{one_verdict, opening_agrees};
use std::alloc::Global;

// Opens the file and judges it.
fn judge<S: Source>(alloc: Global, name: &str, source: S) -> (S, Result<Summary, OpenFault>)
    ensures { JudgesFile name.now (S.view source) (S.view result.0) result.1 }
{
    // The verdict begins with the faults of opening.
    opening_agrees();
    let mut pages = match open_file(name, source) {
        Ok(pages) => pages,
        Err((source, fault)) => return (source, Err(OpenFault::from(fault))),
    };
    let answer = check(alloc, &mut pages);
    (pages.into_source(), answer)
}

// Puts the line of the verdict on `out`, if there is one.
fn put_verdict<O: Sink>(answer: Result<Summary, OpenFault>, out: &mut O) -> Ending
    ensures { PutsAnswer answer (O.view out.old) (O.view out.new) result }
{
    let fault = match answer {
        Ok(summary) => return put_accepted(&summary, out),
        Err(fault) => fault,
    };
    match fault {
        OpenFault::Refused(found) => put_refused(&found, out),
        OpenFault::Source => Ending::Failed(RunFault::Source),
        OpenFault::Memory => Ending::Failed(RunFault::Memory),
    }
}

// Puts the line of a file that is accepted on `out`.
fn put_accepted<O: Sink>(summary: &Summary, out: &mut O) -> Ending
    ensures { PutsLineAs Done (accepted_line summary.now.clouds summary.now.blobs summary.now.records) (O.view out.old) (O.view out.new) result }
{
    let line = accepted_line(summary.clouds, summary.blobs, summary.records);
    match out.put(line.as_str().as_bytes()) {
        Ok(()) => Ending::Done,
        Err(_) => Ending::Failed(RunFault::Out),
    }
}

// Puts the line of a file's first fault on `out`.
fn put_refused<O: Sink>(found: &Fault, out: &mut O) -> Ending
    ensures { PutsLineAs RefusedOnOut (refused_line found.now) (O.view out.old) (O.view out.new) result }
{
    let line = refused_line(found);
    match out.put(line.as_str().as_bytes()) {
        Ok(()) => Ending::RefusedOnOut,
        Err(_) => Ending::Failed(RunFault::Out),
    }
}

// Opens the file, judges it, and puts the line of its verdict on `out`.
fn check_open<S: Source, O: Sink>(alloc: Global, name: &str, source: S, out: &mut O) -> (S, Ending)
    ensures { ChecksFile name.now (S.view source) (S.view result.0) (O.view out.old) (O.view out.new) result.1 }
{
    let (source, answer) = judge(alloc, name, source);
    let ending = put_verdict(answer, out);
    (source, ending)
}

/// Opens the file, judges it, and puts the line of its verdict on `out`: that it is accepted, with how many clouds, blobs and
/// records it has, or its first fault. Takes memory for the XML section and its tree, and for a column a field.
pub fn check_file<S: Source, T: Target, O: Sink>(
    alloc: Global,
    name: &str,
    source: S,
    target: T,
    out: &mut O,
) -> (S, T, Ending)
    ensures { Keeps S.view T.view O.view (check_promise name.now) source target out.old result out.new }
{
    // No file is both accepted and refused.
    one_verdict();
    let (source, ending) = check_open(alloc, name, source, out);
    (source, target, ending)
}
