//! A file that is cut off at each place, and each call that fails.

use crate::verdicts::is_judged;
use e57_base::{MemSink, MemSource};
use e57_samples::files::three_records;
use e57_samples::runs::{Ended, failing_sink, room, run_words, source_of};
use e57_tool::Status;
use std::alloc::{AllocError, Global};
use std::test::*;

// The line of `check` for so many first bytes of a file of 3072: the header is read where they are whole pages.
fn line_of(alloc: Global, length: usize) -> Result<String, AllocError> {
    let whole_pages = length % 1024 == 0 && length > 0;
    let stated = if whole_pages { 3072 } else { 0 };
    format!(in alloc; "refused FileLength {length} {stated}\n")
}

#[test]
fn every_front_of_a_file_is_refused(rt: HostRuntime) -> Result<(), Fail> {
    let alloc = rt.alloc();
    let whole = three_records(alloc)?;
    for length in 0..3072 {
        let front = whole.get(..length).unwrap_or_default().to_vec(alloc)?;
        let line = line_of(alloc, length)?;
        assert!(rt; is_judged(alloc, front, &line)?, "{length}");
    }
    Ok(())
}

// `check` of three records, with a source that fails at this call.
fn with_failing_source(alloc: Global, call: u64, err: MemSink) -> Result<Ended, AllocError> {
    let mut source = source_of(alloc, three_records(alloc)?)?;
    source.fail_at(call)?;
    run_words(alloc, &["check", "scan"], source, room(alloc)?, err)
}

// `check` of three records, with an output that fails at this call.
fn with_failing_output(alloc: Global, call: u64) -> Result<Ended, AllocError> {
    let source = source_of(alloc, three_records(alloc)?)?;
    let mut out = room(alloc)?;
    out.fail_at(call)?;
    run_words(alloc, &["check", "scan"], source, out, room(alloc)?)
}

const ACCEPTED: &[u8] = b"accepted 1 0 3\n";

// The calls are counted up to the first one that a run doesn't come to. Call 0 opens the file, and each later one asks for a
// page. That the line can't be put changes nothing else.
#[test]
fn each_failed_call_of_the_source_is_a_source_fault(rt: HostRuntime) -> Result<(), Fail> {
    let alloc = rt.alloc();
    for call in 0..100u64 {
        let ended = with_failing_source(alloc, call, room(alloc)?)?;
        if ended.status == Status::Done {
            let calls = ended.source.asked().len() as u64;
            assert!(rt; ended.is(Status::Done, ACCEPTED, b"") && call == calls.wrapping_add(1));
            return Ok(());
        }
        assert!(rt;
            ended.is(Status::SourceFault, b"", b"source fault\n"),
            "{call}"
        );
        let without_line = with_failing_source(alloc, call, failing_sink(alloc)?)?;
        assert!(rt; without_line.is(Status::SourceFault, b"", b""), "{call}");
    }
    assert!(rt; false, "each of a hundred runs failed");
    Ok(())
}

#[test]
fn a_failed_put_of_a_verdict_is_an_output_fault(rt: HostRuntime) -> Result<(), Fail> {
    let alloc = rt.alloc();
    let ended = with_failing_output(alloc, 0)?;
    assert!(rt; ended.is(Status::OutFault, b"", b"output fault\n"));
    let ended = with_failing_output(alloc, 1)?;
    assert!(rt; ended.is(Status::Done, ACCEPTED, b""));
    Ok(())
}
