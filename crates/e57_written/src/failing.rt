//! Each call of the source and of the target failing in turn.

use crate::filtered::{TWO_RECORDS_WORDS, two_records};
use e57_samples::files::three_records;
use e57_samples::runs::{Written, run_into, run_on, source_of, target_of};
use e57_tool::Status;
use std::alloc::{AllocError, Global};
use std::test::*;

// A command that writes a file of three pages from three records.
#[derive(Clone, Copy)]
enum Command {
    Repack,
    Filter,
}

const COMMANDS: [Command; 2] = [Command::Repack, Command::Filter];

// Its words.
fn words_of(command: Command) -> &'static [&'static str] {
    match command {
        Command::Repack => &["repack", "scan", "new"],
        Command::Filter => TWO_RECORDS_WORDS,
    }
}

// The file that it writes.
fn file_of(alloc: Global, command: Command) -> Result<Vec<u8>, AllocError> {
    match command {
        Command::Repack => three_records(alloc),
        Command::Filter => two_records(alloc),
    }
}

// The command with one call of the source failing.
fn without_source_call(alloc: Global, command: Command, call: u64) -> Result<Written, AllocError> {
    let mut source = source_of(alloc, three_records(alloc)?)?;
    source.fail_at(call)?;
    run_into(alloc, words_of(command), source, target_of(alloc, 3)?)
}

// The same with one call of the target failing, of which so many bytes of a page are written.
fn without_target_call(
    alloc: Global,
    command: Command,
    call: u64,
    bytes: usize,
) -> Result<Written, AllocError> {
    let mut target = target_of(alloc, 3)?;
    target.tear_at(call, bytes)?;
    run_into(
        alloc,
        words_of(command),
        source_of(alloc, three_records(alloc)?)?,
        target,
    )
}

// These bytes are no file that `check` accepts.
fn is_refused(alloc: Global, bytes: &[u8]) -> Result<bool, AllocError> {
    Ok(run_on(alloc, &["check", "scan"], bytes.to_vec(alloc)?)?.status == Status::Refused)
}

// The run was done, and the target has the whole file.
fn is_done(alloc: Global, command: Command, left: &Written) -> Result<bool, AllocError> {
    Ok(left.is(Status::Done, b"", &file_of(alloc, command)?))
}

// The run ended with this status and this line, and the target has no file that is accepted.
fn is_broken(
    alloc: Global,
    left: &Written,
    status: Status,
    line: &[u8],
) -> Result<bool, AllocError> {
    Ok(left.ended.is(status, b"", line) && is_refused(alloc, left.target.bytes())?)
}

// The first call of the source that doesn't end the run so, or the number of its calls, of at least four.
fn first_wrong_call(alloc: Global, command: Command) -> Result<Result<u64, u64>, AllocError> {
    for call in 0..100u64 {
        let left = without_source_call(alloc, command, call)?;
        if left.ended.status == Status::Done {
            let is_right = is_done(alloc, command, &left)? && call > 3;
            return Ok(if is_right { Ok(call) } else { Err(call) });
        }
        if !is_broken(alloc, &left, Status::SourceFault, b"source fault\n")? {
            return Ok(Err(call));
        }
    }
    Ok(Err(100))
}

#[test]
fn each_call_of_the_source_fails(rt: HostRuntime) -> Result<(), Fail> {
    let alloc = rt.alloc();
    for (k, command) in COMMANDS.iter().enumerate() {
        let found = first_wrong_call(alloc, *command)?;
        assert!(rt; found.is_ok(), "command {k}, {found:?}");
    }
    Ok(())
}

// The target is created, gets its three pages and the first one once more, and is ended: of its six calls the first that doesn't
// end the run as it should, where each writes so many bytes.
fn first_wrong_put(
    alloc: Global,
    command: Command,
    bytes: usize,
) -> Result<Option<u64>, AllocError> {
    for call in 0..5u64 {
        let left = without_target_call(alloc, command, call, bytes)?;
        if !is_broken(alloc, &left, Status::OutFault, b"output fault\n")? {
            return Ok(Some(call));
        }
    }
    let left = without_target_call(alloc, command, 5, bytes)?;
    if !left.is(
        Status::OutFault,
        b"output fault\n",
        &file_of(alloc, command)?,
    ) {
        return Ok(Some(5));
    }
    let left = without_target_call(alloc, command, 6, bytes)?;
    Ok(if is_done(alloc, command, &left)? {
        None
    } else {
        Some(6)
    })
}

#[test]
fn each_call_of_the_target_fails(rt: HostRuntime) -> Result<(), Fail> {
    let alloc = rt.alloc();
    for command in &COMMANDS {
        for bytes in [0, 1, 8, 48, 1023] {
            let found = first_wrong_put(alloc, *command, bytes)?;
            assert_eq!(rt; found, None, "{bytes} bytes");
        }
    }
    Ok(())
}

// Where the last page of the target wasn't touched, what a call that failed left is the file without its header.
#[test]
fn a_failed_end_leaves_no_header(rt: HostRuntime) -> Result<(), Fail> {
    let alloc = rt.alloc();
    for command in &COMMANDS {
        let whole = file_of(alloc, *command)?;
        let left = without_target_call(alloc, *command, 4, 0)?;
        let file = left.target.bytes();
        assert!(rt; file.get(1024..) == whole.get(1024..));
        assert!(rt; file.iter().take(1020).all(|byte| *byte == 0));
    }
    Ok(())
}

// How many bytes of the last page are written, and the line of `check` on what the target then holds, of three and of two records.
const TORN: [(usize, &str, &str); 4] = [
    (0, "refused Signature 0 0\n", "refused Signature 0 0\n"),
    (8, "refused Version 0 0\n", "refused Version 0 0\n"),
    (20, "refused PageSize 0 0\n", "refused PageSize 0 0\n"),
    (1024, "accepted 1 0 3\n", "accepted 1 0 2\n"),
];

// The last page is torn so, and `check` puts this line of what is held.
fn is_torn(alloc: Global, command: Command, bytes: usize, line: &str) -> Result<bool, AllocError> {
    let left = without_target_call(alloc, command, 4, bytes)?;
    let held = left.target.bytes().to_vec(alloc)?;
    let judged = run_on(alloc, &["check", "scan"], held)?;
    Ok(
        left.ended.is(Status::OutFault, b"", b"output fault\n")
            && judged.out.bytes() == line.as_bytes(),
    )
}

#[test]
fn a_torn_last_page(rt: HostRuntime) -> Result<(), Fail> {
    let alloc = rt.alloc();
    for (bytes, three, two) in &TORN {
        assert!(rt; is_torn(alloc, Command::Repack, *bytes, three)?, "{three}");
        assert!(rt; is_torn(alloc, Command::Filter, *bytes, two)?, "{two}");
    }
    Ok(())
}
