//! The program `e57`: makes the real objects, and runs the words of the command line over them.
#![tactic(auto)]

#[cfg(test)]
mod tests;

use e57_base::Sink;
use e57_disk::{DiskSource, DiskTarget, StdSink};
use e57_tool::{Status, run};
use std::process::ExitCode;
use std::{env, io};

// The words of the command line, without the program's name.
fn words(rt: &HostRuntime) -> io::Result<Vec<String>> {
    let mut words = Vec::new(rt.alloc());
    for word in env::args(rt)?.skip(1) {
        words.push(word)?;
    }
    Ok(words)
}

// Runs the words over files of the disk, and answers the status of the process.
fn answer<O: Sink, E: Sink>(
    rt: &HostRuntime,
    words: io::Result<Vec<String>>,
    out: &mut O,
    err: &mut E,
) -> ExitCode {
    let words = match words {
        Ok(words) => words,
        Err(error) => {
            if error.kind() == io::ErrorKind::OutOfMemory {
                let _ = err.put(b"out of memory\n");
                return ExitCode::from(Status::Memory.code());
            }
            // Words that aren't text ask for nothing.
            Vec::new(rt.alloc())
        }
    };
    let source = DiskSource::new(rt.alloc(), rt);
    let target = DiskTarget::new(rt.alloc(), rt);
    let (status, _, _) = run(rt.alloc(), &words, source, target, out, err);
    ExitCode::from(status.code())
}

fn main(rt: HostRuntime) -> ExitCode {
    let mut out = StdSink::new(rt.stdout());
    let mut err = StdSink::new(rt.stderr());
    answer(&rt, words(&rt), &mut out, &mut err)
}
