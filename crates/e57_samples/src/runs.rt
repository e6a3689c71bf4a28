//! A run over objects in memory.

use e57_base::{MemSink, MemSource, MemTarget};
use e57_tool::{Status, run};
use std::alloc::{AllocError, Global};

/// What a run left.
#[derive(Drop)]
pub struct Ended {
    pub status: Status,
    pub source: MemSource,
    pub out: MemSink,
    pub err: MemSink,
}

impl Ended {
    /// The run ended with this status, this output and this line on `err`.
    pub fn is(&self, status: Status, out: &[u8], err: &[u8]) -> bool {
        self.status == status && self.out.bytes() == out && self.err.bytes() == err
    }

    /// The run asked for these pages, in this order.
    pub fn asked_for(&self, pages: &[u64]) -> bool {
        self.source.asked() == pages
    }
}

/// Room for the output of a run and for its pages.
pub const ROOM: usize = 1000;

/// A source of one file, named `scan`.
pub fn source_of(alloc: Global, bytes: Vec<u8>) -> Result<MemSource, AllocError> {
    let mut source = MemSource::new(alloc, ROOM)?;
    source.add("scan", bytes)?;
    Ok(source)
}

/// A sink with room for all output.
pub fn room(alloc: Global) -> Result<MemSink, AllocError> {
    MemSink::new(alloc, ROOM)
}

/// A sink whose first call fails.
pub fn failing_sink(alloc: Global) -> Result<MemSink, AllocError> {
    let mut sink = MemSink::new(alloc, ROOM)?;
    sink.fail_at(0)?;
    Ok(sink)
}

// Runs the program on these words.
fn ended_with(
    alloc: Global,
    words: &[&str],
    source: MemSource,
    target: MemTarget,
    mut out: MemSink,
    mut err: MemSink,
) -> Result<Written, AllocError> {
    let mut owned = Vec::new(alloc);
    for word in words {
        owned.push(String::from_str(alloc, word)?)?;
    }
    let (status, source, target) = run(alloc, &owned, source, target, &mut out, &mut err);
    let ended = Ended {
        status,
        source,
        out,
        err,
    };
    Ok(Written { ended, target })
}

/// Runs the program on these words.
pub fn run_words(
    alloc: Global,
    words: &[&str],
    source: MemSource,
    out: MemSink,
    err: MemSink,
) -> Result<Ended, AllocError> {
    let target = MemTarget::new(alloc, 0, 0)?;
    Ok(ended_with(alloc, words, source, target, out, err)?.ended)
}

/// What a run left that may write a file.
#[derive(Drop)]
pub struct Written {
    pub ended: Ended,
    pub target: MemTarget,
}

impl Written {
    /// The run ended with this status and this line on `err`, put nothing on `out`, and the target has these bytes.
    pub fn is(&self, status: Status, err: &[u8], made: &[u8]) -> bool {
        self.ended.is(status, b"", err) && self.target.bytes() == made
    }
}

/// A target with room for so many pages and for each name of the tests.
pub fn target_of(alloc: Global, pages: usize) -> Result<MemTarget, AllocError> {
    MemTarget::new(alloc, pages, 16)
}

/// Runs the program on these words, over this source and into this target.
pub fn run_into(
    alloc: Global,
    words: &[&str],
    source: MemSource,
    target: MemTarget,
) -> Result<Written, AllocError> {
    ended_with(alloc, words, source, target, room(alloc)?, room(alloc)?)
}

/// Runs the program on these words, over a file named `scan` and into a target with room for 2,000 pages.
pub fn run_writing(alloc: Global, words: &[&str], bytes: Vec<u8>) -> Result<Written, AllocError> {
    run_into(
        alloc,
        words,
        source_of(alloc, bytes)?,
        target_of(alloc, 2000)?,
    )
}

/// Runs the program on these words, over a file named `scan`.
pub fn run_on(alloc: Global, words: &[&str], bytes: Vec<u8>) -> Result<Ended, AllocError> {
    run_words(
        alloc,
        words,
        source_of(alloc, bytes)?,
        room(alloc)?,
        room(alloc)?,
    )
}
