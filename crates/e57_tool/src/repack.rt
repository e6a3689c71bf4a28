//! `repack IN OUT`

ghost use Rattle.e57_chunk_out.specs.CloudCalls.{IsChunkLength};
ghost use Rattle.e57_repack.specs.Repacking.{repacking};
ghost use Rattle.e57_tool.specs.Repack.{repack_promise};
ghost use Rattle.e57_tool.specs.Rewritten.{RewritesFile};
ghost use Rattle.e57_tool.specs.Run.{Keeps};

use crate::ending::Ending;
use e57_base::{RunFault, Sink, Source, Target};
use e57_page::open_file;
use e57_repack::repack;
use e57_verdict::{one_content, one_verdict, opening_agrees};
use std::alloc::Global;

// Opens the file and writes it anew.
fn write_anew<S: Source, T: Target>(
    alloc: Global,
    name: &str,
    made: &str,
    chunk: u32,
    tight: bool,
    source: S,
    target: T,
) -> (S, T, Ending)
    requires chunk { IsChunkLength chunk }
    ensures { RewritesFile (repacking chunk tight) name.now made.now
        (S.view source) (S.view result.0) (T.view target) (T.view result.1) result.2 }
{
    // The verdict begins with the faults of opening.
    opening_agrees();
    let mut pages = match open_file(name, source) {
        Ok(pages) => pages,
        Err((source, fault)) => return (source, target, Ending::Failed(RunFault::from(fault))),
    };
    let (target, answer) = repack(alloc, &mut pages, target, made, chunk, tight);
    (pages.into_source(), target, Ending::of_writing(answer))
}

/// Opens the file, judges it, and writes a file of its content under the other name, in chunks of `chunk` records and, where
/// `tight` says so, with the limits of integer fields as narrow as their values. Nothing is put on `out`. Takes the memory of `check`,
/// and that of a column and a packet a field.
pub fn repack_file<S: Source, T: Target, O: Sink>(
    alloc: Global,
    name: &str,
    made: &str,
    chunk: u32,
    tight: bool,
    source: S,
    target: T,
    out: &mut O,
) -> (S, T, Ending)
    requires chunk { IsChunkLength chunk }
    ensures { Keeps S.view T.view O.view (repack_promise name.now made.now chunk tight) source target out.old result out.new }
{
    // An accepted file has one content and no fault.
    one_verdict();
    one_content();
    write_anew(alloc, name, made, chunk, tight, source, target)
}
