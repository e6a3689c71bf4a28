//! `blob FILE K`

ghost use Rattle.e57_show.specs.Blob.{blob_streamed};
ghost use Rattle.e57_tool.specs.InPieces.{StreamsFile};
ghost use Rattle.e57_tool.specs.Run.{Keeps};
ghost use Rattle.e57_tool.specs.Blob.{blob_promise, blob_rule};

use crate::ending::Ending;
use e57_base::{RunFault, Sink, Source, Target};
use e57_page::open_file;
use e57_show::blob;
use std::alloc::Global;

// Opens the file, and puts the bytes of blob k on `out`.
fn show_file<S: Source, O: Sink>(
    alloc: Global,
    name: &str,
    k: u64,
    source: S,
    out: &mut O,
) -> (S, Ending)
    ensures { StreamsFile (blob_streamed k) (blob_rule k) name.now
        (S.view source) (S.view result.0) (O.view out.old) (O.view out.new) result.1 }
{
    let mut pages = match open_file(name, source) {
        Ok(pages) => pages,
        Err((source, fault)) => return (source, Ending::Failed(RunFault::from(fault))),
    };
    match blob(alloc, &mut pages, k, out) {
        Ok(()) => (pages.into_source(), Ending::Done),
        Err(fault) => (pages.into_source(), Ending::Failed(fault)),
    }
}

/// Opens the file, and puts the bytes of blob k on `out`, counted from 0. Takes memory for the text of the XML section and
/// its tree, and for one piece of the blob.
pub fn show_blob<S: Source, T: Target, O: Sink>(
    alloc: Global,
    name: &str,
    k: u64,
    source: S,
    target: T,
    out: &mut O,
) -> (S, T, Ending)
    ensures { Keeps S.view T.view O.view (blob_promise name.now k) source target out.old result out.new }
{
    let (source, ending) = show_file(alloc, name, k, source, out);
    (source, target, ending)
}
