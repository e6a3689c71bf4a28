//! `extract FILE CLOUD`

ghost use Rattle.e57_show.specs.Extract.{IsLimited, asked_by, rows_streamed};
ghost use Rattle.e57_tool.specs.InPieces.{StreamsFile};
ghost use Rattle.e57_tool.specs.Run.{Keeps};
ghost use Rattle.e57_tool.specs.Extract.{extract_promise, rows_rule};

use crate::ending::Ending;
use e57_base::{RunFault, Sink, Source, Target};
use e57_page::open_file;
use e57_show::{RowsAsk, extract};
use std::alloc::Global;

// Opens the file, and puts the asked rows on `out`.
fn show_file<S: Source, O: Sink>(
    alloc: Global,
    name: &str,
    ask: &RowsAsk<'_>,
    source: S,
    out: &mut O,
) -> (S, Ending)
    requires { IsLimited ask.now }
    ensures { StreamsFile (rows_streamed (asked_by ask.now)) (rows_rule (asked_by ask.now)) name.now
        (S.view source) (S.view result.0) (O.view out.old) (O.view out.new) result.1 }
{
    let mut pages = match open_file(name, source) {
        Ok(pages) => pages,
        Err((source, fault)) => return (source, Ending::Failed(RunFault::from(fault))),
    };
    match extract(alloc, &mut pages, ask, out) {
        Ok(()) => (pages.into_source(), Ending::Done),
        Err(fault) => (pages.into_source(), Ending::Failed(fault)),
    }
}

/// Opens the file, and puts rows of the records of a cloud on `out`: the paths of the asked fields, and then their items of each
/// asked record. Takes memory for the text of the XML section and its tree, for the heading, for a column and a block of items of
/// each asked field, for the text of some rows, and for strings up to their limit.
pub fn show_rows<S: Source, T: Target, O: Sink>(
    alloc: Global,
    name: &str,
    ask: &RowsAsk<'_>,
    source: S,
    target: T,
    out: &mut O,
) -> (S, T, Ending)
    requires { IsLimited ask.now }
    ensures { Keeps S.view T.view O.view (extract_promise name.now (asked_by ask.now)) source target out.old result out.new }
{
    let (source, ending) = show_file(alloc, name, ask, source, out);
    (source, target, ending)
}
