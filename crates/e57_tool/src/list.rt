//! `list FILE`

ghost use Rattle.e57_show.specs.Listing.{list_shown};
ghost use Rattle.e57_tool.specs.FileAnswer.{ReadsFile};
ghost use Rattle.e57_tool.specs.Run.{Keeps};
ghost use Rattle.e57_tool.specs.Show.{list_promise, show_answer, text_rule};

use crate::ending::Ending;
use e57_base::{RunFault, Sink, Source, Target};
use e57_page::open_file;
use e57_show::list;
use std::alloc::Global;

// Opens the file, and puts its clouds with their fields and its blobs on `out`, one a line.
fn show_file<S: Source, O: Sink>(alloc: Global, name: &str, source: S, out: &mut O) -> (S, Ending)
    ensures { ReadsFile (show_answer list_shown) text_rule name.now
        (S.view source) (S.view result.0) (O.view out.old) (O.view out.new) result.1 }
{
    let mut pages = match open_file(name, source) {
        Ok(pages) => pages,
        Err((source, fault)) => return (source, Ending::Failed(RunFault::from(fault))),
    };
    match list(alloc, &mut pages, out) {
        Ok(()) => (pages.into_source(), Ending::Done),
        Err(fault) => (pages.into_source(), Ending::Failed(fault)),
    }
}

/// Opens the file, and puts its clouds with their fields and its blobs on `out`, one a line. Takes memory for the
/// text of the XML section and its tree.
pub fn show_list<S: Source, T: Target, O: Sink>(
    alloc: Global,
    name: &str,
    source: S,
    target: T,
    out: &mut O,
) -> (S, T, Ending)
    ensures { Keeps S.view T.view O.view (list_promise name.now) source target out.old result out.new }
{
    let (source, ending) = show_file(alloc, name, source, out);
    (source, target, ending)
}
