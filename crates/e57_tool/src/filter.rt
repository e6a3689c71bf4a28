//! `filter IN OUT CLOUD`

ghost use Rattle.e57_filter.specs.Asking.{filtering};
ghost use Rattle.e57_filter.specs.Asks.{filter_asked, IsLimitedFilter};
ghost use Rattle.e57_tool.specs.Filter.{filter_promise};
ghost use Rattle.e57_tool.specs.Rewritten.{RewritesFile};
ghost use Rattle.e57_tool.specs.Run.{Keeps};

use crate::ending::Ending;
use e57_base::{RunFault, Sink, Source, Target};
use e57_filter::{FilterAsk, filter};
use e57_page::open_file;
use e57_verdict::{one_content, one_verdict, opening_agrees};
use std::alloc::Global;

// Opens the file and writes what is kept of it.
fn write_kept<S: Source, T: Target>(
    alloc: Global,
    name: &str,
    made: &str,
    ask: &FilterAsk<'_>,
    source: S,
    target: T,
) -> (S, T, Ending)
    requires limited { IsLimitedFilter ask.now }
    ensures { RewritesFile (filtering (filter_asked ask.now)) name.now made.now
        (S.view source) (S.view result.0) (T.view target) (T.view result.1) result.2 }
{
    // The verdict begins with the faults of opening.
    opening_agrees();
    let mut pages = match open_file(name, source) {
        Ok(pages) => pages,
        Err((source, fault)) => return (source, target, Ending::Failed(RunFault::from(fault))),
    };
    let (target, answer) = filter(alloc, &mut pages, target, made, ask);
    (pages.into_source(), target, Ending::of_writing(answer))
}

/// Opens the file, judges it, and writes a file of its content under the other name, with the asked records and fields
/// alone of one cloud, in chunks of 8192 records. Nothing is put on `out`. Takes the memory of `check`,
/// and that of a column and a packet a field.
pub fn filter_file<S: Source, T: Target, O: Sink>(
    alloc: Global,
    name: &str,
    made: &str,
    ask: &FilterAsk<'_>,
    source: S,
    target: T,
    out: &mut O,
) -> (S, T, Ending)
    requires limited { IsLimitedFilter ask.now }
    ensures { Keeps S.view T.view O.view (filter_promise name.now made.now (filter_asked ask.now)) source target out.old result out.new }
{
    // An accepted file has one content and no fault.
    one_verdict();
    one_content();
    write_kept(alloc, name, made, ask, source, target)
}
