//! `pages FILE`

ghost use Rattle.e57_tool.specs.FileAnswer.{ReadsFile};
ghost use Rattle.e57_tool.specs.Run.{Keeps};
ghost use Rattle.e57_tool.specs.Pages.{AsksInOrder, pages_answer, pages_promise};

use crate::ending::Ending;
use crate::lines::pages_line;
use e57_base::{RunFault, Sink, Source, Target};
use e57_page::open_file;

// Opens the file, tests each of its pages, and puts one line on `out`.
fn scan_file<S: Source, O: Sink>(name: &str, source: S, out: &mut O) -> (S, Ending)
    ensures { ReadsFile pages_answer AsksInOrder name.now
        (S.view source) (S.view result.0) (O.view out.old) (O.view out.new) result.1 }
{
    let mut pages = match open_file(name, source) {
        Ok(pages) => pages,
        Err((source, fault)) => return (source, Ending::Failed(RunFault::from(fault))),
    };
    let header = *pages.header();
    let count = match pages.scan() {
        Ok(count) => count,
        Err(fault) => return (pages.into_source(), Ending::Failed(RunFault::from(fault))),
    };
    let source = pages.into_source();
    let line = pages_line(count, header.xml_place, header.xml_length);
    match out.put(line.as_str().as_bytes()) {
        Ok(()) => (source, Ending::Done),
        Err(_) => (source, Ending::Failed(RunFault::Out)),
    }
}

/// Opens the file, tests each of its pages, and puts one line on `out`. Takes no memory.
pub fn test_pages<S: Source, T: Target, O: Sink>(
    name: &str,
    source: S,
    target: T,
    out: &mut O,
) -> (S, T, Ending)
    ensures { Keeps S.view T.view O.view (pages_promise name.now) source target out.old result out.new }
{
    let (source, ending) = scan_file(name, source, out);
    (source, target, ending)
}
