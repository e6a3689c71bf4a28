//! The element tree.

ghost use Rattle.std.specs.Prelude.{◌≡◌, Some, None, MatchResult};
ghost use Rattle.e57_file.specs.Text.{AsksForXml};
ghost use Rattle.e57_show.specs.Opening.{JudgesPlaceFirst};
ghost use Rattle.e57_show.specs.Info.{info_shown};
ghost use Rattle.e57_show.specs.Showing.{ShowEnds};

use e57_base::{RunFault, Sink, Source};
use e57_elements::{one_answer, write_elements};
use e57_file::open_text;
use e57_page::Pages;
use std::alloc::Global;

/// Puts the written spelling of the file's element tree on `out`, and a line feed, in one call. It asks the source for
/// those pages of the XML section that aren't kept, in ascending order, each at most once, and for no other.
///
/// Refuses what `open_text` refuses. `Out` if the sink failed. After every fault but `Out` nothing was put.
pub fn info<S: Source, O: Sink>(
    alloc: Global,
    pages: &mut Pages<S>,
    out: &mut O,
) -> Result<(), RunFault>
    ensures length { pages.new.length ≡ pages.old.length }
    ensures header { pages.new.header ≡ pages.old.header }
    ensures asked { AsksForXml pages.old (S.view pages.old.source) (S.view pages.new.source) }
    ensures place { JudgesPlaceFirst pages.old (O.view out.old) result pages.new (O.view out.new) }
    ensures ends { MatchResult result
        (λ _. ShowEnds info_shown (S.view pages.old.source) (S.view pages.new.source) (O.view out.old) (O.view out.new) None)
        (λ fault. ShowEnds info_shown (S.view pages.old.source) (S.view pages.new.source) (O.view out.old) (O.view out.new) (Some fault)) }
{
    // A text that spells a tree has no fault.
    one_answer();
    let tree = open_text(alloc, pages)?;
    let mut text = write_elements(alloc, &tree)?;
    text.push(b'\n')?;
    match out.put(&text) {
        Ok(()) => Ok(()),
        Err(_) => Err(RunFault::Out),
    }
}
