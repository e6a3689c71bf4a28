//! Opening a file by its name.

ghost use Rattle.std.specs.Prelude.{MatchResult};
ghost use Rattle.e57_page.specs.Kept.{KeepsFirst};
ghost use Rattle.e57_page.specs.Opening.{IsOpenedFile, IsUnopenedFile};

use crate::pages::Pages;
use e57_base::{ReadFault, Source};

/// Opens the file of this name, whose length, header and page 0 are judged. It calls the source's `open` once.
///
/// Refuses `Source` where the source doesn't open the file, and else what `Pages::open` refuses, and gives the source
/// back. Takes no memory.
pub fn open_file<S: Source>(name: &str, mut source: S) -> Result<Pages<S>, (S, ReadFault)>
    ensures kept { MatchResult result (λ pages. KeepsFirst pages.kept) (λ _. Unit {0}) }
    ensures opened { MatchResult result
        (λ pages. IsOpenedFile name.now (S.view source) pages.length pages.header (S.view pages.source))
        (λ refusal. IsUnopenedFile name.now (S.view source) refusal.1 (S.view refusal.0)) }
{
    let Ok(length) = source.open(name) else {
        return Err((source, ReadFault::Source));
    };
    Pages::open(source, length)
}
