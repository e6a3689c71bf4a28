//! A file written anew with some records and fields of one cloud.

ghost use Rattle.std.specs.Prelude.{◌≡◌, ◌/◌, IfSome, MatchResult};
ghost use Rattle.e57_base.specs.Source.{page_length};
ghost use Rattle.e57_check.specs.Asking.{AsksWhere};
ghost use Rattle.e57_check.specs.Checking.{HasSoundNodes};
ghost use Rattle.e57_copy.specs.Rewriting.{Rewrites, RewritesNot};
ghost use Rattle.e57_filter.specs.Asking.{filtering};
ghost use Rattle.e57_filter.specs.Asks.{filter_asked, IsLimitedFilter};

use crate::anew::write_filtered;
use crate::ask::FilterAsk;
use crate::select::select;
use e57_base::{RunFault, Source, Target};
use e57_check::judge;
use e57_file::E57;
use e57_page::Pages;
use std::alloc::Global;

/// Judges an open file, and if it is accepted and has what is asked for, writes a new file of this name with the same
/// content, but for one cloud, of which the asked fields are kept, and of the asked records those that pass the tests, in
/// the written form with 8,192 records a chunk (ASTM E2807, file structure). Gives the target back, and answers the new
/// file's length in bytes.
///
/// Refuses the file's first fault, or `Ask` with the first thing that it lacks, as `select` does; the target is then as it
/// was. `Source` if the source failed, and `Memory`; the target is then as it was, unless the failure came while the new
/// file was written. `Out` if the target failed, and `Ask` with `Large` if the new file would pass the limits of the
/// format: its text, or its pages. What the target holds is then no whole file.
///
/// Memory is taken as `e57_check::judge` takes it, for what was looked up, and for the offsets of clouds and blobs, the
/// items of each cloud's fields in blocks, the new tree, and the text of the XML section.
pub fn filter<S: Source, T: Target>(
    alloc: Global,
    pages: &mut Pages<S>,
    target: T,
    name: &str,
    ask: &FilterAsk<'_>,
) -> (T, Result<u64, RunFault>)
    requires limited { IsLimitedFilter ask.now }
    ensures length { pages.new.length ≡ pages.old.length }
    ensures header { pages.new.header ≡ pages.old.header }
    ensures source { AsksWhere (λ file. Unit {0}) (pages.old.length / page_length) (S.view pages.old.source) (S.view pages.new.source) }
    ensures rewrites { MatchResult result.1
        (λ total. Rewrites (filtering (filter_asked ask.now)) (S.view pages.old.source) (T.view target) name.now total (T.view result.0))
        (λ fault. RewritesNot T.view (filtering (filter_asked ask.now)) (S.view pages.old.source) (S.view pages.new.source) target name.now fault result.0) }
{
    let file = match judge(alloc, pages) {
        Ok((file, _summary)) => file,
        Err(found) => return (target, Err(RunFault::from(found))),
    };
    rewrite(alloc, &file, pages, target, name, ask)
}

/// Looks up what is asked for in an accepted file, and writes the file anew.
fn rewrite<S: Source, T: Target>(
    alloc: Global,
    file: &E57,
    pages: &mut Pages<S>,
    target: T,
    name: &str,
    ask: &FilterAsk<'_>,
) -> (T, Result<u64, RunFault>)
    requires sound { IfSome (S.view pages.old.source).held (λ bytes. HasSoundNodes bytes file.now) }
    requires limited { IsLimitedFilter ask.now }
    ensures length { pages.new.length ≡ pages.old.length }
    ensures header { pages.new.header ≡ pages.old.header }
    ensures source { AsksWhere (λ file. Unit {0}) (pages.old.length / page_length) (S.view pages.old.source) (S.view pages.new.source) }
    ensures rewrites { MatchResult result.1
        (λ total. Rewrites (filtering (filter_asked ask.now)) (S.view pages.old.source) (T.view target) name.now total (T.view result.0))
        (λ fault. RewritesNot T.view (filtering (filter_asked ask.now)) (S.view pages.old.source) (S.view pages.new.source) target name.now fault result.0) }
{
    let _raw = file.tree().raw();
    let _keeps = ask.keeps.as_slice();
    let selected = match select(alloc, file, ask) {
        Ok(selected) => selected,
        Err(fault) => return (target, Err(fault)),
    };
    write_filtered(alloc, file, &selected, ask.every, pages, target, name)
}
