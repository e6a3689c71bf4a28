//! A file written anew with chunks of another length, and with narrow limits if that is asked for.

ghost use Rattle.std.specs.Prelude.{◌≡◌, ◌/◌, false, true, IfSome, MatchResult};
ghost use Rattle.e57_base.specs.Source.{page_length};
ghost use Rattle.e57_check.specs.Asking.{AsksWhere};
ghost use Rattle.e57_check.specs.Checking.{HasSoundNodes};
ghost use Rattle.e57_chunk_out.specs.CloudCalls.{IsChunkLength};
ghost use Rattle.e57_copy.specs.Rewriting.{Rewrites, RewritesNot};
ghost use Rattle.e57_repack.specs.Repacking.{repacking};

use crate::anew::write_anew;
use crate::ranges::narrow_ranges;
use e57_base::{RunFault, Source, Target};
use e57_check::judge;
use e57_edits::with_limits;
use e57_file::E57;
use e57_page::Pages;
use std::alloc::Global;

/// Judges an open file, and if it is accepted writes a new file of this name with the same content, in the written form with
/// `chunk` records a chunk (ASTM E2807, file structure). With `tight` each integer field of a cloud with records gets its least
/// and its greatest item as its limits. Gives the target back, and answers the new file's length in bytes.
///
/// Refuses the file's first fault, `Source` if the source failed, and `Memory`; the target is then as it was, unless the failure
/// came while the new file was written. `Out` if the target failed, and `Large` if the new file would pass the limits of the
/// format: its text, or its pages. What the target holds is then no whole file.
///
/// Memory is taken as `e57_check::judge` takes it, and for the offsets of clouds and blobs, the items of each cloud's fields in
/// blocks, the text of the XML section, and with `tight` for a tree more.
pub fn repack<S: Source, T: Target>(
    alloc: Global,
    pages: &mut Pages<S>,
    target: T,
    name: &str,
    chunk: u32,
    tight: bool,
) -> (T, Result<u64, RunFault>)
    requires chunk { IsChunkLength chunk }
    ensures length { pages.new.length ≡ pages.old.length }
    ensures header { pages.new.header ≡ pages.old.header }
    ensures source { AsksWhere (λ file. Unit {0}) (pages.old.length / page_length) (S.view pages.old.source) (S.view pages.new.source) }
    ensures repacks { MatchResult result.1
        (λ total. Rewrites (repacking chunk tight) (S.view pages.old.source) (T.view target) name.now total (T.view result.0))
        (λ fault. RewritesNot T.view (repacking chunk tight) (S.view pages.old.source) (S.view pages.new.source) target name.now fault result.0) }
{
    let file = match judge(alloc, pages) {
        Ok((file, _summary)) => file,
        Err(found) => return (target, Err(RunFault::from(found))),
    };
    if tight {
        return rewrite_narrow(alloc, &file, pages, target, name, chunk);
    }
    rewrite(alloc, &file, pages, target, name, chunk)
}

/// Writes an accepted file anew, with its own tree.
fn rewrite<S: Source, T: Target>(
    alloc: Global,
    file: &E57,
    pages: &mut Pages<S>,
    target: T,
    name: &str,
    chunk: u32,
) -> (T, Result<u64, RunFault>)
    requires sound { IfSome (S.view pages.old.source).held (λ bytes. HasSoundNodes bytes file.now) }
    requires chunk { IsChunkLength chunk }
    ensures length { pages.new.length ≡ pages.old.length }
    ensures header { pages.new.header ≡ pages.old.header }
    ensures source { AsksWhere (λ file. Unit {0}) (pages.old.length / page_length) (S.view pages.old.source) (S.view pages.new.source) }
    ensures repacks { MatchResult result.1
        (λ total. Rewrites (repacking chunk false) (S.view pages.old.source) (T.view target) name.now total (T.view result.0))
        (λ fault. RewritesNot T.view (repacking chunk false) (S.view pages.old.source) (S.view pages.new.source) target name.now fault result.0) }
{
    let _raw = file.tree().raw();
    write_anew(alloc, file, file.tree(), chunk, pages, target, name)
}

/// Writes an accepted file anew, with narrow limits in its tree.
fn rewrite_narrow<S: Source, T: Target>(
    alloc: Global,
    file: &E57,
    pages: &mut Pages<S>,
    target: T,
    name: &str,
    chunk: u32,
) -> (T, Result<u64, RunFault>)
    requires sound { IfSome (S.view pages.old.source).held (λ bytes. HasSoundNodes bytes file.now) }
    requires chunk { IsChunkLength chunk }
    ensures length { pages.new.length ≡ pages.old.length }
    ensures header { pages.new.header ≡ pages.old.header }
    ensures source { AsksWhere (λ file. Unit {0}) (pages.old.length / page_length) (S.view pages.old.source) (S.view pages.new.source) }
    ensures repacks { MatchResult result.1
        (λ total. Rewrites (repacking chunk true) (S.view pages.old.source) (T.view target) name.now total (T.view result.0))
        (λ fault. RewritesNot T.view (repacking chunk true) (S.view pages.old.source) (S.view pages.new.source) target name.now fault result.0) }
{
    let _raw = file.tree().raw();
    let ranges = match narrow_ranges(alloc, file, pages) {
        Ok(ranges) => ranges,
        Err(fault) => return (target, Err(RunFault::from(fault))),
    };
    let tree = match with_limits(alloc, file.tree(), &ranges) {
        Ok(tree) => tree,
        Err(_) => return (target, Err(RunFault::Memory)),
    };
    let _new = tree.raw();
    write_anew(alloc, file, &tree, chunk, pages, target, name)
}
