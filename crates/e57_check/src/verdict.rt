//! The whole verdict.

ghost use Rattle.std.specs.Prelude.{◌≡◌, ◌*◌, ◌/◌, MatchResult};
ghost use Rattle.e57_base.specs.Source.{page_length};
ghost use Rattle.e57_elements.specs.Tree.{Element, preorder};
ghost use Rattle.e57_check.specs.Checking.{Accepts, Judges, Rejects, JudgesThings, RefusesThings};

use crate::item::judge_item;
use crate::summary::Summary;
use e57_base::{OpenFault, Source};
use e57_file::E57;
use e57_page::Pages;
use std::alloc::Global;

/// The verdict on an open file, whose length, header and page 0 have no fault (ASTM E2807): what it has, where it is in the
/// grammar.
///
/// Refuses the file's first fault, in this order: its pages by number; the place and length of the XML section; its elements;
/// its nodes in preorder; then each cloud and blob in document order. Of a cloud with records first its section, its index
/// depth first, its packets in order, its chunks, and its fields in order, each over its records in order. `Source` if the
/// source failed.
///
/// Memory is taken for the XML section and its tree, for the entries of an index, for a column a field, and for a string's
/// length, at most 2^24 bytes.
pub fn check<S: Source>(alloc: Global, pages: &mut Pages<S>) -> Result<Summary, OpenFault>
    ensures length { pages.new.length ≡ pages.old.length }
    ensures header { pages.new.header ≡ pages.old.header }
    ensures verdict { let count = pages.old.length / page_length in MatchResult result
        (λ summary. Accepts count (S.view pages.old.source) summary (S.view pages.new.source))
        (λ found. Rejects count (S.view pages.old.source) found (S.view pages.new.source)) }
{
    match judge(alloc, pages) {
        Ok((_file, summary)) => Ok(summary),
        Err(found) => Err(found),
    }
}

/// The verdict on an open file, as `check` gives it, and with it the file's element tree, for who goes on reading an accepted
/// file. Refuses what `check` refuses, and takes the same memory.
pub fn judge<S: Source>(alloc: Global, pages: &mut Pages<S>) -> Result<(E57, Summary), OpenFault>
    ensures length { pages.new.length ≡ pages.old.length }
    ensures header { pages.new.header ≡ pages.old.header }
    ensures verdict { let count = pages.old.length / page_length in MatchResult result
        (λ judged. Judges count (S.view pages.old.source) judged.0 judged.1 (S.view pages.new.source))
        (λ found. Rejects count (S.view pages.old.source) found (S.view pages.new.source)) }
{
    let _header = pages.header();
    let _size = pages.logical_len();
    if let Err(fault) = pages.scan() {
        return Err(OpenFault::from(fault));
    }
    let file = match E57::open(alloc, pages) {
        Ok(file) => file,
        Err(fault) => return Err(fault),
    };
    let _raw = file.tree().raw();
    match judge_items(alloc, &file, pages) {
        Ok(summary) => Ok((file, summary)),
        Err(found) => Err(found),
    }
}

/// Judges the clouds and blobs of an opened file in document order, and counts them.
fn judge_items<S: Source>(
    alloc: Global,
    file: &E57,
    pages: &mut Pages<S>,
) -> Result<Summary, OpenFault>
    ensures length { pages.new.length ≡ pages.old.length }
    ensures header { pages.new.header ≡ pages.old.header }
    ensures things { (e : Element) → file.now ≡ preorder e → let count = pages.old.length / page_length in MatchResult result
        (λ summary. JudgesThings count (S.view pages.old.source) e summary (S.view pages.new.source))
        (λ found. RefusesThings count (S.view pages.old.source) e found (S.view pages.new.source)) }
{
    let _raw = file.tree().raw();
    let mut summary = Summary {
        clouds: 0,
        blobs: 0,
        records: 0,
    };
    for item in file.tree().items() {
        match judge_item(alloc, file, *item, summary, pages) {
            Ok(next) => summary = next,
            Err(fault) => return Err(fault),
        }
    }
    Ok(summary)
}
