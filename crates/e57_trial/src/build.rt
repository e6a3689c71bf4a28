//! Both files of a content of two numbers, in memory.

ghost use Rattle.std.specs.Prelude.{◌≡◌, ◌≤◌, true, IfOk};
ghost use Rattle.e57_verdict.specs.Content.{Content, IsContent};
ghost use Rattle.e57_trial.specs.Accepted.{HasOpen, IsAccepted, IsForm};
ghost use Rattle.e57_trial.specs.Building.{first_chunk, second_chunk, IsBuilt};
ghost use Rattle.e57_trial.specs.Content.{most_records, trial_content};

use crate::file::{check_accepted, close_bytes, open_accepted, sum_accepted, want};
use crate::write::write_trial;
use e57_base::{BytesSource, MemTarget, Octets, RunFault};
use e57_page::Pages;
use e57_plain::written_form;
use e57_repack::repack;
use e57_verdict::{one_content, one_verdict};
use std::alloc::{AllocError, Global};

/// How many records a chunk of the first file has, and of the second one.
const FIRST_CHUNK: u32 = 8192;

const SECOND_CHUNK: u32 = 1024;

/// Two files of one content, and the sum of the items of its first column.
#[derive(Drop)]
pub struct TrialFiles {
    /// The file with chunks of 8,192 records.
    pub first: Octets,
    /// The file with chunks of 1,024 records.
    pub second: Octets,
    /// The sum of all raw numbers of cartesianX, modulo 2^64.
    pub sum: u64,
}

/// Writes the content that `write_trial` makes of the two numbers, with up to 2^24 records, as a file in memory with chunks of
/// 8,192 records; checks it; writes it anew with chunks of 1,024 records; checks that file; and reads all its columns
/// (ASTM E2807, file structure). Answers both files, and the sum of the raw numbers of cartesianX.
///
/// Only memory can be wanting. It is taken for all pages of both files, and for what writing, checking and reading take.
pub fn build_trial(alloc: Global, start: u64, count: u64) -> Result<TrialFiles, AllocError>
    requires { count ≤ most_records }
    ensures { IfOk result (λ files. IsBuilt start count files) }
{
    // The written form of a content is accepted, and has just this content.
    written_form();
    let first = match write_first(alloc, start, count) {
        Ok(first) => first,
        Err(error) => return Err(error),
    };
    let mut pages = open_accepted(first);
    let second = match write_second(alloc, pages_for(count), &mut pages) {
        Ok(second) => second,
        Err(error) => return Err(error),
    };
    let first = close_bytes(pages);
    let mut pages = open_accepted(second);
    let sum = match sum_accepted(alloc, &mut pages) {
        Ok(sum) => sum,
        Err(error) => return Err(error),
    };
    let second = close_bytes(pages);
    Ok(TrialFiles { first, second, sum })
}

/// For how many pages of a file with so many records there has to be room: 64 records take less than a page, and the header,
/// the text of the XML section and what each section has beside its records less than 16.
fn pages_for(count: u64) -> usize
    requires { count ≤ most_records }
{
    (count / 64 + 16) as usize
}

/// Writes the file with chunks of 8,192 records.
fn write_first(alloc: Global, start: u64, count: u64) -> Result<Octets, AllocError>
    requires { count ≤ most_records }
    ensures { IfOk result (λ file. IsForm first_chunk (trial_content start count) file) }
{
    let target = match MemTarget::new(alloc, pages_for(count), 0) {
        Ok(target) => target,
        Err(error) => return Err(error),
    };
    let (target, result) = write_trial(alloc, start, count, FIRST_CHUNK, target);
    match result {
        Ok(_total) => Ok(Octets::new(target.into_bytes())),
        Err(fault) => Err(want(RunFault::from(fault))),
    }
}

/// Checks an open accepted file, and writes it anew with chunks of 1,024 records, as a file of up to `room` pages.
fn write_second(
    alloc: Global,
    room: usize,
    pages: &mut Pages<BytesSource>,
) -> Result<Octets, AllocError>
    requires open { pages.old.source.is_open ≡ true }
    requires accepted { IsAccepted pages.old.source.bytes }
    ensures same { HasOpen pages.old.source.bytes pages.new.source }
    ensures form { IfOk result (λ file. (content : Content) → IsContent pages.old.source.bytes content → IsForm second_chunk content file) }
{
    // An accepted file has one content and no fault.
    one_verdict();
    one_content();
    if let Err(error) = check_accepted(alloc, pages) {
        return Err(error);
    }
    let target = match MemTarget::new(alloc, room, 0) {
        Ok(target) => target,
        Err(error) => return Err(error),
    };
    let (target, result) = repack(alloc, pages, target, "", SECOND_CHUNK, false);
    match result {
        Ok(_total) => Ok(Octets::new(target.into_bytes())),
        Err(fault) => Err(want(fault)),
    }
}
