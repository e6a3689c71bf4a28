//! An accepted file in memory: opened, checked and read.

ghost use Rattle.std.specs.Prelude.{◌≡◌, true, List, IfOk};
ghost use Rattle.e57_layout.specs.Values.{Value};
ghost use Rattle.e57_trial.specs.Accepted.{HasColumns, HasOpen, IsAccepted, IsWant};
ghost use Rattle.e57_trial.specs.Summing.{first_sum};

use crate::sum::read_sum;
use e57_base::{BytesSource, Octets, RunFault, Source};
use e57_check::{check, judge};
use e57_page::Pages;
use e57_verdict::{one_content, one_verdict, opening_agrees};
use std::alloc::{AllocError, Global};

/// Opens an accepted file in memory. Takes no memory.
pub fn open_accepted(bytes: Octets) -> Pages<BytesSource>
    requires { IsAccepted bytes }
    ensures { HasOpen bytes result.source }
{
    // The verdict begins with the faults of opening.
    opening_agrees();
    let mut source = BytesSource::new(bytes.into_bytes());
    let Ok(length) = source.open("") else {
        unreachable!()
    };
    match Pages::open(source, length) {
        Ok(pages) => pages,
        Err(_refusal) => unreachable!(),
    }
}

/// Gives the bytes of an open file back. Takes no memory.
pub fn close_bytes(pages: Pages<BytesSource>) -> Octets
    ensures { result ≡ pages.source.bytes }
{
    Octets::new(pages.into_source().into_bytes())
}

/// Checks an accepted file as a whole (ASTM E2807, file structure). It has no fault, so only memory can be wanting.
pub fn check_accepted(alloc: Global, pages: &mut Pages<BytesSource>) -> Result<(), AllocError>
    requires open { pages.old.source.is_open ≡ true }
    requires accepted { IsAccepted pages.old.source.bytes }
    ensures { HasOpen pages.old.source.bytes pages.new.source }
{
    // No file is both accepted and refused.
    one_verdict();
    match check(alloc, pages) {
        Ok(_summary) => Ok(()),
        Err(fault) => Err(want(RunFault::from(fault))),
    }
}

/// Checks an accepted file as a whole, whose content is one cloud, and reads all its columns (ASTM E2807, compressed vector
/// section). Answers the sum of the raw numbers of the first one, modulo 2^64. Only memory can be wanting.
pub fn sum_accepted(alloc: Global, pages: &mut Pages<BytesSource>) -> Result<u64, AllocError>
    requires open { pages.old.source.is_open ≡ true }
    requires cloud { (columns : List (List Value)) × HasColumns pages.old.source.bytes columns }
    ensures same { HasOpen pages.old.source.bytes pages.new.source }
    ensures sum { IfOk result (λ total. (columns : List (List Value)) → HasColumns pages.old.source.bytes columns → total ≡ first_sum columns) }
{
    // An accepted file has one content and no fault.
    one_verdict();
    one_content();
    let file = match judge(alloc, pages) {
        Ok((file, _summary)) => file,
        Err(fault) => return Err(want(RunFault::from(fault))),
    };
    match read_sum(alloc, &file, pages) {
        Ok(total) => Ok(total),
        Err(fault) => Err(want(RunFault::from(fault))),
    }
}

/// Want of memory, as which these faults are answered.
pub fn want(fault: RunFault) -> AllocError
    requires { IsWant fault }
{
    match fault {
        RunFault::Memory | RunFault::Out | RunFault::Ask(_) => AllocError,
        RunFault::Refused(_) | RunFault::Source => unreachable!(),
    }
}
