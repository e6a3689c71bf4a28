//! The items of two columns, read block by block into lent buffers.

ghost use Rattle.std.specs.Prelude.{◌≡◌, ◌+◌, ◌-◌, ◌<◌, ◌≤◌, ◌*◌, ◌/◌, length, min, IfOk};
ghost use Rattle.e57_lib.specs.Base.Source.{page_length};
ghost use Rattle.e57_lib.specs.Page.Place.{payload_length};
ghost use Rattle.e57_lib.specs.Section.Opening.{LiesIn};
ghost use Rattle.e57_example.specs.Ready.{IsReady};

use e57_lib::faults::RunFault;
use e57_lib::files::Pages;
use e57_lib::objects::Source;
use e57_lib::records::{Column, Section};

/// How many records there are, and the sums of two fields over all of them.
#[derive(Clone, Copy, Debug, PartialEq, Eq)]
pub struct Sums {
    pub records: u64,
    pub first: i128,
    pub second: i128,
}

impl Sums {
    /// Those of no record.
    pub fn none() -> Sums
        ensures { result.records ≡ 0 }
    {
        Sums {
            records: 0,
            first: 0,
            second: 0,
        }
    }
}

/// How many items are read at a time.
const BLOCK: usize = 1024;

/// Reads both columns from record 0 to the last one.
pub fn sum_columns<S: Source>(
    section: &Section,
    first: &mut Column,
    second: &mut Column,
    pages: &mut Pages<S>,
) -> Result<Sums, RunFault>
    requires lies { LiesIn section.now (pages.old.length / page_length * payload_length) }
    requires first { IsReady section.now 0 first.old }
    requires second { IsReady section.now 0 second.old }
    ensures records { IfOk result (λ sums. sums.records ≡ section.now.count) }
{
    let mut buffer = [0; BLOCK];
    let mut sums = Sums::none();
    while sums.records < section.count {
        let at = sums.records;
        let n = read_block(section, first, pages, at, &mut buffer)?;
        sums.first = added(sums.first, &buffer[..n]);
        let n = read_block(section, second, pages, at, &mut buffer)?;
        sums.second = added(sums.second, &buffer[..n]);
        sums.records += n as u64;
    }
    Ok(sums)
}

/// Reads the items from record `at` on to the front of the buffer: as many as it has places, or as records are left.
fn read_block<S: Source>(
    section: &Section,
    column: &mut Column,
    pages: &mut Pages<S>,
    at: u64,
    buffer: &mut [i64],
) -> Result<usize, RunFault>
    requires lies { LiesIn section.now (pages.old.length / page_length * payload_length) }
    requires ready { IsReady section.now at column.old }
    requires left { at < section.now.count }
    requires some { 0 < length buffer.old }
    ensures length { pages.new.length ≡ pages.old.length }
    ensures buffer { length buffer.new ≡ length buffer.old }
    ensures count { IfOk result (λ n. n ≡ min (length buffer.old) (section.now.count - at)) }
    ensures some { IfOk result (λ n. (0 < n) × (n ≤ length buffer.old) × (at + n ≤ section.now.count)) }
    ensures ready { IfOk result (λ n. IsReady section.now (at + n) column.new) }
{
    match column.ints(pages, buffer) {
        Ok(n) => Ok(n),
        Err(stopped) => Err(RunFault::from(stopped.fault)),
    }
}

/// A sum and some items more. All items of a cloud together have fewer than 127 bits.
fn added(sum: i128, items: &[i64]) -> i128 {
    let mut sum = sum;
    for item in items {
        sum = sum.saturating_add(*item as i128);
    }
    sum
}
