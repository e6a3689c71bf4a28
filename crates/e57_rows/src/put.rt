//! The rows of some records, put one after another.

ghost use Rattle.std.specs.Prelude.{◌≡◌, ◌+◌, ◌*◌, ◌/◌, ◌<◌, ◌≤◌, length, IfSome, MatchResult};
ghost use Rattle.std.specs.List.{AllByRecursion};
ghost use Rattle.e57_base.specs.Source.{page_length};
ghost use Rattle.e57_page.specs.Place.{payload_length};
ghost use Rattle.e57_layout.specs.Values.{IsValidField};
ghost use Rattle.e57_section.specs.Opening.{LiesIn};
ghost use Rattle.e57_ahead.specs.Counting.{IsWidth};
ghost use Rattle.e57_blocks.specs.Fields.{slice_of};
ghost use Rattle.e57_rows.specs.Putting.{PutsRows, FailsRows};
ghost use Rattle.e57_rows.specs.Shown.{show_of};

use crate::numbers::lines;
use crate::shown::rows_shown;
use e57_base::{RunFault, Sink, Source};
use e57_blocks::{FieldBlocks, MOST};
use e57_layout::{Field, Fixed, Section};
use e57_page::Pages;
use std::alloc::Global;

/// Puts the rows of the `count` records from record `from` on: of each the items of the asked fields, by their numbers, in the
/// asked order. `fields` are those of the section's cloud, and `fixed` is the first Float field of them, if there is one. With
/// `numbers` a scaled integer is put as the number that it stands for, if its field has decimals.
///
/// Refuses the fault of the first record that has one, and of that record the fault of the first asked field that has one; the
/// rows of the records before it were put. `Source` if the source failed, `Out` if the sink failed, `Memory` if there is none;
/// a prefix of the rows was put.
///
/// It takes memory for a column of each asked field and a block of its items, for one run of rows at a time, and for a string
/// that needs more.
pub fn put_rows<S: Source, O: Sink>(
    alloc: Global,
    section: &Section,
    fixed: Option<Fixed>,
    fields: &[Field],
    asked: &[u16],
    numbers: bool,
    from: u64,
    count: u64,
    pages: &mut Pages<S>,
    out: &mut O,
) -> Result<(), RunFault>
    requires lies { LiesIn section.now (pages.old.length / page_length * payload_length) }
    requires as_many { length fields.now ≡ section.now.fields }
    requires valid { AllByRecursion IsValidField fields.now }
    requires fixed { IfSome fixed (λ x. (x.field < section.now.fields) × IsWidth x) }
    requires are_fields { AllByRecursion (λ f. f < length fields.now) asked.now }
    requires left { from + count ≤ section.now.count }
    ensures length { pages.new.length ≡ pages.old.length }
    ensures header { pages.new.header ≡ pages.old.header }
    ensures rows { let a = slice_of section.now fixed fields.now asked.now from count in let show = show_of numbers fields.now in MatchResult result
        (λ _. PutsRows show a (S.view pages.old.source) (S.view pages.new.source) (O.view out.old) (O.view out.new))
        (λ fault. FailsRows show a (S.view pages.old.source) (S.view pages.new.source) (O.view out.old) (O.view out.new) fault) }
{
    let _size = pages.logical_len();
    let lines = lines(alloc, numbers, fields, asked)?;
    let mut blocks = FieldBlocks::open(alloc, section, fixed, fields, asked)?;
    let mut text = Vec::new(alloc);
    let until = from + count;
    let mut at = from;
    while at < until {
        let n = blocks.fill(pages, at, run_length(until - at))?;
        text = rows_shown(numbers, &lines, blocks.blocks(), at, n, text)?;
        match out.put(&text) {
            Ok(()) => at += n as u64,
            Err(_) => return Err(RunFault::Out),
        }
    }
    Ok(())
}

/// How many of the records that are left are looked at at a time.
fn run_length(left: u64) -> usize
    requires { 0 < left }
    ensures some { 0 < result }
    ensures few { result ≤ left }
{
    if left < MOST as u64 {
        left as usize
    } else {
        MOST
    }
}
