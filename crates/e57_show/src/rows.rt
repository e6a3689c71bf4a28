//! The records of a cloud, in rows.

ghost use Rattle.std.specs.Prelude.{◌≡◌, ◌+◌, ◌<◌, ◌≤◌, length, Some, None, MatchResult};
ghost use Rattle.std.specs.List.{AllByRecursion};
ghost use Rattle.e57_nodes.specs.Items.{leaves_of};
ghost use Rattle.e57_cloud.specs.Cloud.{float_from};
ghost use Rattle.e57_section.specs.Opening.{most_records};
ghost use Rattle.e57_tree.specs.Held.{AreCloudFields};
ghost use Rattle.e57_show.specs.Opening.{JudgesPlaceFirst};
ghost use Rattle.e57_show.specs.Streaming.{StreamEnds};
ghost use Rattle.e57_show.specs.Extract.{AsksForRows, IsLimited, asked_by, rows_streamed};
ghost use Rattle.e57_show.specs.Extracting.{IsOfCloud, OfFields, selection_of, selection_streamed, AsksSelected, PutsRecords, FailsRecords};

use crate::ask::RowsAsk;
use crate::select::{Selected, select};
use e57_base::{RunFault, Sink, Source};
use e57_elements::one_answer;
use e57_file::E57;
use e57_layout::{Field, Fixed};
use e57_page::Pages;
use e57_rows::{heading, put_rows};
use e57_section::open_section;
use e57_tree::Cloud;
use std::alloc::Global;

/// Puts rows of text on `out`: the paths of the asked fields of a cloud, and then the items of the asked fields of each asked
/// record, in the asked order; with `decimal`, a scaled integer as the number that it stands for. It asks the source for those pages of the XML section that aren't kept, in ascending order and
/// each at most once, and then, if a record is asked for, for pages of the header of the cloud's section and of what lies on
/// the way to the asked items, and for no other.
///
/// Refuses what `E57::open` refuses; then `Ask` if the file doesn't have what is asked for: `Cloud`, `Field` for the first name
/// that no field has, by its number in the list, `Decimal` for the first asked field of scaled integers that have no decimals, by
/// its place among the asked ones, or `Range`, in this order. After these nothing was put. Then the fault of the
/// first asked record that has one, and of that record that of the first asked field that has one; the heading and the rows
/// before were put. `Source` if the source failed, `Out` if the sink failed, `Memory` if there is none; a prefix of the rows
/// was put. No number of an ask is above 2^40.
///
/// Memory is taken as for `E57::open`, then for the heading, for a column of each asked field with a block of its items, for
/// the text of some rows, and for strings up to their limit.
pub fn extract<S: Source, O: Sink>(
    alloc: Global,
    pages: &mut Pages<S>,
    ask: &RowsAsk<'_>,
    out: &mut O,
) -> Result<(), RunFault>
    requires { IsLimited ask.now }
    ensures length { pages.new.length ≡ pages.old.length }
    ensures header { pages.new.header ≡ pages.old.header }
    ensures asked { AsksForRows pages.old (asked_by ask.now) (S.view pages.old.source) (S.view pages.new.source) }
    ensures place { JudgesPlaceFirst pages.old (O.view out.old) result pages.new (O.view out.new) }
    ensures ends { MatchResult result
        (λ _. StreamEnds (rows_streamed (asked_by ask.now)) (S.view pages.old.source) (S.view pages.new.source) (O.view out.old) (O.view out.new) None)
        (λ fault. StreamEnds (rows_streamed (asked_by ask.now)) (S.view pages.old.source) (S.view pages.new.source) (O.view out.old) (O.view out.new) (Some fault)) }
{
    // A text spells one tree, and then it has no fault.
    one_answer();
    let _size = pages.logical_len();
    let file = E57::open(alloc, pages)?;
    let selected = select(alloc, &file, ask)?;
    put_selected(alloc, &file, &selected, pages, out)
}

/// Puts the heading and the rows of what was looked up in the file's tree.
fn put_selected<S: Source, O: Sink>(
    alloc: Global,
    file: &E57,
    selected: &Selected,
    pages: &mut Pages<S>,
    out: &mut O,
) -> Result<(), RunFault>
    requires { IsOfCloud file.now selected.now }
    ensures length { pages.new.length ≡ pages.old.length }
    ensures header { pages.new.header ≡ pages.old.header }
    ensures met { OfFields file.now selected.now.k (λ fields. AsksSelected (selection_of selected.now fields) (S.view pages.old.source) (S.view pages.new.source)) }
    ensures puts { OfFields file.now selected.now.k (λ fields. MatchResult result
        (λ _. StreamEnds (selection_streamed (selection_of selected.now fields)) (S.view pages.old.source) (S.view pages.new.source) (O.view out.old) (O.view out.new) None)
        (λ fault. StreamEnds (selection_streamed (selection_of selected.now fields)) (S.view pages.old.source) (S.view pages.new.source) (O.view out.old) (O.view out.new) (Some fault))) }
{
    let fields = file.tree().fields(selected.k);
    let fixed = file.tree().fixed(selected.k);
    let text = heading(alloc, fields, &selected.numbers)?;
    match out.put(&text) {
        Ok(()) => put_records(alloc, selected, fields, fixed, pages, out),
        Err(_) => Err(RunFault::Out),
    }
}

/// Puts the rows of the asked records.
fn put_records<S: Source, O: Sink>(
    alloc: Global,
    selected: &Selected,
    fields: &[Field],
    fixed: Option<Fixed>,
    pages: &mut Pages<S>,
    out: &mut O,
) -> Result<(), RunFault>
    requires few { selected.now.cloud.count ≤ most_records }
    requires left { selected.now.from + selected.now.count ≤ selected.now.cloud.count }
    requires some { 0 < length selected.now.numbers.items }
    requires numbers { AllByRecursion (λ f. f < length fields.now) selected.now.numbers.items }
    requires fields { AreCloudFields fields.now }
    requires fixed { fixed ≡ float_from 0 (leaves_of fields.now) }
    ensures length { pages.new.length ≡ pages.old.length }
    ensures header { pages.new.header ≡ pages.old.header }
    ensures met { AsksSelected (selection_of selected.now fields.now) (S.view pages.old.source) (S.view pages.new.source) }
    ensures puts { let s = selection_of selected.now fields.now in MatchResult result
        (λ _. PutsRecords s (S.view pages.old.source) (O.view out.old) (O.view out.new))
        (λ fault. FailsRecords s (S.view pages.old.source) (S.view pages.new.source) (O.view out.old) (O.view out.new) fault) }
{
    let _size = pages.logical_len();
    let Selected {
        cloud,
        from,
        count,
        decimal,
        ..
    } = selected;
    if *count == 0 {
        return Ok(());
    }
    let Cloud {
        node,
        place,
        count: records,
    } = *cloud;
    let section = match open_section(pages, node, place, records, fields.len() as u16) {
        Ok(section) => section,
        Err(fault) => return Err(RunFault::from(fault)),
    };
    put_rows(
        alloc,
        &section,
        fixed,
        fields,
        &selected.numbers,
        *decimal,
        *from,
        *count,
        pages,
        out,
    )
}
