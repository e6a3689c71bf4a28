//! The first cloud of a file, and its fields.

ghost use Rattle.std.specs.Prelude.{◌≡◌, ◌<◌, ◌≤◌, ◌*◌, ◌/◌, length, IfOk, IfSome};
ghost use Rattle.e57_lib.specs.Base.Source.{page_length};
ghost use Rattle.e57_lib.specs.Page.Place.{payload_length};
ghost use Rattle.e57_lib.specs.Cloud.Cloud.{float_from};
ghost use Rattle.e57_lib.specs.Nodes.Items.{leaves_of};
ghost use Rattle.e57_lib.specs.Tree.Held.{AreCloudFields};
ghost use Rattle.e57_lib.specs.Section.Opening.{LiesIn, most_records};
ghost use Rattle.e57_lib.specs.Ahead.Counting.{IsWidth};
ghost use Rattle.e57_example.specs.Ready.{IsReady, IsWholeField};

use crate::sums::{Sums, sum_columns};
use e57_lib::faults::{AskFault, RunFault};
use e57_lib::files::{E57, Pages};
use e57_lib::objects::Source;
use e57_lib::records::{Column, Section, open_section};
use e57_lib::trees::{Cloud, Field, FieldKind, Fixed};
use std::alloc::Global;

/// The sums of two fields of integers of the file's first cloud, by their paths.
///
/// Refuses what `E57::open` refuses; then `Ask` if there is no cloud, no field with a path, or a field that has no
/// integers; then a fault of the section, and the first fault that is met when its records are read.
pub fn sums_of<S: Source>(
    alloc: Global,
    pages: &mut Pages<S>,
    first: &str,
    second: &str,
) -> Result<Sums, RunFault> {
    let file = E57::open(alloc, pages)?;
    let tree = file.tree();
    let _nodes = tree.raw();
    let clouds = tree.clouds();
    if clouds.is_empty() {
        return Err(RunFault::Ask(AskFault::Cloud { asked: 0, have: 0 }));
    }
    let cloud = clouds[0];
    let fields = tree.fields(0);
    let first = integer_field(fields, first)?;
    let second = integer_field(fields, second)?;
    sum_fields(alloc, cloud, fields, tree.fixed(0), first, second, pages)
}

/// The first field with this path, which has integers, and its number.
fn integer_field<'a>(fields: &'a [Field], path: &str) -> Result<(u16, &'a Field), RunFault>
    requires { AreCloudFields fields.now }
    ensures { IfOk result (λ found. IsWholeField (length fields.now) found.0 found.1.now) }
{
    for (f, field) in fields.iter().enumerate() {
        if field.path.as_slice() == path.as_bytes() {
            return match field.kind {
                FieldKind::Int { .. } | FieldKind::Scaled { .. } => Ok((f as u16, field)),
                _ => Err(RunFault::Ask(AskFault::NotInteger {
                    asked: 0,
                    have: f as u64,
                })),
            };
        }
    }
    Err(RunFault::Ask(AskFault::Field {
        asked: 0,
        have: fields.len() as u64,
    }))
}

/// The sums of two of the fields of a cloud. `fixed` is the first Float field of them, if there is one.
fn sum_fields<S: Source>(
    alloc: Global,
    cloud: Cloud,
    fields: &[Field],
    fixed: Option<Fixed>,
    first: (u16, &Field),
    second: (u16, &Field),
    pages: &mut Pages<S>,
) -> Result<Sums, RunFault>
    requires few { cloud.count ≤ most_records }
    requires fields { AreCloudFields fields.now }
    requires fixed { fixed ≡ float_from 0 (leaves_of fields.now) }
    requires first { IsWholeField (length fields.now) first.0 first.1.now }
    requires second { IsWholeField (length fields.now) second.0 second.1.now }
{
    let _size = pages.logical_len();
    if cloud.count == 0 {
        return Ok(Sums::none());
    }
    let Cloud { node, place, count } = cloud;
    let section = match open_section(pages, node, place, count, fields.len() as u16) {
        Ok(section) => section,
        Err(fault) => return Err(RunFault::from(fault)),
    };
    let mut first = open_column(alloc, &section, fixed, first, pages)?;
    let mut second = open_column(alloc, &section, fixed, second, pages)?;
    sum_columns(&section, &mut first, &mut second, pages)
}

/// The column of a field of integers, placed at record 0.
fn open_column<S: Source>(
    alloc: Global,
    section: &Section,
    fixed: Option<Fixed>,
    field: (u16, &Field),
    pages: &mut Pages<S>,
) -> Result<Column, RunFault>
    requires lies { LiesIn section.now (pages.old.length / page_length * payload_length) }
    requires field { IsWholeField section.now.fields field.0 field.1.now }
    requires fixed { IfSome fixed (λ x. (x.field < section.now.fields) × IsWidth x) }
    ensures length { pages.new.length ≡ pages.old.length }
    ensures ready { IfOk result (IsReady section.now 0) }
{
    let (f, field) = field;
    let Ok(mut column) = Column::open(alloc, section, f, field, fixed) else {
        return Err(RunFault::Memory);
    };
    match column.seek(pages, 0) {
        Ok(()) => Ok(column),
        Err(fault) => Err(RunFault::from(fault)),
    }
}
