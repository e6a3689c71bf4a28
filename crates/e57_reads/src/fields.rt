//! Fields of a record.

ghost use Rattle.std.specs.Prelude.{◌≡◌, ◌≤ℤ◌, IfOk};
ghost use Rattle.std.specs.Int.{int_gap};
ghost use Rattle.e57_layout.specs.Values.{ItemKind, item_kind, IsValidField};
ghost use Rattle.e57_column.specs.Reading.{AreWhole};

use e57_base::{Octets, ReadFault};
use e57_layout::{Field, FieldKind};
use std::alloc::{AllocError, Global};
use std::test::Fail;

/// The number of the field's node.
pub const FIELD: u32 = 9;

/// A field of integers, if these are the limits of so many bits.
pub fn whole_field(alloc: Global, low: i64, high: i64, width: u8) -> Result<Field, Fail>
    ensures valid { IfOk result (λ field. IsValidField field) }
    ensures kind { IfOk result (λ field. AreWhole (item_kind field.kind)) }
{
    if low > high || width == 0 || width > 64 {
        return Err(ReadFault::Source)?;
    }
    if gap(low, high) >> (width - 1) != 1 {
        return Err(ReadFault::Source)?;
    }
    let path = Octets::new(b"x".to_vec(alloc)?);
    Ok(Field {
        node: FIELD,
        path,
        kind: FieldKind::Int {
            min: low,
            max: high,
        },
        width,
    })
}

fn gap(low: i64, high: i64) -> u64
    requires { low ≤ℤ high }
    ensures { result ≡ int_gap low high }
{
    (high as i128 - low as i128) as u64
}

/// A field of strings.
pub fn text_field(alloc: Global) -> Result<Field, AllocError>
    ensures valid { IfOk result (λ field. IsValidField field) }
    ensures kind { IfOk result (λ field. item_kind field.kind ≡ ItemKind.strings) }
{
    let path = Octets::new(b"x".to_vec(alloc)?);
    Ok(Field {
        node: FIELD,
        path,
        kind: FieldKind::Text,
        width: 0,
    })
}
