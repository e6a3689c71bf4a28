//! The numbers that scaled integers stand for (ASTM E2807, ScaledInteger).

ghost use Rattle.std.specs.Prelude.{◌≡◌, ◌<◌, ◌≤ℤ◌, length, None, IfOk, if◌then◌else◌};
ghost use Rattle.std.specs.List.{AllByRecursion};
ghost use Rattle.e57_layout.specs.Values.{IsValidField};
ghost use Rattle.e57_decimal.specs.Decided.{decimal_in};
ghost use Rattle.e57_rows.specs.Shown.{has_decimals as has_decimals_of, line_between as between, line_in, lines_of};

use e57_decimal::{Linear, read_decimal};
use e57_layout::{Field, FieldKind};
use std::alloc::{AllocError, Global};

/// Whether the items of a field can be shown as numbers: of scaled integers the scale and the offset are decimal numbers,
/// and `raw * scale + offset` can be computed for every raw number within the limits.
pub fn has_decimals(field: &Field) -> bool
    requires { IsValidField field.now }
    ensures { result ≡ has_decimals_of field.now.kind }
{
    match &field.kind {
        FieldKind::Scaled { .. } => line_of(field).is_some(),
        _ => true,
    }
}

/// The line by which scaled integers stand for numbers, if there is one.
fn line_of(field: &Field) -> Option<Linear>
    requires { IsValidField field.now }
    ensures { result ≡ line_in field.now.kind }
{
    match &field.kind {
        FieldKind::Scaled {
            min,
            max,
            scale,
            offset,
        } => line_between(*min, *max, scale.as_slice(), offset.as_slice()),
        _ => None,
    }
}

/// The line of the texts of a scale and an offset.
fn line_between(min: i64, max: i64, scale: &[u8], offset: &[u8]) -> Option<Linear>
    requires { min ≤ℤ max }
    ensures { result ≡ between (decimal_in scale.now) (decimal_in offset.now) min max }
{
    let scale = read_decimal(scale)?;
    let offset = read_decimal(offset)?;
    Linear::new(scale, offset, min, max)
}

/// The lines of the asked fields, by their numbers: none of any of them where no number is to be shown.
pub fn lines(
    alloc: Global,
    numbers: bool,
    fields: &[Field],
    asked: &[u16],
) -> Result<Vec<Option<Linear>>, AllocError>
    requires valid { AllByRecursion IsValidField fields.now }
    requires are_fields { AllByRecursion (λ f. f < length fields.now) asked.now }
    ensures { IfOk result (λ lines. lines.items ≡ lines_of numbers fields.now asked.now) }
{
    let mut lines = Vec::new(alloc);
    for k in 0..asked.len() {
        let line = line_at(numbers, &fields[asked[k] as usize]);
        if let Err(_full) = lines.push(line) {
            return Err(AllocError);
        }
    }
    Ok(lines)
}

/// The line of a field, where numbers are to be shown.
fn line_at(numbers: bool, field: &Field) -> Option<Linear>
    requires { IsValidField field.now }
    ensures { result ≡ if numbers then line_in field.now.kind else None }
{
    if numbers { line_of(field) } else { None }
}
