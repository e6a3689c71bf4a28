//! The lines of clouds, fields and blobs.

ghost use Rattle.std.specs.Prelude.{◌≡◌, ◌++◌, codes, decimal, OnOk};
ghost use Rattle.std.specs.Fmt.{signed_decimal};
ghost use Rattle.e57_show.specs.Listing.{blob_line, cloud_line, field_line, field_lines, kind_text};

use e57_layout::{Field, FieldKind};
use itoa::Buffer;
use std::alloc::AllocError;

/// Appends a text and a number in decimal.
pub fn push_number(line: &mut Vec<u8>, text: &[u8], number: u64) -> Result<(), AllocError>
    ensures { OnOk result (line.new.items ≡ line.old.items ++ (text.now ++ decimal number)) }
{
    line.extend_from_slice(text)?;
    line.extend_from_slice(Buffer::new().format(number).as_bytes())?;
    Ok(())
}

/// Appends a text and a signed number in decimal.
fn push_signed(line: &mut Vec<u8>, text: &[u8], number: i64) -> Result<(), AllocError>
    ensures { OnOk result (line.new.items ≡ line.old.items ++ (text.now ++ signed_decimal number)) }
{
    line.extend_from_slice(text)?;
    line.extend_from_slice(Buffer::new().format(number).as_bytes())?;
    Ok(())
}

/// Appends a space and a text.
fn push_text(line: &mut Vec<u8>, text: &[u8]) -> Result<(), AllocError>
    ensures { OnOk result (line.new.items ≡ line.old.items ++ (codes " " ++ text.now)) }
{
    line.push(b' ')?;
    line.extend_from_slice(text)?;
    Ok(())
}

/// Appends two texts, each after a space.
fn push_texts(line: &mut Vec<u8>, first: &[u8], second: &[u8]) -> Result<(), AllocError>
    ensures { OnOk result (line.new.items ≡ line.old.items ++ (codes " " ++ first.now ++ codes " " ++ second.now)) }
{
    push_text(line, first)?;
    push_text(line, second)
}

/// Appends what a field's items are.
fn push_kind(line: &mut Vec<u8>, kind: &FieldKind) -> Result<(), AllocError>
    ensures { OnOk result (line.new.items ≡ line.old.items ++ kind_text kind.now) }
{
    match kind {
        FieldKind::Int { min, max } => {
            push_signed(line, b" integer ".as_slice(), *min)?;
            push_signed(line, b" ".as_slice(), *max)
        }
        FieldKind::Scaled {
            min,
            max,
            scale,
            offset,
        } => {
            push_signed(line, b" scaled ".as_slice(), *min)?;
            push_signed(line, b" ".as_slice(), *max)?;
            push_texts(line, scale.as_slice(), offset.as_slice())
        }
        FieldKind::Bits32 => line.extend_from_slice(b" float32".as_slice()),
        FieldKind::Bits64 => line.extend_from_slice(b" float64".as_slice()),
        FieldKind::Text => line.extend_from_slice(b" string".as_slice()),
    }
}

/// Appends the line of field j.
#[tactic(auto, unfolding(crate::specs::Listing::field_line))]
fn push_field(lines: &mut Vec<u8>, j: u64, field: &Field) -> Result<(), AllocError>
    ensures { OnOk result (lines.new.items ≡ lines.old.items ++ field_line j field.now) }
{
    push_number(lines, b"field ".as_slice(), j)?;
    push_text(lines, field.path.as_slice())?;
    push_kind(lines, &field.kind)?;
    lines.push(b'\n')?;
    Ok(())
}

/// Appends the lines of all fields of a cloud.
pub fn push_fields(lines: &mut Vec<u8>, fields: &[Field]) -> Result<(), AllocError>
    ensures { OnOk result (lines.new.items ≡ lines.old.items ++ field_lines 0 fields.now) }
{
    for (j, field) in fields.iter().enumerate() {
        push_field(lines, j as u64, field)?;
    }
    Ok(())
}

/// Appends the line of cloud k.
#[tactic(auto, unfolding(crate::specs::Listing::cloud_line))]
pub fn push_cloud(
    lines: &mut Vec<u8>,
    k: u64,
    path: &[u8],
    records: u64,
    fields: u64,
) -> Result<(), AllocError>
    ensures { OnOk result (lines.new.items ≡ lines.old.items ++ cloud_line k path.now records fields) }
{
    push_number(lines, b"cloud ".as_slice(), k)?;
    push_text(lines, path)?;
    push_number(lines, b" records ".as_slice(), records)?;
    push_number(lines, b" fields ".as_slice(), fields)?;
    lines.push(b'\n')?;
    Ok(())
}

/// Appends the line of blob k, of so many bytes.
#[tactic(auto, unfolding(crate::specs::Listing::blob_line))]
pub fn push_blob(lines: &mut Vec<u8>, k: u64, path: &[u8], length: u64) -> Result<(), AllocError>
    ensures { OnOk result (lines.new.items ≡ lines.old.items ++ blob_line k path.now length) }
{
    push_number(lines, b"blob ".as_slice(), k)?;
    push_text(lines, path)?;
    push_number(lines, b" length ".as_slice(), length)?;
    lines.push(b'\n')?;
    Ok(())
}
