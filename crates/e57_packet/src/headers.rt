//! The headers of compressed vector sections and of blob sections.

ghost use Rattle.std.specs.Prelude.{◌≡◌, ◌+◌, ℕ, List};
ghost use Rattle.e57_layout.specs.Standing.{Stands};
ghost use Rattle.e57_layout.specs.Headers.{section_head, section_head_at, blob_head_of, blob_head_at};

use crate::numbers::{put, u8_at};
use e57_bits::u64_at;
use e57_layout::{BlobHeader, SectionHeader};

/// Reads the 32 bytes of a section's header (ASTM E2807, compressed vector section header). Its two places are the
/// physical offsets that the file states; nothing is judged.
pub fn read_section_header(bytes: &[u8; 32]) -> SectionHeader
    ensures { result ≡ section_head_at bytes.now 0 }
{
    let bytes = bytes.as_slice();
    SectionHeader {
        id: u8_at(bytes, 0),
        length: u64_at(bytes, 8),
        data_place: u64_at(bytes, 16),
        index: u64_at(bytes, 24),
    }
}

/// Writes a section's header (ASTM E2807, compressed vector section header), with zeros as its reserved bytes. Wherever
/// these bytes stand, they are read as this header.
pub fn write_section_header(header: &SectionHeader, out: &mut [u8; 32])
    ensures bytes { out.new ≡ section_head header.now }
    ensures reads { (b : List ℕ) (q : ℕ) → Stands b q out.new → section_head_at b q ≡ header.now }
{
    let out = out.as_mut_slice();
    put(out, 0, &header.id.to_le_bytes());
    put(out, 1, &[0; 7]);
    put(out, 8, &header.length.to_le_bytes());
    put(out, 16, &header.data_place.to_le_bytes());
    put(out, 24, &header.index.to_le_bytes());
}

/// Reads the 16 bytes of a blob's header (ASTM E2807, blob section header); nothing is judged.
pub fn read_blob_header(bytes: &[u8; 16]) -> BlobHeader
    ensures { result ≡ blob_head_at bytes.now 0 }
{
    let bytes = bytes.as_slice();
    BlobHeader {
        id: u8_at(bytes, 0),
        length: u64_at(bytes, 8),
    }
}

/// Writes a blob's header (ASTM E2807, blob section header), with zeros as its reserved bytes. Wherever these bytes stand,
/// they are read as this header.
pub fn write_blob_header(header: &BlobHeader, out: &mut [u8; 16])
    ensures bytes { out.new ≡ blob_head_of header.now }
    ensures reads { (b : List ℕ) (q : ℕ) → Stands b q out.new → blob_head_at b q ≡ header.now }
{
    let out = out.as_mut_slice();
    put(out, 0, &header.id.to_le_bytes());
    put(out, 1, &[0; 7]);
    put(out, 8, &header.length.to_le_bytes());
}
