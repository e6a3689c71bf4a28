//! The header of a new file.

ghost use Rattle.std.specs.Prelude.{◌≡◌, ◌++◌, drop, None};
ghost use Rattle.e57_page.specs.Header.{header_fault, header_of};
ghost use Rattle.e57_page_out.specs.HeaderBytes.{header_bytes};

use crate::bytes::write_at;
use e57_page::Header;

/// Writes the header as the first 48 bytes of page 0 (ASTM E2807, file header), and no other byte: the signature
/// `ASTM-E57`, version 1.0, the three numbers and the page size. `Header::read` gives it back for its own length.
pub fn write_header(header: &Header, page: &mut [u8; 1024])
    ensures bytes { page.new ≡ header_bytes header.now ++ drop 48 page.old }
    ensures no_fault { header_fault page.new header.now.length ≡ None }
    ensures read { header_of page.new ≡ header.now }
{
    let Header {
        length,
        xml_place,
        xml_length,
    } = *header;
    write_at(page, 0, b"ASTM-E57".as_slice());
    write_at(page, 8, &1u32.to_le_bytes());
    write_at(page, 12, &0u32.to_le_bytes());
    write_at(page, 16, &length.to_le_bytes());
    write_at(page, 24, &xml_place.to_le_bytes());
    write_at(page, 32, &xml_length.to_le_bytes());
    write_at(page, 40, &1024u64.to_le_bytes());
}
