//! The header of a file.

ghost use Rattle.std.specs.Prelude.{◌≡◌, Some, None, MatchResult};

use crate::place::PAGE;
use e57_base::{Fault, Kind};
use e57_bits::{u32_at, u64_at};

/// The numbers of a file's header (ASTM E2807, file header) that are used later.
#[derive(Clone, Copy, Debug, PartialEq, Eq)]
pub struct Header {
    /// The file's length in bytes.
    pub length: u64,
    /// The physical offset of the XML section.
    pub xml_place: u64,
    /// The length of the XML section in logical bytes.
    pub xml_length: u64,
}

impl Header {
    ghost use Rattle.e57_page.specs.Header.{header_fault, header_of};

    /// Reads the header from the first 48 bytes of page 0 of a file of `length` bytes (ASTM E2807, file header).
    ///
    /// Refuses, in this order: `Signature` where bytes 0 to 7 aren't `ASTM-E57`; `Version` where the version isn't
    /// 1.0; `FileLength` where the header's length isn't `length`; `PageSize` where the page size isn't 1024 bytes.
    #[tactic(auto, unfolding(crate::specs::Header::header_fault))]
    pub fn read(page: &[u8; 1024], length: u64) -> Result<Header, Fault>
        ensures { MatchResult result
            (λ h. (header_fault page.now length ≡ None) × (h ≡ header_of page.now))
            (λ f. header_fault page.now length ≡ Some f) }
    {
        let bytes = page.as_slice();
        if &bytes[..8] != b"ASTM-E57".as_slice() {
            return Err(Fault::new(Kind::Signature, 0, 0));
        }
        let major = u32_at(bytes, 8);
        let minor = u32_at(bytes, 12);
        if major != 1 || minor != 0 {
            return Err(Fault::new(Kind::Version, major as u64, minor as u64));
        }
        let stated = u64_at(bytes, 16);
        if stated != length {
            return Err(Fault::new(Kind::FileLength, length, stated));
        }
        let page_size = u64_at(bytes, 40);
        if page_size != PAGE {
            return Err(Fault::new(Kind::PageSize, page_size, 0));
        }
        Ok(Header {
            length: stated,
            xml_place: u64_at(bytes, 24),
            xml_length: u64_at(bytes, 32),
        })
    }
}
