//! Files made in memory.

use e57_crc::crc32c;
use std::alloc::{AllocError, Global};

/// The order of the bytes of a page's word.
#[derive(Clone, Copy)]
pub enum WordOrder {
    MostSignificantFirst,
    LeastSignificantFirst,
}

/// The header of a file of so many pages, whose XML section has this physical place and this length.
pub fn header(alloc: Global, pages: u64, place: u64, length: u64) -> Result<Vec<u8>, AllocError> {
    let mut bytes = Vec::new(alloc);
    bytes.extend_from_slice(b"ASTM-E57\x01\0\0\0\0\0\0\0")?;
    bytes.extend_from_slice(&pages.wrapping_mul(1024).to_le_bytes())?;
    bytes.extend_from_slice(&place.to_le_bytes())?;
    bytes.extend_from_slice(&length.to_le_bytes())?;
    bytes.extend_from_slice(&1024u64.to_le_bytes())?;
    Ok(bytes)
}

/// The file of these logical bytes: pages of 1020 bytes, the last one filled with zeros, each with its word.
pub fn file(alloc: Global, logical: &[u8], order: WordOrder) -> Result<Vec<u8>, AllocError> {
    let mut bytes = Vec::new(alloc);
    for piece in logical.chunks(1020) {
        let mut payload = piece.to_vec(alloc)?;
        payload.resize(1020, 0)?;
        let word = crc32c(&payload);
        bytes.extend_from_slice(&payload)?;
        bytes.extend_from_slice(&match order {
            WordOrder::MostSignificantFirst => word.to_be_bytes(),
            WordOrder::LeastSignificantFirst => word.to_le_bytes(),
        })?;
    }
    Ok(bytes)
}

/// The logical bytes of a file: the header on page 0, this section from page 1 on, and this text from the page behind it on.
pub fn on_own_pages(alloc: Global, section: &[u8], text: &[u8]) -> Result<Vec<u8>, AllocError> {
    let before = 1usize.wrapping_add(section.len().div_ceil(1020));
    let pages = before.wrapping_add(text.len().div_ceil(1020));
    let place = before.wrapping_mul(1024) as u64;
    let mut logical = header(alloc, pages as u64, place, text.len() as u64)?;
    logical.resize(1020, 0)?;
    logical.extend_from_slice(section)?;
    logical.resize(before.wrapping_mul(1020), 0)?;
    logical.extend_from_slice(text)?;
    Ok(logical)
}

/// The logical bytes of a file of so many pages: the header, this section behind it on page 0, and then this text.
pub fn close_together(
    alloc: Global,
    pages: u64,
    section: &[u8],
    text: &[u8],
) -> Result<Vec<u8>, AllocError> {
    let place = 48u64.wrapping_add(section.len() as u64);
    let mut logical = header(alloc, pages, place, text.len() as u64)?;
    logical.extend_from_slice(section)?;
    logical.extend_from_slice(text)?;
    Ok(logical)
}

/// A file with this text from page 1 on, whose header states this XML section.
pub fn file_of_text(
    alloc: Global,
    text: &[u8],
    place: u64,
    length: u64,
) -> Result<Vec<u8>, AllocError> {
    let pages = 1u64.wrapping_add(text.len().div_ceil(1020) as u64);
    let mut logical = header(alloc, pages, place, length)?;
    logical.resize(1020, 0)?;
    logical.extend_from_slice(text)?;
    file(alloc, &logical, WordOrder::MostSignificantFirst)
}

/// A file of two pages of which all but the header is zero.
pub fn two_pages(alloc: Global, order: WordOrder) -> Result<Vec<u8>, AllocError> {
    let mut logical = header(alloc, 2, 136, 933)?;
    logical.resize(2040, 0)?;
    file(alloc, &logical, order)
}

/// The element text of `three_records`.
pub const THREE_RECORDS_TEXT: &str = "<?xml version=\"1.0\" encoding=\"UTF-8\"?>
<e57Root type=\"Structure\"><p type=\"CompressedVector\" fileOffset=\"1024\" recordCount=\"3\"><prototype type=\"Structure\"><x type=\"Integer\" minimum=\"0\" maximum=\"7\"/><c type=\"Integer\" minimum=\"5\" maximum=\"5\"/><f type=\"Float\" precision=\"single\"/><s type=\"String\"/></prototype></p></e57Root>";

// The section of `three_records`: its header, a data packet and an index packet.
const THREE_RECORDS_SECTION: &[u8; 100] =
    b"\x01\0\0\0\0\0\0\0\x64\0\0\0\0\0\0\0\x20\x04\0\0\0\0\0\0\x44\x04\0\0\0\0\0\0\x01\x01\x23\0\x04\0\x02\0\0\0\x0c\0\x07\0\xf1\x01\0\0\x80\x3f\0\0\0\x40\0\0\0\0\0\x06abc\x02q\0\0\0\x1f\0\x01\0\0\0\0\0\0\0\0\0\0\0\0\0\0\0\0\0\0\0\x20\x04\0\0\0\0\0\0";

/// The logical bytes of `three_records`.
pub fn three_records_logical(alloc: Global) -> Result<Vec<u8>, AllocError> {
    on_own_pages(
        alloc,
        THREE_RECORDS_SECTION.as_slice(),
        THREE_RECORDS_TEXT.as_bytes(),
    )
}

/// A file of three pages in the written form: the header, a cloud of three records, and the element text.
pub fn three_records(alloc: Global) -> Result<Vec<u8>, AllocError> {
    let logical = three_records_logical(alloc)?;
    file(alloc, &logical, WordOrder::MostSignificantFirst)
}

/// With the lowest bit of byte `at` changed.
pub fn changed(mut bytes: Vec<u8>, at: usize) -> Vec<u8> {
    if let Some(byte) = bytes.get_mut(at) {
        *byte ^= 1;
    }
    bytes
}

/// The element text of `two_points`, as another program wrote it.
pub const TWO_POINTS_TEXT: &str = "<?xml version=\"1.0\" encoding=\"UTF-8\"?>
<e57Root type=\"Structure\" xmlns=\"http://www.astm.org/COMMIT/E57/2010-e57-v1.0\">
<formatName type=\"String\"><![CDATA[ASTM E57 3D Imaging Data File]]></formatName>
<versionMajor type=\"Integer\">1</versionMajor>
<versionMinor type=\"Integer\"/>
<data3D type=\"Vector\" allowHeterogeneousChildren=\"1\">
<vectorChild type=\"Structure\">
<points type=\"CompressedVector\" fileOffset=\"48\" recordCount=\"2\">
<prototype type=\"Structure\">
<cartesianX type=\"Float\" precision=\"single\"/>
<cartesianY type=\"Float\" precision=\"single\"/>
<cartesianZ type=\"Float\" precision=\"single\"/>
<intensity type=\"Integer\" minimum=\"0\" maximum=\"4095\"/>
<colorRed type=\"Integer\" minimum=\"0\" maximum=\"255\"/>
<colorGreen type=\"Integer\" minimum=\"0\" maximum=\"255\"/>
<colorBlue type=\"Integer\" minimum=\"0\" maximum=\"255\"/>
</prototype>
<codecs type=\"Vector\" allowHeterogeneousChildren=\"1\"></codecs>
</points>
</vectorChild>
</data3D>
</e57Root>
";

/// The section of `two_points`: its header and a data packet.
pub const TWO_POINTS_SECTION: &[u8; 88] =
    b"\x01\0\0\0\0\0\0\0X\0\0\0\0\0\0\0P\0\0\0\0\0\0\0\0\0\0\0\0\0\0\0\x01\07\0\x07\0\x08\0\x08\0\x08\0\x04\0\x02\0\x02\0\x02\0\0\0\x80?\0\0\x80\xbf\0\0\0@\0\0\0\0\0\0\0?\0\0\0@d\xf0\xff\0\xff\x01\0\x02\x10\x03\0\0";

/// A file of two pages in which a cloud of two records follows the header, and then the element text.
pub fn two_points(alloc: Global) -> Result<Vec<u8>, AllocError> {
    let section = TWO_POINTS_SECTION.as_slice();
    let logical = close_together(alloc, 2, section, TWO_POINTS_TEXT.as_bytes())?;
    file(alloc, &logical, WordOrder::MostSignificantFirst)
}
