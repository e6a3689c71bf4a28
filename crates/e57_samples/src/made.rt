//! The files that tables begin from, and changes of their bytes.

use crate::files::{
    TWO_POINTS_SECTION, TWO_POINTS_TEXT, WordOrder, close_together, file, on_own_pages,
    three_records_logical,
};
use std::alloc::{AllocError, Global};

/// What a file holds before any of its bytes is changed.
#[derive(Clone, Copy)]
pub enum Sample {
    /// One page with a section of two chunks and an index, and a text of a cloud with this number of records and this field.
    /// The section is that of 13 records of `BIT`.
    OnePage(&'static str, &'static str),
    /// Two pages, as another program wrote them: two records of seven fields, without an index.
    TwoPoints,
    /// The same with an index.
    TwoPointsWithIndex,
    /// Three pages in the written form: three records of four fields.
    ThreeRecords,
    /// Three pages in the written form: 20 records of six fields in two chunks.
    SixFields,
    /// 8191 records of a Float field in one packet, which is as long as packets are.
    LongestPacket,
    /// This text alone, from page 1 on.
    Text(&'static str),
    /// A text with this in its root.
    InRoot(&'static str),
    /// A text with so many start tags in its root, each in the one before.
    Deep(usize),
}

/// The field of the file of one page.
pub const BIT: &str = "<x type='Integer' minimum='0' maximum='1'/>";

/// Logical bytes that stand at a place in place of the sample's own.
pub type Edit<'a> = (usize, &'a [u8]);

/// The file of a sample with some bytes changed, and with right words.
pub fn made(alloc: Global, sample: Sample, edits: &[Edit]) -> Result<Vec<u8>, AllocError> {
    let mut logical = logical_of(alloc, sample)?;
    for (at, bytes) in edits {
        change(&mut logical, *at, bytes);
    }
    file(alloc, &logical, WordOrder::MostSignificantFirst)
}

/// The logical bytes of a sample.
pub fn logical_of(alloc: Global, sample: Sample) -> Result<Vec<u8>, AllocError> {
    match sample {
        Sample::OnePage(count, field) => one_page(alloc, count, field),
        Sample::TwoPoints => two_points(alloc, b""),
        Sample::TwoPointsWithIndex => two_points(alloc, INDEX),
        Sample::ThreeRecords => three_records_logical(alloc),
        Sample::SixFields => on_own_pages(alloc, SIX_FIELDS, SIX_FIELDS_TEXT.as_bytes()),
        Sample::LongestPacket => longest_packet(alloc),
        Sample::Text(text) => on_own_pages(alloc, b"", text.as_bytes()),
        Sample::InRoot(text) => in_root(alloc, text),
        Sample::Deep(depth) => deep(alloc, depth),
    }
}

fn one_page(alloc: Global, count: &str, field: &str) -> Result<Vec<u8>, AllocError> {
    let text = format!(in alloc;
        "<e57Root type='Structure'><p type='CompressedVector' fileOffset='48' recordCount='{count}'><prototype type='Structure'>{field}</prototype></p></e57Root>"
    )?;
    close_together(alloc, 1, SECTION, text.as_bytes())
}

// With an index the section's header names it.
fn two_points(alloc: Global, index: &[u8]) -> Result<Vec<u8>, AllocError> {
    let mut section = TWO_POINTS_SECTION.as_slice().to_vec(alloc)?;
    section.extend_from_slice(index)?;
    if !index.is_empty() {
        change(&mut section, 8, &[120]);
        change(&mut section, 24, &[136]);
    }
    close_together(alloc, 2, &section, TWO_POINTS_TEXT.as_bytes())
}

fn longest_packet(alloc: Global) -> Result<Vec<u8>, AllocError> {
    let mut section = LONGEST_PACKET.to_vec(alloc)?;
    section.resize(65_568, 0)?;
    on_own_pages(alloc, &section, LONGEST_PACKET_TEXT.as_bytes())
}

fn in_root(alloc: Global, inner: &str) -> Result<Vec<u8>, AllocError> {
    let text = format!(in alloc; "<e57Root type='Structure'>{inner}</e57Root>")?;
    on_own_pages(alloc, b"", text.as_bytes())
}

fn deep(alloc: Global, depth: usize) -> Result<Vec<u8>, AllocError> {
    let mut text = String::from_str(alloc, "<e57Root type='Structure'>")?;
    for _ in 0..depth {
        text.push_str("<a type='Structure'>")?;
    }
    on_own_pages(alloc, b"", text.as_bytes())
}

fn change(logical: &mut [u8], at: usize, bytes: &[u8]) {
    if let Some(rest) = logical.get_mut(at..) {
        for (place, byte) in rest.iter_mut().zip(bytes) {
            *place = *byte;
        }
    }
}

// An index packet of one entry, which names the data packet of two points.
const INDEX: &[u8] = b"\0\0\x1f\0\x01\0\0\0\0\0\0\0\0\0\0\0\0\0\0\0\0\0\0\0\x50\0\0\0\0\0\0\0";

// The section of the file of one page: its header, two data packets and an index packet, 104 bytes from place 48 on.
const SECTION: &[u8] = b"\x01\0\0\0\0\0\0\0\x68\0\0\0\0\0\0\0\x50\0\0\0\0\0\0\0\x68\0\0\0\0\0\0\0\
\x01\x01\x0b\0\x01\0\x01\0\x15\0\0\0\x01\x01\x0b\0\x01\0\x01\0\xf0\0\0\0\
\0\0\x2f\0\x02\0\0\0\0\0\0\0\0\0\0\0\0\0\0\0\0\0\0\0\x50\0\0\0\0\0\0\0\x05\0\0\0\0\0\0\0\x5c\0\0\0\0\0\0\0";

// The element text of the file of six fields.
const SIX_FIELDS_TEXT: &str = "<?xml version=\"1.0\" encoding=\"UTF-8\"?>
<e57Root type=\"Structure\" xmlns=\"http://www.astm.org/COMMIT/E57/2010-e57-v1.0\"><data3D type=\"Vector\"><vectorChild type=\"Structure\"><points type=\"CompressedVector\" fileOffset=\"1024\" recordCount=\"20\"><prototype type=\"Structure\"><cartesianX type=\"ScaledInteger\" minimum=\"0\" maximum=\"1048575\" scale=\"0.001\" offset=\"0\"/><cartesianY type=\"ScaledInteger\" minimum=\"0\" maximum=\"1048575\" scale=\"0.001\" offset=\"0\"/><intensity type=\"Integer\" minimum=\"0\" maximum=\"255\"/><rowIndex type=\"Integer\" minimum=\"0\" maximum=\"0\"/><cartesianZ type=\"Float\" precision=\"single\"/><tag type=\"String\"/></prototype></points></vectorChild></data3D></e57Root>";

// The section of the file of six fields, from place 1020 on: its header, a data packet of 16 records at 1052, one of 4 records at
// 1272, and an index packet at 1340.
const SIX_FIELDS: &[u8] =
    b"\x01\0\0\0\0\0\0\0\x70\x01\0\0\0\0\0\0\x20\x04\0\0\0\0\0\0\x40\x05\0\0\0\0\0\0\
\x01\x01\xdb\0\x06\0\x28\0\x28\0\x10\0\0\0\x40\0\x28\0\0\0\x30\0\0\x06\0\x90\0\0\x0c\0\xf0\0\0\x12\0\x50\x01\0\x18\0\xb0\x01\0\x1e\0\x10\x02\0\x24\0\x70\x02\0\x2a\0\xd0\x02\0\0\0\x50\0\0\x0a\0\xf0\0\0\x14\0\x90\x01\0\x1e\0\x30\x02\0\x28\0\xd0\x02\0\x32\0\x70\x03\0\x3c\0\x10\x04\0\x46\0\xb0\x04\0\0\x01\x02\x03\x04\x05\x06\x07\x08\x09\x0a\x0b\x0c\x0d\x0e\x0f\0\0\x80\x3f\x01\0\x80\x3f\x02\0\x80\x3f\x03\0\x80\x3f\x04\0\x80\x3f\x05\0\x80\x3f\x06\0\x80\x3f\x07\0\x80\x3f\x08\0\x80\x3f\x09\0\x80\x3f\x0a\0\x80\x3f\x0b\0\x80\x3f\x0c\0\x80\x3f\x0d\0\x80\x3f\x0e\0\x80\x3f\x0f\0\x80\x3f\0\x02\x61\x04\x61\x61\x06\x61\x61\x61\0\x02\x61\x04\x61\x61\x06\x61\x61\x61\0\x02\x61\x04\x61\x61\x06\x61\x61\x61\0\x02\x61\x04\x61\x61\x06\x61\x61\x61\0\0\
\x01\x01\x43\0\x06\0\x0a\0\x0a\0\x04\0\0\0\x10\0\x0a\0\x30\0\x30\x03\0\x36\0\x90\x03\0\x50\0\x50\x05\0\x5a\0\xf0\x05\0\x10\x11\x12\x13\x10\0\x80\x3f\x11\0\x80\x3f\x12\0\x80\x3f\x13\0\x80\x3f\0\x02\x61\x04\x61\x61\x06\x61\x61\x61\
\0\0\x2f\0\x02\0\0\0\0\0\0\0\0\0\0\0\0\0\0\0\0\0\0\0\x20\x04\0\0\0\0\0\0\x10\0\0\0\0\0\0\0\xfc\x04\0\0\0\0\0\0";

const LONGEST_PACKET_TEXT: &str =
    "<e57Root type='Structure'><p type='CompressedVector' fileOffset='1024' recordCount='8191'><prototype type='Structure'><d type='Float'/></prototype></p></e57Root>";

// The header of a section of 65,568 bytes, and the head of a packet with a stream of 65,528 bytes.
const LONGEST_PACKET: &[u8] =
    b"\x01\0\0\0\0\0\0\0\x20\0\x01\0\0\0\0\0\x20\x04\0\0\0\0\0\0\0\0\0\0\0\0\0\0\x01\x01\xff\xff\x01\0\xf8\xff";
