//! A slow plain program that writes a file of clouds and blobs in the written form. Of the code that is tested it shares the
//! checksum alone.

use crate::plain_packets::{Numbered, section};
use crate::plain_streams::Kind;
use e57_samples::files::{WordOrder, file, header};
use std::alloc::{AllocError, Global};

/// What a file holds.
#[derive(Clone, Copy)]
pub enum Thing<'a> {
    /// A cloud of so many records with these fields.
    Cloud(&'a [Kind], u64),
    /// Of such a cloud these fields and these records alone, by their numbers.
    Part(&'a [Kind], &'a [usize], &'a [u64]),
    /// A blob of so many bytes.
    Blob(u64),
}

/// The least and the greatest value of integers of so many bits.
pub fn limits(width: u64) -> (i64, i64) {
    match width {
        0 => (7, 7),
        64 => (i64::MIN, i64::MAX),
        _ => {
            let most = i64::MAX >> (63u64.wrapping_sub(width) % 64);
            (-3, most.wrapping_sub(3))
        }
    }
}

// The element of field f.
fn push_field(alloc: Global, text: &mut String, f: u64, kind: Kind) -> Result<(), AllocError> {
    let element = match kind {
        Kind::Bits(width) => {
            let (low, high) = limits(width);
            format!(in alloc; "<f{f} type=\"Integer\" minimum=\"{low}\" maximum=\"{high}\"/>")?
        }
        Kind::Bytes(4) => format!(in alloc; "<f{f} type=\"Float\" precision=\"single\"/>")?,
        Kind::Bytes(_) => format!(in alloc; "<f{f} type=\"Float\"/>")?,
        Kind::Texts(_) => format!(in alloc; "<f{f} type=\"String\"/>")?,
    };
    text.push_str(element.as_str())
}

// The element of a cloud, thing k.
fn push_cloud(
    alloc: Global,
    text: &mut String,
    k: usize,
    fields: &[Numbered],
    count: usize,
    offset: u64,
) -> Result<(), AllocError> {
    let head = format!(in alloc;
        "<t{k} type=\"CompressedVector\" fileOffset=\"{offset}\" recordCount=\"{count}\"><prototype type=\"Structure\">"
    )?;
    text.push_str(head.as_str())?;
    for (f, kind) in fields {
        push_field(alloc, text, *f, *kind)?;
    }
    let end = format!(in alloc; "</prototype></t{k}>")?;
    text.push_str(end.as_str())
}

// The section of a cloud, from this page on; none of one without records.
fn cloud_section(
    alloc: Global,
    fields: &[Numbered],
    chunk: u64,
    records: &[u64],
    page: u64,
) -> Result<Vec<u8>, AllocError> {
    if records.is_empty() {
        return Ok(Vec::new(alloc));
    }
    section(alloc, fields, chunk as usize, records, page)
}

// The section of a blob.
fn blob_section(alloc: Global, length: u64) -> Result<Vec<u8>, AllocError> {
    let mut bytes = Vec::new(alloc);
    bytes.resize(8, 0)?;
    let words = length.div_ceil(4).wrapping_mul(4);
    bytes.extend_from_slice(&words.wrapping_add(16).to_le_bytes())?;
    for j in 0..length {
        bytes.push((j.wrapping_mul(7) % 256) as u8)?;
    }
    Ok(bytes)
}

// The fields of a cloud with these numbers.
fn some_fields(
    alloc: Global,
    kinds: &[Kind],
    fields: &[usize],
) -> Result<Vec<Numbered>, AllocError> {
    let mut some = Vec::new(alloc);
    for f in fields {
        if let Some(kind) = kinds.get(*f) {
            some.push((*f as u64, *kind))?;
        }
    }
    Ok(some)
}

// All fields of a cloud.
fn all_fields(alloc: Global, kinds: &[Kind]) -> Result<Vec<Numbered>, AllocError> {
    let mut all = Vec::new(alloc);
    for (f, kind) in kinds.iter().enumerate() {
        all.push((f as u64, *kind))?;
    }
    Ok(all)
}

// The numbers of so many records.
fn all_records(alloc: Global, count: u64) -> Result<Vec<u64>, AllocError> {
    let mut all = Vec::new(alloc);
    for i in 0..count {
        all.push(i)?;
    }
    Ok(all)
}

// The physical place of a section, or 0 if there is none.
fn offset_of(section: &[u8], page: u64) -> u64 {
    if section.is_empty() {
        0
    } else {
        page.wrapping_mul(1024)
    }
}

// Puts thing k behind the text, and gives its section, from this page on.
fn push_thing(
    alloc: Global,
    text: &mut String,
    k: usize,
    thing: Thing<'_>,
    chunk: u64,
    page: u64,
) -> Result<Vec<u8>, AllocError> {
    let (fields, records) = match thing {
        Thing::Cloud(kinds, count) => (all_fields(alloc, kinds)?, all_records(alloc, count)?),
        Thing::Part(kinds, fields, records) => {
            (some_fields(alloc, kinds, fields)?, records.to_vec(alloc)?)
        }
        Thing::Blob(length) => {
            let bytes = blob_section(alloc, length)?;
            let offset = offset_of(&bytes, page);
            let element = format!(in alloc;
                "<t{k} type=\"Blob\" fileOffset=\"{offset}\" length=\"{length}\"/>"
            )?;
            text.push_str(element.as_str())?;
            return Ok(bytes);
        }
    };
    let bytes = cloud_section(alloc, &fields, chunk, &records, page)?;
    push_cloud(
        alloc,
        text,
        k,
        &fields,
        records.len(),
        offset_of(&bytes, page),
    )?;
    Ok(bytes)
}

/// The file of these things, its clouds in chunks of so many records.
pub fn written(alloc: Global, things: &[Thing<'_>], chunk: u64) -> Result<Vec<u8>, AllocError> {
    let mut sections = Vec::new(alloc);
    let mut page = 1u64;
    let mut text = String::new(alloc);
    text.push_str("<?xml version=\"1.0\" encoding=\"UTF-8\"?>\n<e57Root type=\"Structure\"")?;
    text.push_str(if things.is_empty() { "/>" } else { ">" })?;
    for (k, thing) in things.iter().enumerate() {
        let bytes = push_thing(alloc, &mut text, k, *thing, chunk, page)?;
        sections.extend_from_slice(&bytes)?;
        let pages = sections.len().div_ceil(1020);
        sections.resize(pages.wrapping_mul(1020), 0)?;
        page = (pages as u64).wrapping_add(1);
    }
    if !things.is_empty() {
        text.push_str("</e57Root>")?;
    }
    let text_pages = text.len().div_ceil(1020) as u64;
    let place = page.wrapping_mul(1024);
    let mut logical = header(
        alloc,
        page.wrapping_add(text_pages),
        place,
        text.len() as u64,
    )?;
    logical.resize(1020, 0)?;
    logical.extend_from_slice(&sections)?;
    logical.extend_from_slice(text.as_str().as_bytes())?;
    file(alloc, &logical, WordOrder::MostSignificantFirst)
}
