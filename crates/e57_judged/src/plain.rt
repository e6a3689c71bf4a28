//! A slow plain program that judges a file with one cloud, as the verdict is defined. It holds all logical bytes, all
//! packets and all streams, and looks at items bit by bit. Of the project's code it calls the checksum alone.

use crate::plain_chunks::{cut, number_by_counting, number_by_index, read_packets};
use crate::plain_index::read_index;
use crate::plain_items::judge_field;
use e57_crc::crc32c;
use std::alloc::{AllocError, AllocFailed, Global};

/// What the items of a field are.
#[derive(Clone, Copy)]
pub enum Kind {
    /// Integers from the first number to the second.
    Integer(i64, i64),
    /// Numbers of so many bytes.
    Float(u64),
    String,
}

/// A field: the number of its node, and what its items are.
pub type Field = (u64, Kind);

/// The cloud of a file, as the element tree states it.
#[derive(Clone, Copy)]
pub struct Cloud<'a> {
    pub node: u64,
    pub offset: u64,
    pub count: u64,
    pub fields: &'a [Field],
}

/// Why the program stopped.
#[derive(Clone, Copy)]
pub enum Stop {
    /// The first fault: its kind and its two numbers.
    Fault(&'static str, u64, u64),
    Memory,
    /// It looked for bytes or took turns that there can't be.
    Lost,
}

impl From<AllocError> for Stop {
    fn from(_: AllocError) -> Stop {
        Stop::Memory
    }
}

impl<T: Drop> From<AllocFailed<T>> for Stop {
    fn from(_: AllocFailed<T>) -> Stop {
        Stop::Memory
    }
}

/// The number of records of a file that is accepted, or why it isn't. The caller knows that its element tree has no fault and
/// has this cloud.
pub fn judge(alloc: Global, file: &[u8], cloud: &Cloud) -> Result<u64, Stop> {
    judge_length(file)?;
    judge_header(file)?;
    judge_pages(file)?;
    let logical = logical_bytes(alloc, file)?;
    judge_xml_place(file, &logical)?;
    if cloud.count > 0 {
        judge_cloud(alloc, &logical, cloud)?;
    }
    Ok(cloud.count)
}

// ---- numbers, places

pub fn refuse_if(test: bool, kind: &'static str, a: u64, b: u64) -> Result<(), Stop> {
    if test {
        return Err(Stop::Fault(kind, a, b));
    }
    Ok(())
}

pub fn sum(a: u64, b: u64) -> Result<u64, Stop> {
    a.checked_add(b).ok_or(Stop::Lost)
}

pub fn product(a: u64, b: u64) -> Result<u64, Stop> {
    a.checked_mul(b).ok_or(Stop::Lost)
}

// The number in so many bytes from a place on, the least significant byte first.
pub fn number(bytes: &[u8], at: u64, size: u64) -> Result<u64, Stop> {
    let mut value = 0;
    for k in (0..size).rev() {
        let byte = bytes.get(sum(at, k)? as usize).ok_or(Stop::Lost)?;
        value = sum(product(value, 256)?, *byte as u64)?;
    }
    Ok(value)
}

// The logical place of a physical offset. The four bytes of a page's word have none.
pub fn place(offset: u64) -> Option<u64> {
    if offset % 1024 < 1020 {
        (offset / 1024)
            .checked_mul(1020)?
            .checked_add(offset % 1024)
    } else {
        None
    }
}

// So many bytes from a place on end at a place up to this one.
pub fn fits(at: u64, size: u64, end: u64) -> bool {
    match at.checked_add(size) {
        Some(behind) => behind <= end,
        None => false,
    }
}

// ---- length, header, pages, XML section

fn judge_length(file: &[u8]) -> Result<(), Stop> {
    let length = file.len() as u64;
    let wrong = length == 0 || length % 1024 != 0 || length > 1 << 48;
    refuse_if(wrong, "FileLength", length, 0)
}

fn judge_header(file: &[u8]) -> Result<(), Stop> {
    refuse_if(!file.starts_with(b"ASTM-E57"), "Signature", 0, 0)?;
    let (major, minor) = (number(file, 8, 4)?, number(file, 12, 4)?);
    refuse_if(major != 1 || minor != 0, "Version", major, minor)?;
    let length = file.len() as u64;
    let stated = number(file, 16, 8)?;
    refuse_if(stated != length, "FileLength", length, stated)?;
    let page_size = number(file, 40, 8)?;
    refuse_if(page_size != 1024, "PageSize", page_size, 0)
}

// The last four bytes of each page are the checksum of the others, in one byte order or the other.
fn judge_pages(file: &[u8]) -> Result<(), Stop> {
    for (n, page) in file.chunks(1024).enumerate() {
        let payload = page.get(..1020).ok_or(Stop::Lost)?;
        let word = page.get(1020..).ok_or(Stop::Lost)?;
        let checksum = crc32c(payload);
        let right = word == checksum.to_be_bytes().as_slice()
            || word == checksum.to_le_bytes().as_slice();
        refuse_if(!right, "Page", n as u64, 0)?;
    }
    Ok(())
}

// The first 1020 bytes of each page, one after another.
fn logical_bytes(alloc: Global, file: &[u8]) -> Result<Vec<u8>, Stop> {
    let mut logical = Vec::new(alloc);
    for page in file.chunks(1024) {
        logical.extend_from_slice(page.get(..1020).ok_or(Stop::Lost)?)?;
    }
    Ok(logical)
}

fn judge_xml_place(file: &[u8], logical: &[u8]) -> Result<(), Stop> {
    let (offset, length) = (number(file, 24, 8)?, number(file, 32, 8)?);
    let lies = match place(offset) {
        Some(start) => fits(start, length, logical.len() as u64),
        None => false,
    };
    refuse_if(!lies, "XmlPlace", offset, length)?;
    refuse_if(length > 1 << 26, "XmlLimit", length, 1 << 26)
}

// ---- the cloud

// All are logical places but `index`, which is the physical offset that the header states.
#[derive(Clone, Copy)]
pub struct Section {
    pub node: u64,
    pub fields: u64,
    pub count: u64,
    pub start: u64,
    pub end: u64,
    pub data: u64,
    pub index: u64,
}

fn judge_cloud(alloc: Global, logical: &[u8], cloud: &Cloud) -> Result<(), Stop> {
    let section = read_section(logical, cloud)?;
    let mut entries = Vec::new(alloc);
    if section.index != 0 {
        entries = read_index(alloc, logical, &section)?;
    }
    let packets = read_packets(alloc, logical, &section)?;
    let mut chunks = cut(alloc, &packets, section.fields)?;
    if section.index != 0 {
        number_by_index(&section, &entries, &mut chunks)?;
    } else {
        number_by_counting(&section, cloud.fields, &mut chunks)?;
    }
    for (f, (node, kind)) in cloud.fields.iter().enumerate() {
        judge_field(f, *node, *kind, section.count, &chunks)?;
    }
    Ok(())
}

fn read_section(logical: &[u8], cloud: &Cloud) -> Result<Section, Stop> {
    let (node, offset) = (cloud.node, cloud.offset);
    let size = logical.len() as u64;
    let nowhere = Stop::Fault("SectionPlace", node, offset);
    let start = place(offset).ok_or(nowhere)?;
    refuse_if(!fits(start, 32, size), "SectionPlace", node, offset)?;
    let length = number(logical, sum(start, 8)?, 8)?;
    let lies = length >= 32 && fits(start, length, size);
    refuse_if(!lies, "SectionPlace", node, offset)?;
    let id = number(logical, start, 1)?;
    refuse_if(id != 1, "SectionId", node, id)?;
    let end = sum(start, length)?;
    let stated = number(logical, sum(start, 16)?, 8)?;
    let outside = Stop::Fault("DataPlace", node, stated);
    let data = place(stated).ok_or(outside)?;
    let within = sum(start, 32)? <= data && data <= end;
    refuse_if(!within, "DataPlace", node, stated)?;
    Ok(Section {
        node,
        fields: cloud.fields.len() as u64,
        count: cloud.count,
        start,
        end,
        data,
        index: number(logical, sum(start, 24)?, 8)?,
    })
}
