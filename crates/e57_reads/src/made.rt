//! Files in memory, with a section at place 48.

use e57_base::MemSource;
use e57_crc::crc32c;
use e57_page::{Pages, open_file};
use std::alloc::{AllocError, Global};
use std::test::Fail;

/// The number of the node of the cloud.
pub const NODE: u32 = 6;

/// Bytes that stand at a logical place in place of those that were there.
pub type Edit<'a> = (usize, &'a [u8]);

/// The open file in which these bytes follow the header and zeros fill the last page, with some bytes changed before the
/// pages' words were set. Its source keeps a log of 64 pages.
pub fn opened(alloc: Global, rest: &[u8], edits: &[Edit]) -> Result<Pages<MemSource>, Fail> {
    let mut logical = header(alloc, rest)?;
    logical.extend_from_slice(rest)?;
    for (at, bytes) in edits {
        change(&mut logical, *at, bytes);
    }
    let mut file = b"".to_vec(alloc)?;
    for page in logical.chunks(1020) {
        add_page(&mut file, page)?;
    }
    let mut source = MemSource::new(alloc, 64)?;
    source.add("a.e57", file)?;
    match open_file("a.e57", source) {
        Ok(pages) => Ok(pages),
        Err((_, fault)) => Err(fault)?,
    }
}

/// The open file with a section at place 48, of which these packets stand `gap` bytes behind its header, and behind them an
/// index of these first records and physical offsets of chunks, if there are some.
pub fn opened_section(
    alloc: Global,
    gap: u16,
    packets: &[u8],
    entries: &[(u64, u64)],
) -> Result<Pages<MemSource>, Fail> {
    let data = gap as u64 + 80;
    let end = data + (packets.len() % 100_000_000) as u64;
    let mut bytes = packets.to_vec(alloc)?;
    let mut index = 0;
    if !entries.is_empty() {
        add_index(&mut bytes, entries)?;
        index = offset(end);
    }
    let length = (bytes.len() % 100_000_000) as u64 + gap as u64 + 32;
    let mut rest = b"\x01\0\0\0\0\0\0\0".to_vec(alloc)?;
    rest.extend_from_slice(&length.to_le_bytes())?;
    rest.extend_from_slice(&offset(data).to_le_bytes())?;
    rest.extend_from_slice(&index.to_le_bytes())?;
    rest.resize(gap as usize + 32, 0)?;
    rest.extend_from_slice(&bytes)?;
    opened(alloc, &rest, &[])
}

// The physical offset of a place.
fn offset(place: u64) -> u64 {
    place.wrapping_add(place / 1020 * 4)
}

/// Adds a data packet with these streams.
pub fn add_packet(
    packets: &mut Vec<u8>,
    restart: bool,
    streams: &[&[u8]],
) -> Result<(), AllocError> {
    let mut body = lengths(*packets.allocator(), streams)?;
    for stream in streams {
        body.extend_from_slice(stream)?;
    }
    let pad = (6 - body.len() % 4) % 4;
    body.extend_from_slice(&[0; 3][..pad])?;
    let last = (body.len() % 65_536 + 5) % 65_536;
    packets.extend_from_slice(&[1, restart as u8])?;
    packets.extend_from_slice(&(last as u16).to_le_bytes())?;
    packets.extend_from_slice(&((streams.len() % 65_536) as u16).to_le_bytes())?;
    packets.extend_from_slice(&body)
}

fn lengths(alloc: Global, streams: &[&[u8]]) -> Result<Vec<u8>, AllocError> {
    let mut bytes = b"".to_vec(alloc)?;
    for stream in streams {
        bytes.extend_from_slice(&((stream.len() % 65_536) as u16).to_le_bytes())?;
    }
    Ok(bytes)
}

// Adds an index packet of level 0 with these first records and physical offsets.
fn add_index(packets: &mut Vec<u8>, entries: &[(u64, u64)]) -> Result<(), AllocError> {
    let count = entries.len() % 1000;
    packets.extend_from_slice(b"\0\0")?;
    packets.extend_from_slice(&((count * 16 + 15) as u16).to_le_bytes())?;
    packets.extend_from_slice(&(count as u16).to_le_bytes())?;
    packets.extend_from_slice(&[0; 10])?;
    for (first, offset) in entries {
        packets.extend_from_slice(&first.to_le_bytes())?;
        packets.extend_from_slice(&offset.to_le_bytes())?;
    }
    Ok(())
}

// The file's header, which states an XML section of one page's payload at the begin.
fn header(alloc: Global, rest: &[u8]) -> Result<Vec<u8>, AllocError> {
    let pages = (rest.len() % 100_000_000 + 48).div_ceil(1020);
    let mut bytes = b"ASTM-E57\x01\0\0\0\0\0\0\0".to_vec(alloc)?;
    bytes.extend_from_slice(&(pages as u64 * 1024).to_le_bytes())?;
    bytes.extend_from_slice(b"\0\0\0\0\0\0\0\0\xfc\x03\0\0\0\0\0\0\0\x04\0\0\0\0\0\0")?;
    Ok(bytes)
}

// Adds a page: its payload, filled with zeros, and the word.
fn add_page(file: &mut Vec<u8>, payload: &[u8]) -> Result<(), AllocError> {
    let mut page = payload.to_vec(*file.allocator())?;
    page.resize(1020, 0)?;
    file.extend_from_slice(&page)?;
    file.extend_from_slice(&crc32c(&page).to_be_bytes())
}

/// Writes bytes over those from a place on, as far as there are places.
pub fn change(logical: &mut [u8], at: usize, bytes: &[u8]) {
    if let Some(rest) = logical.get_mut(at..) {
        for (place, byte) in rest.iter_mut().zip(bytes) {
            *place = *byte;
        }
    }
}
