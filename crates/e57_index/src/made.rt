//! Files with large indexes, made in memory for tests.

use e57_base::MemSource;
use e57_crc::crc32c;
use e57_page::{Pages, open_file};
use std::alloc::{AllocError, Global};
use std::test::Fail;

// The front of a file: its length is set later.
const FRONT: &[u8; 48] =
    b"ASTM-E57\x01\0\0\0\0\0\0\0\0\0\0\0\0\0\0\0\x40\0\0\0\0\0\0\0\x08\0\0\0\0\0\0\0\0\x04\0\0\0\0\0\0";

// A data packet that begins a chunk: 12 bytes.
const CHUNK: &[u8; 12] = b"\x01\x01\x0b\0\x01\0\x01\0\x15\0\0\0";

/// The place of the section, and that of its first data packet.
pub const SECTION: u64 = 48;

pub const FIRST: u64 = 80;

/// The index packets of a file: of each its level, how many entries it has, and the first entry's record and place with
/// what is added to them from entry to entry.
#[derive(Clone, Copy)]
pub struct Made {
    pub level: u8,
    pub entries: u16,
    pub first: u64,
    pub step: u64,
    pub place: u64,
    pub stride: u64,
}

// The physical offset of a logical place.
fn physical(q: u64) -> u64 {
    (q / 1020).wrapping_mul(1024).wrapping_add(q % 1020)
}

fn add_number(out: &mut Vec<u8>, x: u64) -> Result<(), AllocError> {
    out.extend_from_slice(&x.to_le_bytes())
}

fn add_packet(out: &mut Vec<u8>, made: &Made) -> Result<(), AllocError> {
    let stored = made.entries.wrapping_mul(16).wrapping_add(15);
    out.extend_from_slice(&[0, 0])?;
    out.extend_from_slice(&stored.to_le_bytes())?;
    out.extend_from_slice(&made.entries.to_le_bytes())?;
    out.extend_from_slice(&made.level.to_le_bytes())?;
    out.extend_from_slice(&[0; 9])?;
    let mut record = made.first;
    let mut place = made.place;
    for _ in 0..made.entries {
        add_number(out, record)?;
        add_number(out, physical(place))?;
        record = record.wrapping_add(made.step);
        place = place.wrapping_add(made.stride);
    }
    Ok(())
}

// The logical bytes of a file with so many chunks and these index packets, of which the last one is the root.
fn logical(alloc: Global, chunks: u64, made: &[Made], root: u64) -> Result<Vec<u8>, AllocError> {
    let mut out = FRONT.to_vec(alloc)?;
    add_number(&mut out, 1)?;
    add_number(&mut out, 0)?;
    add_number(&mut out, FIRST)?;
    add_number(&mut out, physical(root))?;
    for _ in 0..chunks {
        out.extend_from_slice(CHUNK.as_slice())?;
    }
    for packet in made {
        add_packet(&mut out, packet)?;
    }
    Ok(out)
}

// Sets eight bytes from one of the first places on.
fn set_number(out: &mut Vec<u8>, at: usize, x: u64) {
    if at < 1000 && out.len() >= 1020 {
        out[at..at + 8].copy_from_slice(&x.to_le_bytes());
    }
}

// The file of these logical bytes, of which the section's header takes all that are behind it.
fn paged(alloc: Global, mut bytes: Vec<u8>) -> Result<Vec<u8>, AllocError> {
    let end = bytes.len();
    bytes.resize((end / 1020).wrapping_add(1).wrapping_mul(1020), 0)?;
    let length = (bytes.len() / 1020) as u64;
    set_number(&mut bytes, 16, length.wrapping_mul(1024));
    set_number(&mut bytes, 56, (end as u64).wrapping_sub(SECTION));
    let count = bytes.len() / 1020;
    let mut out = Vec::new(alloc);
    for n in 0..count {
        let payload = &bytes[1020 * n..1020 * n + 1020];
        out.extend_from_slice(payload)?;
        out.extend_from_slice(&crc32c(payload).to_be_bytes())?;
    }
    Ok(out)
}

/// The open file with so many chunks and these index packets, of which the last one, at place `root`, is the root. One byte
/// of it is changed, if it has the byte.
pub fn made_file(
    alloc: Global,
    chunks: u64,
    made: &[Made],
    root: u64,
    wrong: usize,
) -> Result<Pages<MemSource>, Fail> {
    let mut file = paged(alloc, logical(alloc, chunks, made, root)?)?;
    if wrong < file.len() {
        file[wrong] = 0xa5;
    }
    let mut source = MemSource::new(alloc, 4096)?;
    source.add("a.e57", file)?;
    match open_file("a.e57", source) {
        Ok(pages) => Ok(pages),
        Err((_, fault)) => Err(fault)?,
    }
}
