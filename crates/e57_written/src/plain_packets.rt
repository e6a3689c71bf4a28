//! Packets, and the index of their chunks, as the plain program writes them.

use crate::plain_streams::{Kind, stream};
use std::alloc::{AllocError, Global};

/// A field: its number, and what its items are.
pub type Numbered = (u64, Kind);

// The most bytes of a packet.
const MOST: usize = 65_536;

// How many bytes of a packet with these streams are before its padding.
fn size_of(streams: &[Vec<u8>]) -> usize {
    let mut size = streams.len().wrapping_mul(2).wrapping_add(6);
    for bytes in streams {
        size = size.wrapping_add(bytes.len());
    }
    size
}

// A number in two bytes.
fn short(number: usize) -> [u8; 2] {
    let bytes = (number as u64).to_le_bytes();
    [bytes[0], bytes[1]]
}

// A data packet.
fn push_packet(out: &mut Vec<u8>, streams: &[Vec<u8>], first: bool) -> Result<(), AllocError> {
    let whole = size_of(streams).div_ceil(4).wrapping_mul(4);
    let end = out.len().wrapping_add(whole);
    out.push(1)?;
    out.push(if first { 1 } else { 0 })?;
    out.extend_from_slice(&short(whole.wrapping_sub(1)))?;
    out.extend_from_slice(&short(streams.len()))?;
    for bytes in streams {
        out.extend_from_slice(&short(bytes.len()))?;
    }
    for bytes in streams {
        out.extend_from_slice(bytes)?;
    }
    out.resize(end, 0)
}

// A group that is larger than a packet: its bytes, field by field, in runs.
fn pour(
    alloc: Global,
    out: &mut Vec<u8>,
    group: &[Vec<u8>],
    first: bool,
) -> Result<(), AllocError> {
    let room = MOST.wrapping_sub(group.len().wrapping_mul(2).wrapping_add(6));
    let mut is_first = first;
    let mut left = room;
    let mut streams = empty(alloc, group.len())?;
    for (f, bytes) in group.iter().enumerate() {
        for byte in bytes {
            if left == 0 {
                push_packet(out, &streams, is_first)?;
                is_first = false;
                left = room;
                streams = empty(alloc, group.len())?;
            }
            if let Some(stream) = streams.get_mut(f) {
                stream.push(*byte)?;
            }
            left = left.wrapping_sub(1);
        }
    }
    push_packet(out, &streams, is_first)
}

// So many streams of no bytes.
fn empty(alloc: Global, count: usize) -> Result<Vec<Vec<u8>>, AllocError> {
    let mut streams = Vec::new(alloc);
    for _ in 0..count {
        streams.push(Vec::new(alloc))?;
    }
    Ok(streams)
}

// The streams of these records.
fn group_of(
    alloc: Global,
    fields: &[Numbered],
    records: &[u64],
) -> Result<Vec<Vec<u8>>, AllocError> {
    let mut group = Vec::new(alloc);
    for (f, kind) in fields {
        group.push(stream(alloc, *kind, *f, records)?)?;
    }
    Ok(group)
}

// The packets of a chunk.
fn push_chunk(
    alloc: Global,
    out: &mut Vec<u8>,
    fields: &[Numbered],
    records: &[u64],
) -> Result<(), AllocError> {
    let mut run: Option<Vec<Vec<u8>>> = None;
    let mut is_first = true;
    for some in records.chunks(8) {
        let group = group_of(alloc, fields, some)?;
        if let Some(mut streams) = run {
            let more = size_of(&group).wrapping_sub(size_of(&empty(alloc, fields.len())?));
            if size_of(&streams).wrapping_add(more) <= MOST {
                for (f, bytes) in group.iter().enumerate() {
                    if let Some(stream) = streams.get_mut(f) {
                        stream.extend_from_slice(bytes)?;
                    }
                }
                run = Some(streams);
                continue;
            }
            push_packet(out, &streams, is_first)?;
            is_first = false;
        }
        if size_of(&group) <= MOST {
            run = Some(group);
        } else {
            pour(alloc, out, &group, is_first)?;
            is_first = false;
            run = None;
        }
    }
    match run {
        Some(streams) => push_packet(out, &streams, is_first),
        None => Ok(()),
    }
}

// The physical place of a logical one.
fn physical(place: u64) -> u64 {
    (place / 1020).wrapping_mul(1024).wrapping_add(place % 1020)
}

// The packets of one level of an index over these entries, behind a section's bytes from page 1 on; and the entries of the
// level above.
fn push_level(
    alloc: Global,
    out: &mut Vec<u8>,
    page: u64,
    level: u8,
    entries: &[(u64, u64)],
) -> Result<Vec<(u64, u64)>, AllocError> {
    let mut above = Vec::new(alloc);
    for some in entries.chunks(2048) {
        if let Some((first, _)) = some.first() {
            let place = page.wrapping_mul(1020).wrapping_add(out.len() as u64);
            above.push((*first, physical(place)))?;
        }
        let size = some.len().wrapping_mul(16).wrapping_add(16);
        out.extend_from_slice(&[0, 0])?;
        out.extend_from_slice(&short(size.wrapping_sub(1)))?;
        out.extend_from_slice(&short(some.len()))?;
        out.extend_from_slice(&[level, 0, 0, 0, 0, 0, 0, 0, 0, 0])?;
        for (first, place) in some {
            out.extend_from_slice(&first.to_le_bytes())?;
            out.extend_from_slice(&place.to_le_bytes())?;
        }
    }
    Ok(above)
}

/// The section of these fields and records in chunks of `chunk`, from this page on.
pub fn section(
    alloc: Global,
    fields: &[Numbered],
    chunk: usize,
    records: &[u64],
    page: u64,
) -> Result<Vec<u8>, AllocError> {
    let mut out = Vec::new(alloc);
    out.resize(32, 0)?;
    let start = page.wrapping_mul(1020);
    let mut entries = Vec::new(alloc);
    let mut first = 0u64;
    for some in records.chunks(chunk.max(1)) {
        entries.push((first, physical(start.wrapping_add(out.len() as u64))))?;
        push_chunk(alloc, &mut out, fields, some)?;
        first = first.wrapping_add(some.len() as u64);
    }
    for level in 0..4u8 {
        entries = push_level(alloc, &mut out, page, level, &entries)?;
        if entries.len() == 1 {
            break;
        }
    }
    let root = match entries.first() {
        Some((_, place)) => *place,
        None => 0,
    };
    let mut whole = Vec::new(alloc);
    whole.extend_from_slice(&1u64.to_le_bytes())?;
    whole.extend_from_slice(&(out.len() as u64).to_le_bytes())?;
    whole.extend_from_slice(&physical(start.wrapping_add(32)).to_le_bytes())?;
    whole.extend_from_slice(&root.to_le_bytes())?;
    for byte in out.iter().skip(32) {
        whole.push(*byte)?;
    }
    Ok(whole)
}
