//! The index of a section, as the plain program reads it.

use crate::plain::{Section, Stop, fits, number, place, product, refuse_if, sum};
use std::alloc::Global;

// What leads to a chunk, where its height is 0, or to an index packet of one level less: the first record that it names, the
// physical offset, and the record that all of it comes before.
#[derive(Clone, Copy)]
pub struct Entry {
    pub height: u64,
    pub first: u64,
    pub offset: u64,
    pub bound: u64,
}

// The entries of height 0 of the index, by a depth-first walk: what is to be looked at next is at the end of `left`.
pub fn read_index(alloc: Global, logical: &[u8], section: &Section) -> Result<Vec<Entry>, Stop> {
    let mut left = Vec::new(alloc);
    left.push(root(logical, section)?)?;
    let mut entries = Vec::new(alloc);
    for _ in 0..1_000_000 {
        let Some(entry) = left.pop() else {
            return Ok(entries);
        };
        if entry.height == 0 {
            judge_target(logical, section, &entry)?;
            entries.push(entry)?;
        } else {
            let below = read_index_packet(alloc, logical, section, &entry)?;
            for child in below.iter().rev() {
                left.push(*child)?;
            }
        }
    }
    Err(Stop::Lost)
}

// What leads to the root: its packet has any level up to 5.
fn root(logical: &[u8], section: &Section) -> Result<Entry, Stop> {
    let at = index_place(section, section.index)?;
    let level = number(logical, sum(at, 6)?, 1)?;
    refuse_if(level > 5, "IndexShape", section.node, section.index)?;
    Ok(Entry {
        height: sum(level, 1)?,
        first: 0,
        offset: section.index,
        bound: section.count,
    })
}

// The place of an index packet: 16 bytes of the section after its header stand there.
fn index_place(section: &Section, offset: u64) -> Result<u64, Stop> {
    let nowhere = Stop::Fault("IndexShape", section.node, offset);
    let at = place(offset).ok_or(nowhere)?;
    let within = sum(section.start, 32)? <= at && fits(at, 16, section.end);
    refuse_if(!within, "IndexShape", section.node, offset)?;
    Ok(at)
}

// The entries of the packet that an entry leads to.
fn read_index_packet(
    alloc: Global,
    logical: &[u8],
    section: &Section,
    parent: &Entry,
) -> Result<Vec<Entry>, Stop> {
    let at = index_place(section, parent.offset)?;
    let length = sum(number(logical, sum(at, 2)?, 2)?, 1)?;
    let count = number(logical, sum(at, 4)?, 2)?;
    let level = number(logical, sum(at, 6)?, 1)?;
    let right = number(logical, at, 1)? == 0
        && length % 4 == 0
        && fits(at, length, section.end)
        && count > 0
        && count <= 2048
        && sum(16, product(16, count)?)? <= length
        && sum(level, 1)? == parent.height;
    refuse_if(!right, "IndexShape", section.node, parent.offset)?;
    let mut entries = Vec::new(alloc);
    for k in 0..count {
        let from = sum(at, sum(16, product(16, k)?)?)?;
        let bound = if sum(k, 1)? < count {
            number(logical, sum(from, 16)?, 8)?
        } else {
            parent.bound
        };
        let first = number(logical, from, 8)?;
        let ordered = first < bound && (k > 0 || first == parent.first);
        refuse_if(!ordered, "IndexOrder", section.node, parent.offset)?;
        entries.push(Entry {
            height: level,
            first,
            offset: number(logical, sum(from, 8)?, 8)?,
            bound,
        })?;
    }
    Ok(entries)
}

// Four bytes of the data stand where the entry says, those of a data packet, with restart but for record 0.
fn judge_target(logical: &[u8], section: &Section, entry: &Entry) -> Result<(), Stop> {
    let fault = Stop::Fault("IndexTarget", section.node, entry.first);
    let at = place(entry.offset).ok_or(fault)?;
    if at < section.data || !fits(at, 4, section.end) {
        return Err(fault);
    }
    let restart = number(logical, sum(at, 1)?, 1)? % 2 == 1;
    if number(logical, at, 1)? != 1 || !restart && entry.first != 0 {
        return Err(fault);
    }
    Ok(())
}
