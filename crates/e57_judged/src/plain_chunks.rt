//! The packets of a section and its chunks, as the plain program reads them.

use crate::plain::{Field, Kind, Section, Stop, fits, number, place, product, refuse_if, sum};
use crate::plain_index::Entry;
use std::alloc::Global;

// A data packet.
#[derive(Drop)]
pub struct Packet {
    pub place: u64,
    pub restart: bool,
    pub streams: Vec<Vec<u8>>,
}

// The data packets of a section, one after another.
pub fn read_packets(alloc: Global, logical: &[u8], section: &Section) -> Result<Vec<Packet>, Stop> {
    let node = section.node;
    let mut packets = Vec::new(alloc);
    let mut at = section.data;
    for _ in 0..=logical.len() {
        if !fits(at, 4, section.end) {
            return Ok(packets);
        }
        let sort = number(logical, at, 1)?;
        refuse_if(sort > 2, "PacketType", node, at)?;
        let length = sum(number(logical, sum(at, 2)?, 2)?, 1)?;
        let lies = length % 4 == 0 && fits(at, length, section.end);
        refuse_if(!lies, "PacketLength", node, at)?;
        if sort == 1 {
            packets.push(read_data(alloc, logical, section, at, length)?)?;
        }
        at = sum(at, length)?;
    }
    Err(Stop::Lost)
}

fn read_data(
    alloc: Global,
    logical: &[u8],
    section: &Section,
    at: u64,
    length: u64,
) -> Result<Packet, Stop> {
    let (node, fields) = (section.node, section.fields);
    refuse_if(length < 6, "DataShape", node, at)?;
    let count = number(logical, sum(at, 4)?, 2)?;
    refuse_if(count != fields, "DataShape", node, at)?;
    let mut from = sum(6, product(2, fields)?)?;
    refuse_if(from > length, "DataShape", node, at)?;
    let mut streams = Vec::new(alloc);
    for f in 0..fields {
        let stated = sum(at, sum(6, product(2, f)?)?)?;
        let size = number(logical, stated, 2)?;
        refuse_if(!fits(from, size, length), "DataShape", node, at)?;
        let begin = sum(at, from)?;
        let end = sum(begin, size)?;
        let stream = logical.get(begin as usize..end as usize);
        streams.push(stream.ok_or(Stop::Lost)?.to_vec(alloc)?)?;
        from = sum(from, size)?;
    }
    Ok(Packet {
        place: at,
        restart: number(logical, sum(at, 1)?, 1)? % 2 == 1,
        streams,
    })
}

// A chunk: the place of its first packet, if it has one, its first record, and the whole stream of each field.
#[derive(Drop)]
pub struct Chunk {
    pub place: Option<u64>,
    pub first: u64,
    pub streams: Vec<Vec<u8>>,
}

fn new_chunk(alloc: Global, place: Option<u64>, fields: u64) -> Result<Chunk, Stop> {
    let mut streams = Vec::new(alloc);
    for _ in 0..fields {
        streams.push(Vec::new(alloc))?;
    }
    Ok(Chunk {
        place,
        first: 0,
        streams,
    })
}

// The packets are cut before each one with restart. Without packets there is one chunk, which has no place.
pub fn cut(alloc: Global, packets: &[Packet], fields: u64) -> Result<Vec<Chunk>, Stop> {
    let mut chunks = Vec::new(alloc);
    let mut chunk = new_chunk(alloc, None, fields)?;
    for packet in packets {
        if chunk.place.is_none() {
            chunk.place = Some(packet.place);
        } else if packet.restart {
            chunks.push(chunk)?;
            chunk = new_chunk(alloc, Some(packet.place), fields)?;
        }
        for (stream, more) in chunk.streams.iter_mut().zip(&packet.streams) {
            stream.extend_from_slice(more)?;
        }
    }
    chunks.push(chunk)?;
    Ok(chunks)
}

// Entry j has the first record and the place of chunk j.
pub fn number_by_index(
    section: &Section,
    entries: &[Entry],
    chunks: &mut [Chunk],
) -> Result<(), Stop> {
    let node = section.node;
    for j in 0..entries.len().max(chunks.len()) {
        let entry = entries.get(j);
        let start = chunks.get(j).and_then(|chunk| chunk.place);
        let named = entry.and_then(|entry| place(entry.offset));
        if named == start {
            if let (Some(chunk), Some(entry)) = (chunks.get_mut(j), entry) {
                chunk.first = entry.first;
            }
            continue;
        }
        match (named, start) {
            (None, Some(q)) if j > 0 => return Err(Stop::Fault("RestartUnindexed", node, q)),
            (Some(at), Some(q)) if j > 0 && at > q => {
                return Err(Stop::Fault("RestartUnindexed", node, q));
            }
            _ => {
                let record = entry.ok_or(Stop::Lost)?.first;
                return Err(Stop::Fault("IndexTarget", node, record));
            }
        }
    }
    Ok(())
}

// Without an index the whole items of the first Float field tell how many records each chunk before the last one has.
pub fn number_by_counting(
    section: &Section,
    fields: &[Field],
    chunks: &mut [Chunk],
) -> Result<(), Stop> {
    let mut first = 0;
    for j in 1..chunks.len() {
        let items = match chunks.get(j.wrapping_sub(1)) {
            Some(before) => float_items(fields, before),
            None => return Err(Stop::Lost),
        };
        let chunk = chunks.get_mut(j).ok_or(Stop::Lost)?;
        let start = chunk.place.ok_or(Stop::Lost)?;
        first = sum(first, items)?;
        let told = items > 0 && first < section.count;
        refuse_if(!told, "RestartUnindexed", section.node, start)?;
        chunk.first = first;
    }
    Ok(())
}

// How many whole items the first Float field has in a chunk, 0 where no field is one.
fn float_items(fields: &[Field], chunk: &Chunk) -> u64 {
    for ((_, kind), stream) in fields.iter().zip(&chunk.streams) {
        if let Kind::Float(bytes) = kind {
            return (stream.len() as u64).checked_div(*bytes).unwrap_or(0);
        }
    }
    0
}
