//! Strings of every length up to 40 bytes and longer ones, from streams that are cut into packets in several ways, read into
//! buffers of several sizes.

use crate::cuts::cut;
use crate::made::opened_section;
use crate::reader::{Reader, Shape};
use e57_column::TextsRead;
use std::alloc::{AllocError, Global};
use std::test::Fail;

// How many strings there are.
const COUNT: usize = 123;

// What a buffer of ends holds before a read.
const UNTOUCHED: u64 = 999_999;

// How many bytes string k has. Each length from 0 to 40 comes, and some above, also those about 127, the most with a prefix of
// one byte.
fn length(k: usize) -> usize {
    match k % 30 {
        14 => k / 30 + 126,
        29 => k % COUNT + 100,
        _ => k.wrapping_mul(7) % 41,
    }
}

// Byte j of string k.
fn byte(k: usize, j: usize) -> u8 {
    (k.wrapping_mul(31).wrapping_add(j.wrapping_mul(7)) % 251) as u8
}

// The stream of all strings, each behind its prefix.
fn all_strings(alloc: Global) -> Result<Vec<u8>, AllocError> {
    let mut stream = Vec::new(alloc);
    for k in 0..COUNT {
        add_prefix(&mut stream, length(k))?;
        for j in 0..length(k) {
            stream.push(byte(k, j))?;
        }
    }
    Ok(stream)
}

fn add_prefix(stream: &mut Vec<u8>, length: usize) -> Result<(), AllocError> {
    let doubled = (length as u64).wrapping_mul(2);
    if length < 128 {
        stream.push(doubled as u8)?;
        return Ok(());
    }
    stream.extend_from_slice(&(doubled | 1).to_le_bytes())
}

// How many of the strings from number k on go into so much room and so many places for ends.
fn fitting(k: usize, room: usize, places: usize) -> usize {
    let mut left = room;
    for count in 0..places {
        let i = k.wrapping_add(count);
        let next = length(i);
        if i >= COUNT || next > left {
            return count;
        }
        left -= next;
    }
    places
}

// Whether these are the bytes of string k.
fn is_string(bytes: &[u8], k: usize) -> bool {
    for (j, found) in bytes.iter().enumerate() {
        if *found != byte(k, j) {
            return false;
        }
    }
    bytes.len() == length(k)
}

// Whether so many strings from number k on stand at the front of these buffers, and the ends behind theirs are as they were.
fn are_strings(bytes: &[u8], ends: &[u64], k: usize, count: usize) -> bool {
    let mut begin = 0;
    for (j, end) in ends.iter().enumerate() {
        if j >= count {
            if *end != UNTOUCHED {
                return false;
            }
            continue;
        }
        let string = bytes.get(begin..*end as usize).unwrap_or(b"?");
        if !is_string(string, k.wrapping_add(j)) {
            return false;
        }
        begin = *end as usize;
    }
    true
}

// Whether a read into buffers with so much room gives just the strings that go in, from number k on; it answers their number.
fn reads(reader: &mut Reader, k: usize, room: usize, places: usize) -> Option<usize> {
    let mut bytes = [0; 1024];
    let mut ends = [UNTOUCHED; 8];
    let room = room.min(1024);
    let places = places.min(8);
    let count = fitting(k, room, places);
    let is_longer = count == 0 && places > 0 && k < COUNT;
    let need = is_longer.then_some(length(k) as u64);
    let answer = reader.strings(&mut bytes[..room], &mut ends[..places]);
    let are_so = answer == Ok(TextsRead { count, need }) && are_strings(&bytes, &ends, k, count);
    are_so.then_some(count)
}

// Whether reads into buffers with so much room give all strings from number k on. Where not one goes in, it is read with more
// room.
fn reads_from(reader: &mut Reader, k: usize, room: usize, places: usize) -> bool {
    if reader.go(k as u64) != Ok(()) {
        return false;
    }
    let mut at = k;
    for _ in k..COUNT.wrapping_add(1) {
        let more = match reads(reader, at, room, places) {
            Some(0) => reads(reader, at, 1024, 1),
            count => count,
        };
        let Some(count) = more else {
            return false;
        };
        at = at.wrapping_add(count);
        if at >= COUNT {
            return reads(reader, at, room, places) == Some(0);
        }
    }
    false
}

// The room of the first buffer into which the strings are read wrongly, whose stream is cut after every `size` bytes.
fn wrong_room(alloc: Global, size: usize) -> Result<Option<usize>, Fail> {
    let stream = all_strings(alloc)?;
    let packets = cut(alloc, &stream, size)?;
    let shape = Shape {
        count: COUNT as u64,
        fields: 1,
        field: 0,
        float: None,
    };
    let mut reader = Reader::texts(alloc, opened_section(alloc, 0, &packets, &[])?, shape)?;
    for room in [0, 1, 15, 16, 17, 31, 32, 33, 40, 64, 1000] {
        if !reads_from(&mut reader, 0, room, 8) || !reads_from(&mut reader, 57, room, 3) {
            return Ok(Some(room));
        }
    }
    Ok(None)
}

#[test]
fn every_length_cut_and_room(rt: HostRuntime) -> Result<(), Fail> {
    for size in [0, 1, 2, 3, 8, 15, 16, 17, 18, 33, 34, 100, 10_000] {
        let found = wrong_room(rt.alloc(), size)?;
        assert_eq!(rt; found, None, "pieces of {size} bytes");
    }
    Ok(())
}
