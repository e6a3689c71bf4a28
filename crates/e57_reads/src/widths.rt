//! Integers of every width, from streams that are cut into packets in every way, read into buffers of several sizes.

use crate::cuts::{cut, mixed};
use crate::made::opened_section;
use crate::reader::{Reader, Shape};
use std::alloc::{AllocError, Global};
use std::test::Fail;

// What a buffer holds before a read.
const UNTOUCHED: i64 = 0x5eee_dddd_cccc_bbbb;

// Whether bit t of a stream is 1, bit 0 of a byte being the least significant.
fn bit(stream: &[u8], t: usize) -> bool {
    let byte = *stream.get(t / 8).unwrap_or(&0);
    byte >> (t % 8) & 1 == 1
}

// The integers of a stream: item k is `low` and the number in the `width` bits from bit `k * width` on, the least significant
// first.
fn items(
    alloc: Global,
    stream: &[u8],
    low: i64,
    width: u8,
    count: usize,
) -> Result<Vec<i64>, AllocError> {
    let mut items = Vec::new(alloc);
    for k in 0..count {
        let first = k.wrapping_mul(width as usize);
        items.push(item(stream, low, width, first))?;
    }
    Ok(items)
}

fn item(stream: &[u8], low: i64, width: u8, first: usize) -> i64 {
    let mut number = 0u64;
    for j in 0..64u8 {
        if j < width && bit(stream, first.wrapping_add(j as usize)) {
            number |= 1 << j;
        }
    }
    low.wrapping_add_unsigned(number)
}

// Whether these integers stand at the front of a buffer, and the places behind them are as they were.
fn is_filled(out: &[i64], wanted: &[i64]) -> bool {
    for (k, item) in out.iter().enumerate() {
        if *item != *wanted.get(k).unwrap_or(&UNTOUCHED) {
            return false;
        }
    }
    true
}

// Whether a read into this buffer gives just these integers.
fn reads(reader: &mut Reader, wanted: &[i64], out: &mut [i64]) -> bool {
    out.fill(UNTOUCHED);
    let answer = reader.ints(out);
    answer == Ok(wanted.len()) && is_filled(out, wanted)
}

// Whether reads into this buffer give just these integers from record `i` on, and then none.
fn reads_from(reader: &mut Reader, i: usize, wanted: &[i64], out: &mut [i64]) -> bool {
    if out.is_empty() || reader.go(i as u64) != Ok(()) || !reader.stands_behind(i as u64, 0) {
        return false;
    }
    for part in wanted.chunks(out.len()) {
        if !reads(reader, part, out) {
            return false;
        }
    }
    reads(reader, &[], out)
}

// The size of the first buffer of which reads of all records, or of those from record `middle` on, are wrong.
fn wrong_size(reader: &mut Reader, wanted: &[i64], middle: usize) -> Option<usize> {
    let rest = wanted.get(middle..).unwrap_or(&[]);
    let mut out = [UNTOUCHED; 1024];
    for places in [1, 7, 8, 1024] {
        let out = &mut out[..places];
        if !reads_from(reader, 0, wanted, out) || !reads_from(reader, middle, rest, out) {
            return Some(places);
        }
    }
    None
}

// The size of the first buffer that is filled wrongly with `count` integers of `width` bits, whose stream is cut after every
// `size` bytes.
fn wrong(alloc: Global, width: u8, size: usize, count: u16) -> Result<Option<usize>, Fail> {
    if width == 0 || width > 64 {
        return Ok(Some(0));
    }
    let low = i64::MIN >> (64 - width);
    let high = i64::MAX >> (64 - width);
    let stream = mixed(alloc, (count as usize * width as usize).div_ceil(8))?;
    let packets = cut(alloc, &stream, size)?;
    let pages = opened_section(alloc, 0, &packets, &[])?;
    let shape = Shape {
        count: count as u64,
        fields: 1,
        field: 0,
        float: None,
    };
    let mut reader = Reader::numbers(alloc, pages, shape, low, high, width)?;
    let wanted = items(alloc, &stream, low, width, count as usize)?;
    Ok(wrong_size(&mut reader, &wanted, (count as usize / 2).saturating_sub(3)))
}

// Of each width that doesn't divide 8 some items are cut by a packet's end.
#[test]
fn every_width_cut_and_buffer(rt: HostRuntime) -> Result<(), Fail> {
    for width in 1..65u8 {
        for size in 0..10usize {
            let found = wrong(rt.alloc(), width, size, 60)?;
            assert_eq!(rt; found, None, "{width} bits, pieces of {size} bytes");
        }
    }
    Ok(())
}

#[test]
fn more_records_than_a_buffer_has_places(rt: HostRuntime) -> Result<(), Fail> {
    for width in 1..65u8 {
        for size in [0, 1, 2, 3, 4, 5, 6, 7, 8, 9, 1000] {
            let found = wrong(rt.alloc(), width, size, 1100)?;
            assert_eq!(rt; found, None, "{width} bits, pieces of {size} bytes");
        }
    }
    Ok(())
}
