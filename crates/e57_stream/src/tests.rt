//! Streams over the packets of files made in memory, against the plain definition of their items.

ghost use Rattle.std.specs.Prelude.{◌≡◌, ◌≤ℤ◌, true, IfSome};
ghost use Rattle.std.specs.Int.{int_gap};
ghost use Rattle.e57_stream.specs.Integers.{IsRange};

use crate::{
    Bytestream, Chunk, Integers, Stopped, Window, read_integers, read_words32, read_words64,
};
use e57_base::{Fault, Kind, MemSource, ReadFault};
use e57_crc::crc32c;
use e57_layout::Section;
use e57_page::{Pages, open_file};
use e57_section::{Packet, open_section};
use std::alloc::{AllocError, Global};
use std::test::Fail;

/// A file's header up to the file's length.
const SIGNATURE: &[u8] = b"ASTM-E57\x01\0\0\0\0\0\0\0";

/// The rest of it: the place and length of the XML section, the length of a page.
const REST: &[u8] = b"\x40\0\0\0\0\0\0\0\x08\0\0\0\0\0\0\0\0\x04\0\0\0\0\0\0";

/// The section's header, from place 48 on, up to the section's length.
const SECTION: &[u8] = b"\x01\0\0\0\0\0\0\0";

/// The rest of it: the place of the data, and no index.
const PLACES: &[u8] = b"\x50\0\0\0\0\0\0\0\0\0\0\0\0\0\0\0";

/// What a buffer holds before a read.
const UNTOUCHED: i64 = 99;

/// Where the streams are cut: so many bytes to each packet in turn.
const CUTS: [usize; 10] = [3, 0, 9, 1, 8, 2, 7, 4, 6, 5];

// Data packets without restart, each with the next bytes of the stream of one field.
fn packets(alloc: Global, stream: &[u8], cuts: &[usize; 10]) -> Result<Vec<u8>, AllocError> {
    let mut bytes = SECTION[..0].to_vec(alloc)?;
    let mut rest = stream;
    for k in 0..500usize {
        let (piece, more) = rest.split_at(cuts[k % 10].min(rest.len()));
        let pad = (4 - piece.len() % 4) % 4;
        let last = piece.len() % 200 + pad + 7;
        bytes.extend_from_slice(&[
            1,
            0,
            (last % 256) as u8,
            0,
            1,
            0,
            (piece.len() % 200) as u8,
            0,
        ])?;
        bytes.extend_from_slice(piece)?;
        bytes.extend_from_slice(&[0, 0, 0][..pad])?;
        rest = more;
        if rest.len() == 0 {
            return Ok(bytes);
        }
    }
    Ok(bytes)
}

// The pages of these logical bytes, each with its checksum.
fn paged(alloc: Global, logical: &[u8]) -> Result<Vec<u8>, AllocError> {
    let mut file = SECTION[..0].to_vec(alloc)?;
    let mut rest = logical;
    for _ in 0..logical.len() / 1020 + 1 {
        let (part, more) = rest.split_at(rest.len().min(1020));
        let mut page = part.to_vec(alloc)?;
        page.resize(1020, 0)?;
        let word = crc32c(&page);
        file.extend_from_slice(&page)?;
        file.extend_from_slice(&word.to_be_bytes())?;
        rest = more;
    }
    Ok(file)
}

// The open file with a section of one field, whose source fails at the call of this number.
fn opened(
    alloc: Global,
    stream: &[u8],
    cuts: &[usize; 10],
    failing: u64,
) -> Result<Pages<MemSource>, Fail> {
    let packets = packets(alloc, stream, cuts)?;
    let size = packets.len() % 100_000;
    let mut logical = SIGNATURE.to_vec(alloc)?;
    logical.extend_from_slice(&(((80 + size) / 1020 + 1) as u64 * 1024).to_le_bytes())?;
    logical.extend_from_slice(REST)?;
    logical.extend_from_slice(SECTION)?;
    logical.extend_from_slice(&(32 + size as u64).to_le_bytes())?;
    logical.extend_from_slice(PLACES)?;
    logical.extend_from_slice(&packets)?;
    let file = paged(alloc, &logical)?;
    let mut source = MemSource::new(alloc, 0)?;
    source.add("a.e57", file)?;
    source.fail_at(failing)?;
    match open_file("a.e57", source) {
        Ok(pages) => Ok(pages),
        Err((_, fault)) => Err(fault)?,
    }
}

fn gap(low: i64, high: i64) -> u64
    requires { low ≤ℤ high }
    ensures { result ≡ int_gap low high }
{
    (high as i128 - low as i128) as u64
}

// Integers of so many bits, if these are the bits of their limits.
fn range(low: i64, high: i64, width: u8) -> Option<Integers>
    ensures { IfSome result (λ range. IsRange range) }
{
    if low > high || width == 0 || width > 64 {
        return None;
    }
    if gap(low, high) >> (width - 1) != 1 {
        return None;
    }
    Some(Integers { low, high, width })
}

fn stream_of(section: Section) -> Bytestream
    ensures { (result.section ≡ section) × (result.field ≡ 0) }
{
    Bytestream {
        section,
        fixed: None,
        field: 0,
        node: 2,
    }
}

fn entered(section: &Section, window: Window) -> Chunk
    ensures { result ≡ record {
      start = 0;
      until = section.now.count;
      entry = section.now.data_place;
      taken = section.now.data_place;
      fresh = true;
      at = 0;
      bit = 0;
      window = window;
    } }
{
    Chunk {
        start: 0,
        until: section.count,
        entry: section.data_place,
        taken: section.data_place,
        fresh: true,
        at: 0,
        bit: 0,
        window,
    }
}

// Reads into parts of `out` with so many places, one behind the other. Answers how many items came into each, and what
// stopped a read.
fn integers(
    alloc: Global,
    pages: &mut Pages<MemSource>,
    range: &Integers,
    count: u64,
    sizes: &[usize],
    out: &mut [i64],
) -> Result<([usize; 40], Option<Stopped>), Fail>
    requires { IsRange range.now }
{
    let mut counts = [0; 40];
    if count == 0 || count > 1000 {
        return Ok((counts, None));
    }
    let section = open_section(pages, 1, 48, count, 1)?;
    let stream = stream_of(section);
    let mut packet = Packet::new(alloc)?;
    let mut chunk = entered(&section, Window::new(alloc)?);
    let mut from = 0;
    for k in 0..sizes.len().min(40) {
        let begin = out.len().min(from);
        let size = sizes[k].min(out.len() - begin);
        let part = &mut out[begin..begin + size];
        match read_integers(&stream, range, pages, &mut packet, &mut chunk, part) {
            Ok(n) => counts[k] = n,
            Err(stopped) => return Ok((counts, Some(stopped))),
        }
        from = begin + size;
    }
    Ok((counts, None))
}

// Reads words of 32 bits in one call.
fn words32(
    alloc: Global,
    pages: &mut Pages<MemSource>,
    count: u64,
    out: &mut [u32],
) -> Result<Option<Result<usize, Stopped>>, Fail> {
    if count == 0 || count > 1000 {
        return Ok(None);
    }
    let section = open_section(pages, 1, 48, count, 1)?;
    let stream = stream_of(section);
    let mut packet = Packet::new(alloc)?;
    let mut chunk = entered(&section, Window::new(alloc)?);
    Ok(Some(read_words32(&stream, pages, &mut packet, &mut chunk, out)))
}

// Reads words of 64 bits in one call.
fn words64(
    alloc: Global,
    pages: &mut Pages<MemSource>,
    count: u64,
    out: &mut [u64],
) -> Result<Option<Result<usize, Stopped>>, Fail> {
    if count == 0 || count > 1000 {
        return Ok(None);
    }
    let section = open_section(pages, 1, 48, count, 1)?;
    let stream = stream_of(section);
    let mut packet = Packet::new(alloc)?;
    let mut chunk = entered(&section, Window::new(alloc)?);
    Ok(Some(read_words64(&stream, pages, &mut packet, &mut chunk, out)))
}

// Bytes with no pattern of eight.
fn mixed() -> [u8; 320] {
    let mut bytes = [0; 320];
    for i in 0..320usize {
        bytes[i] = (i % 251 * 167 % 256) as u8;
    }
    bytes
}

// The number of item k, of which bit j is bit `k * width + j` of the stream.
fn number(stream: &[u8], k: usize, width: u8) -> u64 {
    let mut sum = 0;
    for j in 0..64u8 {
        let place = k % 1000 * width as usize + j as usize;
        let byte = *stream.get(place / 8).unwrap_or(&0);
        if j < width && byte >> (place % 8) & 1 == 1 {
            sum |= 1 << j;
        }
    }
    sum
}

// The first `count` places are the items of the stream, and no other place was touched.
fn is_filled(out: &[i64], stream: &[u8], width: u8, count: usize) -> bool {
    for k in 0..out.len() {
        let item = if k < count {
            i64::MIN as i128 + number(stream, k, width) as i128
        } else {
            UNTOUCHED as i128
        };
        if out[k] as i128 != item {
            return false;
        }
    }
    true
}

// Reads 40 items of this width into buffers of these sizes. Answers whether what was read before a stop is right, and the
// stop.
fn is_read(
    alloc: Global,
    width: u8,
    sizes: &[usize],
    failing: u64,
    done: usize,
) -> Result<(bool, Option<Stopped>), Fail> {
    if width == 0 || width > 64 {
        return Ok((false, None));
    }
    let most = (i64::MIN as i128 + (u64::MAX >> (64 - width)) as i128) as i64;
    let Some(range) = range(i64::MIN, most, width) else {
        return Ok((false, None));
    };
    let bytes = mixed();
    let stream = &bytes[..5 * width as usize];
    let mut pages = opened(alloc, stream, &CUTS, failing)?;
    let mut out = [UNTOUCHED; 1100];
    let (_, stopped) = integers(alloc, &mut pages, &range, 40, sizes, &mut out)?;
    Ok((is_filled(&out, stream, width, done), stopped))
}

#[test]
fn every_width(rt: HostRuntime) -> Result<(), Fail> {
    for width in 1..65u8 {
        for sizes in [&[1; 40][..], &[7; 6], &[8; 5], &[1024]] {
            let answer = is_read(rt.alloc(), width, sizes, u64::MAX, 40)?;
            assert!(rt; answer == (true, None), "width {width}");
        }
    }
    Ok(())
}

#[test]
fn three_packets(rt: HostRuntime) -> Result<(), Fail> {
    let stream = [0x88, 0xc6, 0xfa];
    let mut out = [UNTOUCHED; 15];
    let mut pages = opened(
        rt.alloc(),
        &stream,
        &[1, 0, 2, 0, 0, 0, 0, 0, 0, 0],
        u64::MAX,
    )?;
    if let Some(octal) = range(0, 7, 3) {
        let (counts, stopped) = integers(
            rt.alloc(),
            &mut pages,
            &octal,
            8,
            &[1, 0, 5, 9],
            &mut out,
        )?;
        assert!(rt; counts[..4] == [1, 0, 5, 2] && stopped.is_none());
    }
    assert_eq!(rt; out, [0, 1, 2, 3, 4, 5, 6, 7, 99, 99, 99, 99, 99, 99, 99]);
    Ok(())
}

#[test]
fn stops(rt: HostRuntime) -> Result<(), Fail> {
    let stream = [0x88, 0xc6, 0xfa];
    let mut out = [UNTOUCHED; 15];
    let mut pages = opened(
        rt.alloc(),
        &stream,
        &[1, 0, 2, 0, 0, 0, 0, 0, 0, 0],
        u64::MAX,
    )?;
    let mut found = None;
    if let Some(six) = range(0, 6, 3) {
        let (_, stopped) = integers(rt.alloc(), &mut pages, &six, 8, &[5, 9], &mut out)?;
        found = stopped;
    }
    let fault = ReadFault::Refused(Fault::new(Kind::ValueRange, 7, 2));
    assert_eq!(rt; found, Some(Stopped { done: 2, fault }));
    assert_eq!(rt; out, [0, 1, 2, 3, 4, 5, 6, 99, 99, 99, 99, 99, 99, 99, 99]);
    let answer = is_read(rt.alloc(), 64, &[1024], 2, 37)?;
    let fault = ReadFault::Source;
    assert_eq!(rt; answer, (true, Some(Stopped { done: 37, fault })));
    Ok(())
}

#[test]
fn raw_words(rt: HostRuntime) -> Result<(), Fail> {
    let bytes = [1, 2, 3, 4, 5, 6, 7, 8, 9, 10, 11, 12, 13, 14, 15, 16];
    for cut in 0..17usize {
        let cuts = [cut, 0, 100, 0, 0, 0, 0, 0, 0, 0];
        let mut words = [7; 5];
        let mut pages = opened(rt.alloc(), &bytes, &cuts, u64::MAX)?;
        let answer = words32(rt.alloc(), &mut pages, 4, &mut words)?;
        let wanted = [0x0403_0201, 0x0807_0605, 0x0c0b_0a09, 0x100f_0e0d, 7];
        assert!(rt; answer == Some(Ok(4)) && words == wanted, "cut after {cut}");
        let mut long = [7; 3];
        let answer = words64(rt.alloc(), &mut pages, 2, &mut long)?;
        let wanted = [0x0807_0605_0403_0201, 0x100f_0e0d_0c0b_0a09, 7];
        assert!(rt; answer == Some(Ok(2)) && long == wanted, "cut after {cut}");
    }
    Ok(())
}

#[test]
fn short_words(rt: HostRuntime) -> Result<(), Fail> {
    let bytes = [1, 2, 3, 4, 5, 6, 7, 8, 9, 10, 11, 12, 13, 14, 15];
    let mut pages = opened(rt.alloc(), &bytes, &[1; 10], u64::MAX)?;
    let mut words = [7; 5];
    let answer = words32(rt.alloc(), &mut pages, 4, &mut words)?;
    let fault = ReadFault::Refused(Fault::new(Kind::StreamShort, 3, 2));
    assert!(rt; answer == Some(Err(Stopped { done: 3, fault })));
    assert_eq!(rt; words, [0x0403_0201, 0x0807_0605, 0x0c0b_0a09, 7, 7]);
    Ok(())
}
