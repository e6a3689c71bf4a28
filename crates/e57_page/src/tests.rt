//! Worked places, and a file of two pages in memory.

use crate::{Cut, Pages, open_file, physical_of, place_of};
use e57_base::{Failed, Fault, Kind, MemSource, ReadFault, Source};
use e57_crc::crc32c;
use std::alloc::{AllocError, Global};
use std::test::Fail;

// The header of a file of two pages, whose XML section has 933 bytes at physical offset 136.
const HEADER: &[u8; 48] =
    b"ASTM-E57\x01\0\0\0\0\0\0\0\0\x08\0\0\0\0\0\0\x88\0\0\0\0\0\0\0\xa5\x03\0\0\0\0\0\0\0\x04\0\0\0\0\0\0";

#[test]
fn places(rt: HostRuntime) {
    for (physical, place) in [
        (48, Some(48)),
        (1019, Some(1019)),
        (1020, None),
        (1023, None),
        (1024, Some(1020)),
    ] {
        assert_eq!(rt; place_of(physical), place, "at {physical}");
    }
    assert_eq!(rt; physical_of(1020), 1024);
}

// A page that begins with these bytes, has the filling up to its word, and this much more or less in its word.
fn page_with(alloc: Global, front: &[u8], filling: u8, damage: u32) -> Result<Vec<u8>, AllocError> {
    let mut page = front.to_vec(alloc)?;
    page.resize(1020, filling)?;
    let word = crc32c(&page) ^ damage;
    page.extend_from_slice(&word.to_be_bytes())?;
    Ok(page)
}

// The header of a file of 152 pages.
const HEADER_OF_152: &[u8; 48] =
    b"ASTM-E57\x01\0\0\0\0\0\0\0\0\x60\x02\0\0\0\0\0\x88\0\0\0\0\0\0\0\xa5\x03\0\0\0\0\0\0\0\x04\0\0\0\0\0\0";

// The open file of 152 pages.
fn many_pages(alloc: Global) -> Result<Pages<MemSource>, Fail> {
    let mut bytes = page_with(alloc, HEADER_OF_152, 1, 0)?;
    for n in 1..152 {
        bytes.extend_from_slice(&page_with(alloc, &[], n, 0)?)?;
    }
    let mut source = MemSource::new(alloc, 200)?;
    source.add("many.e57", bytes)?;
    match open_file("many.e57", source) {
        Ok(pages) => Ok(pages),
        Err((_, fault)) => Err(fault)?,
    }
}

// The open file of two pages, the second one with this damage.
fn two_pages(alloc: Global, damage: u32) -> Result<Pages<MemSource>, Fail> {
    let mut bytes = page_with(alloc, HEADER, 1, 0)?;
    bytes.extend_from_slice(&page_with(alloc, &[], 2, damage)?)?;
    let mut source = MemSource::new(alloc, 8)?;
    source.add("two.e57", bytes)?;
    let length = source.open("two.e57")?;
    match Pages::open(source, length) {
        Ok(pages) => Ok(pages),
        Err((_, fault)) => Err(fault)?,
    }
}

#[test]
fn reads_across_pages(rt: HostRuntime) -> Result<(), Fail> {
    let mut pages = two_pages(rt.alloc(), 0)?;
    assert_eq!(rt; pages.header().xml_place, 136);
    assert_eq!(rt; pages.header().xml_length, 933);
    assert_eq!(rt; pages.logical_len(), 2040);
    let mut out = [0; 4];
    pages.read(1018, &mut out)?;
    assert_eq!(rt; out, [1, 1, 2, 2]);
    pages.read(1018, &mut out)?;
    assert_eq!(rt; pages.scan()?, 2);
    assert_eq!(rt; pages.into_source().asked(), [0, 1, 0, 1].as_slice());
    Ok(())
}

// Reads all logical bytes.
fn read_all(pages: &mut Pages<MemSource>, out: &mut [u8]) -> Result<(), Fail> {
    if pages.logical_len() != out.len() as u64 {
        return Err(Failed.into());
    }
    pages.read(0, out)?;
    Ok(())
}

// Of a range of 152 pages the last 144 are kept, and the first 8 are asked for again each time.
#[test]
fn keeps_pages(rt: HostRuntime) -> Result<(), Fail> {
    let mut pages = many_pages(rt.alloc())?;
    let mut out = vec![in rt.alloc(); 0; 155_040]?;
    for _ in 0..3 {
        read_all(&mut pages, &mut out)?;
        assert_eq!(rt; out.get(155_039), Some(&151));
    }
    let source = pages.into_source();
    assert_eq!(rt; source.asked().len(), 1 + 151 + 8 + 8);
    assert_eq!(rt; source.asked().get(152), Some(&0));
    Ok(())
}

#[test]
fn stops_at_a_wrong_page(rt: HostRuntime) -> Result<(), Fail> {
    let fault = ReadFault::Refused(Fault::new(Kind::Page, 1, 0));
    let mut pages = two_pages(rt.alloc(), 1)?;
    assert_eq!(rt; pages.logical_len(), 2040);
    let mut out = [0; 4];
    assert_eq!(rt; pages.read(1018, &mut out), Err(Cut { done: 2, fault }));
    assert_eq!(rt; out, [1, 1, 0, 0]);
    assert_eq!(rt; pages.scan(), Err(fault));
    Ok(())
}
