//! Files of every kind of field, as `repack` and the slow plain program write them.

use crate::plain::{Thing, written};
use crate::plain_streams::Kind;
use e57_samples::runs::run_writing;
use e57_tool::Status;
use std::alloc::{AllocError, Global};
use std::test::*;

// The word of an option with a number.
fn chunk_word(alloc: Global, chunk: u64) -> Result<String, AllocError> {
    format!(in alloc; "--chunk={chunk}")
}

// The file of these things in chunks of `before` records is written as the plain program writes it in chunks of `chunk`.
fn is_rewritten(
    alloc: Global,
    things: &[Thing<'_>],
    before: u64,
    chunk: u64,
) -> Result<bool, AllocError> {
    let file = written(alloc, things, before)?;
    let made = written(alloc, things, chunk)?;
    let word = chunk_word(alloc, chunk)?;
    let words = ["repack", "scan", "new", word.as_str()];
    Ok(run_writing(alloc, &words, file)?.is(Status::Done, b"", &made))
}

const CHUNKS: [u64; 4] = [8, 16, 1024, 1 << 20];

// The first length of chunks, of those above, with which a cloud isn't written as the plain program does.
fn first_other(alloc: Global, kinds: &[Kind], count: u64) -> Result<Option<u64>, AllocError> {
    for chunk in CHUNKS {
        if !is_rewritten(alloc, &[Thing::Cloud(kinds, count)], 24, chunk)? {
            return Ok(Some(chunk));
        }
    }
    Ok(None)
}

#[test]
fn integers_of_each_width(rt: HostRuntime) -> Result<(), Fail> {
    let alloc = rt.alloc();
    for width in 0..65u64 {
        let other = first_other(alloc, &[Kind::Bits(width)], 1100)?;
        assert_eq!(rt; other, None, "{width} bits");
    }
    Ok(())
}

#[test]
fn numbers_and_strings(rt: HostRuntime) -> Result<(), Fail> {
    let alloc = rt.alloc();
    for kind in [
        Kind::Bytes(4),
        Kind::Bytes(8),
        Kind::Texts(1),
        Kind::Texts(3),
        Kind::Texts(200),
    ] {
        assert_eq!(rt; first_other(alloc, &[kind], 2100)?, None);
    }
    Ok(())
}

const SOME: &[Kind] = &[
    Kind::Bits(20),
    Kind::Bits(0),
    Kind::Bytes(4),
    Kind::Texts(200),
    Kind::Bytes(8),
    Kind::Bits(64),
    Kind::Bits(1),
    Kind::Bits(12),
];

#[test]
fn numbers_of_records(rt: HostRuntime) -> Result<(), Fail> {
    let alloc = rt.alloc();
    for count in [0u64, 1, 7, 8, 9, 1023, 1024, 1025, 3000] {
        assert_eq!(rt; first_other(alloc, SOME, count)?, None, "{count} records");
    }
    Ok(())
}

#[test]
fn fields_of_no_bits_alone(rt: HostRuntime) -> Result<(), Fail> {
    let alloc = rt.alloc();
    assert_eq!(rt; first_other(alloc, &[Kind::Bits(0)], 3000)?, None);
    assert_eq!(rt;
        first_other(alloc, &[Kind::Bits(0), Kind::Bits(0)], 9)?,
        None
    );
    Ok(())
}

// Groups that are larger than a packet.
#[test]
fn groups_that_are_poured(rt: HostRuntime) -> Result<(), Fail> {
    let alloc = rt.alloc();
    let long = Kind::Texts(40_000);
    let other = first_other(alloc, &[long], 20)?;
    assert_eq!(rt; other, None, "long strings");
    let other = first_other(
        alloc,
        &[Kind::Bits(20), long, Kind::Texts(9), Kind::Bits(7)],
        40,
    )?;
    assert_eq!(rt; other, None, "long strings beside others");
    Ok(())
}

#[test]
fn as_many_fields_as_a_cloud_has(rt: HostRuntime) -> Result<(), Fail> {
    let alloc = rt.alloc();
    let mut kinds = Vec::new(alloc);
    for _ in 0..512 {
        kinds.push(Kind::Bytes(8))?;
    }
    assert_eq!(rt; first_other(alloc, &kinds, 20)?, None);
    kinds.pop();
    kinds.push(Kind::Texts(30_000))?;
    assert_eq!(rt; first_other(alloc, &kinds, 20)?, None);
    Ok(())
}

#[test]
fn two_levels_of_an_index(rt: HostRuntime) -> Result<(), Fail> {
    let alloc = rt.alloc();
    let kinds = [Kind::Bits(3)];
    for count in [16_384u64, 16_385, 40_001] {
        let things = [Thing::Cloud(&kinds, count)];
        assert!(rt; is_rewritten(alloc, &things, 1024, 8)?, "{count} records");
    }
    Ok(())
}

// Clouds with and without records and blobs of each length at the end of a page, in a row.
#[test]
fn things_in_a_row(rt: HostRuntime) -> Result<(), Fail> {
    let alloc = rt.alloc();
    let some = Thing::Cloud(SOME, 100);
    let none = Thing::Cloud(SOME, 0);
    for length in [0u64, 1, 3, 4, 1003, 1004, 1005, 2023, 2024, 2025, 70_000] {
        let things = [Thing::Blob(length), some, none, Thing::Blob(5), some];
        assert!(rt; is_rewritten(alloc, &things, 16, 8)?, "{length} bytes");
    }
    assert!(rt; is_rewritten(alloc, &[], 8, 16)?);
    assert!(rt; is_rewritten(alloc, &[none, none], 8, 16)?);
    assert!(rt; is_rewritten(alloc, &[Thing::Blob(0)], 8, 16)?);
    Ok(())
}
