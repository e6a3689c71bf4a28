//! Each byte of a section changed in turn, and the file judged by `check` and by the plain program.

use crate::plain::{Cloud, Field, Kind, Stop, judge};
use crate::verdicts::is_judged;
use e57_samples::made::{BIT, Edit, Sample, made};
use std::alloc::{AllocError, Global};
use std::test::*;

const VALUES: [u8; 5] = [0, 1, 2, 3, 255];

// A sample's file with some bytes changed, and its cloud.
#[derive(Clone, Copy)]
struct Swept<'a> {
    sample: Sample,
    edits: &'a [Edit<'a>],
    cloud: Cloud<'a>,
}

// The line of `check` that the plain program's answer stands for.
fn line_of(alloc: Global, answer: Result<u64, Stop>) -> Result<String, AllocError> {
    match answer {
        Ok(count) => format!(in alloc; "accepted 1 0 {count}\n"),
        Err(Stop::Fault(kind, a, b)) => format!(in alloc; "refused {kind} {a} {b}\n"),
        Err(Stop::Memory) => format!(in alloc; "memory"),
        Err(Stop::Lost) => format!(in alloc; "lost"),
    }
}

// `check` and the plain program say the same of the file with these bytes at a place.
fn agree(alloc: Global, swept: &Swept, at: usize, bytes: &[u8]) -> Result<bool, AllocError> {
    let mut edits = swept.edits.to_vec(alloc)?;
    edits.push((at, bytes))?;
    let file = made(alloc, swept.sample, &edits)?;
    let line = line_of(alloc, judge(alloc, &file, &swept.cloud))?;
    is_judged(alloc, file, &line)
}

// The first place from one up to another, and the byte there, of which `check` says something else.
fn first_difference(
    alloc: Global,
    swept: &Swept,
    from: usize,
    until: usize,
) -> Result<Option<(usize, u8)>, AllocError> {
    for at in from..until {
        for value in VALUES {
            if !agree(alloc, swept, at, &[value])? {
                return Ok(Some((at, value)));
            }
        }
    }
    Ok(None)
}

const ONE_BIT: &[Field] = &[(3, Kind::Integer(0, 1))];

// The file of one page, with so many records.
fn one_page<'a>(edits: &'a [Edit<'a>], text: &'static str, count: u64) -> Swept<'a> {
    Swept {
        sample: Sample::OnePage(text, BIT),
        edits,
        cloud: Cloud {
            node: 1,
            offset: 48,
            count,
            fields: ONE_BIT,
        },
    }
}

#[test]
fn two_chunks(rt: HostRuntime) -> Result<(), Fail> {
    let swept = one_page(&[], "13", 13);
    assert_eq!(rt; first_difference(rt.alloc(), &swept, 48, 152)?, None);
    Ok(())
}

#[test]
fn two_chunks_without_index(rt: HostRuntime) -> Result<(), Fail> {
    let swept = one_page(&[(72, b"\0")], "13", 13);
    assert_eq!(rt; first_difference(rt.alloc(), &swept, 48, 152)?, None);
    Ok(())
}

#[test]
fn two_chunks_and_a_record_too_many(rt: HostRuntime) -> Result<(), Fail> {
    let swept = one_page(&[], "14", 14);
    assert_eq!(rt; first_difference(rt.alloc(), &swept, 48, 152)?, None);
    Ok(())
}

#[test]
fn two_chunks_and_a_record_too_few(rt: HostRuntime) -> Result<(), Fail> {
    let swept = one_page(&[], "12", 12);
    assert_eq!(rt; first_difference(rt.alloc(), &swept, 48, 152)?, None);
    Ok(())
}

const FOUR_FIELDS: &[Field] = &[
    (3, Kind::Integer(0, 7)),
    (4, Kind::Integer(5, 5)),
    (5, Kind::Float(4)),
    (6, Kind::String),
];

const ONE_CHUNK: Swept = Swept {
    sample: Sample::ThreeRecords,
    edits: &[],
    cloud: Cloud {
        node: 1,
        offset: 1024,
        count: 3,
        fields: FOUR_FIELDS,
    },
};

#[test]
fn header_of_one_chunk(rt: HostRuntime) -> Result<(), Fail> {
    assert_eq!(rt; first_difference(rt.alloc(), &ONE_CHUNK, 1020, 1052)?, None);
    Ok(())
}

#[test]
fn packet_of_four_fields(rt: HostRuntime) -> Result<(), Fail> {
    assert_eq!(rt; first_difference(rt.alloc(), &ONE_CHUNK, 1052, 1088)?, None);
    Ok(())
}

#[test]
fn index_of_one_chunk(rt: HostRuntime) -> Result<(), Fail> {
    assert_eq!(rt; first_difference(rt.alloc(), &ONE_CHUNK, 1088, 1120)?, None);
    Ok(())
}

const SIX_FIELDS: &[Field] = &[
    (5, Kind::Integer(0, 1_048_575)),
    (6, Kind::Integer(0, 1_048_575)),
    (7, Kind::Integer(0, 255)),
    (8, Kind::Integer(0, 0)),
    (9, Kind::Float(4)),
    (10, Kind::String),
];

// Without an index, so that the Float field tells where the second chunk begins.
const COUNTED: Swept = Swept {
    sample: Sample::SixFields,
    edits: &[(1044, b"\0\0")],
    cloud: Cloud {
        node: 3,
        offset: 1024,
        count: 20,
        fields: SIX_FIELDS,
    },
};

#[test]
fn header_of_counted_chunks(rt: HostRuntime) -> Result<(), Fail> {
    assert_eq!(rt; first_difference(rt.alloc(), &COUNTED, 1020, 1052)?, None);
    Ok(())
}

#[test]
fn first_packet_of_counted_chunks(rt: HostRuntime) -> Result<(), Fail> {
    assert_eq!(rt; first_difference(rt.alloc(), &COUNTED, 1052, 1072)?, None);
    Ok(())
}

#[test]
fn second_packet_of_counted_chunks(rt: HostRuntime) -> Result<(), Fail> {
    assert_eq!(rt; first_difference(rt.alloc(), &COUNTED, 1272, 1292)?, None);
    Ok(())
}
