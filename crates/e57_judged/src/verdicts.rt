//! Files and their verdicts, with each kind of fault.

use e57_samples::cases::{CASES, Case};
use e57_samples::files::{WordOrder, changed, file, header};
use e57_samples::made::{Sample, logical_of, made};
use e57_samples::runs::run_on;
use e57_tool::Status;
use std::alloc::{AllocError, Global};
use std::test::*;

/// `check` of this file ends with this line.
pub fn is_judged(alloc: Global, bytes: Vec<u8>, line: &str) -> Result<bool, AllocError> {
    let status = if line.starts_with("accepted") {
        Status::Done
    } else {
        Status::Refused
    };
    let ended = run_on(alloc, &["check", "scan"], bytes)?;
    Ok(ended.is(status, line.as_bytes(), b""))
}

// The first line that `check` doesn't end with.
fn first_wrong<'a>(alloc: Global, cases: &'a [Case]) -> Result<Option<&'a str>, AllocError> {
    for (sample, edits, line) in cases {
        let bytes = made(alloc, *sample, edits)?;
        if !is_judged(alloc, bytes, line)? {
            return Ok(Some(*line));
        }
    }
    Ok(None)
}

#[test]
fn each_kind_of_fault_has_its_line(rt: HostRuntime) -> Result<(), Fail> {
    assert_eq!(rt; first_wrong(rt.alloc(), CASES)?, None);
    Ok(())
}

#[test]
fn words_are_right_in_both_orders(rt: HostRuntime) -> Result<(), Fail> {
    let alloc = rt.alloc();
    let logical = logical_of(alloc, Sample::TwoPoints)?;
    let bytes = file(alloc, &logical, WordOrder::LeastSignificantFirst)?;
    assert!(rt; is_judged(alloc, bytes, "accepted 1 0 2\n")?);
    let damaged = changed(made(alloc, Sample::TwoPoints, &[])?, 1500);
    assert!(rt; is_judged(alloc, damaged, "refused Page 1 0\n")?);
    Ok(())
}

// The header of a file of so many pages, which states a section of 2^26 + 1 bytes from byte 48 on.
fn long_file(alloc: Global, pages: u64) -> Result<Vec<u8>, AllocError> {
    let first = header(alloc, pages, 48, 67108865)?;
    file(alloc, &first, WordOrder::MostSignificantFirst)
}

// How many pages the shortest file has with room for the section, and the line for a file of so many.
const LIMITS: [(u64, &str); 2] = [
    (65793, "refused XmlPlace 48 67108865\n"),
    (65794, "refused XmlLimit 67108865 67108864\n"),
];

// `info` asks for page 0 alone, so the others have no words.
#[test]
fn info_judges_the_length_of_the_text(rt: HostRuntime) -> Result<(), Fail> {
    let alloc = rt.alloc();
    for (pages, line) in &LIMITS {
        let mut bytes = long_file(alloc, *pages)?;
        bytes.resize(pages.wrapping_mul(1024) as usize, 0)?;
        let ended = run_on(alloc, &["info", "scan"], bytes)?;
        let is_so = ended.is(Status::Refused, b"", line.as_bytes()) && ended.asked_for(&[0]);
        assert!(rt; is_so, "{line}");
    }
    Ok(())
}

#[test]
fn check_judges_the_length_of_the_text(rt: HostRuntime) -> Result<(), Fail> {
    let alloc = rt.alloc();
    let mut bytes = long_file(alloc, 65794)?;
    let page = file(alloc, &[0; 1020], WordOrder::MostSignificantFirst)?;
    for _ in 1..65794 {
        bytes.extend_from_slice(&page)?;
    }
    assert!(rt; is_judged(alloc, bytes, "refused XmlLimit 67108865 67108864\n")?);
    Ok(())
}
