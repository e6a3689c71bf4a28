//! Both files of a content of two numbers, and the sum, of a few records and of some chunks.

use crate::build_trial;
use std::alloc::{AllocError, Global};
use std::test::Fail;

// The lengths of both files, and the sum.
fn built(alloc: Global, start: u64, count: u16) -> Result<(usize, usize, u64), AllocError> {
    let files = build_trial(alloc, start, count as u64)?;
    Ok((
        files.first.as_slice().len(),
        files.second.as_slice().len(),
        files.sum,
    ))
}

// The sum of the raw numbers of cartesianX.
fn sum_of(start: u64, count: u16) -> u64 {
    let mut sum = 0u64;
    for i in 0..count as u64 {
        sum = sum.wrapping_add(start.wrapping_add(i.wrapping_mul(3)) % 1_048_576);
    }
    sum
}

#[test]
fn lengths_and_sums(rt: HostRuntime) -> Result<(), Fail> {
    for (start, count, wanted) in [(0, 20, (3072, 3072, 570)), (7, 0, (2048, 2048, 0))] {
        let found = built(rt.alloc(), start, count)?;
        assert_eq!(rt; found, wanted);
    }
    Ok(())
}

// 1,000 records are one run, and 20,000 are 3 chunks of the first file and 20 of the second one.
#[test]
fn sums_of_runs(rt: HostRuntime) -> Result<(), Fail> {
    for (start, count) in [(7, 1000), (1_048_000, 20_000), (u64::MAX, 1025)] {
        let (_first, _second, sum) = built(rt.alloc(), start, count)?;
        assert_eq!(rt; sum, sum_of(start, count));
    }
    Ok(())
}
