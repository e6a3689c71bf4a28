//! Indexes of one level to three, and each call of a target failing in turn.

ghost use Rattle.std.specs.Prelude.{◌≡◌, ◌<◌, ◌≤◌, ◌^◌, IfOk, length};

use crate::IndexOut;
use e57_base::{MemTarget, PutFault, Target};
use e57_layout::Entry;
use e57_page_out::PagesOut;
use std::alloc::{AllocError, Global};
use std::test::Fail;

// An index of chunks of 8 records, each a page behind the one before.
fn index_of(alloc: Global, chunks: u32) -> Result<IndexOut, AllocError>
    ensures { IfOk result (λ index. length index.entries ≡ chunks) }
{
    let mut index = IndexOut::reserve(alloc, chunks as usize)?;
    for k in 0..chunks as u64 {
        index.push(Entry {
            first: 8 * k,
            place: 1024 + 1024 * k,
        });
    }
    Ok(index)
}

// Writes the index directly behind page 0.
fn write_index<T: Target>(target: T, index: &IndexOut) -> (T, Result<u64, PutFault>)
    requires { 0 < length index.now.entries }
{
    let mut out = match PagesOut::open(target, "new.e57") {
        Ok(out) => out,
        Err((target, fault)) => return (target, Err(fault)),
    };
    let result = match index.write(&mut out) {
        Ok(root) => out.fresh_page().map(|_| root),
        Err(fault) => Err(fault),
    };
    (out.into_target(), result)
}

// The bytes from this offset on begin with these.
fn stands(file: &[u8], at: usize, bytes: &[u8]) -> bool {
    at <= file.len() && file[at..].starts_with(bytes)
}

// An index of so many chunks has this root, and the file so many pages and these bytes at this offset.
fn is_written(
    alloc: Global,
    chunks: u32,
    root: u64,
    pages: usize,
    at: usize,
    bytes: &[u8],
) -> Result<bool, AllocError>
    requires some { 0 < chunks }
    requires pages { pages ≤ 2 ^ 20 }
{
    let index = index_of(alloc, chunks)?;
    let (target, result) = write_index(MemTarget::new(alloc, pages, 7)?, &index);
    let file = target.bytes();
    Ok(result == Ok(root) && file.len() == 1024 * pages && stands(file, at, bytes))
}

// The only packet of one chunk and of 2048, the root of 2049, and of 4,200,000 chunks the last packet of level 1 with the
// root behind it.
#[test]
fn roots(rt: HostRuntime) -> Result<(), Fail> {
    let one = b"\0\0\x1f\0\x01\0\0\0\0\0\0\0\0\0\0\0\0\0\0\0\0\0\0\0\0\x04\0\0\0\0\0\0";
    assert!(rt; is_written(rt.alloc(), 1, 1024, 2, 1024, one)?);
    let whole =
        b"\0\0\x0f\x80\0\x08\0\0\0\0\0\0\0\0\0\0\0\0\0\0\0\0\0\0\0\x04\0\0\0\0\0\0\x08\0\0\0\0\0\0\0\0\x08\0\0\0\0\0\0";
    assert!(rt; is_written(rt.alloc(), 2048, 1024, 34, 1024, whole)?);
    let two =
        b"\0\0\x2f\0\x02\0\x01\0\0\0\0\0\0\0\0\0\0\0\0\0\0\0\0\0\0\x04\0\0\0\0\0\0\0\x40\0\0\0\0\0\0\x90\x84\0\0\0\0\0\0";
    assert!(rt; is_written(rt.alloc(), 2049, 33_968, 34, 33_968, two)?);
    let last =
        b"\0\0\x3f\0\x03\0\x01\0\0\0\0\0\0\0\0\0\0\0\0\x02\0\0\0\0\x84\x88\x04\x04\0\0\0\0\0\x40\0\x02\0\0\0\0\x14\x09\x05\x04\0\0\0\0\0\x80\0\x02\0\0\0\0\xa4\x89\x05\x04\0\0\0\0\0\0\x2f\0\x02\0\x02\0\0\0\0\0\0\0\0\0\0\0\0\0\0\0\0\0\x18\xee\x05\x04\0\0\0\0\0\0\0\x02\0\0\0\0\xa8\x6e\x06\x04\0\0\0\0";
    assert!(rt; is_written(rt.alloc(), 4_200_000, 67_530_472, 65_948, 67_530_408, last)?);
    Ok(())
}

// What an index of 2049 chunks is written as where this call fails: its creation, page 0, or a page of its packets.
fn broken_off(
    alloc: Global,
    index: &IndexOut,
    call: u64,
) -> Result<(Vec<u8>, Result<u64, PutFault>), AllocError>
    requires { 0 < length index.now.entries }
{
    let mut target = MemTarget::new(alloc, 34, 7)?;
    target.fail_at(call)?;
    let (target, result) = write_index(target, index);
    Ok((target.into_bytes(), result))
}

#[test]
fn each_call_of_the_target_fails(rt: HostRuntime) -> Result<(), Fail> {
    let index = index_of(rt.alloc(), 2049)?;
    let (whole, result) = broken_off(rt.alloc(), &index, 35)?;
    assert_eq!(rt; result, Ok(33_968));
    for call in 0..35 {
        let (file, result) = broken_off(rt.alloc(), &index, call)?;
        assert!(rt;
            result == Err(PutFault::Target) && stands(whole.as_slice(), 0, file.as_slice())
        );
    }
    Ok(())
}
