//! A file of three pages, and each call of its target failing in turn.

ghost use Rattle.std.specs.Prelude.{◌≡◌, ◌∷◌, [], false, None};

use crate::PagesOut;
use e57_base::{Kind, MemTarget, PutFault, Target};
use e57_page::Header;
use std::alloc::{AllocError, Global};
use std::test::Fail;

// The header of the file: its XML section has 5 bytes at physical offset 2048.
const HEADER: &[u8; 48] =
    b"ASTM-E57\x01\0\0\0\0\0\0\0\0\x0c\0\0\0\0\0\0\0\x08\0\0\0\0\0\0\x05\0\0\0\0\0\0\0\0\x04\0\0\0\0\0\0";

// Puts two pages behind page 0: a whole one, of which three bytes are patched where it is held, and five bytes.
fn put_pages<T: Target>(out: &mut PagesOut<T>, holds: bool) -> Result<u64, PutFault>
    requires unspent { out.old.is_spent ≡ false }
    requires size { out.old.size ≡ 1020 }
    requires free { out.old.held ≡ None }
{
    if holds {
        out.hold();
        out.put(&[1; 1020])?;
        out.patch_held(3, b"abc");
        out.put(&[2; 5])?;
        out.release()?;
    } else {
        out.put(&[1; 1020])?;
        out.put(&[2; 5])?;
    }
    out.close(&Header {
        length: 3072,
        xml_place: 2048,
        xml_length: 5,
    })
}

// Writes the file, and answers its length.
fn write_file<T: Target>(target: T, holds: bool) -> (T, Result<u64, PutFault>) {
    let mut out = match PagesOut::open(target, "new.e57") {
        Ok(out) => out,
        Err((target, fault)) => return (target, Err(fault)),
    };
    let result = put_pages(&mut out, holds);
    (out.into_target(), result)
}

#[test]
fn three_pages(rt: HostRuntime) -> Result<(), Fail> {
    let target = MemTarget::new(rt.alloc(), 3, 7)?;
    let (target, result) = write_file(target, true);
    assert_eq!(rt; result, Ok(3072));
    let mut expected = HEADER.to_vec(rt.alloc())?;
    expected.resize(1020, 0)?;
    expected.extend_from_slice(b"\xd4\x9f\x63\xaf\x01\x01\x01abc")?;
    expected.resize(2044, 1)?;
    expected.extend_from_slice(b"\x0c\xe0\xd3\x58\x02\x02\x02\x02\x02")?;
    expected.resize(3068, 0)?;
    expected.extend_from_slice(b"\x9c\xe2\x5a\x6d")?;
    assert_eq!(rt; target.bytes(), expected.as_slice());
    Ok(())
}

// The first fault of a file with these bytes, up to its header.
fn first_fault(bytes: &[u8]) -> Option<Kind> {
    let length = bytes.len() as u64;
    if length == 0 || length % 1024 != 0 {
        return Some(Kind::FileLength);
    }
    let mut page = [0; 1024];
    for i in 0..1024 {
        page[i] = *bytes.get(i)?;
    }
    Header::read(&page, length).err().map(|fault| fault.kind)
}

// The same of what a target holds that broke off after so many bytes of a page in this call, and whether the file was
// closed.
fn broken_off(
    alloc: Global,
    holds: bool,
    call: u64,
    count: usize,
) -> Result<(Option<Kind>, bool), AllocError> {
    let mut target = MemTarget::new(alloc, 3, 7)?;
    target.tear_at(call, count)?;
    let (target, result) = write_file(target, holds);
    Ok((first_fault(target.bytes()), result == Ok(3072)))
}

// What it is to be in a call of the run that holds a page: the creation, page 0, page 1, page 1 again, page 2, page 0
// with the header, the end, and none.
fn expected(call: u64, count: usize) -> (Option<Kind>, bool) {
    let begun = if count % 1024 == 0 {
        Kind::Signature
    } else {
        Kind::FileLength
    };
    let headed = match count {
        0..=7 => Some(Kind::Signature),
        8 => Some(Kind::Version),
        9..=17 => Some(Kind::FileLength),
        18..=41 => Some(Kind::PageSize),
        _ => None,
    };
    match call {
        0 => (Some(Kind::FileLength), false),
        1 if count == 0 => (Some(Kind::FileLength), false),
        1 | 2 | 4 => (Some(begun), false),
        3 => (Some(Kind::Signature), false),
        5 => (headed, false),
        6 => (None, false),
        _ => (None, true),
    }
}

// The first count of bytes at which a call breaks off otherwise than expected.
fn first_other(alloc: Global, call: u64) -> Result<Option<usize>, AllocError> {
    for count in 0..1025 {
        if broken_off(alloc, true, call, count)? != expected(call, count) {
            return Ok(Some(count));
        }
    }
    Ok(None)
}

#[test]
fn each_call_breaks_off_after_each_count_of_bytes(rt: HostRuntime) -> Result<(), Fail> {
    for call in 0..8 {
        let other = first_other(rt.alloc(), call)?;
        assert_eq!(rt; other, None, "in call {call}");
    }
    Ok(())
}

// A page that is held is put twice, and no other: without one the file is closed in one call less.
#[test]
fn no_page_is_put_twice(rt: HostRuntime) -> Result<(), Fail> {
    let last = broken_off(rt.alloc(), false, 5, 0)?;
    assert_eq!(rt; last, (None, false));
    let none = broken_off(rt.alloc(), false, 6, 0)?;
    assert_eq!(rt; none, (None, true));
    Ok(())
}
