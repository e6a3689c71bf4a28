//! Files without a blob, of one blob and of three, as a slow plain program writes them, and each call of a target
//! failing in turn.

ghost use Rattle.std.specs.Prelude.{◌≡◌, false, None, IfOk, IfSome};
ghost use Rattle.e57_file.specs.Blob.{HasBlob};

use crate::{close_file, copy_blob};
use e57_base::{BytesSource, Kind, MemTarget, PutFault, ReadFault, Source, Target, WriteFault};
use e57_crc::crc32c;
use e57_elements::{MAX_TEXT, read_elements};
use e57_file::E57;
use e57_page::{Header, Pages};
use e57_page_out::PagesOut;
use e57_tree::Tree;
use std::alloc::{AllocError, Global};
use std::test::Fail;

// The XML section of a file without a blob.
const EMPTY: &[u8; 66] =
    b"<?xml version=\"1.0\" encoding=\"UTF-8\"?>\n<e57Root type=\"Structure\"/>";

// The XML section of a file with blobs of 0, 1004 and 1005 bytes.
const THREE: &[u8; 216] =
    b"<?xml version=\"1.0\" encoding=\"UTF-8\"?>\n<e57Root type=\"Structure\"><a type=\"Blob\" fileOffset=\"1024\" length=\"0\"/><b type=\"Blob\" fileOffset=\"2048\" length=\"1004\"/><c type=\"Blob\" fileOffset=\"3072\" length=\"1005\"/></e57Root>";

// The file's length, if each call in a row of calls was made.
type Ended = Option<u64>;

// The file with these logical bytes behind page 0 and this text from a fresh page on, as a slow plain program writes it. Of
// the code that is tested it shares the checksum alone.
fn plain(alloc: Global, before: &[u8], text: &[u8]) -> Result<Vec<u8>, AllocError> {
    let first = before.len().div_ceil(1020).wrapping_add(1);
    let pages = first.wrapping_add(text.len().div_ceil(1020));
    let mut logical = b"ASTM-E57\x01\0\0\0\0\0\0\0".to_vec(alloc)?;
    logical.extend_from_slice(&pages.wrapping_mul(1024).to_le_bytes())?;
    logical.extend_from_slice(&first.wrapping_mul(1024).to_le_bytes())?;
    logical.extend_from_slice(&text.len().to_le_bytes())?;
    logical.extend_from_slice(&1024u64.to_le_bytes())?;
    logical.resize(1020, 0)?;
    logical.extend_from_slice(before)?;
    logical.resize(first.wrapping_mul(1020), 0)?;
    logical.extend_from_slice(text)?;
    let mut bytes = Vec::new(alloc);
    for piece in logical.chunks(1020) {
        let mut payload = piece.to_vec(alloc)?;
        payload.resize(1020, 0)?;
        let word = crc32c(&payload).to_be_bytes();
        bytes.extend_from_slice(&payload)?;
        bytes.extend_from_slice(&word)?;
    }
    Ok(bytes)
}

// The file of a tree without clouds and blobs, behind these logical bytes.
fn close_behind<T: Target>(
    alloc: Global,
    text: &[u8],
    before: &[u8],
    target: T,
) -> (T, Option<Result<u64, WriteFault>>) {
    if text.len() > MAX_TEXT {
        return (target, None);
    }
    let Ok(raw) = read_elements(alloc, text) else {
        return (target, None);
    };
    let Ok(tree) = Tree::from_raw(alloc, raw) else {
        return (target, None);
    };
    if !tree.items().is_empty() {
        return (target, None);
    }
    let mut out = match PagesOut::open(target, "new.e57") {
        Ok(out) => out,
        Err((target, _)) => return (target, None),
    };
    if let Err(_) = out.put(before) {
        return (out.into_target(), None);
    }
    let result = close_file(alloc, &tree, &[], &mut out);
    (out.into_target(), Some(result))
}

#[test]
fn no_blob(rt: HostRuntime) -> Result<(), Fail> {
    let target = MemTarget::new(rt.alloc(), 2, 7)?;
    let (target, total) = close_behind(rt.alloc(), EMPTY, &[], target);
    let mut expected =
        b"ASTM-E57\x01\0\0\0\0\0\0\0\0\x08\0\0\0\0\0\0\0\x04\0\0\0\0\0\0\x42\0\0\0\0\0\0\0\0\x04\0\0\0\0\0\0".to_vec(
            rt.alloc(),
        )?;
    expected.resize(1020, 0)?;
    expected.extend_from_slice(b"\xea\x73\x15\x1b")?;
    expected.extend_from_slice(EMPTY)?;
    expected.resize(2044, 0)?;
    expected.extend_from_slice(b"\x74\x7b\xf0\x52")?;
    assert!(rt; total == Some(Ok(2048)) && target.bytes() == expected.as_slice());
    assert!(rt; plain(rt.alloc(), &[], EMPTY)? == expected);
    Ok(())
}

// Whatever was put before.
#[test]
fn the_text_begins_with_a_page(rt: HostRuntime) -> Result<(), Fail> {
    let alloc = rt.alloc();
    for count in [1usize, 1019, 1020, 1021, 2040] {
        let before = vec![in alloc; 7u8; count]?;
        let whole = plain(alloc, &before, EMPTY)?;
        let (target, total) = close_behind(alloc, EMPTY, &before, MemTarget::new(alloc, 4, 7)?);
        assert!(rt;
            total == Some(Ok(whole.len() as u64)) && target.bytes() == whole.as_slice(),
            "{count} bytes"
        );
    }
    Ok(())
}

// A text that is written with so many bytes: a declaration of 39 bytes is put before it.
fn long_text(alloc: Global, written: usize) -> Result<Vec<u8>, AllocError> {
    let end = b"</a></e57Root>";
    let mut text = b"<e57Root type=\"Structure\"><a type=\"String\">".to_vec(alloc)?;
    text.resize(written.wrapping_sub(39).wrapping_sub(end.len()), b'x')?;
    text.extend_from_slice(end)?;
    Ok(text)
}

#[test]
fn the_longest_text_is_put(rt: HostRuntime) -> Result<(), Fail> {
    let alloc = rt.alloc();
    let text = long_text(alloc, 1 << 26)?;
    let mut written = b"<?xml version=\"1.0\" encoding=\"UTF-8\"?>\n".to_vec(alloc)?;
    written.extend_from_slice(&text)?;
    assert_eq!(rt; written.len(), 1 << 26);
    let whole = plain(alloc, &[], &written)?;
    let target = MemTarget::new(alloc, whole.len() / 1024, 7)?;
    let (target, total) = close_behind(alloc, &text, &[], target);
    assert!(rt; total == Some(Ok(whole.len() as u64)) && target.bytes() == whole.as_slice());
    Ok(())
}

// Of it page 0 alone was put, which is blank.
#[test]
fn a_text_one_byte_too_long_is_large(rt: HostRuntime) -> Result<(), Fail> {
    let alloc = rt.alloc();
    let text = long_text(alloc, (1 << 26) + 1)?;
    let (target, total) = close_behind(alloc, &text, &[], MemTarget::new(alloc, 2, 7)?);
    assert!(rt; total == Some(Err(WriteFault::Large)) && target.bytes() == [0; 1024].as_slice());
    Ok(())
}

// Puts the section of a blob of these bytes, and ends its page.
fn put_blob<T: Target>(out: &mut PagesOut<T>, header: &[u8], bytes: &[u8]) -> Result<(), PutFault>
    requires unspent { out.old.is_spent ≡ false }
    requires free { out.old.held ≡ None }
    ensures unspent { IfOk result (λ _. out.new.is_spent ≡ false) }
    ensures free { IfOk result (λ _. out.new.held ≡ None) }
{
    out.put(header)?;
    out.put(bytes)?;
    out.fresh_page()
}

// Puts the file with three blobs, piece by piece.
fn put_three<T: Target>(out: &mut PagesOut<T>) -> Result<u64, PutFault>
    requires unspent { out.old.is_spent ≡ false }
    requires free { out.old.held ≡ None }
{
    put_blob(out, b"\0\0\0\0\0\0\0\0\x10\0\0\0\0\0\0\0", b"")?;
    put_blob(out, b"\0\0\0\0\0\0\0\0\xfc\x03\0\0\0\0\0\0", &[7; 1004])?;
    put_blob(out, b"\0\0\0\0\0\0\0\0\x00\x04\0\0\0\0\0\0", &[9; 1005])?;
    out.put(THREE)?;
    out.close(&Header {
        length: 6144,
        xml_place: 5120,
        xml_length: 216,
    })
}

// The bytes of that file.
fn three_blobs(alloc: Global) -> Result<Vec<u8>, AllocError> {
    let mut out = match PagesOut::open(MemTarget::new(alloc, 6, 7)?, "old.e57") {
        Ok(out) => out,
        Err((target, _)) => return Ok(target.into_bytes()),
    };
    let _ = put_three(&mut out);
    Ok(out.into_target().into_bytes())
}

// Copies blob k, if it has no fault.
fn copy_one<S: Source, T: Target>(
    file: &E57,
    pages: &mut Pages<S>,
    k: usize,
    out: &mut PagesOut<T>,
) -> Option<u64>
    requires there { HasBlob file.now k }
    requires unspent { out.old.is_spent ≡ false }
    requires free { out.old.held ≡ None }
    ensures unspent { IfSome result (λ _. out.new.is_spent ≡ false) }
    ensures free { IfSome result (λ _. out.new.held ≡ None) }
{
    let Ok(_) = file.open_blob(pages, k) else {
        return None;
    };
    let Ok(offset) = copy_blob(file, pages, k, out) else {
        return None;
    };
    Some(offset)
}

// Copies the three blobs, and closes the file with the places that they got.
fn copy_three<S: Source, T: Target>(
    alloc: Global,
    file: &E57,
    pages: &mut Pages<S>,
    out: &mut PagesOut<T>,
) -> Ended
    requires unspent { out.old.is_spent ≡ false }
    requires free { out.old.held ≡ None }
{
    if file.tree().blobs().len() != 3 || file.tree().items().len() != 3 {
        return None;
    }
    let first = copy_one(file, pages, 0, out)?;
    let second = copy_one(file, pages, 1, out)?;
    let third = copy_one(file, pages, 2, out)?;
    close_file(alloc, file.tree(), &[first, second, third], out).ok()
}

// Copies the only blob, and closes the file with the place that it got.
fn copy_only<S: Source, T: Target>(
    alloc: Global,
    file: &E57,
    pages: &mut Pages<S>,
    out: &mut PagesOut<T>,
) -> Ended
    requires unspent { out.old.is_spent ≡ false }
    requires free { out.old.held ≡ None }
{
    if file.tree().blobs().len() != 1 || file.tree().items().len() != 1 {
        return None;
    }
    let place = copy_one(file, pages, 0, out)?;
    close_file(alloc, file.tree(), &[place], out).ok()
}

// The file, copied into a target.
fn copied<T: Target>(alloc: Global, bytes: Vec<u8>, target: T) -> (T, Ended) {
    let mut source = BytesSource::new(bytes);
    let Ok(length) = source.open("old.e57") else {
        return (target, None);
    };
    let Ok(mut pages) = Pages::open(source, length) else {
        return (target, None);
    };
    let Ok(file) = E57::open(alloc, &mut pages) else {
        return (target, None);
    };
    let mut out = match PagesOut::open(target, "new.e57") {
        Ok(out) => out,
        Err((target, _)) => return (target, None),
    };
    let ended = if file.tree().blobs().len() == 1 {
        copy_only(alloc, &file, &mut pages, &mut out)
    } else {
        copy_three(alloc, &file, &mut pages, &mut out)
    };
    (out.into_target(), ended)
}

#[test]
fn three_blobs_are_copied(rt: HostRuntime) -> Result<(), Fail> {
    let whole = three_blobs(rt.alloc())?;
    let target = MemTarget::new(rt.alloc(), 6, 7)?;
    let (target, ended) = copied(rt.alloc(), whole.clone()?, target);
    assert!(rt; ended == Some(6144) && target.bytes() == whole.as_slice());
    Ok(())
}

// The file of one blob, whose section begins behind so many logical bytes of page 1 on.
fn one_blob(alloc: Global, lead: usize, length: usize) -> Result<Vec<u8>, AllocError> {
    let words = length.div_ceil(4).wrapping_mul(4);
    let mut section = vec![in alloc; 0u8; lead]?;
    section.extend_from_slice(&[0; 8])?;
    section.extend_from_slice(&words.wrapping_add(16).to_le_bytes())?;
    for j in 0..length {
        section.push((j.wrapping_mul(7) % 251) as u8)?;
    }
    let place = (lead / 1020)
        .wrapping_add(1)
        .wrapping_mul(1024)
        .wrapping_add(lead % 1020);
    let text = format!(in alloc;
        "<?xml version=\"1.0\" encoding=\"UTF-8\"?>\n<e57Root type=\"Structure\"><a type=\"Blob\" fileOffset=\"{place}\" length=\"{length}\"/></e57Root>"
    )?;
    plain(alloc, &section, text.as_str().as_bytes())
}

// It was within a page before, and begins a page now.
#[test]
fn one_blob_is_copied(rt: HostRuntime) -> Result<(), Fail> {
    let alloc = rt.alloc();
    for length in [0, 1, 1003, 1004, 1005, 65_536, 65_537] {
        let whole = one_blob(alloc, 0, length)?;
        let target = MemTarget::new(alloc, whole.len() / 1024, 7)?;
        let (target, ended) = copied(alloc, one_blob(alloc, 2032, length)?, target);
        assert!(rt;
            ended == Some(whole.len() as u64) && target.bytes() == whole.as_slice(),
            "{length} bytes"
        );
    }
    Ok(())
}

// Why these bytes are no file.
fn fault_of(bytes: Vec<u8>) -> Option<Kind> {
    let mut source = BytesSource::new(bytes);
    let Ok(length) = source.open("new.e57") else {
        return None;
    };
    match Pages::open(source, length) {
        Ok(_) => None,
        Err((_, why)) => match why {
            ReadFault::Refused(fault) => Some(fault.kind),
            ReadFault::Source => None,
        },
    }
}

// The file's pages so far, with the first so many bytes of page 0, of which the others are 0.
fn is_headless(file: &[u8], whole: &[u8], count: usize) -> bool {
    file.get(..count) == whole.get(..count)
        && file.iter().take(1024).skip(count).all(|byte| *byte == 0)
        && file.get(1024..) == whole.get(1024..file.len())
}

// Its creation and page 0, after which there is no byte, five pages, and page 0 again.
#[test]
fn a_failed_call_leaves_no_file(rt: HostRuntime) -> Result<(), Fail> {
    let alloc = rt.alloc();
    let whole = three_blobs(alloc)?;
    for call in 0..8 {
        let mut target = MemTarget::new(alloc, 6, 7)?;
        target.fail_at(call)?;
        let (target, ended) = copied(alloc, whole.clone()?, target);
        let file = target.into_bytes();
        let pages = call.saturating_sub(1) as usize;
        assert!(rt;
            ended.is_none() && file.len() == pages.wrapping_mul(1024),
            "call {call}"
        );
        if pages == 0 {
            assert_eq!(rt; fault_of(file), Some(Kind::FileLength));
        } else {
            assert!(rt; is_headless(&file, &whole, 0), "call {call}");
            assert_eq!(rt; fault_of(file), Some(Kind::Signature));
        }
    }
    Ok(())
}

// The page with the header breaks off behind so many bytes, of which 48 are the header.
#[test]
fn a_part_of_the_header_makes_no_file(rt: HostRuntime) -> Result<(), Fail> {
    let alloc = rt.alloc();
    let whole = three_blobs(alloc)?;
    let cases = [
        (0, Kind::Signature),
        (7, Kind::Signature),
        (8, Kind::Version),
        (12, Kind::FileLength),
        (24, Kind::PageSize),
        (48, Kind::Page),
        (1023, Kind::Page),
    ];
    for (count, kind) in cases {
        let mut target = MemTarget::new(alloc, 6, 7)?;
        target.tear_at(7, count)?;
        let (target, ended) = copied(alloc, whole.clone()?, target);
        let file = target.into_bytes();
        assert!(rt;
            ended.is_none() && is_headless(&file, &whole, count),
            "{count} bytes"
        );
        assert_eq!(rt; fault_of(file), Some(kind), "{count} bytes");
    }
    Ok(())
}

// All was put, but the file was not ended.
#[test]
fn a_failed_end_is_no_success(rt: HostRuntime) -> Result<(), Fail> {
    let whole = three_blobs(rt.alloc())?;
    let mut target = MemTarget::new(rt.alloc(), 6, 7)?;
    target.fail_at(8)?;
    let (target, ended) = copied(rt.alloc(), whole.clone()?, target);
    assert!(rt; ended.is_none() && target.bytes() == whole.as_slice());
    Ok(())
}
