//! The bytes of blobs.

use e57_base::MemSink;
use e57_samples::files::{WordOrder, changed, file, header};
use e57_samples::runs::{Ended, room, run_on, run_words, source_of};
use e57_tool::Status;
use std::alloc::{AllocError, Global};
use std::test::*;

/// A file with this section from byte 48 on, and this text from the page behind it on.
fn file_with(alloc: Global, section: &[u8], text: &[u8]) -> Result<Vec<u8>, AllocError> {
    let before = 48usize.wrapping_add(section.len()).div_ceil(1020);
    let pages = before.wrapping_add(text.len().div_ceil(1020));
    let place = before.wrapping_mul(1024) as u64;
    let mut logical = header(alloc, pages as u64, place, text.len() as u64)?;
    logical.extend_from_slice(section)?;
    logical.resize(before.wrapping_mul(1020), 0)?;
    logical.extend_from_slice(text)?;
    file(alloc, &logical, WordOrder::MostSignificantFirst)
}

const HELLO: &[u8] =
    b"<e57Root type='Structure'><i type='Blob' fileOffset='48' length='5'/></e57Root>";

const HELLO_SECTION: &[u8] = b"\0\0\0\0\0\0\0\0\0\0\0\0\0\0\0\0hello";

const PLACE: &[u8] =
    b"<e57Root type='Structure'><b type='Blob' fileOffset='1020' length='0'/></e57Root>";

const ID: &[u8] = b"<e57Root type='Structure'><b type='Blob' fileOffset='0' length='0'/></e57Root>";

const TOO_LONG: &[u8] =
    b"<e57Root type='Structure'><b type='Blob' fileOffset='48' length='1977'/></e57Root>";

const NODE: &[u8] = b"<e57Root type='Structure'><b type='Blob'/></e57Root>";

// The words, the text of the file, the status, the line on `err`, and the pages asked for. The output is `hello` where the
// status is that of a run that is done.
type Case = (
    &'static [&'static str],
    &'static [u8],
    Status,
    &'static str,
    &'static [u64],
);

const DIGITS: &str = "000000000000000000000";

#[rattlefmt::skip]
const CASES: [Case; 19] = [
    (&["blob", "scan", "0"], HELLO, Status::Done, "", &[0, 1]),
    (&["blob", "scan", "00"], HELLO, Status::Done, "", &[0, 1]),
    (&["blob", "scan", "1"], HELLO, Status::AskRefused, "ask blob 1 1\n", &[0, 1]),
    (&["blob", "scan", "007"], HELLO, Status::AskRefused, "ask blob 7 1\n", &[0, 1]),
    (&["blob", "scan", "18446744073709551615"], HELLO, Status::AskRefused, "ask blob 18446744073709551615 1\n", &[0, 1]),
    (&["blob", "scan", "0"], PLACE, Status::Refused, "refused BlobPlace 1 1020\n", &[0, 1]),
    (&["blob", "scan", "0"], ID, Status::Refused, "refused BlobId 1 65\n", &[0, 1]),
    (&["blob", "scan", "1"], ID, Status::AskRefused, "ask blob 1 1\n", &[0, 1]),
    (&["blob", "scan", "0"], TOO_LONG, Status::Refused, "refused BlobPlace 1 48\n", &[0, 1]),
    (&["blob", "scan", "9"], NODE, Status::Refused, "refused NodeAttr 1 4\n", &[0, 1]),
    (&["blob", "absent", "0"], HELLO, Status::SourceFault, "source fault\n", &[]),
    (&["blob"], HELLO, Status::WordsFault, "words 1\n", &[]),
    (&["blob", "scan"], HELLO, Status::WordsFault, "words 2\n", &[]),
    (&["blob", "scan", "x"], HELLO, Status::WordsFault, "words 2\n", &[]),
    (&["blob", "scan", "+1"], HELLO, Status::WordsFault, "words 2\n", &[]),
    (&["blob", "scan", ""], HELLO, Status::WordsFault, "words 2\n", &[]),
    (&["blob", "scan", DIGITS], HELLO, Status::WordsFault, "words 2\n", &[]),
    (&["blob", "scan", "18446744073709551616"], HELLO, Status::WordsFault, "words 2\n", &[]),
    (&["blob", "scan", "1", "2"], HELLO, Status::WordsFault, "words 3\n", &[]),
];

#[test]
fn blob_puts_the_bytes_or_names_the_fault(rt: HostRuntime) -> Result<(), Fail> {
    let alloc = rt.alloc();
    for (words, text, status, err, asked) in &CASES {
        let ended = run_on(alloc, words, file_with(alloc, HELLO_SECTION, text)?)?;
        let out: &[u8] = if *status == Status::Done {
            b"hello".as_slice()
        } else {
            b"".as_slice()
        };
        let is_so = ended.is(*status, out, err.as_bytes()) && ended.asked_for(asked);
        assert!(rt; is_so, "{err}");
    }
    Ok(())
}

/// How many bytes the blob of `long_file` has: three pieces.
const LONG: usize = 140_000;

const LONG_TEXT: &[u8] =
    b"<e57Root type='Structure'><b type='Blob' fileOffset='48' length='140000'/></e57Root>";

/// Bytes that differ from page to page.
fn long_bytes(alloc: Global) -> Result<Vec<u8>, AllocError> {
    let mut bytes = Vec::with_capacity(alloc, LONG)?;
    for i in 0..LONG {
        bytes.push((i / 7 % 251) as u8)?;
    }
    Ok(bytes)
}

/// A file with a blob of these bytes, on 138 pages, and its text on the next one.
fn long_file(alloc: Global, bytes: &[u8]) -> Result<Vec<u8>, AllocError> {
    let mut section = vec![in alloc; 0; 16]?;
    section.extend_from_slice(bytes)?;
    file_with(alloc, &section, LONG_TEXT)
}

/// Runs `blob scan 0` over this file, with room for its output.
fn run_long(alloc: Global, bytes: Vec<u8>, failing: Option<u64>) -> Result<Ended, AllocError> {
    let mut out = MemSink::new(alloc, LONG)?;
    if let Some(call) = failing {
        out.fail_at(call)?;
    }
    let words: [&str; 3] = ["blob", "scan", "0"];
    run_words(alloc, &words, source_of(alloc, bytes)?, out, room(alloc)?)
}

#[test]
fn a_long_blob_is_put_as_a_whole(rt: HostRuntime) -> Result<(), Fail> {
    let alloc = rt.alloc();
    let bytes = long_bytes(alloc)?;
    let ended = run_long(alloc, long_file(alloc, &bytes)?, None)?;
    assert!(rt; ended.is(Status::Done, &bytes, b""));
    Ok(())
}

// A page of the blob, and how many of the blob's bytes lie before it.
const WRONG: [(usize, usize, &str); 5] = [
    (1, 956, "refused Page 1 0\n"),
    (2, 1976, "refused Page 2 0\n"),
    (64, 65_216, "refused Page 64 0\n"),
    (65, 66_236, "refused Page 65 0\n"),
    (137, 139_676, "refused Page 137 0\n"),
];

#[test]
fn a_blob_is_put_up_to_a_wrong_page(rt: HostRuntime) -> Result<(), Fail> {
    let alloc = rt.alloc();
    let bytes = long_bytes(alloc)?;
    for (page, before, err) in &WRONG {
        let damaged = changed(long_file(alloc, &bytes)?, page.wrapping_mul(1024));
        let ended = run_long(alloc, damaged, None)?;
        let front = bytes.get(..*before).unwrap_or_default();
        assert!(rt; ended.is(Status::Refused, front, err.as_bytes()), "{err}");
    }
    Ok(())
}

#[test]
fn a_failed_put_of_a_blob_is_an_output_fault(rt: HostRuntime) -> Result<(), Fail> {
    let alloc = rt.alloc();
    let bytes = long_bytes(alloc)?;
    for call in 0..3usize {
        let ended = run_long(alloc, long_file(alloc, &bytes)?, Some(call as u64))?;
        let front = bytes.get(..call.wrapping_mul(65_536)).unwrap_or_default();
        assert!(rt;
            ended.is(Status::OutFault, front, b"output fault\n"),
            "{call}"
        );
    }
    Ok(())
}

// Call 0 opens the file, 1 asks for page 0, 2 for the page of the text, and the later ones for pages 1 to 137.
#[test]
fn a_failed_call_of_the_source_stops_a_blob(rt: HostRuntime) -> Result<(), Fail> {
    let alloc = rt.alloc();
    let bytes = long_bytes(alloc)?;
    for call in [0usize, 1, 2, 3, 66, 67, 68, 139] {
        let mut source = source_of(alloc, long_file(alloc, &bytes)?)?;
        source.fail_at(call as u64)?;
        let out = MemSink::new(alloc, LONG)?;
        let words: [&str; 3] = ["blob", "scan", "0"];
        let ended = run_words(alloc, &words, source, out, room(alloc)?)?;
        let is_so = ended.status == Status::SourceFault
            && ended.err.bytes() == b"source fault\n".as_slice()
            && bytes.starts_with(ended.out.bytes());
        assert!(rt; is_so, "{call}");
    }
    Ok(())
}
