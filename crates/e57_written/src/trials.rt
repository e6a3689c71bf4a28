//! `trial`, and commands over the large files that are made of two numbers.

use e57_base::{MemTarget, WriteFault};
use e57_samples::files::changed;
use e57_samples::made::{Sample, made};
use e57_samples::runs::{Ended, failing_sink, room, run_on, run_words, run_writing, source_of};
use e57_tool::Status;
use e57_trial::{build_trial, write_trial};
use std::alloc::{AllocError, Global};
use std::test::*;

// ---- the command

const FAULTY: [(&[&str], &str); 9] = [
    (&["trial"], "words 1\n"),
    (&["trial", "x", "1"], "words 1\n"),
    (&["trial", "18446744073709551616", "1"], "words 1\n"),
    (&["trial", "1"], "words 2\n"),
    (&["trial", "1", "-1"], "words 2\n"),
    (&["trial", "1", "16777217"], "words 2\n"),
    (&["trial", "1", "--chunk=8"], "words 2\n"),
    (&["trial", "1", "2", "3"], "words 3\n"),
    (&["trial", "1", "2", "--chunk=8"], "words 3\n"),
];

const LINES: [(&[&str], &str); 3] = [
    (
        &["trial", "0", "20"],
        "trial 0 20 first 3072 second 3072 sum 570\n",
    ),
    (
        &["trial", "7", "0"],
        "trial 7 0 first 2048 second 2048 sum 0\n",
    ),
    (
        &["trial", "007", "00"],
        "trial 7 0 first 2048 second 2048 sum 0\n",
    ),
];

// The run ended so, and called nothing of the source.
fn ends_so(
    alloc: Global,
    words: &[&str],
    status: Status,
    out: &str,
    err: &str,
) -> Result<bool, AllocError> {
    let ended = run_on(alloc, words, Vec::new(alloc))?;
    Ok(ended.is(status, out.as_bytes(), err.as_bytes()) && ended.asked_for(&[]))
}

#[test]
fn faulty_words_make_nothing(rt: HostRuntime) -> Result<(), Fail> {
    let alloc = rt.alloc();
    for (words, line) in &FAULTY {
        assert!(rt;
            ends_so(alloc, words, Status::WordsFault, "", line)?,
            "{line}"
        );
    }
    Ok(())
}

#[test]
fn one_line_is_put(rt: HostRuntime) -> Result<(), Fail> {
    let alloc = rt.alloc();
    for (words, line) in &LINES {
        assert!(rt; ends_so(alloc, words, Status::Done, line, "")?, "{line}");
    }
    Ok(())
}

#[test]
fn a_failed_put_is_an_output_fault(rt: HostRuntime) -> Result<(), Fail> {
    let alloc = rt.alloc();
    let words: [&str; 3] = ["trial", "0", "20"];
    let source = source_of(alloc, Vec::new(alloc))?;
    let ended = run_words(alloc, &words, source, failing_sink(alloc)?, room(alloc)?)?;
    assert!(rt; ended.is(Status::OutFault, b"", b"output fault\n"));
    Ok(())
}

// ---- files

// What a file holds that is made of two numbers, the first of which is 0.
#[derive(Clone, Copy)]
enum Made {
    // 24,576 records in three chunks.
    Three,
    // As many in 3,072 chunks.
    Many,
    // 20 records in two chunks.
    Two,
    // As many in one chunk.
    One,
}

fn write(alloc: Global, what: Made, target: MemTarget) -> (MemTarget, Result<u64, WriteFault>) {
    match what {
        Made::Three => write_trial(alloc, 0, 24_576, 8192, target),
        Made::Many => write_trial(alloc, 0, 24_576, 8, target),
        Made::Two => write_trial(alloc, 0, 20, 16, target),
        Made::One => write_trial(alloc, 0, 20, 8192, target),
    }
}

// The file, none if its length isn't the one that was answered.
fn file_of(alloc: Global, what: Made) -> Result<Vec<u8>, AllocError> {
    let (target, answer) = write(alloc, what, MemTarget::new(alloc, 500, 0)?);
    let bytes = target.into_bytes();
    if answer == Ok(bytes.len() as u64) {
        Ok(bytes)
    } else {
        Ok(Vec::new(alloc))
    }
}

#[test]
fn a_small_file_is_the_worked_one(rt: HostRuntime) -> Result<(), Fail> {
    let alloc = rt.alloc();
    let worked = made(alloc, Sample::SixFields, &[])?;
    assert!(rt; file_of(alloc, Made::Two)? == worked);
    for what in [Made::One, Made::Two] {
        let left = run_writing(alloc, REPACK, file_of(alloc, what)?)?;
        assert!(rt; left.is(Status::Done, b"", &worked));
    }
    Ok(())
}

#[test]
fn both_files_are_built(rt: HostRuntime) -> Result<(), Fail> {
    let alloc = rt.alloc();
    let files = build_trial(alloc, 0, 20)?;
    let one = file_of(alloc, Made::One)?;
    assert_eq!(rt; files.sum, 570);
    assert_eq!(rt; one.len(), 3072);
    assert!(rt; files.first.as_slice() == one.as_slice());
    assert!(rt; files.second.as_slice() == one.as_slice());
    Ok(())
}

// ---- records of a large file

const HEADING: &str = "cartesianX,cartesianY,intensity,rowIndex,cartesianZ,tag\n";

const FIRST_ROWS: &str = "0,0,0,0,3f800000,
3,5,1,0,3f800001,a
6,10,2,0,3f800002,aa
9,15,3,0,3f800003,aaa
12,20,4,0,3f800004,
";

const MIDDLE_ROWS: &str = "30000,50000,16,0,3f802710,
30003,50005,17,0,3f802711,a
30006,50010,18,0,3f802712,aa
30009,50015,19,0,3f802713,aaa
30012,50020,20,0,3f802714,
";

const LAST_ROW: &str = "73710,122850,250,0,3f805ffa,aa\n";

const ROWS_BEFORE_THE_DAMAGE: &str = "49140,81900,252,0,3f803ffc,
49143,81905,253,0,3f803ffd,a
49146,81910,254,0,3f803ffe,aa
49149,81915,255,0,3f803fff,aaa
";

// From which record on how many rows are put.
type Range = (&'static str, &'static str);

// `extract` of the range.
fn extracted(alloc: Global, file: Vec<u8>, range: Range) -> Result<Ended, AllocError> {
    let (from, count) = range;
    let words: [&str; 5] = ["extract", "scan", "0", from, count];
    run_on(alloc, &words, file)
}

// The run ended with this status, the heading and these rows, and this line on `err`.
fn has_rows(
    alloc: Global,
    ended: &Ended,
    status: Status,
    rows: &str,
    err: &str,
) -> Result<bool, AllocError> {
    let mut out = HEADING.as_bytes().to_vec(alloc)?;
    out.extend_from_slice(rows.as_bytes())?;
    Ok(ended.is(status, &out, err.as_bytes()))
}

// Each page that was read is one of these: of each pair the first, the second, and those between them.
fn reads_among(ended: &Ended, pages: &[(u64, u64)]) -> bool {
    for page in ended.source.asked() {
        if !is_among(*page, pages) {
            return false;
        }
    }
    true
}

fn is_among(page: u64, pages: &[(u64, u64)]) -> bool {
    pages
        .iter()
        .any(|(low, high)| *low <= page && page <= *high)
}

// The file, the range, the rows, and the pages that may be read: page 0 and the XML section, the section's header and its
// index, and the packets of the chunk.
type Slice = (Made, Range, &'static str, &'static [(u64, u64)]);

const SLICES: [Slice; 2] = [
    (
        Made::Three,
        ("--from=10000", "--count=5"),
        MIDDLE_ROWS,
        &[(0, 1), (101, 201), (302, 303)],
    ),
    (
        Made::Many,
        ("--from=24570", "--count=1"),
        LAST_ROW,
        &[(0, 1), (362, 362), (394, 411)],
    ),
];

#[test]
fn a_slice_reads_its_own_pages(rt: HostRuntime) -> Result<(), Fail> {
    let alloc = rt.alloc();
    for (what, range, rows, pages) in &SLICES {
        let ended = extracted(alloc, file_of(alloc, *what)?, *range)?;
        assert!(rt; has_rows(alloc, &ended, Status::Done, rows, "")?, "{rows}");
        assert!(rt; reads_among(&ended, pages), "{rows}");
    }
    Ok(())
}

// The file of three chunks, with one byte of page 250 changed.
fn damaged(alloc: Global) -> Result<Vec<u8>, AllocError> {
    let file = file_of(alloc, Made::Three)?;
    Ok(changed(file, 256_100))
}

#[test]
fn a_damaged_page_stops_its_own_rows_alone(rt: HostRuntime) -> Result<(), Fail> {
    let alloc = rt.alloc();
    assert_eq!(rt; file_of(alloc, Made::Three)?.len(), 311_296);
    let line = "refused Page 250 0\n";
    assert!(rt;
        puts(
            alloc,
            CHECK,
            &damaged(alloc)?,
            Status::Refused,
            line.as_bytes()
        )?
    );
    let first = extracted(alloc, damaged(alloc)?, ("--from=0", "--count=5"))?;
    assert!(rt; has_rows(alloc, &first, Status::Done, FIRST_ROWS, "")?);
    let cut = extracted(alloc, damaged(alloc)?, ("--from=16380", "--count=8"))?;
    assert!(rt; has_rows(alloc, &cut, Status::Refused, ROWS_BEFORE_THE_DAMAGE, line)?);
    Ok(())
}

// ---- two chunks without an index

// The place of the index and the number of records, as the file of two chunks states them.
const NO_INDEX: (usize, &[u8]) = (1044, b"\0\0");

const SIXTEEN: (usize, &[u8]) = (2273, b"16");

// All rows of the file of two chunks, or as many as the option says.
fn rows_of_two(alloc: Global, option: &str) -> Result<Vec<u8>, AllocError> {
    let words: [&str; 4] = ["extract", "scan", "0", option];
    let ended = run_on(alloc, &words, file_of(alloc, Made::Two)?)?;
    ended.out.bytes().to_vec(alloc)
}

// A command ends with this status of a file, and puts this on `out` alone.
fn puts(
    alloc: Global,
    command: &[&str],
    file: &[u8],
    status: Status,
    out: &[u8],
) -> Result<bool, AllocError> {
    Ok(run_on(alloc, command, file.to_vec(alloc)?)?.is(status, out, b""))
}

const CHECK: &[&str] = &["check", "scan"];

const ROWS: &[&str] = &["extract", "scan", "0"];

const REPACK: &[&str] = &["repack", "scan", "new", "--chunk=16"];

#[test]
fn chunks_are_found_without_an_index(rt: HostRuntime) -> Result<(), Fail> {
    let alloc = rt.alloc();
    let bare = made(alloc, Sample::SixFields, &[NO_INDEX])?;
    let all = rows_of_two(alloc, "--count=20")?;
    assert!(rt; puts(alloc, CHECK, &bare, Status::Done, b"accepted 1 0 20\n")?);
    assert!(rt; puts(alloc, ROWS, &bare, Status::Done, &all)?);
    let left = run_writing(alloc, REPACK, bare)?;
    assert!(rt; left.is(Status::Done, b"", &file_of(alloc, Made::Two)?));
    Ok(())
}

// The first chunk has all 16 records, and without an index a second one may not follow.
#[test]
fn a_chunk_behind_the_last_record_is_refused(rt: HostRuntime) -> Result<(), Fail> {
    let alloc = rt.alloc();
    let short = made(alloc, Sample::SixFields, &[NO_INDEX, SIXTEEN])?;
    let sixteen = rows_of_two(alloc, "--count=16")?;
    let line = b"refused RestartUnindexed 3 1272\n";
    assert!(rt; puts(alloc, CHECK, &short, Status::Refused, line)?);
    assert!(rt; puts(alloc, ROWS, &short, Status::Done, &sixteen)?);
    Ok(())
}
