//! Worked files and files of the plain program, filtered.

use crate::plain::{Thing, limits, written};
use crate::plain_streams::{Kind, integer};
use e57_samples::cases::{CASES, Case};
use e57_samples::files::{WordOrder, changed, file, on_own_pages, three_records};
use e57_samples::made::{BIT, Sample, made};
use e57_samples::runs::{Written, run_into, run_on, run_writing, source_of, target_of};
use e57_tool::Status;
use std::alloc::{AllocError, Global};
use std::test::*;

// `filter` of a file: the number of a cloud, and options.
fn filtered(alloc: Global, file: Vec<u8>, more: &[&str]) -> Result<Written, AllocError> {
    let mut words = Vec::new(alloc);
    words.extend_from_slice(&["filter", "scan", "new"])?;
    words.extend_from_slice(more)?;
    run_writing(alloc, &words, file)
}

// `filter` of the first cloud of a file, with these options.
fn filtered_first(alloc: Global, file: Vec<u8>, options: &[&str]) -> Result<Written, AllocError> {
    let mut more = Vec::new(alloc);
    more.push("0")?;
    more.extend_from_slice(options)?;
    filtered(alloc, file, &more)
}

// The command puts this on `out` of a file.
fn shows(alloc: Global, words: &[&str], file: &[u8], out: &[u8]) -> Result<bool, AllocError> {
    Ok(run_on(alloc, words, file.to_vec(alloc)?)?.is(Status::Done, out, b""))
}

// The file is in the written form: repacked it stays.
fn is_written_form(alloc: Global, file: &[u8]) -> Result<bool, AllocError> {
    let left = run_writing(alloc, &["repack", "scan", "new"], file.to_vec(alloc)?)?;
    Ok(left.is(Status::Done, b"", file))
}

// Options behind the number of the first cloud, and the rows of that cloud in the new file.
type RowsCase = (&'static [&'static str], &'static str);

// A file in the written form is made, whose first cloud has these rows.
fn gives_rows(alloc: Global, sample: Sample, case: &RowsCase) -> Result<bool, AllocError> {
    let (options, rows) = case;
    let left = filtered_first(alloc, made(alloc, sample, &[])?, options)?;
    let made = left.target.bytes();
    Ok(
        left.ended.is(Status::Done, b"", b"")
            && shows(alloc, &["extract", "scan", "0"], made, rows.as_bytes())?
            && is_written_form(alloc, made)?,
    )
}

// ---- thirteen records of one bit: 1, 0, 1, 0, 1 in a chunk, and 0, 0, 0, 0, 1, 1, 1, 1 in the next

const ALL_BITS: &str = "x\n1\n0\n1\n0\n1\n0\n0\n0\n0\n1\n1\n1\n1\n";

const ZEROS: &str = "x\n0\n0\n0\n0\n0\n0\n";

const ONES: &str = "x\n1\n1\n1\n1\n1\n1\n1\n";

// As many limits as may stand.
const EIGHT_KEEPS: &[&str] = &[
    "--keep=x:0:1",
    "--keep=x:-1:1",
    "--keep=x:0:2",
    "--keep=x:-3:5",
    "--keep=x:1:9",
    "--keep=x:0:1",
    "--keep=x:0:1",
    "--keep=x:-7:1",
];

#[rattlefmt::skip]
const BITS: [RowsCase; 20] = [
    (&[], ALL_BITS),
    (&["--fields=x"], ALL_BITS),
    (&["--from=1", "--count=12", "--every=2", "--keep=x:1:1"], "x\n1\n1\n"),
    (&["--keep=x:1:1", "--every=2", "--count=12", "--from=1"], "x\n1\n1\n"),
    (&["--keep=x:0:1"], ALL_BITS),
    (&["--keep=x:-9223372036854775808:0"], ZEROS),
    (&["--keep=x:1:9223372036854775807"], ONES),
    (EIGHT_KEEPS, ONES),
    (&["--from=3", "--every=4"], "x\n0\n0\n1\n"),
    (&["--count=7", "--every=3"], "x\n1\n0\n0\n"),
    (&["--from=5", "--every=8"], "x\n0\n"),
    (&["--every=13"], "x\n1\n"),
    (&["--every=18446744073709551615"], "x\n1\n"),
    (&["--from=12"], "x\n1\n"),
    (&["--from=13"], "x\n"),
    (&["--from=13", "--count=0"], "x\n"),
    (&["--count=0"], "x\n"),
    (&["--keep=x:0:0", "--keep=x:1:1"], "x\n"),
    (&["--keep=x:1:0"], "x\n"),
    (&["--keep=x:2:3"], "x\n"),
];

#[test]
fn records_of_two_chunks(rt: HostRuntime) -> Result<(), Fail> {
    let alloc = rt.alloc();
    for (k, case) in BITS.iter().enumerate() {
        assert!(rt;
            gives_rows(alloc, Sample::OnePage("13", BIT), case)?,
            "row {k}"
        );
    }
    Ok(())
}

const NO_BITS_TEXT: &str = "<?xml version=\"1.0\" encoding=\"UTF-8\"?>
<e57Root type=\"Structure\"><p type=\"CompressedVector\" fileOffset=\"0\" recordCount=\"0\"><prototype type=\"Structure\"><x type=\"Integer\" minimum=\"0\" maximum=\"1\"/></prototype></p></e57Root>";

// Of a cloud of which no record is kept there is no section: page 1 has the element text, of 220 bytes.
#[test]
fn no_record_takes_no_section(rt: HostRuntime) -> Result<(), Fail> {
    let alloc = rt.alloc();
    let logical = on_own_pages(alloc, b"", NO_BITS_TEXT.as_bytes())?;
    let bare = file(alloc, &logical, WordOrder::MostSignificantFirst)?;
    let bits = made(alloc, Sample::OnePage("13", BIT), &[])?;
    let left = filtered_first(alloc, bits, &["--keep=x:2:3"])?;
    assert!(rt; left.is(Status::Done, b"", &bare));
    assert_eq!(rt; bare.len(), 2048);
    assert!(rt; shows(alloc, &["pages", "scan"], &bare, b"pages 2 xml 1024 220\n")?);
    assert!(rt; shows(alloc, &["check", "scan"], &bare, b"accepted 1 0 0\n")?);
    Ok(())
}

// ---- three records: x is 1, 6, 7, c is 5, f and s are no integers

const THREE_ROWS: &str = "x,c,f,s\n1,5,3f800000,\n6,5,40000000,abc\n7,5,00000000,q\n";

// A limit is that of the value, and not of what is stored of it: each c is stored in no bits.
#[rattlefmt::skip]
const THREE: [RowsCase; 9] = [
    (&["--fields=x,s", "--keep=x:6:7"], "x,s\n6,abc\n7,q\n"),
    (&["--fields=s,x", "--keep=x:6:7"], "x,s\n6,abc\n7,q\n"),
    (&["--fields=s", "--keep=x:6:6"], "s\nabc\n"),
    (&["--fields=s", "--keep=x:1:1"], "s\n\"\"\n"),
    (&["--fields=f", "--keep=x:2:7", "--keep=c:5:5", "--every=2"], "f\n00000000\n"),
    (&["--fields=c", "--from=1"], "c\n5\n5\n"),
    (&["--keep=c:5:5"], THREE_ROWS),
    (&["--keep=c:0:0"], "x,c,f,s\n"),
    (&["--keep=c:6:9"], "x,c,f,s\n"),
];

#[test]
fn fields_and_records(rt: HostRuntime) -> Result<(), Fail> {
    let alloc = rt.alloc();
    for (k, case) in THREE.iter().enumerate() {
        assert!(rt; gives_rows(alloc, Sample::ThreeRecords, case)?, "row {k}");
    }
    Ok(())
}

const TWO_RECORDS_TEXT: &str = "<?xml version=\"1.0\" encoding=\"UTF-8\"?>
<e57Root type=\"Structure\"><p type=\"CompressedVector\" fileOffset=\"1024\" recordCount=\"2\"><prototype type=\"Structure\"><x type=\"Integer\" minimum=\"0\" maximum=\"7\"/><s type=\"String\"/></prototype></p></e57Root>";

// The section of `two_records`: its header, a data packet and an index packet.
const TWO_RECORDS: &[u8] =
    b"\x01\0\0\0\0\0\0\0\x54\0\0\0\0\0\0\0\x20\x04\0\0\0\0\0\0\x34\x04\0\0\0\0\0\0\
\x01\x01\x13\0\x02\0\x01\0\x06\0\x3e\x06abc\x02q\0\0\0\
\0\0\x1f\0\x01\0\0\0\0\0\0\0\0\0\0\0\0\0\0\0\0\0\0\0\x20\x04\0\0\0\0\0\0";

/// What keeps two fields and two records of `three_records`.
pub const TWO_RECORDS_WORDS: &[&str] = &[
    "filter",
    "scan",
    "new",
    "0",
    "--fields=x,s",
    "--keep=x:6:7",
];

/// The file that has these alone.
pub fn two_records(alloc: Global) -> Result<Vec<u8>, AllocError> {
    let logical = on_own_pages(alloc, TWO_RECORDS, TWO_RECORDS_TEXT.as_bytes())?;
    file(alloc, &logical, WordOrder::MostSignificantFirst)
}

#[test]
fn two_of_three_records(rt: HostRuntime) -> Result<(), Fail> {
    let alloc = rt.alloc();
    let left = run_writing(alloc, TWO_RECORDS_WORDS, three_records(alloc)?)?;
    assert!(rt; left.is(Status::Done, b"", &two_records(alloc)?));
    Ok(())
}

// ---- what isn't there

// What a file holds, the number of a cloud and options, and the line on `err`.
type AskCase = (Sample, &'static [&'static str], &'static str);

const ONE_BIT: Sample = Sample::OnePage("13", BIT);

const FOUR_FIELDS: Sample = Sample::ThreeRecords;

#[rattlefmt::skip]
const ASKS: [AskCase; 18] = [
    (ONE_BIT, &["1"], "ask cloud 1 1\n"),
    (ONE_BIT, &["1", "--fields=y", "--keep=y:0:1", "--from=14"], "ask cloud 1 1\n"),
    (ONE_BIT, &["0", "--fields=y"], "ask field 0 1\n"),
    (ONE_BIT, &["0", "--fields=x,y"], "ask field 1 1\n"),
    (ONE_BIT, &["0", "--fields=y", "--keep=y:0:1", "--from=14"], "ask field 0 1\n"),
    (ONE_BIT, &["0", "--keep=y:0:1"], "ask keep 0 1\n"),
    (ONE_BIT, &["0", "--keep=x:0:1", "--keep=y:0:1"], "ask keep 1 1\n"),
    (ONE_BIT, &["0", "--keep=a:b:0:1"], "ask keep 0 1\n"),
    (ONE_BIT, &["0", "--keep=y:0:1", "--from=14"], "ask keep 0 1\n"),
    (ONE_BIT, &["0", "--from=14"], "ask range 14 13\n"),
    (ONE_BIT, &["0", "--from=1", "--count=13", "--every=20"], "ask range 14 13\n"),
    (ONE_BIT, &["0", "--from=1099511627776", "--count=1099511627776"], "ask range 2199023255552 13\n"),
    (FOUR_FIELDS, &["0", "--keep=s:0:1"], "ask integer 0 4\n"),
    (FOUR_FIELDS, &["0", "--keep=f:0:1"], "ask integer 0 4\n"),
    (FOUR_FIELDS, &["0", "--keep=x:0:1", "--keep=s:0:1", "--keep=y:0:1"], "ask integer 1 4\n"),
    (FOUR_FIELDS, &["0", "--keep=y:0:1", "--keep=s:0:1"], "ask keep 0 4\n"),
    (FOUR_FIELDS, &["0", "--keep=s:0:1", "--count=4"], "ask integer 0 4\n"),
    (Sample::InRoot("<b type='Blob' fileOffset='48' length='5'/>"), &["0"], "ask cloud 0 0\n"),
];

// The run ends with the line of the case, over a target whose first call would fail.
fn is_not_there(alloc: Global, case: &AskCase) -> Result<bool, AllocError> {
    let (sample, more, line) = case;
    let mut words = Vec::new(alloc);
    words.extend_from_slice(&["filter", "scan", "new"])?;
    words.extend_from_slice(more)?;
    let mut target = target_of(alloc, 9)?;
    target.fail_at(0)?;
    let source = source_of(alloc, made(alloc, *sample, &[])?)?;
    Ok(run_into(alloc, &words, source, target)?.is(Status::AskRefused, line.as_bytes(), b""))
}

#[test]
fn what_is_not_there_is_named(rt: HostRuntime) -> Result<(), Fail> {
    let alloc = rt.alloc();
    for (k, case) in ASKS.iter().enumerate() {
        assert!(rt; is_not_there(alloc, case)?, "row {k}");
    }
    Ok(())
}

// ---- files with and without a fault

// An accepted file with a cloud is written as `repack` writes it if all is kept; of one without a cloud none is there; of any other
// the line is on `err`, and the target has no byte.
fn is_judged(alloc: Global, case: &Case) -> Result<bool, AllocError> {
    let (sample, edits, line) = case;
    let left = filtered_first(alloc, made(alloc, *sample, edits)?, &["--every=1"])?;
    if line.starts_with("accepted 0") {
        return Ok(left.is(Status::AskRefused, b"ask cloud 0 0\n", b""));
    }
    if !line.starts_with("accepted") {
        return Ok(left.is(Status::Refused, line.as_bytes(), b""));
    }
    let words = ["repack", "scan", "new"];
    let other = run_writing(alloc, &words, made(alloc, *sample, edits)?)?;
    Ok(other.ended.status == Status::Done && left.is(Status::Done, b"", other.target.bytes()))
}

// The first file that isn't judged as `check` judges it.
fn first_wrong<'a>(alloc: Global, cases: &'a [Case]) -> Result<Option<&'a str>, AllocError> {
    for case in cases {
        if !case.2.ends_with(" 1099511627776\n") && !is_judged(alloc, case)? {
            return Ok(Some(case.2));
        }
    }
    Ok(None)
}

#[test]
fn a_file_with_a_fault_is_not_written(rt: HostRuntime) -> Result<(), Fail> {
    let alloc = rt.alloc();
    assert_eq!(rt; first_wrong(alloc, CASES)?, None);
    let damaged = changed(made(alloc, Sample::TwoPoints, &[])?, 1500);
    let left = filtered_first(alloc, damaged, &["--fields=absent"])?;
    assert!(rt; left.is(Status::Refused, b"refused Page 1 0\n", b""));
    Ok(())
}

// ---- beside the plain program

const KINDS: &[Kind] = &[
    Kind::Bits(20),
    Kind::Bits(0),
    Kind::Bytes(4),
    Kind::Texts(200),
    Kind::Bytes(8),
    Kind::Bits(64),
    Kind::Bits(1),
    Kind::Bits(12),
];

// Which records of a cloud are kept: each `every`-th one of those from `from` on and before `until` whose integers are within limits,
// each of a field by its number.
struct Picked {
    from: u64,
    until: u64,
    every: u64,
    tests: &'static [(usize, i64, i64)],
}

// The integer of record i in this field is within the limits.
fn is_within(kinds: &[Kind], test: &(usize, i64, i64), i: u64) -> bool {
    let (f, low, high) = test;
    match kinds.get(*f) {
        Some(Kind::Bits(width)) => {
            let value = integer(*width, limits(*width).0, *f as u64, i);
            *low <= value && value <= *high
        }
        _ => false,
    }
}

// The numbers of the records that are kept.
fn kept_records(alloc: Global, kinds: &[Kind], picked: &Picked) -> Result<Vec<u64>, AllocError> {
    let mut kept = Vec::new(alloc);
    for i in picked.from..picked.until {
        let mut passes = i.wrapping_sub(picked.from) % picked.every.max(1) == 0;
        for test in picked.tests {
            passes = passes && is_within(kinds, test, i);
        }
        if passes {
            kept.push(i)?;
        }
    }
    Ok(kept)
}

// A cloud, options, and the numbers of the fields and records that they keep of it.
struct PartCase {
    kinds: &'static [Kind],
    count: u64,
    options: &'static [&'static str],
    fields: &'static [usize],
    picked: Picked,
}

const ALL: &[usize] = &[0, 1, 2, 3, 4, 5, 6, 7];

#[rattlefmt::skip]
const PARTS: [PartCase; 10] = [
    PartCase { kinds: KINDS, count: 3000, options: &["--count=1025"], fields: ALL,
        picked: Picked { from: 0, until: 1025, every: 1, tests: &[] } },
    PartCase { kinds: KINDS, count: 3000, options: &["--from=7", "--every=3"], fields: ALL,
        picked: Picked { from: 7, until: 3000, every: 3, tests: &[] } },
    PartCase { kinds: KINDS, count: 3000, options: &["--keep=f7:0:99"], fields: ALL,
        picked: Picked { from: 0, until: 3000, every: 1, tests: &[(7, 0, 99)] } },
    PartCase { kinds: KINDS, count: 3000,
        options: &["--fields=f7,f0,f3", "--keep=f7:-3:1000", "--keep=f6:-3:-3"], fields: &[0, 3, 7],
        picked: Picked { from: 0, until: 3000, every: 1, tests: &[(7, -3, 1000), (6, -3, -3)] } },
    PartCase { kinds: KINDS, count: 3000,
        options: &["--fields=f2,f3", "--keep=f5:0:9223372036854775807", "--every=5", "--from=1000", "--count=1999"],
        fields: &[2, 3],
        picked: Picked { from: 1000, until: 2999, every: 5, tests: &[(5, 0, i64::MAX)] } },
    PartCase { kinds: KINDS, count: 3000, options: &["--fields=f1", "--keep=f1:7:7"], fields: &[1],
        picked: Picked { from: 0, until: 3000, every: 1, tests: &[(1, 7, 7)] } },
    PartCase { kinds: KINDS, count: 3000, options: &["--fields=f4,f5", "--keep=f1:8:9"], fields: &[4, 5],
        picked: Picked { from: 0, until: 3000, every: 1, tests: &[(1, 8, 9)] } },
    PartCase { kinds: KINDS, count: 3000, options: &["--fields=f3", "--from=2999"], fields: &[3],
        picked: Picked { from: 2999, until: 3000, every: 1, tests: &[] } },
    PartCase { kinds: &[Kind::Bits(3), Kind::Texts(3)], count: 20_000, options: &["--keep=f0:-3:1"], fields: &[0, 1],
        picked: Picked { from: 0, until: 20_000, every: 1, tests: &[(0, -3, 1)] } },
    PartCase { kinds: &[Kind::Bits(3), Kind::Texts(40_000)], count: 40, options: &["--keep=f0:0:4"], fields: &[0, 1],
        picked: Picked { from: 0, until: 40, every: 1, tests: &[(0, 0, 4)] } },
];

// A file of blobs and clouds, with this one as the second cloud.
fn among_others(alloc: Global, second: Thing<'_>, chunk: u64) -> Result<Vec<u8>, AllocError> {
    let mut things = Vec::new(alloc);
    things.push(Thing::Blob(1004))?;
    things.push(Thing::Cloud(KINDS, 100))?;
    things.push(second)?;
    things.push(Thing::Blob(5))?;
    things.push(Thing::Cloud(KINDS, 0))?;
    written(alloc, &things, chunk)
}

// The second cloud is filtered, and all else stays.
fn is_written_in_part(alloc: Global, case: &PartCase) -> Result<bool, AllocError> {
    let whole = Thing::Cloud(case.kinds, case.count);
    let mut more = Vec::new(alloc);
    more.push("1")?;
    more.extend_from_slice(case.options)?;
    let left = filtered(alloc, among_others(alloc, whole, 24)?, &more)?;
    let records = kept_records(alloc, case.kinds, &case.picked)?;
    let part = Thing::Part(case.kinds, case.fields, &records);
    Ok(left.is(Status::Done, b"", &among_others(alloc, part, 8192)?))
}

#[test]
fn parts_as_the_plain_program_writes_them(rt: HostRuntime) -> Result<(), Fail> {
    let alloc = rt.alloc();
    for (k, case) in PARTS.iter().enumerate() {
        assert!(rt; is_written_in_part(alloc, case)?, "row {k}");
    }
    Ok(())
}

// ---- words

// Words that ask for nothing, and the line of each.
type WordsCase = (&'static [&'static str], &'static str);

const BEFORE_OPTIONS: [WordsCase; 8] = [
    (&["filter"], "words 1\n"),
    (&["filter", "scan"], "words 2\n"),
    (&["filter", "scan", "scan", "0"], "words 2\n"),
    (&["filter", "scan", "--new", "0"], "words 2\n"),
    (&["filter", "scan", "new"], "words 3\n"),
    (&["filter", "scan", "new", "x"], "words 3\n"),
    (&["filter", "scan", "new", "--every=1"], "words 3\n"),
    (&["filter", "scan", "new", "0", "more"], "words 4\n"),
];

// Options of which the last one is at fault, behind `filter scan new 0`.
#[rattlefmt::skip]
const OPTIONS: [&[&str]; 23] = [
    &["--chunk=8"],
    &["--decimal=yes"],
    &["--every=0"],
    &["--every="],
    &["--every=2", "--every=2"],
    &["--from=1099511627777"],
    &["--from=1", "--from=1"],
    &["--count=1099511627777"],
    &["--count=1", "--count=2"],
    &["--fields="],
    &["--fields=x,x"],
    &["--fields=x,,c"],
    &["--fields=x", "--fields=c"],
    &["--keep="],
    &["--keep=x"],
    &["--keep=x:1"],
    &["--keep=:1:2"],
    &["--keep=x:1:"],
    &["--keep=x::1"],
    &["--keep=x:1:9223372036854775808"],
    &["--keep=x:-9223372036854775809:1"],
    &["--keep=x:+1:2"],
    &["--keep=x:0:1", "--keep=x:0:1", "--keep=x:0:1", "--keep=x:0:1", "--keep=x:0:1", "--keep=x:0:1", "--keep=x:0:1",
        "--keep=x:0:1", "--keep=x:0:1"],
];

// The words end the run with this line, and no file is opened or made.
fn asks_nothing(alloc: Global, words: &[&str], line: &str) -> Result<bool, AllocError> {
    let left = run_writing(alloc, words, three_records(alloc)?)?;
    Ok(left.is(Status::WordsFault, line.as_bytes(), b"") && left.ended.asked_for(&[]))
}

// The last of these options is named.
fn names_last(alloc: Global, options: &[&str]) -> Result<bool, AllocError> {
    let mut words = Vec::new(alloc);
    words.extend_from_slice(&["filter", "scan", "new", "0"])?;
    words.extend_from_slice(options)?;
    let last = words.len().wrapping_sub(1);
    let line = format!(in alloc; "words {last}\n")?;
    asks_nothing(alloc, &words, line.as_str())
}

#[test]
fn faulty_words_call_nothing(rt: HostRuntime) -> Result<(), Fail> {
    let alloc = rt.alloc();
    for (words, line) in &BEFORE_OPTIONS {
        assert!(rt; asks_nothing(alloc, words, line)?, "{line}");
    }
    for (k, options) in OPTIONS.iter().enumerate() {
        assert!(rt; names_last(alloc, options)?, "row {k}");
    }
    Ok(())
}
