//! Worked files, repacked.

use crate::plain::{Thing, written};
use crate::plain_streams::Kind;
use e57_samples::cases::{CASES, Case};
use e57_samples::files::{WordOrder, changed, file, on_own_pages, three_records, two_points};
use e57_samples::made::{BIT, Sample, made};
use e57_samples::runs::{Written, run_on, run_writing};
use e57_tool::Status;
use std::alloc::{AllocError, Global};
use std::test::*;

// `repack` of a file with these further words.
fn repacked(alloc: Global, file: Vec<u8>, options: &[&str]) -> Result<Written, AllocError> {
    let mut words = Vec::new(alloc);
    words.extend_from_slice(&["repack", "scan", "new"])?;
    words.extend_from_slice(options)?;
    run_writing(alloc, &words, file)
}

// The file that is written is this one.
fn gives(alloc: Global, file: Vec<u8>, options: &[&str], made: &[u8]) -> Result<bool, AllocError> {
    Ok(repacked(alloc, file, options)?.is(Status::Done, b"", made))
}

// What a command puts on `out` of a file.
fn shown(alloc: Global, words: &[&str], file: &[u8]) -> Result<Vec<u8>, AllocError> {
    let ended = run_on(alloc, words, file.to_vec(alloc)?)?;
    ended.out.bytes().to_vec(alloc)
}

#[test]
fn a_file_in_the_written_form_stays(rt: HostRuntime) -> Result<(), Fail> {
    let alloc = rt.alloc();
    let file = three_records(alloc)?;
    assert!(rt; gives(alloc, three_records(alloc)?, &[], &file)?);
    assert!(rt; gives(alloc, three_records(alloc)?, &["--chunk=8"], &file)?);
    let six = made(alloc, Sample::SixFields, &[])?;
    assert!(rt;
        gives(
            alloc,
            made(alloc, Sample::SixFields, &[])?,
            &["--chunk=16"],
            &six
        )?
    );
    Ok(())
}

// The offsets of the index and of the chunks of a file without an index are found by its Float field.
#[test]
fn a_file_without_an_index_gets_one(rt: HostRuntime) -> Result<(), Fail> {
    let alloc = rt.alloc();
    let six = made(alloc, Sample::SixFields, &[])?;
    let bare = made(alloc, Sample::SixFields, &[(1044, b"\0\0")])?;
    assert!(rt; gives(alloc, bare, &["--chunk=16"], &six)?);
    Ok(())
}

// The file of one page, in chunks of 8 records: its section of 104 bytes, and its length and that of its text.
const EIGHT: &[u8] = b"\x01\0\0\0\0\0\0\0\x68\0\0\0\0\0\0\0\x20\x04\0\0\0\0\0\0\x38\x04\0\0\0\0\0\0\
\x01\x01\x0b\0\x01\0\x01\0\x15\0\0\0\x01\x01\x0b\0\x01\0\x01\0\x1e\0\0\0\
\0\0\x2f\0\x02\0\0\0\0\0\0\0\0\0\0\0\0\0\0\0\0\0\0\0\x20\x04\0\0\0\0\0\0\x08\0\0\0\0\0\0\0\x2c\x04\0\0\0\0\0\0";

#[test]
fn chunks_are_as_long_as_asked(rt: HostRuntime) -> Result<(), Fail> {
    let alloc = rt.alloc();
    let one = Sample::OnePage("13", BIT);
    let left = repacked(alloc, made(alloc, one, &[])?, &["--chunk=8"])?;
    let file = left.target.bytes();
    assert!(rt; left.ended.is(Status::Done, b"", b""));
    assert_eq!(rt; file.len(), 3072);
    assert!(rt; file.get(1024..1128) == Some(EIGHT));
    assert!(rt;
        shown(alloc, &["pages", "scan"], file)?.as_slice() == b"pages 3 xml 2048 224\n".as_slice()
    );
    assert!(rt;
        shown(alloc, &["check", "scan"], file)?.as_slice() == b"accepted 1 0 13\n".as_slice()
    );
    assert!(rt; gives(alloc, file.to_vec(alloc)?, &["--chunk=8"], file)?);
    Ok(())
}

// What another program wrote keeps its rows, and its repacked file stays.
#[test]
fn rows_are_kept(rt: HostRuntime) -> Result<(), Fail> {
    let alloc = rt.alloc();
    let left = repacked(alloc, two_points(alloc)?, &[])?;
    assert!(rt; left.ended.is(Status::Done, b"", b""));
    let file = left.target.bytes();
    let rows = ["extract", "scan", "0"];
    assert!(rt; shown(alloc, &rows, file)? == shown(alloc, &rows, &two_points(alloc)?)?);
    assert!(rt; gives(alloc, file.to_vec(alloc)?, &[], file)?);
    Ok(())
}

// The first file that `repack` and `check` don't agree on: an accepted one is written, and the new one is accepted too; of any
// other the line is on `err`, and the target has no byte.
fn first_wrong<'a>(alloc: Global, cases: &'a [Case]) -> Result<Option<&'a str>, AllocError> {
    for (sample, edits, line) in cases {
        if line.ends_with(" 1099511627776\n") {
            continue;
        }
        let left = repacked(alloc, made(alloc, *sample, edits)?, &[])?;
        let is_right = if line.starts_with("accepted") {
            left.ended.is(Status::Done, b"", b"")
                && shown(alloc, &["check", "scan"], left.target.bytes())?.as_slice()
                    == line.as_bytes()
        } else {
            left.is(Status::Refused, line.as_bytes(), b"")
        };
        if !is_right {
            return Ok(Some(*line));
        }
    }
    Ok(None)
}

#[test]
fn a_file_with_a_fault_is_not_written(rt: HostRuntime) -> Result<(), Fail> {
    let alloc = rt.alloc();
    assert_eq!(rt; first_wrong(alloc, CASES)?, None);
    let damaged = changed(made(alloc, Sample::TwoPoints, &[])?, 1500);
    assert!(rt; repacked(alloc, damaged, &[])?.is(Status::Refused, b"refused Page 1 0\n", b""));
    Ok(())
}

const NARROW_FIELDS: &str = "cloud 0 /p records 3 fields 4
field 0 x integer 1 7
field 1 c integer 5 5
field 2 f float32
field 3 s string
";

// Of three records the first field has values from 1 to 7, and limits from 0 to 7; in its stream they become 0, 5 and 6.
#[test]
fn limits_become_narrow(rt: HostRuntime) -> Result<(), Fail> {
    let alloc = rt.alloc();
    let left = repacked(alloc, three_records(alloc)?, &["--tight=yes"])?;
    let file = left.target.bytes();
    assert!(rt; left.ended.is(Status::Done, b"", b""));
    assert!(rt; file.get(1070..1072) == Some(b"\xa8\x01".as_slice()));
    assert!(rt; shown(alloc, &["list", "scan"], file)?.as_slice() == NARROW_FIELDS.as_bytes());
    let rows = ["extract", "scan", "0"];
    assert!(rt; shown(alloc, &rows, file)? == shown(alloc, &rows, &three_records(alloc)?)?);
    assert!(rt; gives(alloc, file.to_vec(alloc)?, &["--tight=yes"], file)?);
    Ok(())
}

// A section of two records, -1 and 4, of an integer of 64 bits, from page 1 on.
const WIDE: &[u8] = b"\x01\0\0\0\0\0\0\0\x38\0\0\0\0\0\0\0\x20\x04\0\0\0\0\0\0\0\0\0\0\0\0\0\0\
\x01\x01\x17\0\x01\0\x10\0\xff\xff\xff\xff\xff\xff\xff\x7f\x04\0\0\0\0\0\0\x80";

const WIDE_TEXT: &str =
    "<e57Root type='Structure'><p type='CompressedVector' fileOffset='1024' recordCount='2'><prototype type='Structure'><x type='Integer'/></prototype></p></e57Root>";

const NARROW_TEXT: &str = "<?xml version=\"1.0\" encoding=\"UTF-8\"?>
<e57Root type=\"Structure\"><p type=\"CompressedVector\" fileOffset=\"1024\" recordCount=\"2\"><prototype type=\"Structure\"><x type=\"Integer\" minimum=\"-1\" maximum=\"4\"/></prototype></p></e57Root>
";

#[test]
fn limits_come_where_none_stand(rt: HostRuntime) -> Result<(), Fail> {
    let alloc = rt.alloc();
    let logical = on_own_pages(alloc, WIDE, WIDE_TEXT.as_bytes())?;
    let wide = file(alloc, &logical, WordOrder::MostSignificantFirst)?;
    let left = repacked(alloc, wide, &["--tight=yes"])?;
    let narrow = left.target.bytes();
    assert!(rt; left.ended.is(Status::Done, b"", b""));
    assert!(rt; shown(alloc, &["info", "scan"], narrow)?.as_slice() == NARROW_TEXT.as_bytes());
    assert!(rt;
        shown(alloc, &["extract", "scan", "0"], narrow)?.as_slice() == b"x\n-1\n4\n".as_slice()
    );
    Ok(())
}

const FIELDS_OF_EACH: &str = "cloud 0 /t0 records 3 fields 3
field 0 f0 integer 304 389
field 1 f1 string
field 2 f2 integer -1 24
cloud 1 /t1 records 0 fields 3
field 0 f0 integer -3 508
field 1 f1 string
field 2 f2 integer -3 28
cloud 2 /t2 records 900 fields 3
field 0 f0 integer -3 507
field 1 f1 string
field 2 f2 integer -3 28
";

// Two clouds of the same fields get limits of their own, and one without records keeps its limits.
#[test]
fn each_cloud_has_limits_of_its_own(rt: HostRuntime) -> Result<(), Fail> {
    let alloc = rt.alloc();
    let some = [Kind::Bits(9), Kind::Texts(3), Kind::Bits(5)];
    let things = [
        Thing::Cloud(&some, 3),
        Thing::Cloud(&some, 0),
        Thing::Cloud(&some, 900),
    ];
    let wide = written(alloc, &things, 8)?;
    let left = repacked(alloc, wide.to_vec(alloc)?, &["--tight=yes", "--chunk=16"])?;
    let narrow = left.target.bytes();
    assert!(rt; left.ended.is(Status::Done, b"", b""));
    assert!(rt;
        shown(alloc, &["check", "scan"], narrow)?.as_slice() == b"accepted 3 0 903\n".as_slice()
    );
    for cloud in ["0", "1", "2"] {
        let rows = ["extract", "scan", cloud];
        assert!(rt;
            shown(alloc, &rows, narrow)? == shown(alloc, &rows, &wide)?,
            "cloud {cloud}"
        );
    }
    assert!(rt; shown(alloc, &["list", "scan"], narrow)?.as_slice() == FIELDS_OF_EACH.as_bytes());
    assert!(rt; narrow.len() <= wide.len());
    Ok(())
}

// Words that ask for nothing, and the line of each.
const FAULTY: [(&[&str], &str); 9] = [
    (&["repack"], "words 1\n"),
    (&["repack", "scan"], "words 2\n"),
    (&["repack", "scan", "scan"], "words 2\n"),
    (&["repack", "scan", "--new"], "words 2\n"),
    (&["repack", "scan", "new", "--tight=no"], "words 3\n"),
    (&["repack", "scan", "new", "--chunk=12"], "words 3\n"),
    (&["repack", "scan", "new", "--chunk=0"], "words 3\n"),
    (
        &["repack", "scan", "new", "--chunk=8", "--chunk=8"],
        "words 4\n",
    ),
    (&["repack", "scan", "new", "more"], "words 3\n"),
];

#[test]
fn faulty_words_call_nothing(rt: HostRuntime) -> Result<(), Fail> {
    let alloc = rt.alloc();
    for (words, line) in &FAULTY {
        let left = run_writing(alloc, words, three_records(alloc)?)?;
        assert!(rt; left.is(Status::WordsFault, line.as_bytes(), b""), "{line}");
        assert!(rt; left.ended.asked_for(&[]));
    }
    Ok(())
}
