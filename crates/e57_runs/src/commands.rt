//! Each command line, and what it puts.

use e57_samples::files::{
    THREE_RECORDS_TEXT, WordOrder, changed, three_records, two_pages, two_points,
};
use e57_samples::runs::{failing_sink, room, run_on, run_words, source_of};
use e57_tool::Status;
use std::alloc::{AllocError, Global};
use std::test::*;

// What the file of a run holds.
#[derive(Clone, Copy)]
enum Content {
    TwoPages,
    OtherWordOrder,
    TwoPoints,
    ThreeRecords,
    Damaged,
    OtherVersion,
    OddLength,
    Nothing,
}

fn bytes_of(alloc: Global, content: Content) -> Result<Vec<u8>, AllocError> {
    let first = WordOrder::MostSignificantFirst;
    match content {
        Content::TwoPages => two_pages(alloc, first),
        Content::OtherWordOrder => two_pages(alloc, WordOrder::LeastSignificantFirst),
        Content::TwoPoints => two_points(alloc),
        Content::ThreeRecords => three_records(alloc),
        Content::Damaged => Ok(changed(two_pages(alloc, first)?, 1500)),
        Content::OtherVersion => Ok(changed(two_pages(alloc, first)?, 12)),
        Content::OddLength => vec![in alloc; 0; 1500],
        Content::Nothing => Ok(Vec::new(alloc)),
    }
}

// The words, what the file `scan` holds, the status, the output, the line on `err`, and the pages asked for.
type Case = (
    &'static [&'static str],
    Content,
    Status,
    &'static str,
    &'static str,
    &'static [u64],
);

const PAGES: &[&str] = &["pages", "scan"];

const LINE: &str = "pages 2 xml 136 933\n";

const THREE_RECORDS_LINES: &str = "cloud 0 /p records 3 fields 4
field 0 x integer 0 7
field 1 c integer 5 5
field 2 f float32
field 3 s string
";

const HELP: &str = "e57 pages FILE   test the checksums of all pages
e57 info FILE    show the element tree
e57 list FILE    list the clouds with their fields, and the blobs
e57 check FILE   judge the whole file
e57 blob FILE K  write the bytes of blob K
e57 extract FILE CLOUD [--fields=A,B] [--from=I] [--count=N] [--decimal=yes]  write records as rows
e57 repack IN OUT [--chunk=N] [--tight=yes]  write an accepted file anew
e57 filter IN OUT CLOUD [--fields=A,B] [--keep=FIELD:LOW:HIGH].. [--every=K] [--from=I] [--count=N]  write some of a cloud
e57 trial START COUNT  make two files of COUNT records in memory, check and read them
e57 --help       show this text, as -h does
e57 --version    show the version
status 0   done
status 1   the file has a fault
status 2   the words are no valid command
status 3   the file couldn't be opened or read
status 4   the output couldn't be written
status 5   out of memory
status 6   the file doesn't have what was asked for
";

#[rattlefmt::skip]
const CASES: [Case; 29] = [
    (PAGES, Content::TwoPages, Status::Done, LINE, "", &[0, 0, 1]),
    (PAGES, Content::OtherWordOrder, Status::Done, LINE, "", &[0, 0, 1]),
    (PAGES, Content::TwoPoints, Status::Done, LINE, "", &[0, 0, 1]),
    (PAGES, Content::ThreeRecords, Status::Done, "pages 3 xml 2048 320\n", "", &[0, 0, 1, 2]),
    (PAGES, Content::Damaged, Status::Refused, "", "refused Page 1 0\n", &[0, 0, 1]),
    (PAGES, Content::OtherVersion, Status::Refused, "", "refused Version 1 1\n", &[0]),
    (PAGES, Content::OddLength, Status::Refused, "", "refused FileLength 1500 0\n", &[]),
    (PAGES, Content::Nothing, Status::Refused, "", "refused FileLength 0 0\n", &[]),
    (&["info", "scan"], Content::OtherVersion, Status::Refused, "", "refused Version 1 1\n", &[0]),
    (&["info", "scan"], Content::OddLength, Status::Refused, "", "refused FileLength 1500 0\n", &[]),
    (&["pages", "absent"], Content::TwoPages, Status::SourceFault, "", "source fault\n", &[]),
    (&["info", "absent"], Content::TwoPages, Status::SourceFault, "", "source fault\n", &[]),
    (&["list", "scan"], Content::ThreeRecords, Status::Done, THREE_RECORDS_LINES, "", &[0, 2]),
    (&["list", "scan"], Content::OtherVersion, Status::Refused, "", "refused Version 1 1\n", &[0]),
    (&["list", "scan"], Content::OddLength, Status::Refused, "", "refused FileLength 1500 0\n", &[]),
    (&["list", "absent"], Content::TwoPages, Status::SourceFault, "", "source fault\n", &[]),
    (&["--help"], Content::TwoPages, Status::Done, HELP, "", &[]),
    (&["-h"], Content::TwoPages, Status::Done, HELP, "", &[]),
    (&["--version"], Content::TwoPages, Status::Done, "e57 0.1.0\n", "", &[]),
    (&[], Content::TwoPages, Status::WordsFault, "", "words 0\n", &[]),
    (&["unknown"], Content::TwoPages, Status::WordsFault, "", "words 0\n", &[]),
    (&["--x"], Content::TwoPages, Status::WordsFault, "", "words 0\n", &[]),
    (&["--help", "x"], Content::TwoPages, Status::WordsFault, "", "words 1\n", &[]),
    (&["-h", "x"], Content::TwoPages, Status::WordsFault, "", "words 1\n", &[]),
    (&["--version", "x"], Content::TwoPages, Status::WordsFault, "", "words 1\n", &[]),
    (&["pages"], Content::TwoPages, Status::WordsFault, "", "words 1\n", &[]),
    (&["pages", "--all", "scan"], Content::TwoPages, Status::WordsFault, "", "words 1\n", &[]),
    (&["list"], Content::TwoPages, Status::WordsFault, "", "words 1\n", &[]),
    (&["info", "scan", "b"], Content::TwoPages, Status::WordsFault, "", "words 2\n", &[]),
];

#[test]
fn each_command_line_ends_as_it_should(rt: HostRuntime) -> Result<(), Fail> {
    let alloc = rt.alloc();
    for (words, content, status, out, err, asked) in &CASES {
        let ended = run_on(alloc, words, bytes_of(alloc, *content)?)?;
        let is_so = ended.is(*status, out.as_bytes(), err.as_bytes()) && ended.asked_for(asked);
        assert!(rt; is_so, "{out}{err}");
    }
    Ok(())
}

// The element text is in the written spelling already. Page 1, the cloud's, isn't asked for.
#[test]
fn info_puts_the_written_spelling(rt: HostRuntime) -> Result<(), Fail> {
    let alloc = rt.alloc();
    let ended = run_on(alloc, &["info", "scan"], three_records(alloc)?)?;
    let mut shown = THREE_RECORDS_TEXT.as_bytes().to_vec(alloc)?;
    shown.push(b'\n')?;
    assert!(rt; ended.is(Status::Done, &shown, b""));
    assert!(rt; ended.asked_for(&[0, 2]));
    Ok(())
}

// The words, and the pages that are asked for where no call fails.
const CALLS: [(&[&str], &[u64]); 3] = [
    (&["pages", "scan"], &[0, 0, 1, 2]),
    (&["info", "scan"], &[0, 2]),
    (&["list", "scan"], &[0, 2]),
];

// Call 0 opens the file, and each later one asks for a page.
#[test]
fn each_failed_call_of_the_source_is_a_source_fault(rt: HostRuntime) -> Result<(), Fail> {
    let alloc = rt.alloc();
    for (words, asked) in &CALLS {
        for call in 0..=asked.len() {
            let mut source = source_of(alloc, three_records(alloc)?)?;
            source.fail_at(call as u64)?;
            let ended = run_words(alloc, words, source, room(alloc)?, room(alloc)?)?;
            let (front, _) = asked.split_at(call);
            let is_so = ended.is(Status::SourceFault, b"", b"source fault\n")
                && ended.asked_for(front);
            assert!(rt; is_so, "call {call}");
        }
    }
    Ok(())
}

const PUTTING: [&[&str]; 5] = [
    &["pages", "scan"],
    &["info", "scan"],
    &["list", "scan"],
    &["--help"],
    &["--version"],
];

#[test]
fn a_failed_put_is_an_output_fault(rt: HostRuntime) -> Result<(), Fail> {
    let alloc = rt.alloc();
    for words in &PUTTING {
        let source = source_of(alloc, three_records(alloc)?)?;
        let ended = run_words(alloc, words, source, failing_sink(alloc)?, room(alloc)?)?;
        assert!(rt; ended.is(Status::OutFault, b"", b"output fault\n"));
    }
    Ok(())
}

const FAILING: [(&[&str], Status); 2] = [
    (&["pages", "absent"], Status::SourceFault),
    (&["pages", "--x"], Status::WordsFault),
];

// A line that can't be put changes nothing else.
#[test]
fn a_failed_line_keeps_the_status(rt: HostRuntime) -> Result<(), Fail> {
    let alloc = rt.alloc();
    for (words, status) in &FAILING {
        let source = source_of(alloc, three_records(alloc)?)?;
        let ended = run_words(alloc, words, source, room(alloc)?, failing_sink(alloc)?)?;
        assert!(rt; ended.is(*status, b"", b""));
    }
    Ok(())
}
