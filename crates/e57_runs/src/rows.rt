//! Records of a cloud, in rows.

use e57_base::MemSink;
use e57_samples::files::{WordOrder, changed, file, header, three_records, two_points};
use e57_samples::runs::{Ended, ROOM, room, run_on, run_words, source_of};
use e57_tool::Status;
use std::alloc::{AllocError, Global};
use std::test::*;

// ---- files

// A file with this section from byte 48 on, and this text from place `at` on.
fn file_with(alloc: Global, section: &[u8], text: &str, at: usize) -> Result<Vec<u8>, AllocError> {
    let pages = at.wrapping_add(text.len()).div_ceil(1020);
    let place = (at / 1020).wrapping_mul(1024).wrapping_add(at % 1020);
    let mut logical = header(alloc, pages as u64, place as u64, text.len() as u64)?;
    logical.extend_from_slice(section)?;
    logical.resize(at, 0)?;
    logical.extend_from_slice(text.as_bytes())?;
    file(alloc, &logical, WordOrder::MostSignificantFirst)
}

// The logical bytes of a file.
fn logical(alloc: Global, bytes: &[u8]) -> Result<Vec<u8>, AllocError> {
    let mut logical = Vec::new(alloc);
    for page in bytes.chunks(1024) {
        logical.extend_from_slice(page.get(..1020).unwrap_or_default())?;
    }
    Ok(logical)
}

// The file with these logical bytes changed, and right words.
fn edited(alloc: Global, bytes: &[u8], edits: &[(usize, u8)]) -> Result<Vec<u8>, AllocError> {
    let mut logical = logical(alloc, bytes)?;
    for (at, byte) in edits {
        if let Some(place) = logical.get_mut(*at) {
            *place = *byte;
        }
    }
    file(alloc, &logical, WordOrder::MostSignificantFirst)
}

// A section of two chunks, with an index: its header, two data packets of 5 and 8 records of one bit, and an index packet.
const BITS: &[u8] = b"\x01\0\0\0\0\0\0\0\x68\0\0\0\0\0\0\0\x50\0\0\0\0\0\0\0\x68\0\0\0\0\0\0\0\
\x01\x01\x0b\0\x01\0\x01\0\x15\0\0\0\x01\x01\x0b\0\x01\0\x01\0\xf0\0\0\0\
\0\0\x2f\0\x02\0\0\0\0\0\0\0\0\0\0\0\0\0\0\0\0\0\0\0\x50\0\0\0\0\0\0\0\x05\0\0\0\0\0\0\0\x5c\0\0\0\0\0\0\0";

const BITS_TEXT: &str =
    "<e57Root type=\"Structure\"><p type=\"CompressedVector\" fileOffset=\"48\" recordCount=\"13\"><prototype type=\"Structure\"><x type=\"Integer\" minimum=\"0\" maximum=\"1\"/></prototype></p></e57Root>";

// One page of thirteen records, with these bytes changed.
fn bits(alloc: Global, edits: &[(usize, u8)]) -> Result<Vec<u8>, AllocError> {
    edited(alloc, &file_with(alloc, BITS, BITS_TEXT, 152)?, edits)
}

// A section of two chunks, of 16 and 4 records of six fields, with an index.
const CHUNKS: &[u8] = b"\x01\0\0\0\0\0\0\0p\x01\0\0\0\0\0\0 \x04\0\0\0\0\0\0@\x05\0\0\0\0\0\0\
\x01\x01\xdb\0\x06\0(\0(\0\x10\0\0\0@\0(\0\
\0\00\0\0\x06\0\x90\0\0\x0c\0\xf0\0\0\x12\0P\x01\0\x18\0\xb0\x01\0\x1e\0\x10\x02\0$\0p\x02\0*\0\xd0\x02\0\
\0\0P\0\0\x0a\0\xf0\0\0\x14\0\x90\x01\0\x1e\00\x02\0(\0\xd0\x02\02\0p\x03\0<\0\x10\x04\0F\0\xb0\x04\0\
\0\x01\x02\x03\x04\x05\x06\x07\x08\x09\x0a\x0b\x0c\x0d\x0e\x0f\
\0\0\x80?\x01\0\x80?\x02\0\x80?\x03\0\x80?\x04\0\x80?\x05\0\x80?\x06\0\x80?\x07\0\x80?\
\x08\0\x80?\x09\0\x80?\x0a\0\x80?\x0b\0\x80?\x0c\0\x80?\x0d\0\x80?\x0e\0\x80?\x0f\0\x80?\
\0\x02a\x04aa\x06aaa\0\x02a\x04aa\x06aaa\0\x02a\x04aa\x06aaa\0\x02a\x04aa\x06aaa\0\0\
\x01\x01C\0\x06\0\x0a\0\x0a\0\x04\0\0\0\x10\0\x0a\0\
0\00\x03\06\0\x90\x03\0P\0P\x05\0Z\0\xf0\x05\0\
\x10\x11\x12\x13\x10\0\x80?\x11\0\x80?\x12\0\x80?\x13\0\x80?\0\x02a\x04aa\x06aaa\0\0\
/\0\x02\0\0\0\0\0\0\0\0\0\0\0\0\0\0\0\0\0\0\0 \x04\0\0\0\0\0\0\x10\0\0\0\0\0\0\0\xfc\x04\0\0\0\0\0\0";

const CHUNKS_TEXT: &str = "<?xml version=\"1.0\" encoding=\"UTF-8\"?>
<e57Root type=\"Structure\" xmlns=\"http://www.astm.org/COMMIT/E57/2010-e57-v1.0\"><data3D type=\"Vector\"><vectorChild type=\"Structure\"><points type=\"CompressedVector\" fileOffset=\"1024\" recordCount=\"20\"><prototype type=\"Structure\"><cartesianX type=\"ScaledInteger\" minimum=\"0\" maximum=\"1048575\" scale=\"0.001\" offset=\"0\"/><cartesianY type=\"ScaledInteger\" minimum=\"0\" maximum=\"1048575\" scale=\"0.001\" offset=\"0\"/><intensity type=\"Integer\" minimum=\"0\" maximum=\"255\"/><rowIndex type=\"Integer\" minimum=\"0\" maximum=\"0\"/><cartesianZ type=\"Float\" precision=\"single\"/><tag type=\"String\"/></prototype></points></vectorChild></data3D></e57Root>";

// A file of three pages with these two chunks in page 1, and its text in page 2. The index place stands in bytes 1044 and 1045.
fn chunks(alloc: Global, edits: &[(usize, u8)]) -> Result<Vec<u8>, AllocError> {
    let mut section = vec![in alloc; 0; 972]?;
    section.extend_from_slice(CHUNKS)?;
    edited(
        alloc,
        &file_with(alloc, &section, CHUNKS_TEXT, 2040)?,
        edits,
    )
}

const CHUNKS_ROWS: &str = "cartesianX,cartesianY,intensity,rowIndex,cartesianZ,tag
0,0,0,0,3f800000,
3,5,1,0,3f800001,a
6,10,2,0,3f800002,aa
9,15,3,0,3f800003,aaa
12,20,4,0,3f800004,
15,25,5,0,3f800005,a
18,30,6,0,3f800006,aa
21,35,7,0,3f800007,aaa
24,40,8,0,3f800008,
27,45,9,0,3f800009,a
30,50,10,0,3f80000a,aa
33,55,11,0,3f80000b,aaa
36,60,12,0,3f80000c,
39,65,13,0,3f80000d,a
42,70,14,0,3f80000e,aa
45,75,15,0,3f80000f,aaa
48,80,16,0,3f800010,
51,85,17,0,3f800011,a
54,90,18,0,3f800012,aa
57,95,19,0,3f800013,aaa
";

// An index packet of one entry: record 0, and the data packet at byte 80.
const ONE_ENTRY: &[u8] = b"\0\0\x1f\0\x01\0\0\0\0\0\0\0\0\0\0\0\0\0\0\0\0\0\0\0\x50\0\0\0\0\0\0\0";

// The file of two points with an index packet behind the data, at byte 136, and so the text at byte 168.
fn indexed_points(alloc: Global) -> Result<Vec<u8>, AllocError> {
    let plain = logical(alloc, &two_points(alloc)?)?;
    let mut longer = Vec::new(alloc);
    longer.extend_from_slice(plain.get(..136).unwrap_or_default())?;
    longer.extend_from_slice(ONE_ENTRY)?;
    longer.extend_from_slice(plain.get(136..2008).unwrap_or_default())?;
    let bytes = file(alloc, &longer, WordOrder::MostSignificantFirst)?;
    edited(alloc, &bytes, &[(24, 168), (56, 120), (72, 136)])
}

const POINTS_ROWS: &str = "cartesianX,cartesianY,cartesianZ,intensity,colorRed,colorGreen,colorBlue
3f800000,40000000,3f000000,100,255,0,16
bf800000,00000000,40000000,4095,1,2,3
";

// Where the greatest intensity is 4094, the second point is past it.
const FIRST_POINT: &str = "cartesianX,cartesianY,cartesianZ,intensity,colorRed,colorGreen,colorBlue
3f800000,40000000,3f000000,100,255,0,16
";

const NO_RECORDS_TEXT: &str =
    "<e57Root type=\"Structure\"><p type=\"CompressedVector\" fileOffset=\"0\" recordCount=\"0\"><prototype type=\"Structure\"><x type=\"Integer\"/></prototype></p></e57Root>";

// A section header of 32 bytes, with no packet behind it.
const NO_PACKETS: &[u8] = b"\x01\0\0\0\0\0\0\0\x20\0\0\0\0\0\0\0\x50\0\0\0\0\0\0\0\0\0\0\0\0\0\0\0";

const CONSTANT_TEXT: &str =
    "<e57Root type=\"Structure\"><p type=\"CompressedVector\" fileOffset=\"48\" recordCount=\"1099511627776\"><prototype type=\"Structure\"><x type=\"Integer\" minimum=\"5\" maximum=\"5\"/></prototype></p></e57Root>";

// A section of one packet with six strings: with a comma, with quotes, with a line feed, empty, plain, and with a return.
const STRINGS: &[u8] = b"\x01\0\0\0\0\0\0\0\x4c\0\0\0\0\0\0\0\x50\0\0\0\0\0\0\0\0\0\0\0\0\0\0\0\
\x01\x01\x2b\0\x01\0\x22\0\x06a,b\x10say \"hi\"\x12two\nlines\0\x0aplain\x06a\rb\0\0";

const STRINGS_TEXT: &str =
    "<e57Root type=\"Structure\"><p type=\"CompressedVector\" fileOffset=\"48\" recordCount=\"6\"><prototype type=\"Structure\"><s type=\"String\"/></prototype></p></e57Root>";

const STRINGS_ROWS: &str =
    "s\n\"a,b\"\n\"say \"\"hi\"\"\"\n\"two\nlines\"\n\"\"\nplain\n\"a\rb\"\n";

// A section of one packet with two doubles, 1 and -2.5, beside a field whose items take no bits.
const DOUBLES: &[u8] = b"\x01\0\0\0\0\0\0\0\x3c\0\0\0\0\0\0\0\x50\0\0\0\0\0\0\0\0\0\0\0\0\0\0\0\
\x01\x01\x1b\0\x02\0\x10\0\0\0\0\0\0\0\0\0\xf0\x3f\0\0\0\0\0\0\x04\xc0\0\0";

const DOUBLES_TEXT: &str =
    "<e57Root type=\"Structure\"><p type=\"CompressedVector\" fileOffset=\"48\" recordCount=\"2\"><prototype type=\"Structure\"><a type=\"Structure\"><d type=\"Float\"/></a><i type=\"Integer\" minimum=\"-5\" maximum=\"-5\"/></prototype></p></e57Root>";

// A section of one packet with two integers, 30000 and 30003 in two bits each, beside two fields whose items take no bits.
const DECIMALS: &[u8] = b"\x01\0\0\0\0\0\0\0\x30\0\0\0\0\0\0\0\x50\0\0\0\0\0\0\0\0\0\0\0\0\0\0\0\
\x01\x01\x0f\0\x03\0\x01\0\0\0\0\0\x0c\0\0\0";

const DECIMALS_TEXT: &str =
    "<e57Root type=\"Structure\"><p type=\"CompressedVector\" fileOffset=\"48\" recordCount=\"2\"><prototype type=\"Structure\"><x type=\"ScaledInteger\" minimum=\"30000\" maximum=\"30003\" scale=\"0.001\" offset=\"0\"/><y type=\"ScaledInteger\" minimum=\"7\" maximum=\"7\" scale=\"nan\"/><z type=\"ScaledInteger\" minimum=\"0\" maximum=\"0\" scale=\"0.1\" offset=\"1e60\"/></prototype></p></e57Root>";

// ---- rows

// What the file `scan` holds.
#[derive(Clone, Copy)]
enum Content {
    Bits(&'static [(usize, u8)]),
    Chunks(&'static [(usize, u8)]),
    Points,
    PastLimit,
    IndexedPoints,
    ThreeRecords,
    NoRecords,
    Constant,
    Strings,
    Doubles,
    Decimals,
}

fn bytes_of(alloc: Global, content: Content) -> Result<Vec<u8>, AllocError> {
    match content {
        Content::Bits(edits) => bits(alloc, edits),
        Content::Chunks(edits) => chunks(alloc, edits),
        Content::Points => two_points(alloc),
        Content::PastLimit => edited(alloc, &two_points(alloc)?, &[(780, b'4')]),
        Content::IndexedPoints => indexed_points(alloc),
        Content::ThreeRecords => three_records(alloc),
        Content::NoRecords => file_with(alloc, b"", NO_RECORDS_TEXT, 48),
        Content::Constant => file_with(alloc, NO_PACKETS, CONSTANT_TEXT, 80),
        Content::Strings => file_with(alloc, STRINGS, STRINGS_TEXT, 124),
        Content::Doubles => file_with(alloc, DOUBLES, DOUBLES_TEXT, 108),
        Content::Decimals => file_with(alloc, DECIMALS, DECIMALS_TEXT, 96),
    }
}

// What the file holds, the words behind `extract scan`, the status, the output, the line on `err`, and the pages asked for.
type Case = (
    Content,
    &'static [&'static str],
    Status,
    &'static str,
    &'static str,
    &'static [u64],
);

const ALL: &[&str] = &["0"];

#[rattlefmt::skip]
const CASES: [Case; 39] = [
    (Content::Bits(&[]), ALL, Status::Done, "x\n1\n0\n1\n0\n1\n0\n0\n0\n0\n1\n1\n1\n1\n", "", &[0]),
    (Content::Bits(&[]), &["0", "--from=4", "--count=2"], Status::Done, "x\n1\n0\n", "", &[0]),
    (Content::Bits(&[(93, 0)]), ALL, Status::Refused, "x\n1\n0\n1\n0\n1\n", "refused IndexTarget 1 5\n", &[0]),
    (Content::Bits(&[(93, 0)]), &["0", "--count=5"], Status::Done, "x\n1\n0\n1\n0\n1\n", "", &[0]),
    (Content::Bits(&[(72, 0)]), &["0", "--count=8"], Status::Done, "x\n1\n0\n1\n0\n1\n0\n0\n0\n", "", &[0]),
    (Content::Bits(&[(72, 0)]), &["0", "--count=9"], Status::Refused, "x\n1\n0\n1\n0\n1\n0\n0\n0\n", "refused RestartUnindexed 1 92\n", &[0]),
    (Content::Bits(&[(48, 0)]), ALL, Status::Refused, "x\n", "refused SectionId 1 0\n", &[0]),
    (Content::Bits(&[(48, 0)]), &["0", "--count=0"], Status::Done, "x\n", "", &[0]),
    (Content::Chunks(&[]), ALL, Status::Done, CHUNKS_ROWS, "", &[0, 2, 1]),
    (Content::Chunks(&[(1044, 0), (1045, 0)]), ALL, Status::Done, CHUNKS_ROWS, "", &[0, 2, 1]),
    (Content::Chunks(&[]), &["0", "--from=15", "--fields=tag,intensity", "--count=2"], Status::Done, "tag,intensity\naaa,15\n,16\n", "", &[0, 2, 1]),
    (Content::Points, ALL, Status::Done, POINTS_ROWS, "", &[0, 1]),
    (Content::PastLimit, ALL, Status::Refused, FIRST_POINT, "refused ValueRange 1 11\n", &[0, 1]),
    (Content::IndexedPoints, ALL, Status::Done, POINTS_ROWS, "", &[0, 1]),
    (Content::Points, &["1"], Status::AskRefused, "", "ask cloud 1 1\n", &[0, 1]),
    (Content::Points, &["0", "--fields=colorRed,x"], Status::AskRefused, "", "ask field 1 7\n", &[0, 1]),
    (Content::ThreeRecords, ALL, Status::Done, "x,c,f,s\n1,5,3f800000,\n6,5,40000000,abc\n7,5,00000000,q\n", "", &[0, 2, 1]),
    (Content::ThreeRecords, &["0", "--fields=s,x", "--from=1", "--count=1"], Status::Done, "s,x\nabc,6\n", "", &[0, 2, 1]),
    (Content::ThreeRecords, &["0", "--count=0"], Status::Done, "x,c,f,s\n", "", &[0, 2]),
    (Content::ThreeRecords, &["0", "--from=3"], Status::Done, "x,c,f,s\n", "", &[0, 2]),
    (Content::ThreeRecords, &["0", "--from=4"], Status::AskRefused, "", "ask range 4 3\n", &[0, 2]),
    (Content::ThreeRecords, &["0", "--from=2", "--count=2"], Status::AskRefused, "", "ask range 4 3\n", &[0, 2]),
    (Content::ThreeRecords, &["0", "--from=1099511627776", "--count=1099511627776"], Status::AskRefused, "", "ask range 2199023255552 3\n", &[0, 2]),
    (Content::ThreeRecords, &["0", "--fields=s,y", "--from=4"], Status::AskRefused, "", "ask field 1 4\n", &[0, 2]),
    (Content::ThreeRecords, &["7", "--fields=y"], Status::AskRefused, "", "ask cloud 7 1\n", &[0, 2]),
    (Content::NoRecords, ALL, Status::Done, "x\n", "", &[0]),
    (Content::NoRecords, &["0", "--count=1"], Status::AskRefused, "", "ask range 1 0\n", &[0]),
    (Content::Constant, &["0", "--from=1099511627775", "--count=1"], Status::Done, "x\n5\n", "", &[0]),
    (Content::Strings, ALL, Status::Done, STRINGS_ROWS, "", &[0]),
    (Content::Doubles, ALL, Status::Done, "a/d,i\n3ff0000000000000,-5\nc004000000000000,-5\n", "", &[0]),
    (Content::Doubles, &["0", "--from=1", "--fields=i,a/d"], Status::Done, "i,a/d\n-5,c004000000000000\n", "", &[0]),
    (Content::Doubles, &["0", "--fields=i"], Status::Done, "i\n-5\n-5\n", "", &[0]),
    (Content::Chunks(&[]), &["0", "--decimal=yes", "--from=10", "--count=2"], Status::Done, "cartesianX,cartesianY,intensity,rowIndex,cartesianZ,tag\n0.03,0.05,10,0,3f80000a,aa\n0.033,0.055,11,0,3f80000b,aaa\n", "", &[0, 2, 1]),
    (Content::Decimals, ALL, Status::Done, "x,y,z\n30000,7,0\n30003,7,0\n", "", &[0]),
    (Content::Decimals, &["0", "--fields=x", "--decimal=yes"], Status::Done, "x\n30\n30.003\n", "", &[0]),
    (Content::Decimals, &["0", "--decimal=yes"], Status::AskRefused, "", "ask decimal 1 3\n", &[0]),
    (Content::Decimals, &["0", "--decimal=yes", "--fields=z,x", "--from=9"], Status::AskRefused, "", "ask decimal 0 3\n", &[0]),
    (Content::Decimals, &["0", "--fields=z,w", "--decimal=yes"], Status::AskRefused, "", "ask field 1 3\n", &[0]),
    (Content::Decimals, &["0", "--fields=x", "--from=3", "--decimal=yes"], Status::AskRefused, "", "ask range 3 2\n", &[0]),
];

// `extract scan`, and these words behind it.
fn run_rows(alloc: Global, words: &[&str], bytes: Vec<u8>) -> Result<Ended, AllocError> {
    let mut all = Vec::new(alloc);
    all.push("extract")?;
    all.push("scan")?;
    for word in words {
        all.push(*word)?;
    }
    run_on(alloc, &all, bytes)
}

// The run of a case ended so, and asked for these pages.
fn ends_so(alloc: Global, case: &Case) -> Result<bool, AllocError> {
    let (content, words, status, out, err, asked) = case;
    let ended = run_rows(alloc, words, bytes_of(alloc, *content)?)?;
    Ok(ended.is(*status, out.as_bytes(), err.as_bytes()) && ended.asked_for(asked))
}

#[test]
fn extract_puts_the_asked_rows(rt: HostRuntime) -> Result<(), Fail> {
    let alloc = rt.alloc();
    for (k, case) in CASES.iter().enumerate() {
        assert!(rt; ends_so(alloc, case)?, "row {k}");
    }
    Ok(())
}

// ---- words

// The words, and the line on `err`: of words at fault, or of a file of three records, whose four fields have other names.
type WordsCase = (&'static [&'static str], Status, &'static str);

#[rattlefmt::skip]
const WORDS: [WordsCase; 37] = [
    (&["extract"], Status::WordsFault, "words 1\n"),
    (&["extract", "scan"], Status::WordsFault, "words 2\n"),
    (&["extract", "--count=1", "scan", "0"], Status::WordsFault, "words 1\n"),
    (&["extract", "scan", "--count=1", "0"], Status::WordsFault, "words 2\n"),
    (&["extract", "scan", "x"], Status::WordsFault, "words 2\n"),
    (&["extract", "scan", "18446744073709551616"], Status::WordsFault, "words 2\n"),
    (&["extract", "scan", "0", "1"], Status::WordsFault, "words 3\n"),
    (&["extract", "scan", "0", ""], Status::WordsFault, "words 3\n"),
    (&["extract", "scan", "0", "--"], Status::WordsFault, "words 3\n"),
    (&["extract", "scan", "0", "--every=2"], Status::WordsFault, "words 3\n"),
    (&["extract", "scan", "0", "--from"], Status::WordsFault, "words 3\n"),
    (&["extract", "scan", "0", "--from="], Status::WordsFault, "words 3\n"),
    (&["extract", "scan", "0", "--from=-1"], Status::WordsFault, "words 3\n"),
    (&["extract", "scan", "0", "--from=1099511627777"], Status::WordsFault, "words 3\n"),
    (&["extract", "scan", "0", "--count=1099511627777"], Status::WordsFault, "words 3\n"),
    (&["extract", "scan", "0", "--count=000000000000000000001"], Status::WordsFault, "words 3\n"),
    (&["extract", "scan", "0", "--count=18446744073709551617"], Status::WordsFault, "words 3\n"),
    (&["extract", "scan", "0", "--from=1", "--from=1"], Status::WordsFault, "words 4\n"),
    (&["extract", "scan", "0", "--from=0", "--count=1", "--from=0"], Status::WordsFault, "words 5\n"),
    (&["extract", "scan", "0", "--count=1", "--count=1"], Status::WordsFault, "words 4\n"),
    (&["extract", "scan", "0", "--fields=x", "--fields=s"], Status::WordsFault, "words 4\n"),
    (&["extract", "scan", "0", "--fields=x", "--from=1", "--count=1", "more"], Status::WordsFault, "words 6\n"),
    (&["extract", "scan", "0", "--fields="], Status::WordsFault, "words 3\n"),
    (&["extract", "scan", "0", "--fields=,x"], Status::WordsFault, "words 3\n"),
    (&["extract", "scan", "0", "--fields=x,"], Status::WordsFault, "words 3\n"),
    (&["extract", "scan", "0", "--fields=x,,s"], Status::WordsFault, "words 3\n"),
    (&["extract", "scan", "0", "--fields=x,x"], Status::WordsFault, "words 3\n"),
    (&["extract", "scan", "0", "--fields=x,c,f,s,c"], Status::WordsFault, "words 3\n"),
    (&["extract", "scan", "0", "--decimal=no"], Status::WordsFault, "words 3\n"),
    (&["extract", "scan", "0", "--decimal="], Status::WordsFault, "words 3\n"),
    (&["extract", "scan", "0", "--decimal"], Status::WordsFault, "words 3\n"),
    (&["extract", "scan", "0", "--decimal=yes", "--decimal=yes"], Status::WordsFault, "words 4\n"),
    (&["extract", "scan", "0", "--fields=X"], Status::AskRefused, "ask field 0 4\n"),
    (&["extract", "scan", "0", "--fields=x "], Status::AskRefused, "ask field 0 4\n"),
    (&["extract", "scan", "0", "--fields=x=1"], Status::AskRefused, "ask field 0 4\n"),
    (&["extract", "scan", "007", "--count=00000000000000000001"], Status::AskRefused, "ask cloud 7 1\n"),
    (&["extract", "absent", "0"], Status::SourceFault, "source fault\n"),
];

// The run of these words ended so, and put nothing.
fn is_refused_so(alloc: Global, case: &WordsCase) -> Result<bool, AllocError> {
    let (words, status, err) = case;
    let ended = run_on(alloc, words, three_records(alloc)?)?;
    Ok(ended.is(*status, b"", err.as_bytes()))
}

#[test]
fn the_first_word_at_fault_is_named(rt: HostRuntime) -> Result<(), Fail> {
    let alloc = rt.alloc();
    for (k, case) in WORDS.iter().enumerate() {
        assert!(rt; is_refused_so(alloc, case)?, "row {k}");
    }
    Ok(())
}

// An option that names so many fields, all different.
fn many_names(alloc: Global, count: usize) -> Result<String, AllocError> {
    let mut word = String::from_str(alloc, "--fields=a")?;
    for i in 1..count {
        word.push_str(&format!(in alloc; ",a{i}")?)?;
    }
    Ok(word)
}

// How many names, the status, and the line on `err`.
const MANY: [(usize, Status, &str); 2] = [
    (512, Status::AskRefused, "ask field 0 4\n"),
    (513, Status::WordsFault, "words 3\n"),
];

#[test]
fn at_most_512_fields_are_asked_for(rt: HostRuntime) -> Result<(), Fail> {
    let alloc = rt.alloc();
    for (count, status, err) in &MANY {
        let word = many_names(alloc, *count)?;
        let ended = run_rows(alloc, &["0", word.as_str()], three_records(alloc)?)?;
        assert!(rt; ended.is(*status, b"", err.as_bytes()), "{err}");
    }
    Ok(())
}

// ---- failing calls

const THREE_ROWS: &[u8] = b"x,c,f,s\n1,5,3f800000,\n6,5,40000000,abc\n7,5,00000000,q\n";

// More calls than a run makes.
const MANY_CALLS: u64 = 100;

// The run ended with this status and line, and a prefix of the rows stands on `out`.
fn fails_so(ended: &Ended, status: Status, err: &str) -> bool {
    ended.status == status
        && ended.err.bytes() == err.as_bytes()
        && THREE_ROWS.starts_with(ended.out.bytes())
}

// A run over three records in which this call of the source fails.
fn with_failing_source(alloc: Global, call: u64) -> Result<Ended, AllocError> {
    let mut source = source_of(alloc, three_records(alloc)?)?;
    source.fail_at(call)?;
    let words: [&str; 3] = ["extract", "scan", "0"];
    run_words(alloc, &words, source, room(alloc)?, room(alloc)?)
}

// A run over three records in which this call of `out` fails.
fn with_failing_out(alloc: Global, call: u64) -> Result<Ended, AllocError> {
    let mut out = MemSink::new(alloc, ROOM)?;
    out.fail_at(call)?;
    let words: [&str; 3] = ["extract", "scan", "0"];
    run_words(
        alloc,
        &words,
        source_of(alloc, three_records(alloc)?)?,
        out,
        room(alloc)?,
    )
}

#[test]
fn each_failed_call_of_the_source_is_a_source_fault(rt: HostRuntime) -> Result<(), Fail> {
    let alloc = rt.alloc();
    for call in 0..MANY_CALLS {
        let ended = with_failing_source(alloc, call)?;
        if ended.status == Status::Done {
            // It opened the file and asked for three pages.
            assert!(rt; call == 4 && ended.out.bytes() == THREE_ROWS);
            return Ok(());
        }
        assert!(rt;
            fails_so(&ended, Status::SourceFault, "source fault\n"),
            "{call}"
        );
    }
    assert!(rt; false, "no run is done");
    Ok(())
}

#[test]
fn each_failed_put_is_an_output_fault(rt: HostRuntime) -> Result<(), Fail> {
    let alloc = rt.alloc();
    for call in 0..MANY_CALLS {
        let ended = with_failing_out(alloc, call)?;
        if ended.status == Status::Done {
            assert!(rt; call > 0 && ended.out.bytes() == THREE_ROWS);
            return Ok(());
        }
        assert!(rt;
            fails_so(&ended, Status::OutFault, "output fault\n"),
            "{call}"
        );
    }
    assert!(rt; false, "no run is done");
    Ok(())
}

// ---- larger files

const NUMBERS_TEXT: &str =
    "<e57Root type=\"Structure\"><p type=\"CompressedVector\" fileOffset=\"1024\" recordCount=\"1000\"><prototype type=\"Structure\"><x type=\"Float\" precision=\"single\"/></prototype></p></e57Root>";

// The header of a section of 4096 bytes from place 1020 on, with the data behind it, and the index at place 5068.
const NUMBERS_HEADER: &[u8] =
    b"\x01\0\0\0\0\0\0\0\0\x10\0\0\0\0\0\0\x20\x04\0\0\0\0\0\0\xdc\x13\0\0\0\0\0\0";

// The head of a packet of 2008 bytes with one stream of 2000 bytes, with which a chunk begins.
const NUMBERS_HEAD: &[u8] = b"\x01\x01\xd7\x07\x01\0\xd0\x07";

// An index packet of two entries: record 0 at place 1052, and record 500 at place 3060.
const NUMBERS_INDEX: &[u8] =
    b"\0\0\x2f\0\x02\0\0\0\0\0\0\0\0\0\0\0\0\0\0\0\0\0\0\0\x20\x04\0\0\0\0\0\0\xf4\x01\0\0\0\0\0\0\0\x0c\0\0\0\0\0\0";

// Two chunks of 500 numbers: the first in pages 1 and 2, the second in pages 3 and 4, the index in pages 4 and 5, and the text in
// page 6. Number i has the bits of i.
fn numbers(alloc: Global) -> Result<Vec<u8>, AllocError> {
    let mut section = vec![in alloc; 0; 972]?;
    section.extend_from_slice(NUMBERS_HEADER)?;
    for i in 0..1000u32 {
        if i % 500 == 0 {
            section.extend_from_slice(NUMBERS_HEAD)?;
        }
        section.extend_from_slice(&i.to_le_bytes())?;
    }
    section.extend_from_slice(NUMBERS_INDEX)?;
    file_with(alloc, &section, NUMBERS_TEXT, 6120)
}

// A page with a wrong word, if any, the words behind `extract scan`, the status, the output, the line on `err`, and a page that
// isn't asked for.
type NumbersCase = (
    Option<usize>,
    &'static [&'static str],
    Status,
    &'static str,
    &'static str,
    u64,
);

#[rattlefmt::skip]
const NUMBERS: [NumbersCase; 7] = [
    (None, &["0", "--count=1"], Status::Done, "x\n00000000\n", "", 3),
    (None, &["0", "--from=500", "--count=1"], Status::Done, "x\n000001f4\n", "", 2),
    (None, &["0", "--from=499", "--count=2"], Status::Done, "x\n000001f3\n000001f4\n", "", 7),
    (None, &["0", "--from=999"], Status::Done, "x\n000003e7\n", "", 2),
    (Some(2), &["0", "--from=999"], Status::Done, "x\n000003e7\n", "", 2),
    (Some(2), &["0", "--count=1"], Status::Refused, "x\n", "refused Page 2 0\n", 3),
    (Some(3), &["0", "--from=498", "--count=4"], Status::Refused, "x\n000001f2\n000001f3\n", "refused Page 3 0\n", 7),
];

// The run of a case ended so, and didn't ask for this page.
fn leaves_page(alloc: Global, case: &NumbersCase) -> Result<bool, AllocError> {
    let (wrong, words, status, out, err, other) = case;
    let mut bytes = numbers(alloc)?;
    if let Some(page) = wrong {
        bytes = changed(bytes, page.wrapping_mul(1024));
    }
    let ended = run_rows(alloc, words, bytes)?;
    Ok(ended.is(*status, out.as_bytes(), err.as_bytes()) && !ended.source.asked().contains(other))
}

#[test]
fn pages_of_other_chunks_arent_asked_for(rt: HostRuntime) -> Result<(), Fail> {
    let alloc = rt.alloc();
    for (k, case) in NUMBERS.iter().enumerate() {
        assert!(rt; leaves_page(alloc, case)?, "row {k}");
    }
    Ok(())
}

// How many records of a field without bits are put, and how many bytes a long string has.
const LARGE: usize = 100_000;

// `extract scan 0` and one word more, with room for a large output.
fn run_large(alloc: Global, word: &str, bytes: Vec<u8>) -> Result<Ended, AllocError> {
    let out = MemSink::new(alloc, 300_000)?;
    let words: [&str; 4] = ["extract", "scan", "0", word];
    run_words(alloc, &words, source_of(alloc, bytes)?, out, room(alloc)?)
}

#[test]
fn many_rows_are_put(rt: HostRuntime) -> Result<(), Fail> {
    let alloc = rt.alloc();
    let mut rows = b"x\n".to_vec(alloc)?;
    for _ in 0..LARGE {
        rows.extend_from_slice(b"5\n")?;
    }
    let bytes = bytes_of(alloc, Content::Constant)?;
    let ended = run_large(alloc, "--count=100000", bytes)?;
    assert!(rt; ended.is(Status::Done, &rows, b""));
    Ok(())
}

const LONG_TEXT: &str =
    "<e57Root type=\"Structure\"><p type=\"CompressedVector\" fileOffset=\"48\" recordCount=\"2\"><prototype type=\"Structure\"><s type=\"String\"/></prototype></p></e57Root>";

// The header of a section of 100,060 bytes without an index.
const LONG_HEADER: &[u8] =
    b"\x01\0\0\0\0\0\0\0\xdc\x86\x01\0\0\0\0\0\x50\0\0\0\0\0\0\0\0\0\0\0\0\0\0\0";

// The head of a packet with a stream of 60,000 bytes, and the prefix of a string of 100,000 bytes.
const LONG_HEAD: &[u8] = b"\x01\x01\x67\xea\x01\0\x60\xea\x41\x0d\x03\0\0\0\0\0";

// The head of a packet with a stream of 40,009 bytes.
const LONG_NEXT: &[u8] = b"\x01\0\x53\x9c\x01\0\x49\x9c";

// A file of two strings, of 100,000 bytes and of none, in two packets, at bytes 80 and 60,088.
fn long_string(alloc: Global) -> Result<Vec<u8>, AllocError> {
    let mut section = LONG_HEADER.to_vec(alloc)?;
    section.extend_from_slice(LONG_HEAD)?;
    section.resize(60_040, b'a')?;
    section.extend_from_slice(LONG_NEXT)?;
    section.resize(100_056, b'a')?;
    section.resize(100_060, 0)?;
    file_with(alloc, &section, LONG_TEXT, 100_108)
}

#[test]
fn a_long_string_is_put(rt: HostRuntime) -> Result<(), Fail> {
    let alloc = rt.alloc();
    let mut rows = b"s\n".to_vec(alloc)?;
    rows.resize(LARGE.wrapping_add(2), b'a')?;
    rows.extend_from_slice(b"\n\"\"\n")?;
    let ended = run_large(alloc, "--from=0", long_string(alloc)?)?;
    assert!(rt; ended.is(Status::Done, &rows, b""));
    Ok(())
}
