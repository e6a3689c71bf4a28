//! The clouds and blobs of a file, and the faults of its nodes.

use e57_samples::files::{file_of_text, two_points};
use e57_samples::runs::run_on;
use e57_tool::Status;
use std::test::*;

const TWO_POINTS_LINES: &str = "cloud 0 /data3D/0/points records 2 fields 7
field 0 cartesianX float32
field 1 cartesianY float32
field 2 cartesianZ float32
field 3 intensity integer 0 4095
field 4 colorRed integer 0 255
field 5 colorGreen integer 0 255
field 6 colorBlue integer 0 255
";

#[test]
fn list_shows_the_fields_of_a_cloud(rt: HostRuntime) -> Result<(), Fail> {
    let alloc = rt.alloc();
    let ended = run_on(alloc, &["list", "scan"], two_points(alloc)?)?;
    assert!(rt; ended.is(Status::Done, TWO_POINTS_LINES.as_bytes(), b""));
    Ok(())
}

// A blob, a cloud in a Vector whose fields stand in a Structure, and a second cloud.
const EACH: &[u8] =
    b"<e57Root type='Structure'><b type='Blob' fileOffset='48' length='5'/><v type='Vector'><p type='CompressedVector' fileOffset='0' recordCount='0'><prototype type='Structure'><s type='Structure'><x type='ScaledInteger' minimum='-5' maximum='7' scale='0.001' offset='1e2'/></s><d type='Float'/></prototype></p></v><q type='CompressedVector' fileOffset='0' recordCount='3'><prototype type='Structure'><t type='String'/></prototype></q></e57Root>";

const EACH_LINES: &str = "blob 0 /b length 5
cloud 0 /v/0 records 0 fields 2
field 0 s/x scaled -5 7 0.001 1e2
field 1 d float64
cloud 1 /q records 3 fields 1
field 0 t string
";

const NO_RECORDS: &[u8] =
    b"<e57Root type='Structure'><p type='CompressedVector' fileOffset='0' recordCount='0'><prototype type='Structure'><x type='Integer'/></prototype></p></e57Root>";

const NO_RECORDS_LINES: &str = "cloud 0 /p records 0 fields 1
field 0 x integer -9223372036854775808 9223372036854775807
";

const CODECS: &[u8] =
    b"<e57Root type='Structure'><p type='CompressedVector' fileOffset='0' recordCount='0'><prototype type='Structure'><x type='Integer'/></prototype><codecs type='Vector'><v type='Structure'/></codecs></p></e57Root>";

const PROTOTYPE: &[u8] =
    b"<e57Root type='Structure'><p type='CompressedVector' fileOffset='0' recordCount='0'><prototype type='Vector'/></p></e57Root>";

const NO_FIELDS: &[u8] =
    b"<e57Root type='Structure'><p type='CompressedVector' fileOffset='0' recordCount='0'><prototype type='Structure'/></p></e57Root>";

const MANY_RECORDS: &[u8] =
    b"<e57Root type='Structure'><p type='CompressedVector' fileOffset='0' recordCount='1099511627777'><prototype type='Structure'><x type='Integer'/></prototype></p></e57Root>";

// The text of a file's XML section, and the status, the output and the line on `err` of `list`.
type ListCase = (&'static [u8], Status, &'static str, &'static str);

#[rattlefmt::skip]
const LISTS: [ListCase; 16] = [
    (EACH, Status::Done, EACH_LINES, ""),
    (NO_RECORDS, Status::Done, NO_RECORDS_LINES, ""),
    (b"<e57Root type='Structure'/>", Status::Done, "", ""),
    (b"<e57Root type='Structure'><a type='Integer'>5</b></e57Root>", Status::Refused, "", "refused Nest 45 0\n"),
    (b"<e57Root type='Structure'><a/></e57Root>", Status::Refused, "", "refused NodeType 1 0\n"),
    (b"<e57Root type='Structure'><a type='Integer' minimum='1e3'/></e57Root>", Status::Refused, "", "refused NodeAttr 1 1\n"),
    (b"<e57Root type='Structure'><a type='Float' precision='half'/></e57Root>", Status::Refused, "", "refused NodeAttr 1 3\n"),
    (b"<e57Root type='Structure'><a type='String'><b type='String'/></a></e57Root>", Status::Refused, "", "refused NodeChild 1 2\n"),
    (b"<root type='Structure'/>", Status::Refused, "", "refused NodeName 0 0\n"),
    (b"<e57Root type='Structure'><a type='String'/><a type='String'/></e57Root>", Status::Refused, "", "refused NodeName 2 1\n"),
    (CODECS, Status::Refused, "", "refused Codecs 1 4\n"),
    (PROTOTYPE, Status::Refused, "", "refused Prototype 1 2\n"),
    (NO_FIELDS, Status::Refused, "", "refused FieldCount 1 0\n"),
    (b"<e57Root type='Structure'><a type='Integer' minimum='5' maximum='4'/></e57Root>", Status::Refused, "", "refused Limits 1 0\n"),
    (MANY_RECORDS, Status::Refused, "", "refused RecordLimit 1 1099511627777\n"),
    (b"<e57Root type='Vector'/>", Status::Refused, "", "refused NodeType 0 0\n"),
];

#[test]
fn list_shows_clouds_and_blobs_or_the_first_fault(rt: HostRuntime) -> Result<(), Fail> {
    let alloc = rt.alloc();
    for (text, status, out, err) in &LISTS {
        let bytes = file_of_text(alloc, text, 1024, text.len() as u64)?;
        let ended = run_on(alloc, &["list", "scan"], bytes)?;
        assert!(rt;
            ended.is(*status, out.as_bytes(), err.as_bytes()),
            "{out}{err}"
        );
    }
    Ok(())
}
