//! The faults of the XML section, and of its text.

use e57_samples::files::{changed, file_of_text};
use e57_samples::runs::run_on;
use e57_tool::Status;
use std::test::*;

const QUOTED: &[u8] =
    b"<e57Root type='Structure'><!-- a --><b type=\"String\">x<![CDATA[<&]]>y</b></e57Root>";

const WRITTEN: &str = "<?xml version=\"1.0\" encoding=\"UTF-8\"?>
<e57Root type=\"Structure\"><b type=\"String\">x&lt;&amp;y</b></e57Root>
";

// The text of a file's XML section, and the status, the output and the line on `err` of `info`.
type TextCase = (&'static [u8], Status, &'static str, &'static str);

const TEXTS: [TextCase; 7] = [
    (QUOTED, Status::Done, WRITTEN, ""),
    (
        b"<e57Root type=\"Structure\"><a type=\"Integer\">5</b></e57Root>",
        Status::Refused,
        "",
        "refused Nest 45 0\n",
    ),
    (
        b"<e57Root type=\"Structure\">&nbsp;</e57Root>",
        Status::Refused,
        "",
        "refused Piece 26 0\n",
    ),
    (b"<!DOCTYPE a>", Status::Refused, "", "refused Piece 0 0\n"),
    (b"", Status::Refused, "", "refused Nest 0 0\n"),
    (
        b"<e57Root\xff",
        Status::Refused,
        "",
        "refused XmlUtf8 8 0\n",
    ),
    (
        b"<e57Root></e57Root></a>",
        Status::Refused,
        "",
        "refused Nest 19 0\n",
    ),
];

#[test]
fn info_shows_the_tree_or_its_first_fault(rt: HostRuntime) -> Result<(), Fail> {
    let alloc = rt.alloc();
    for (text, status, out, err) in &TEXTS {
        let bytes = file_of_text(alloc, text, 1024, text.len() as u64)?;
        let ended = run_on(alloc, &["info", "scan"], bytes)?;
        assert!(rt;
            ended.is(*status, out.as_bytes(), err.as_bytes()),
            "{out}{err}"
        );
    }
    Ok(())
}

// The root and 64 elements in it, each in the one before: the last tag, at byte 26 + 63 * 20, is one too deep.
#[test]
fn info_refuses_a_tree_that_is_too_deep(rt: HostRuntime) -> Result<(), Fail> {
    let alloc = rt.alloc();
    let mut text = b"<e57Root type=\"Structure\">".to_vec(alloc)?;
    for _ in 0..64 {
        text.extend_from_slice(b"<a type=\"Structure\">")?;
    }
    let bytes = file_of_text(alloc, &text, 1024, text.len() as u64)?;
    let ended = run_on(alloc, &["info", "scan"], bytes)?;
    assert!(rt; ended.is(Status::Refused, b"", b"refused TreeLimit 1286 2\n"));
    Ok(())
}

// The place and the length that the header states for the section, the line on `err` of `info`, and the pages asked
// for. The file has three pages, and the last one has a wrong word.
const PLACES: [(u64, u64, &str, &[u64]); 5] = [
    (1020, 5, "refused XmlPlace 1020 5\n", &[0]),
    (1024, 2041, "refused XmlPlace 1024 2041\n", &[0]),
    (1024, 67108865, "refused XmlPlace 1024 67108865\n", &[0]),
    (1024, 1021, "refused Page 2 0\n", &[0, 1, 2]),
    (1024, 0, "refused Nest 0 0\n", &[0]),
];

#[test]
fn info_judges_the_place_of_the_section(rt: HostRuntime) -> Result<(), Fail> {
    let alloc = rt.alloc();
    for (place, length, err, asked) in &PLACES {
        let text = vec![in alloc; 32; 2000]?;
        let bytes = changed(file_of_text(alloc, &text, *place, *length)?, 2100);
        let ended = run_on(alloc, &["info", "scan"], bytes)?;
        let is_so = ended.is(Status::Refused, b"", err.as_bytes()) && ended.asked_for(asked);
        assert!(rt; is_so, "{err}");
    }
    Ok(())
}
