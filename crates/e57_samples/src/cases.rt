//! Files with and without a fault, each with the line of `check`.

use crate::made::{BIT, Edit, Sample};

const ONE_PAGE: Sample = Sample::OnePage("13", BIT);

const FOURTEEN: Sample = Sample::OnePage("14", BIT);

const TWO_FIELDS: Sample = Sample::OnePage(
    "13",
    "<x type='Integer' minimum='0' maximum='1'/><y type='Integer'/>",
);

const STRING: Sample = Sample::OnePage("1", "<x type='String'/>");

const CONSTANT: Sample = Sample::OnePage(
    "1099511627776",
    "<x type='Integer' minimum='5' maximum='5'/>",
);

const TOO_MANY: Sample = Sample::OnePage(
    "1099511627777",
    "<x type='Integer' minimum='5' maximum='5'/>",
);

// A data packet with a stream of a string's prefix, which states a length above the limit or at it.
const LONG_STRING: &[u8] = b"\x01\x01\x0f\0\x01\0\x08\0\x03\0\0\x02\0\0\0\0";

const LONGEST_STRING: &[u8] = b"\x01\x01\x0f\0\x01\0\x08\0\x01\0\0\x02\0\0\0\0";

const NO_RECORDS: Sample = Sample::InRoot(
    "<p type='CompressedVector' fileOffset='0' recordCount='0'><prototype type='Structure'><x type='Integer'/></prototype></p>",
);

const CODECS: Sample = Sample::InRoot(
    "<p type='CompressedVector' fileOffset='0' recordCount='0'><prototype type='Structure'><x type='Integer'/></prototype><codecs type='Vector'><v type='Structure'/></codecs></p>",
);

const PROTOTYPE: Sample = Sample::InRoot(
    "<p type='CompressedVector' fileOffset='0' recordCount='0'><prototype type='Vector'/></p>",
);

const NO_FIELDS: Sample = Sample::InRoot(
    "<p type='CompressedVector' fileOffset='0' recordCount='0'><prototype type='Structure'/></p>",
);

// Digits of the elements, by their places: `recordCount` of three records and of six fields, and `maximum` of the first of
// three records' fields.
const THREE: usize = 2163;

const TWENTY: usize = 2273;

const SEVEN: usize = 2233;

/// What a file holds, its changed bytes, and the line of `check`.
pub type Case = (Sample, &'static [Edit<'static>], &'static str);

/// Files with each kind of fault but two: a page's word has to be wrong for Page, and a long file has to be there for XmlLimit.
#[rattlefmt::skip]
pub const CASES: &[Case] = &[
    (ONE_PAGE, &[], "accepted 1 0 13\n"),
    (Sample::TwoPoints, &[], "accepted 1 0 2\n"),
    (Sample::TwoPointsWithIndex, &[], "accepted 1 0 2\n"),
    (Sample::ThreeRecords, &[], "accepted 1 0 3\n"),
    (Sample::SixFields, &[], "accepted 1 0 20\n"),
    (Sample::SixFields, &[(1044, b"\0\0")], "accepted 1 0 20\n"),
    (Sample::LongestPacket, &[], "accepted 1 0 8191\n"),
    (NO_RECORDS, &[], "accepted 1 0 0\n"),
    (CONSTANT, &[(56, b"\x20"), (72, b"\0")], "accepted 1 0 1099511627776\n"),
    (Sample::InRoot("<b type='Blob' fileOffset='48' length='5'/>"), &[], "accepted 0 1 0\n"),

    // the file and its text
    (ONE_PAGE, &[(16, b"\x01")], "refused FileLength 1024 1025\n"),
    (Sample::ThreeRecords, &[(7, b"8")], "refused Signature 0 0\n"),
    (Sample::ThreeRecords, &[(12, b"\x01")], "refused Version 1 1\n"),
    (ONE_PAGE, &[(40, b"\0\x02")], "refused PageSize 512 0\n"),
    (ONE_PAGE, &[(24, b"\xfc\x03")], "refused XmlPlace 1020 183\n"),
    (ONE_PAGE, &[(24, b"\x84\x03")], "refused XmlPlace 900 183\n"),
    (ONE_PAGE, &[(152, b"\xff")], "refused XmlUtf8 0 0\n"),
    (Sample::InRoot("&nbsp;"), &[], "refused Piece 26 0\n"),
    (Sample::Text("<!DOCTYPE a>"), &[], "refused Piece 0 0\n"),
    (Sample::InRoot("<a type='Integer'>5</b>"), &[], "refused Nest 45 0\n"),
    (Sample::Text(""), &[], "refused Nest 0 0\n"),
    (Sample::Deep(64), &[], "refused TreeLimit 1286 2\n"),

    // the nodes
    (Sample::InRoot("<a/>"), &[], "refused NodeType 1 0\n"),
    (Sample::InRoot("<a type='Integer' minimum='1e3'/>"), &[], "refused NodeAttr 1 1\n"),
    (Sample::InRoot("<a type='String'><b type='String'/></a>"), &[], "refused NodeChild 1 2\n"),
    (Sample::Text("<root type='Structure'/>"), &[], "refused NodeName 0 0\n"),
    (CODECS, &[], "refused Codecs 1 4\n"),
    (PROTOTYPE, &[], "refused Prototype 1 2\n"),
    (NO_FIELDS, &[], "refused FieldCount 1 0\n"),
    (Sample::InRoot("<a type='Integer' minimum='5' maximum='4'/>"), &[], "refused Limits 1 0\n"),
    (TOO_MANY, &[(56, b"\x20"), (72, b"\0")], "refused RecordLimit 1 1099511627777\n"),

    // the section
    (ONE_PAGE, &[(56, b"\x1f")], "refused SectionPlace 1 48\n"),
    (ONE_PAGE, &[(48, b"\0")], "refused SectionId 1 0\n"),
    (Sample::ThreeRecords, &[(1020, b"\0")], "refused SectionId 1 0\n"),
    (ONE_PAGE, &[(64, b"\x4f")], "refused DataPlace 1 79\n"),

    // the index, which is judged before the packets
    (ONE_PAGE, &[(108, b"\0")], "refused IndexShape 1 104\n"),
    (Sample::ThreeRecords, &[(1092, b"\0")], "refused IndexShape 1 1092\n"),
    (ONE_PAGE, &[(120, b"\x01")], "refused IndexOrder 1 104\n"),
    (Sample::ThreeRecords, &[(1104, b"\x01")], "refused IndexOrder 1 1092\n"),
    (ONE_PAGE, &[(92, b"\x03")], "refused IndexTarget 1 5\n"),
    (ONE_PAGE, &[(93, b"\0")], "refused IndexTarget 1 5\n"),
    (Sample::ThreeRecords, &[(1052, b"\x03")], "refused IndexTarget 1 0\n"),
    (Sample::ThreeRecords, &[(1112, b"\x24")], "refused IndexTarget 1 0\n"),

    // the packets
    (ONE_PAGE, &[(72, b"\0"), (92, b"\x03")], "refused PacketType 1 92\n"),
    (ONE_PAGE, &[(72, b"\0"), (94, b"\x0c")], "refused PacketLength 1 92\n"),
    (ONE_PAGE, &[(84, b"\x02")], "refused DataShape 1 80\n"),
    (TWO_FIELDS, &[], "refused DataShape 1 80\n"),
    (Sample::ThreeRecords, &[(1058, b"\xf0")], "refused DataShape 1 1052\n"),

    // the chunks
    (ONE_PAGE, &[(72, b"\0")], "refused RestartUnindexed 1 92\n"),
    (ONE_PAGE, &[(108, b"\x01")], "refused RestartUnindexed 1 92\n"),
    (Sample::SixFields, &[(1044, b"\0\0"), (TWENTY, b"16")], "refused RestartUnindexed 3 1272\n"),

    // the items
    (FOURTEEN, &[], "refused StreamShort 13 3\n"),
    (Sample::ThreeRecords, &[(THREE, b"4")], "refused StreamShort 3 5\n"),
    (Sample::SixFields, &[(TWENTY, b"21")], "refused StreamShort 20 5\n"),
    (Sample::SixFields, &[(1044, b"\0\0"), (TWENTY, b"21")], "refused StreamShort 20 5\n"),
    (Sample::LongestPacket, &[(67407, b"2")], "refused StreamShort 8191 3\n"),
    (Sample::ThreeRecords, &[(SEVEN, b"6")], "refused ValueRange 2 3\n"),
    (STRING, &[(56, b"\x30"), (72, b"\0"), (80, LONG_STRING)], "refused StringLimit 0 3\n"),
    (STRING, &[(56, b"\x30"), (72, b"\0"), (80, LONGEST_STRING)], "refused StreamShort 0 3\n"),

    // the blobs
    (Sample::InRoot("<b type='Blob' fileOffset='1020' length='0'/>"), &[], "refused BlobPlace 1 1020\n"),
    (Sample::InRoot("<b type='Blob' fileOffset='0' length='0'/>"), &[], "refused BlobId 1 65\n"),
];
