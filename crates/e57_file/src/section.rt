//! The place and the length of the XML section.

ghost use Rattle.std.specs.Prelude.{◌≡◌, Some, MatchResult};
ghost use Rattle.e57_page.specs.XmlSection.{xml_span_fault};
ghost use Rattle.e57_file.specs.Section.{IsSectionPlace};

use e57_base::{Fault, Kind};
use e57_page::{Header, place_of};

/// The longest XML section, in logical bytes.
const LIMIT: u64 = 1 << 26;

/// The logical place of the section's first byte in a file of `count` logical bytes. Refuses `XmlPlace` if the offset
/// has no place or the section passes the file, and then `XmlLimit` if it is longer than 2^26 bytes.
#[tactic(auto, unfolding(e57_page::specs::XmlSection::xml_place_fault, e57_page::specs::XmlSection::xml_limit_fault))]
pub fn section_place(header: &Header, count: u64) -> Result<u64, Fault>
    ensures { MatchResult result
        (λ start. IsSectionPlace header.now count start)
        (λ found. xml_span_fault header.now count ≡ Some found) }
{
    let outside = Fault::new(Kind::XmlPlace, header.xml_place, header.xml_length);
    let start = place_of(header.xml_place).ok_or(outside)?;
    if start > count || header.xml_length > count - start {
        return Err(outside);
    }
    if header.xml_length > LIMIT {
        return Err(Fault::new(Kind::XmlLimit, header.xml_length, LIMIT));
    }
    Ok(start)
}
