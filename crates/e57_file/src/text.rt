//! The text of the XML section.

ghost use Rattle.std.specs.Prelude.{◌≡◌, MatchResult};
ghost use Rattle.e57_file.specs.Text.{AsksForXml, JudgesPlace, IsTextRead, IsTextCause};

use crate::section::section_place;
use e57_base::{OpenFault, Source};
use e57_elements::{RawTree, read_elements};
use e57_page::Pages;
use std::alloc::Global;

/// Reads the element tree of the file's XML section (ASTM E2807, XML section). It asks for those pages of the section
/// that aren't kept, in ascending order, each at most once, and for no other.
///
/// Refuses, in this order: `XmlPlace` if the section's offset has no place or the section passes the file, `XmlLimit` if
/// it has more than 2^26 bytes, `Page` for its first page whose word is wrong, and what `read_elements` refuses. After
/// the first two nothing was asked for, no memory was taken, and `pages` is as it was. `Source` if the source failed.
///
/// Memory is taken for the section's length, which the file bounds, and for the tree.
pub fn open_text<S: Source>(alloc: Global, pages: &mut Pages<S>) -> Result<RawTree, OpenFault>
    ensures length { pages.new.length ≡ pages.old.length }
    ensures header { pages.new.header ≡ pages.old.header }
    ensures asked { AsksForXml pages.old (S.view pages.old.source) (S.view pages.new.source) }
    ensures place { JudgesPlace pages.old result pages.new }
    ensures text { MatchResult result
        (λ nodes. IsTextRead (S.view pages.old.source) nodes)
        (λ fault. IsTextCause (S.view pages.old.source) fault (S.view pages.new.source)) }
{
    let count = pages.logical_len();
    let header = *pages.header();
    let start = match section_place(&header, count) {
        Ok(start) => start,
        Err(found) => return Err(OpenFault::Refused(found)),
    };
    let mut text = vec![in alloc; 0; header.xml_length as usize]?;
    if let Err(cut) = pages.read(start, &mut text) {
        return Err(OpenFault::from(cut.fault));
    }
    let tree = read_elements(alloc, &text)?;
    Ok(tree)
}
