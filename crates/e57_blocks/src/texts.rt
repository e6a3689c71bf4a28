//! Strings read into a buffer.

ghost use Rattle.std.specs.Prelude.{◌≡◌, ◌+◌, ◌*◌, ◌/◌, ◌<◌, ◌≤◌, length, Some, MatchResult};
ghost use Rattle.e57_base.specs.Source.{page_length};
ghost use Rattle.e57_page.specs.Place.{payload_length};
ghost use Rattle.e57_layout.specs.Values.{ItemKind};
ghost use Rattle.e57_section.specs.Opening.{LiesIn};
ghost use Rattle.e57_column.specs.Column.{kind_of, placed};
ghost use Rattle.e57_blocks.specs.Filling.{GetsTexts, GetsNot, IsGrown, Tries};

use crate::buffer::Got;
use crate::read::got;
use e57_base::{OpenFault, Source};
use e57_column::Column;
use e57_page::Pages;

/// What a try to read strings gives.
#[derive(Clone, Copy, Debug, PartialEq, Eq)]
pub enum Tried {
    /// These strings.
    Read(Got),
    /// None, since the first one has so many bytes, more than there is room for.
    Needs(u64),
}

/// Reads strings from the column's record `i` on, at most `want`: their bytes to the front of `bytes`, where each of them ends to
/// the front of `ends`. `bytes` grows if the first string needs more.
pub fn read_texts<S: Source>(
    column: &mut Column,
    pages: &mut Pages<S>,
    i: u64,
    bytes: &mut Vec<u8>,
    ends: &mut [u64],
    want: usize,
) -> Result<Got, OpenFault>
    requires lies { LiesIn column.old.stream.section (pages.old.length / page_length * payload_length) }
    requires kind { kind_of column.old.items ≡ ItemKind.strings }
    requires placed { placed column.old ≡ Some i }
    requires some { 0 < want }
    requires places { want ≤ length ends.old }
    requires left { i + want ≤ column.old.stream.section.count }
    ensures length { pages.new.length ≡ pages.old.length }
    ensures header { pages.new.header ≡ pages.old.header }
    ensures places { length ends.new ≡ length ends.old }
    ensures room { IsGrown (S.view pages.old.source) column.old i (length bytes.old.items) (length bytes.new.items) }
    ensures gets { MatchResult result
        (λ got. GetsTexts (S.view pages.old.source) column.old i want got bytes.new.items ends.new (S.view pages.new.source) column.new)
        (λ lost. GetsNot (S.view pages.old.source) column.old i want (length bytes.old.items) lost (S.view pages.new.source) column.new) }
{
    loop {
        match try_texts(column, pages, i, bytes, ends, want) {
            Ok(Tried::Read(got)) => return Ok(got),
            Ok(Tried::Needs(n)) => match bytes.resize(n as usize, 0) {
                Ok(()) => {}
                Err(_) => return Err(OpenFault::Memory),
            },
            Err(lost) => return Err(lost),
        }
    }
}

/// Reads strings with the room that there is.
fn try_texts<S: Source>(
    column: &mut Column,
    pages: &mut Pages<S>,
    i: u64,
    bytes: &mut [u8],
    ends: &mut [u64],
    want: usize,
) -> Result<Tried, OpenFault>
    requires lies { LiesIn column.old.stream.section (pages.old.length / page_length * payload_length) }
    requires kind { kind_of column.old.items ≡ ItemKind.strings }
    requires placed { placed column.old ≡ Some i }
    requires some { 0 < want }
    requires places { want ≤ length ends.old }
    requires left { i + want ≤ column.old.stream.section.count }
    ensures length { pages.new.length ≡ pages.old.length }
    ensures header { pages.new.header ≡ pages.old.header }
    ensures places { length ends.new ≡ length ends.old }
    ensures room { length bytes.new ≡ length bytes.old }
    ensures tries { MatchResult result
        (λ tried. Tries (S.view pages.old.source) column.old i want bytes.new ends.new tried (S.view pages.new.source) column.new)
        (λ lost. GetsNot (S.view pages.old.source) column.old i want (length bytes.old) lost (S.view pages.new.source) column.new) }
{
    match column.texts(pages, bytes, &mut ends[..want]) {
        Ok(read) => match read.need {
            None => Ok(Tried::Read(Got {
                count: read.count,
                fault: None,
            })),
            Some(n) => Ok(Tried::Needs(n)),
        },
        Err(stopped) => match got(stopped.done, stopped.fault) {
            Ok(got) => Ok(Tried::Read(got)),
            Err(lost) => Err(lost),
        },
    }
}
