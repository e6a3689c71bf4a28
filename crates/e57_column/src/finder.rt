//! What finds the chunk of a record.

ghost use Rattle.std.specs.Prelude.{◌≡◌, ◌+◌, ◌*◌, ◌/◌, ◌<◌, ◌≤◌, IfOk, MatchResult};
ghost use Rattle.e57_base.specs.Source.{page_length};
ghost use Rattle.e57_page.specs.Place.{payload_length};
ghost use Rattle.e57_section.specs.Opening.{LiesIn};
ghost use Rattle.e57_column.specs.Finding.{IsFinder, Finds, FindsNot};

use e57_ahead::Ahead;
use e57_base::{ReadFault, Source};
use e57_index::{Found, IndexCursor};
use e57_page::Pages;
use e57_stream::Bytestream;

/// What finds the chunk of a record.
#[derive(Drop)]
pub enum Finder {
    /// The section's index.
    ByIndex(IndexCursor),
    /// Without an index, the items of the first Float field, which are counted chunk after chunk.
    ByCounting(Ahead),
    /// With neither, all records are of one chunk.
    OneChunk,
}

/// The chunk of record `i`, which is below the number of records. It takes no memory.
pub fn find_chunk<S: Source>(
    finder: &mut Finder,
    stream: &Bytestream,
    pages: &mut Pages<S>,
    i: u64,
) -> Result<Found, ReadFault>
    requires lies { LiesIn stream.now.section (pages.old.length / page_length * payload_length) }
    requires finder { IsFinder stream.now.section stream.now.fixed finder.old }
    requires below { i < stream.now.section.count }
    ensures length { pages.new.length ≡ pages.old.length }
    ensures header { pages.new.header ≡ pages.old.header }
    ensures finder { IsFinder stream.now.section stream.now.fixed finder.new }
    ensures chunk { MatchResult result
        (λ found. Finds (S.view pages.old.source) stream.now finder.old i found (S.view pages.new.source) finder.new)
        (λ fault. FindsNot (S.view pages.old.source) stream.now finder.old i fault (S.view pages.new.source) finder.new) }
{
    match finder {
        Finder::ByIndex(cursor) => cursor.find(pages, i),
        Finder::ByCounting(ahead) => match ahead.find(pages, i) {
            Ok(covered) => Ok(Found {
                start: covered.start,
                until: covered.until,
                place: covered.place,
            }),
            Err(fault) => Err(fault),
        },
        Finder::OneChunk => Ok(Found {
            start: 0,
            until: stream.section.count,
            place: stream.section.data_place,
        }),
    }
}
