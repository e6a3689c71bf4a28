//! Columns.

ghost use Rattle.std.specs.Prelude.{◌≡◌, ◌+◌, ◌*◌, ◌/◌, ◌<◌, ◌≤◌, ◌⊎◌, ◌≢◌, ◌≤ℤ◌, ℕ, List, Some, None, length, pos, IsSome, IsOk, IfOk, IfSome, is_some, MatchResult};
ghost use Rattle.e57_base.specs.Source.{page_length};
ghost use Rattle.e57_page.specs.Place.{payload_length};
ghost use Rattle.e57_layout.specs.Values.{ItemKind, item_kind, IsValidField, whole, word};
ghost use Rattle.e57_layout.specs.Widths.{width as the_width};
ghost use Rattle.e57_cloud.specs.PathItem.{constant_of};
ghost use Rattle.e57_section.specs.Opening.{LiesIn};
ghost use Rattle.e57_ahead.specs.Counting.{IsWidth};
ghost use Rattle.e57_column.specs.Finding.{IsFinder, FinderStands};
ghost use Rattle.e57_column.specs.Column.{kind_of, AreItems, IsColumn, placed};
ghost use Rattle.e57_column.specs.Reading.{IsOpened, is_quiet as the_is_quiet, Seeks, SeeksNot, AreWhole};
ghost use Rattle.e57_column.specs.Answers.{AnswersAll, AnswersTexts};

use crate::bits::{read_bits32, read_bits64};
use crate::finder::Finder;
use crate::going::go_to;
use crate::ints::read_ints;
use crate::state::{Items, Place, State};
use crate::texts::{TextsRead, read_texts};
use e57_ahead::Ahead;
use e57_base::{ReadFault, Source};
use e57_index::IndexCursor;
use e57_layout::{Field, FieldKind, Fixed, Section};
use e57_page::Pages;
use e57_section::Packet;
use e57_stream::{Bytestream, Chunk, Integers, Stopped, Window};
use std::alloc::{AllocError, Global};
use std::marker::Model;

/// A field of a cloud, whose items are read record after record (ASTM E2807, compressed vector binary sections).
///
/// It stands in a file if what it keeps is of the file: what finds the chunks of records, and the chunk in which it stands,
/// with the place up to which packets were taken. A new one stands in every file, and each call on the pages of a file in
/// which it stands leaves it standing there, refused or not.
#[derive(Drop)]
pub struct Column {
    state: State,
    packet: Packet,
}

impl Model for Column {
    ghost use Rattle.e57_column.specs.declared.state.State.{State};
    ghost use Rattle.e57_column.specs.Column.{IsColumn};

    ghost Value = { State };

    ghost view = { λ c. c.state };

    ghost invariant = { λ c. IsColumn c.state };
}

impl Column {
    /// The column of field `f` of the section's cloud, not placed yet. `fixed` is the cloud's first Float field, if it has one.
    ///
    /// It takes all its memory here: a packet of 65,536 bytes and 512 ends, a window of 65,552 bytes, and for the search of
    /// chunks the entries of one index packet, or without an index and with a Float field a second packet.
    pub fn open(
        alloc: Global,
        section: &Section,
        f: u16,
        field: &Field,
        fixed: Option<Fixed>,
    ) -> Result<Column, AllocError>
        requires is_field { f < section.now.fields }
        requires valid { IsValidField field.now }
        requires fixed { IfSome fixed (λ x. (x.field < section.now.fields) × IsWidth x) }
        ensures { IfOk result (λ column. IsOpened section.now f field.now fixed column) }
    {
        let finder = open_finder(alloc, section, fixed)?;
        let packet = Packet::new(alloc)?;
        let window = Window::new(alloc)?;
        let stream = Bytestream {
            section: *section,
            fixed,
            field: f,
            node: field.node,
        };
        Ok(Column {
            state: State {
                stream,
                items: items_of(field),
                place: Place::Nowhere,
                chunk: new_chunk(window),
                finder,
            },
            packet,
        })
    }

    /// Whether the column is placed at a record, or behind the last one.
    pub fn is_placed(&self) -> bool
        ensures { result ≡ is_some (placed self.now) }
    {
        match self.state.place {
            Place::Nowhere => false,
            _ => true,
        }
    }

    /// The number of the next record. The column is placed.
    pub fn at(&self) -> u64
        requires { IsSome (placed self.now) }
        ensures { placed self.now ≡ Some result }
    {
        self.state.chunk.at
    }

    /// The logical place up to which packets were taken of the chunk in which the column stood last; 0 if it stood in none.
    pub fn taken(&self) -> u64
        ensures { result ≡ self.now.chunk.taken }
    {
        self.state.chunk.taken
    }

    /// Places the column at record `i`, or behind the last record, if `i` is the number of records. It takes no memory.
    ///
    /// Refuses a fault on the way to the field's item of that record: of the path through the index, or of the packets by
    /// which its chunk is told without one; of a string also what one of the strings before it in its chunk has. Behind the
    /// last record, and of a field whose items take no bits, it asks for nothing and refuses nothing. After a refusal the
    /// column isn't placed.
    pub fn seek<S: Source>(&mut self, pages: &mut Pages<S>, i: u64) -> Result<(), ReadFault>
        requires lies { LiesIn self.old.stream.section (pages.old.length / page_length * payload_length) }
        requires within { i ≤ self.old.stream.section.count }
        ensures length { pages.new.length ≡ pages.old.length }
        ensures header { pages.new.header ≡ pages.old.header }
        ensures quiet { (i ≡ self.old.stream.section.count) ⊎ (constant_of (kind_of self.old.items) ≢ None)
            → IsOk result × (pages.new ≡ pages.old) }
        ensures seeks { MatchResult result
            (λ _. Seeks (S.view pages.old.source) self.old i (S.view pages.new.source) self.new)
            (λ fault. SeeksNot (S.view pages.old.source) self.old i fault (S.view pages.new.source) self.new) }
    {
        if is_quiet(&self.state, i) {
            self.state.place = Place::Outside;
            self.state.chunk.at = i;
            return Ok(());
        }
        go_to(&mut self.state, pages, &mut self.packet, i)
    }

    /// Reads integers from the next record on to the front of `out`: as many as `out` has places, or as records are left.
    /// Answers how many. The rest of `out` is as it was. The column moves on by as many. It takes no memory.
    ///
    /// The column is placed, and its field has integers, scaled or not.
    ///
    /// `Stopped` says that the integers before were read and the next one wasn't, since the source failed or since there is
    /// this fault on the way to it. The column isn't placed afterwards.
    pub fn ints<S: Source>(
        &mut self,
        pages: &mut Pages<S>,
        out: &mut [i64],
    ) -> Result<usize, Stopped>
        requires lies { LiesIn self.old.stream.section (pages.old.length / page_length * payload_length) }
        requires placed { IsSome (placed self.old) }
        requires kind { AreWhole (kind_of self.old.items) }
        ensures length { pages.new.length ≡ pages.old.length }
        ensures header { pages.new.header ≡ pages.old.header }
        ensures items { AnswersAll (pos 0) whole (S.view pages.old.source) self.old out.old
            result (S.view pages.new.source) self.new out.new }
    {
        read_ints(&mut self.state, pages, &mut self.packet, out)
    }

    /// Reads words of 32 bits from the next record on to the front of `out`, as `ints` reads integers. The column is placed, and
    /// its field has floating point numbers of 32 bits.
    pub fn bits32<S: Source>(
        &mut self,
        pages: &mut Pages<S>,
        out: &mut [u32],
    ) -> Result<usize, Stopped>
        requires lies { LiesIn self.old.stream.section (pages.old.length / page_length * payload_length) }
        requires placed { IsSome (placed self.old) }
        requires kind { kind_of self.old.items ≡ ItemKind.words 32 }
        ensures length { pages.new.length ≡ pages.old.length }
        ensures header { pages.new.header ≡ pages.old.header }
        ensures items { AnswersAll 0 word (S.view pages.old.source) self.old out.old
            result (S.view pages.new.source) self.new out.new }
    {
        read_bits32(&mut self.state, pages, &mut self.packet, out)
    }

    /// Reads words of 64 bits from the next record on to the front of `out`, as `ints` reads integers. The column is placed, and
    /// its field has floating point numbers of 64 bits.
    pub fn bits64<S: Source>(
        &mut self,
        pages: &mut Pages<S>,
        out: &mut [u64],
    ) -> Result<usize, Stopped>
        requires lies { LiesIn self.old.stream.section (pages.old.length / page_length * payload_length) }
        requires placed { IsSome (placed self.old) }
        requires kind { kind_of self.old.items ≡ ItemKind.words 64 }
        ensures length { pages.new.length ≡ pages.old.length }
        ensures header { pages.new.header ≡ pages.old.header }
        ensures items { AnswersAll 0 word (S.view pages.old.source) self.old out.old
            result (S.view pages.new.source) self.new out.new }
    {
        read_bits64(&mut self.state, pages, &mut self.packet, out)
    }

    /// Reads strings from the next record on: their bytes one string after another to the front of `bytes`, and where each of
    /// them ends to the front of `ends`. It goes on as long as `ends` has places, records are left, and the next string fits in
    /// what is left of `bytes`. The rest of `ends` is as it was; bytes behind the last string hold any value. The column moves on
    /// by as many records. It takes no memory.
    ///
    /// The column is placed, and its field has strings.
    ///
    /// `Stopped` says that the strings before were read and the next one wasn't, since the source failed or since there is this
    /// fault on the way to it, which doesn't come where its length is known and too great. The column isn't placed afterwards.
    pub fn texts<S: Source>(
        &mut self,
        pages: &mut Pages<S>,
        bytes: &mut [u8],
        ends: &mut [u64],
    ) -> Result<TextsRead, Stopped>
        requires lies { LiesIn self.old.stream.section (pages.old.length / page_length * payload_length) }
        requires placed { IsSome (placed self.old) }
        requires kind { kind_of self.old.items ≡ ItemKind.strings }
        ensures length { pages.new.length ≡ pages.old.length }
        ensures header { pages.new.header ≡ pages.old.header }
        ensures texts { AnswersTexts (S.view pages.old.source) self.old bytes.old ends.old
            result (S.view pages.new.source) self.new bytes.new ends.new }
    {
        read_texts(&mut self.state, pages, &mut self.packet, bytes, ends)
    }
}

/// What finds the chunks of a section.
fn open_finder(alloc: Global, section: &Section, fixed: Option<Fixed>) -> Result<Finder, AllocError>
    requires fixed { IfSome fixed (λ x. (x.field < section.now.fields) × IsWidth x) }
    ensures finder { IfOk result (λ finder. IsFinder section.now fixed finder) }
    ensures stands { IfOk result (λ finder. (file : List ℕ) → FinderStands file finder) }
{
    if section.index != 0 {
        return Ok(Finder::ByIndex(IndexCursor::open(alloc, section)?));
    }
    match fixed {
        None => Ok(Finder::OneChunk),
        Some(fixed) => Ok(Finder::ByCounting(Ahead::open(alloc, section, fixed)?)),
    }
}

/// What the items of a field are.
fn items_of(field: &Field) -> Items
    requires { IsValidField field.now }
    ensures kind { kind_of result ≡ item_kind field.now.kind }
    ensures sound { AreItems result }
{
    match field.kind {
        FieldKind::Int { min, max } => integers(min, max, field.width),
        FieldKind::Scaled { min, max, .. } => integers(min, max, field.width),
        FieldKind::Bits32 => Items::Words32,
        FieldKind::Bits64 => Items::Words64,
        FieldKind::Text => Items::Strings,
    }
}

/// Integers of so many bits.
fn integers(low: i64, high: i64, width: u8) -> Items
    requires order { low ≤ℤ high }
    requires width { width ≡ the_width low high }
    ensures kind { kind_of result ≡ ItemKind.integers low high }
    ensures sound { AreItems result }
{
    Items::Whole(Integers { low, high, width })
}

/// Whether nothing is asked for on the way to record `i`: it is the end, or the items take no bits.
fn is_quiet(state: &State, i: u64) -> bool
    requires { IsColumn state.now }
    ensures { result ≡ the_is_quiet state.now i }
{
    i == state.stream.section.count || is_constant(state.items)
}

/// Whether the items take no bits.
fn is_constant(items: Items) -> bool
    requires { AreItems items }
    ensures { result ≡ is_some (constant_of (kind_of items)) }
{
    match items {
        Items::Whole(range) => range.width == 0,
        Items::Words32 => false,
        Items::Words64 => false,
        Items::Strings => false,
    }
}

/// A chunk with no records.
fn new_chunk(window: Window) -> Chunk {
    Chunk {
        start: 0,
        until: 0,
        entry: 0,
        taken: 0,
        fresh: true,
        at: 0,
        bit: 0,
        window,
    }
}
