//! The compressed vector section of a cloud, as it is written.

ghost use Rattle.std.specs.Prelude.{◌≡◌, ℕ, ◌+◌, ◌*◌, ◌%◌, ◌^◌, ◌<◌, ◌≤◌, true, false, List, length, map, min, IfOk, MatchResult, is_ok};
ghost use Rattle.std.specs.List.{AllByRecursion};
ghost use Rattle.e57_layout.specs.Values.{item_kind, ItemKind, IsValidField, Value};
ghost use Rattle.e57_layout.specs.Items.{AreItems};
ghost use Rattle.e57_chunk_out.specs.Clouds.{IsEmptyField};
ghost use Rattle.e57_chunk_out.specs.Going.{stream_limit, LosesRecords};
ghost use Rattle.e57_chunk_out.specs.Grouping.{kinds_of};
ghost use Rattle.e57_chunk_out.specs.Standing.{IsHere};
ghost use Rattle.e57_chunk_out.specs.Texts.{strings_at, AreEnds};
ghost use Rattle.e57_chunk_out.specs.CloudCalls.{block_length, chosen_kinds, in_block, kind_of, kinds_in, most_of_block, new_cloud, with_items, ClosesCloud, EndsBlock, HasStrings, IsBetween, IsChunkLength, IsEven, IsInteger, PassesBlock, PassesSection};

use crate::block::{put_block, put_rest};
use crate::field_out::FieldOut;
use crate::run::Run;
use crate::section::Begun;
use crate::turn::Chunks;
use e57_base::{Target, WriteFault};
use e57_index_out::IndexOut;
use e57_layout::Field;
use e57_page_out::PagesOut;
use std::alloc::{AllocError, Global};
use std::marker::Model;

/// The most bytes of a field in a packet.
const STREAM: usize = 65_528;

/// What a cloud's section was written as.
#[derive(Clone, Copy, Debug, PartialEq, Eq, Drop)]
pub struct Written {
    /// The physical offset of the section, or 0 if no record came.
    pub place: u64,
    /// How many records it has.
    pub count: u64,
}

/// The records of a cloud, written as a compressed vector section (ASTM E2807, compressed vector binary sections): block by
/// block, each of up to 1024 records, of any number.
///
/// It keeps the last records of ended blocks, fewer than eight; the groups of eight that are under way to a packet; and an entry
/// for each chunk. After a refusal it is spent, and so is `out`.
#[derive(Drop)]
pub struct CloudOut {
    fields: Vec<FieldOut>,
    chunks: Chunks,
    count: u64,
    section: Option<Begun>,
    is_spent: bool,
}

impl Model for CloudOut {
    ghost use Rattle.e57_chunk_out.specs.Standing.{Cloud};
    ghost use Rattle.e57_chunk_out.specs.Clouds.{cloud_of, IsCloudUnless};

    ghost Value = { Cloud };

    ghost view = { λ c. cloud_of c.fields.items c.chunks c.count c.section c.is_spent };

    ghost invariant = { λ c. IsCloudUnless c.is_spent c.fields.items c.chunks c.count c.section };
}

impl CloudOut {
    /// A cloud of these fields, 1 to 512, in chunks of so many records, a multiple of 8 from 8 to 2^20; it will have `at_most`
    /// records at most, up to 2^40. Writes nothing. Takes all memory that the calls later want for numbers.
    pub fn open(
        alloc: Global,
        fields: &[Field],
        chunk_len: u32,
        at_most: u64,
    ) -> Result<CloudOut, AllocError>
        requires some { 0 < length fields.now }
        requires few { length fields.now ≤ 512 }
        requires valid { AllByRecursion IsValidField fields.now }
        requires chunk { IsChunkLength chunk_len }
        requires most { at_most ≤ 2 ^ 40 }
        ensures { IfOk result (λ cloud. cloud ≡ new_cloud (kinds_in fields.now) chunk_len at_most) }
    {
        let most = most_under_way(chunk_len, at_most);
        let mut outs = Vec::new(alloc);
        for k in 0..fields.len() {
            let field = new_field(alloc, &fields[k], most)?;
            outs.push(field)?;
        }
        new_cloud_of(alloc, outs, chunk_len, at_most)
    }

    /// The same of some of the fields: of those with these numbers, 1 to 512, in this order.
    pub fn open_chosen(
        alloc: Global,
        fields: &[Field],
        chosen: &[u16],
        chunk_len: u32,
        at_most: u64,
    ) -> Result<CloudOut, AllocError>
        requires some { 0 < length chosen.now }
        requires few { length chosen.now ≤ 512 }
        requires there { AllByRecursion (λ (f : ℕ). f < length fields.now) chosen.now }
        requires valid { AllByRecursion IsValidField fields.now }
        requires chunk { IsChunkLength chunk_len }
        requires most { at_most ≤ 2 ^ 40 }
        ensures { IfOk result (λ cloud. cloud ≡ new_cloud (chosen_kinds fields.now chosen.now) chunk_len at_most) }
    {
        let most = most_under_way(chunk_len, at_most);
        let mut outs = Vec::new(alloc);
        for k in 0..chosen.len() {
            let field = new_field(alloc, &fields[chosen[k] as usize], most)?;
            outs.push(field)?;
        }
        new_cloud_of(alloc, outs, chunk_len, at_most)
    }

    /// Items of a field of integers, behind those that it has in this block. A block has at most 1024 of a field.
    ///
    /// It never fails.
    pub fn ints(&mut self, f: u16, values: &[i64]) -> Result<(), AllocError>
        requires unspent { self.old.is_spent ≡ false }
        requires field { f < length self.old.kinds }
        requires kind { IsInteger (kind_of self.old f) }
        requires items { AreItems (kind_of self.old f) (map Value.whole values.now) }
        requires few { in_block self.old f + length values.now ≤ most_of_block }
        ensures done { is_ok result ≡ true }
        ensures items { self.new ≡ with_items self.old f (map Value.whole values.now) }
    {
        self.fields[f as usize].push_ints(values);
        let _len = self.fields[f as usize].len();
        Ok(())
    }

    /// Items of a field of floating point numbers of 32 bits, as words, behind those that it has in this block. A block has at
    /// most 1024 of a field.
    ///
    /// It never fails.
    pub fn bits32(&mut self, f: u16, values: &[u32]) -> Result<(), AllocError>
        requires unspent { self.old.is_spent ≡ false }
        requires field { f < length self.old.kinds }
        requires kind { kind_of self.old f ≡ ItemKind.words 32 }
        requires few { in_block self.old f + length values.now ≤ most_of_block }
        ensures done { is_ok result ≡ true }
        ensures items { self.new ≡ with_items self.old f (map Value.word values.now) }
    {
        self.fields[f as usize].push_words(values);
        let _len = self.fields[f as usize].len();
        Ok(())
    }

    /// Items of a field of floating point numbers of 64 bits, as words, behind those that it has in this block. A block has at
    /// most 1024 of a field.
    ///
    /// It never fails.
    pub fn bits64(&mut self, f: u16, values: &[u64]) -> Result<(), AllocError>
        requires unspent { self.old.is_spent ≡ false }
        requires field { f < length self.old.kinds }
        requires kind { kind_of self.old f ≡ ItemKind.words 64 }
        requires few { in_block self.old f + length values.now ≤ most_of_block }
        ensures done { is_ok result ≡ true }
        ensures items { self.new ≡ with_items self.old f (map Value.word values.now) }
    {
        self.fields[f as usize].push_long_words(values);
        let _len = self.fields[f as usize].len();
        Ok(())
    }

    /// Items of a field of strings, behind those that it has in this block: they stand one behind another in the bytes, from the
    /// first on, and end here; each has at most 2^24 bytes. A block has at most 1024 of a field.
    pub fn texts(&mut self, f: u16, bytes: &[u8], ends: &[u64]) -> Result<(), AllocError>
        requires unspent { self.old.is_spent ≡ false }
        requires field { f < length self.old.kinds }
        requires kind { kind_of self.old f ≡ ItemKind.strings }
        requires ends { AreEnds (length bytes.now) 0 ends.now }
        requires few { in_block self.old f + length ends.now ≤ most_of_block }
        ensures { MatchResult result
            (λ _. self.new ≡ with_items self.old f (strings_at bytes.now 0 ends.now))
            (λ _. self.new.is_spent ≡ true) }
    {
        self.texts_from(f, bytes, 0, ends)
    }

    /// The same of strings the first of which begins at `begin`.
    pub fn texts_from(
        &mut self,
        f: u16,
        bytes: &[u8],
        begin: usize,
        ends: &[u64],
    ) -> Result<(), AllocError>
        requires unspent { self.old.is_spent ≡ false }
        requires field { f < length self.old.kinds }
        requires kind { kind_of self.old f ≡ ItemKind.strings }
        requires ends { AreEnds (length bytes.now) begin ends.now }
        requires few { in_block self.old f + length ends.now ≤ most_of_block }
        ensures { MatchResult result
            (λ _. self.new ≡ with_items self.old f (strings_at bytes.now begin ends.now))
            (λ _. self.new.is_spent ≡ true) }
    {
        if let Err(error) = self.fields[f as usize].push_texts(bytes, begin, ends) {
            self.is_spent = true;
            return Err(error);
        }
        let _len = self.fields[f as usize].len();
        Ok(())
    }

    /// Ends a block: each field has as many of its items, one at least. The first call begins the section, on a fresh page, which
    /// is held from then on. Between calls the file stays as the last one left it. Each packet that is whole is put.
    ///
    /// Refuses `Target` where the target failed, `Large` where the packets would pass the last page, and `Memory`, but only if a
    /// field is of strings. After a refusal the cloud is spent, and so is `out`.
    pub fn end_block<T: Target>(&mut self, out: &mut PagesOut<T>) -> Result<(), WriteFault>
        requires unspent { self.old.is_spent ≡ false }
        requires open { out.old.is_spent ≡ false }
        requires here { IsHere self.old out.old }
        requires some { 0 < block_length self.old }
        requires even { IsEven self.old }
        requires limit { self.old.count + block_length self.old ≤ self.old.at_most }
        ensures { MatchResult result
            (λ _. EndsBlock T.view self.old out.old self.new out.new)
            (λ fault. (self.new.is_spent ≡ true) × (out.new.is_spent ≡ true)
            × LosesRecords T.view out.old (PassesBlock self.old out.old) (HasStrings self.old.kinds) fault (T.view out.new.target)) }
    {
        if let Err(fault) = put_block(
            &mut self.fields,
            &mut self.chunks,
            &mut self.count,
            &mut self.section,
            out,
        ) {
            self.is_spent = true;
            return Err(fault);
        }
        Ok(())
    }

    /// Ends the section: puts what is left of its records, its index, and its header in its place. No page is held then. Answers
    /// where it is. If no record came, nothing is written.
    ///
    /// Refuses as `end_block` does; `out` is then spent.
    pub fn close<T: Target>(mut self, out: &mut PagesOut<T>) -> Result<Written, WriteFault>
        requires unspent { self.is_spent ≡ false }
        requires open { out.old.is_spent ≡ false }
        requires here { IsHere self out.old }
        requires between { IsBetween self }
        ensures { MatchResult result
            (λ written. ClosesCloud T.view self out.old written out.new)
            (λ fault. (out.new.is_spent ≡ true)
            × LosesRecords T.view out.old (PassesSection self out.old) (HasStrings self.kinds) fault (T.view out.new.target)) }
    {
        let Some(begun) = self.section else {
            return Ok(Written { place: 0, count: 0 });
        };
        let count = self.count;
        self.is_spent = true;
        match put_rest(&mut self.fields, &mut self.chunks, count, begun, out) {
            Ok(place) => Ok(Written { place, count }),
            Err(fault) => Err(fault),
        }
    }
}

/// How many records are under way at most.
fn most_under_way(chunk_len: u32, at_most: u64) -> usize
    ensures { result ≡ min chunk_len at_most }
{
    (chunk_len as u64).min(at_most) as usize
}

/// For how many bytes of a field there has to be room.
fn room_of(most: usize) -> usize
    requires { most ≤ 2 ^ 32 }
    ensures { result ≡ min stream_limit (8 * most) }
{
    STREAM.min(8 * most)
}

/// A cloud of these fields.
fn new_cloud_of(
    alloc: Global,
    fields: Vec<FieldOut>,
    chunk_len: u32,
    at_most: u64,
) -> Result<CloudOut, AllocError>
    requires some { 0 < length fields.items }
    requires few { length fields.items ≤ 512 }
    requires fields { AllByRecursion (IsEmptyField (min chunk_len at_most)) fields.items }
    requires chunk { IsChunkLength chunk_len }
    requires most { at_most ≤ 2 ^ 40 }
    ensures { IfOk result (λ cloud. cloud ≡ new_cloud (kinds_of fields.items) chunk_len at_most) }
{
    let records = chunk_len as u64;
    let index = IndexOut::reserve(alloc, at_most.div_ceil(records) as usize)?;
    Ok(CloudOut {
        fields,
        chunks: Chunks {
            records,
            at_most,
            run: Run {
                most: most_under_way(chunk_len, at_most),
                records: 0,
                is_begun: false,
            },
            index,
        },
        count: 0,
        section: None,
        is_spent: false,
    })
}

/// A field of which nothing waits.
fn new_field(alloc: Global, field: &Field, most: usize) -> Result<FieldOut, AllocError>
    requires valid { IsValidField field.now }
    requires most { most ≤ 2 ^ 32 }
    ensures is { IfOk result (λ f. IsEmptyField most f) }
    ensures kind { IfOk result (λ f. f.kind ≡ item_kind field.now.kind) }
{
    let field = FieldOut::open(alloc, field, room_of(most))?;
    let _len = field.len();
    Ok(field)
}
