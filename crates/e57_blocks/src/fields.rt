//! Blocks of some fields, side by side.

ghost use Rattle.std.specs.Prelude.{◌≡◌, ◌+◌, ◌*◌, ◌/◌, ◌<◌, ◌≤◌, ◌⊎◌, length, true, IfOk, IfSome, IsSome, MatchResult};
ghost use Rattle.std.specs.List.{AllByRecursion};
ghost use Rattle.e57_base.specs.Source.{page_length};
ghost use Rattle.e57_page.specs.Place.{payload_length};
ghost use Rattle.e57_layout.specs.Values.{IsValidField};
ghost use Rattle.e57_section.specs.Opening.{LiesIn};
ghost use Rattle.e57_ahead.specs.Counting.{IsWidth};
ghost use Rattle.e57_blocks.specs.Block.{Holds, has_record};
ghost use Rattle.e57_blocks.specs.Fields.{AreOf, AreOfFile, Blocks, FillsBlock, FillsBlocks, FillsNoBlock, FillsNoBlocks, HeldNot, HoldsFrom, IsOf, IsReady, OpensBlocks, asked_of, slice_at};

use crate::block::FieldBlock;
use crate::read::fewer;
use e57_base::{OpenFault, Source};
use e57_column::records_at_a_time;
use e57_layout::{Field, Fixed, Section};
use e57_page::Pages;
use std::alloc::{AllocError, Global};
use std::marker::Model;

/// The most records that are read at a time.
pub const MOST: usize = 1024;

/// Blocks of some fields of one cloud, side by side, in an order of the caller's (ASTM E2807, compressed vector binary
/// sections).
///
/// They hold items of a file if each of them does. New ones hold items of every file, and each call on the pages of a file of
/// which they hold items leaves it so, refused or not.
#[derive(Drop)]
pub struct FieldBlocks {
    section: Section,
    fixed: Option<Fixed>,
    blocks: Vec<FieldBlock>,
}

impl Model for FieldBlocks {
    ghost use Rattle.e57_blocks.specs.Fields.{Blocks, AreInSection};

    ghost Value = { Blocks };

    ghost view = { λ f. record { section = f.section; fixed = f.fixed; blocks = f.blocks.items } };

    ghost invariant = { λ f. AreInSection (record { section = f.section; fixed = f.fixed; blocks = f.blocks.items }) };
}

impl FieldBlocks {
    /// Blocks of the asked fields, by their numbers, in the asked order. They hold no items yet. `fields` are those of the
    /// section's cloud, and `fixed` is the first Float field of them, if there is one.
    ///
    /// It takes the memory of a `FieldBlock` a field, with 16 to 1,024 places.
    pub fn open(
        alloc: Global,
        section: &Section,
        fixed: Option<Fixed>,
        fields: &[Field],
        asked: &[u16],
    ) -> Result<FieldBlocks, AllocError>
        requires as_many { length fields.now ≡ section.now.fields }
        requires valid { AllByRecursion IsValidField fields.now }
        requires fixed { IfSome fixed (λ x. (x.field < section.now.fields) × IsWidth x) }
        requires are_fields { AllByRecursion (λ f. f < length fields.now) asked.now }
        ensures of { IfOk result (λ blocks. AreOf section.now fixed blocks) }
        ensures opens { IfOk result (λ blocks. OpensBlocks section.now fixed (asked_of fields.now asked.now) blocks.blocks) }
    {
        let blocks = open_blocks(alloc, section, fixed, fields, asked)?;
        Ok(FieldBlocks {
            section: *section,
            fixed,
            blocks,
        })
    }

    /// Sees to it that each block holds the item of record `i`, and answers how many records from `i` on all of them hold, at
    /// most `want`. No block was read yet, or record `i` is one of those that it holds, or the one behind them; it and the
    /// `want - 1` records behind it are records of the section.
    ///
    /// Refuses the fault of record `i`: that of the first field whose item has one. `Source` says that the source failed,
    /// `Memory` that the string of record `i` in one of the fields needs more memory and there is none. Record `i` can be looked
    /// at again then.
    pub fn fill<S: Source>(
        &mut self,
        pages: &mut Pages<S>,
        i: u64,
        want: usize,
    ) -> Result<usize, OpenFault>
        requires lies { LiesIn self.old.section (pages.old.length / page_length * payload_length) }
        requires ready { AllByRecursion (IsReady i) self.old.blocks }
        requires some { 0 < want }
        requires left { i + want ≤ self.old.section.count }
        requires holds { AreOfFile (S.view pages.old.source) self.old.blocks }
        ensures length { pages.new.length ≡ pages.old.length }
        ensures header { pages.new.header ≡ pages.old.header }
        ensures of { AreOf self.old.section self.old.fixed self.new }
        ensures fills { let a = slice_at self.old i want in MatchResult result
            (λ n. FillsBlocks a (S.view pages.old.source) n (S.view pages.new.source) self.new.blocks)
            (λ lost. FillsNoBlocks a (S.view pages.old.source) self.old.blocks lost (S.view pages.new.source) self.new.blocks) }
    {
        let section = self.section;
        fill_blocks(&section, self.fixed, &mut self.blocks, pages, i, want)
    }

    /// The blocks, in their order.
    pub fn blocks(&self) -> &[FieldBlock]
        ensures { result.now ≡ self.now.blocks }
    {
        &self.blocks
    }
}

/// The blocks of the asked fields, by their numbers, in the asked order. They hold no items yet.
fn open_blocks(
    alloc: Global,
    section: &Section,
    fixed: Option<Fixed>,
    fields: &[Field],
    asked: &[u16],
) -> Result<Vec<FieldBlock>, AllocError>
    requires as_many { length fields.now ≡ section.now.fields }
    requires valid { AllByRecursion IsValidField fields.now }
    requires fixed { IfSome fixed (λ x. (x.field < section.now.fields) × IsWidth x) }
    requires are_fields { AllByRecursion (λ f. f < length fields.now) asked.now }
    ensures { IfOk result (λ blocks. OpensBlocks section.now fixed (asked_of fields.now asked.now) blocks.items) }
{
    let places = records_at_a_time(fields);
    let mut blocks = Vec::new(alloc);
    for k in 0..asked.len() {
        let f = asked[k];
        let block = FieldBlock::open(alloc, section, f, &fields[f as usize], fixed, places)?;
        if let Err(_full) = blocks.push(block) {
            return Err(AllocError);
        }
    }
    Ok(blocks)
}

/// Sees to it that each block holds the item of record `i`, and answers how many records from `i` on all of them hold, at most
/// `want`.
fn fill_blocks<S: Source>(
    section: &Section,
    fixed: Option<Fixed>,
    blocks: &mut [FieldBlock],
    pages: &mut Pages<S>,
    i: u64,
    want: usize,
) -> Result<usize, OpenFault>
    requires lies { LiesIn section.now (pages.old.length / page_length * payload_length) }
    requires all { AllByRecursion (IsOf section.now fixed) blocks.old }
    requires ready { AllByRecursion (IsReady i) blocks.old }
    requires some { 0 < want }
    requires left { i + want ≤ section.now.count }
    requires holds { AreOfFile (S.view pages.old.source) blocks.old }
    ensures length { pages.new.length ≡ pages.old.length }
    ensures header { pages.new.header ≡ pages.old.header }
    ensures fills { let before : Blocks = record { section = section.now; fixed = fixed; blocks = blocks.old } in let a = slice_at before i want in MatchResult result
        (λ n. FillsBlocks a (S.view pages.old.source) n (S.view pages.new.source) blocks.new)
        (λ lost. FillsNoBlocks a (S.view pages.old.source) blocks.old lost (S.view pages.new.source) blocks.new) }
{
    let mut n = want;
    for j in 0..blocks.len() {
        let have = fill_block(&mut blocks[j], pages, i, want)?;
        n = fewer(n, have);
    }
    Ok(n)
}

/// Sees to it that the block holds the item of record `i`, and answers how many items it holds from there on. If it doesn't hold
/// this item, and no fault of that record is known, it is filled from there on, with at most `want` items.
fn fill_block<S: Source>(
    block: &mut FieldBlock,
    pages: &mut Pages<S>,
    i: u64,
    want: usize,
) -> Result<usize, OpenFault>
    requires lies { LiesIn block.old.column.stream.section (pages.old.length / page_length * payload_length) }
    requires ready { IsReady i block.old }
    requires some { 0 < want }
    requires left { i + want ≤ block.old.column.stream.section.count }
    requires holds { IfSome (S.view pages.old.source).held (λ file. Holds file block.old) }
    ensures length { pages.new.length ≡ pages.old.length }
    ensures header { pages.new.header ≡ pages.old.header }
    ensures fills { MatchResult result
        (λ n. FillsBlock (S.view pages.old.source) block.old i want n (S.view pages.new.source) block.new)
        (λ lost. FillsNoBlock (S.view pages.old.source) block.old i want lost (S.view pages.new.source) block.new) }
{
    if !block.has(i) && block.fault().is_none() {
        block.fill(pages, i, want)?;
    }
    held_from(block, i)
}

/// How many items a block holds from record `i` on, or the fault of that record.
fn held_from(block: &FieldBlock, i: u64) -> Result<usize, OpenFault>
    requires { (has_record block.now i ≡ true) ⊎ IsSome block.now.fault }
    ensures { MatchResult result
        (λ n. HoldsFrom i n block.now)
        (λ fault. HeldNot block.now i fault) }
{
    if block.has(i) {
        return Ok(block.len() - (i - block.first()) as usize);
    }
    Err(OpenFault::Refused(block.fault().unwrap()))
}
