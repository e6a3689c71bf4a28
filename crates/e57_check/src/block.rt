//! Strings that are judged.

ghost use Rattle.std.specs.Prelude.{◌≡◌, ◌+◌, ◌*◌, ◌/◌, ◌<◌, ◌≤◌, ◌⊎◌, length, Some, IfOk, MatchOption, MatchResult};
ghost use Rattle.e57_base.specs.Source.{page_length};
ghost use Rattle.e57_page.specs.Place.{payload_length};
ghost use Rattle.e57_layout.specs.Values.{ItemKind};
ghost use Rattle.e57_layout.specs.Strings.{string_limit};
ghost use Rattle.e57_section.specs.Opening.{LiesIn};
ghost use Rattle.e57_column.specs.Column.{kind_of, placed};
ghost use Rattle.e57_column.specs.Reading.{SameField};
ghost use Rattle.e57_check.specs.Judging.{ReadsBlock, ReadsNoBlock};

use e57_base::{OpenFault, Source};
use e57_column::Column;
use e57_page::Pages;
use std::alloc::{AllocError, Global};

/// How many items are read at a time.
pub const BLOCK: usize = 1024;

/// How many bytes strings have at first.
const FIRST_BYTES: usize = 65_536;

/// Room for the bytes of strings that are read at a time, which all columns share. It grows to the longest string.
#[derive(Drop)]
pub struct Block {
    bytes: Vec<u8>,
}

impl Block {
    pub fn new(alloc: Global) -> Result<Block, AllocError> {
        Ok(Block {
            bytes: vec![in alloc; 0; FIRST_BYTES]?,
        })
    }
}

/// Reads the `n` strings from record `at` on, or names their first fault.
pub fn read_texts<S: Source>(
    column: &mut Column,
    block: &mut Block,
    pages: &mut Pages<S>,
    at: u64,
    n: usize,
) -> Result<(), OpenFault>
    requires lies { LiesIn column.old.stream.section (pages.old.length / page_length * payload_length) }
    requires kind { kind_of column.old.items ≡ ItemKind.strings }
    requires placed { placed column.old ≡ Some at }
    requires few { n ≤ 1024 }
    requires left { at + n ≤ column.old.stream.section.count }
    ensures length { pages.new.length ≡ pages.old.length }
    ensures header { pages.new.header ≡ pages.old.header }
    ensures same { SameField column.old column.new }
    ensures block { let count = pages.old.length / page_length in MatchResult result
        (λ _. ReadsBlock count (S.view pages.old.source) column.old at n (S.view pages.new.source) column.new)
        (λ found. ReadsNoBlock count (S.view pages.old.source) column.old at n found (S.view pages.new.source)) }
{
    let mut done = 0;
    while done < n {
        match read_some(column, block, pages, at + done as u64, n - done) {
            Ok(read) => done += read,
            Err(fault) => return Err(fault),
        }
    }
    Ok(())
}

/// Reads some of the `n` strings from record `at` on, and answers how many. If it reads none, there is room for the next one
/// afterwards.
fn read_some<S: Source>(
    column: &mut Column,
    block: &mut Block,
    pages: &mut Pages<S>,
    at: u64,
    n: usize,
) -> Result<usize, OpenFault>
    requires lies { LiesIn column.old.stream.section (pages.old.length / page_length * payload_length) }
    requires kind { kind_of column.old.items ≡ ItemKind.strings }
    requires placed { placed column.old ≡ Some at }
    requires some { 0 < n }
    requires few { n ≤ 1024 }
    requires left { at + n ≤ column.old.stream.section.count }
    ensures length { pages.new.length ≡ pages.old.length }
    ensures header { pages.new.header ≡ pages.old.header }
    ensures same { SameField column.old column.new }
    ensures room { IfOk result (λ read. (0 < read) ⊎ ((length block.old.bytes.items < length block.new.bytes.items) × (length block.new.bytes.items ≤ string_limit))) }
    ensures block { let count = pages.old.length / page_length in MatchResult result
        (λ read. (read ≤ n) × ReadsBlock count (S.view pages.old.source) column.old at read (S.view pages.new.source) column.new)
        (λ found. ReadsNoBlock count (S.view pages.old.source) column.old at n found (S.view pages.new.source)) }
{
    let mut ends = [0; BLOCK];
    match column.texts(pages, &mut block.bytes, &mut ends[..n]) {
        Ok(read) => match make_room(&mut block.bytes, read.need) {
            Ok(()) => Ok(read.count),
            Err(_full) => Err(OpenFault::Memory),
        },
        Err(stopped) => Err(OpenFault::from(stopped.fault)),
    }
}

/// Makes room for a string of so many bytes.
fn make_room(bytes: &mut Vec<u8>, need: Option<u64>) -> Result<(), AllocError>
    ensures { IfOk result (λ _. MatchOption need (bytes.new ≡ bytes.old) (λ n. length bytes.new.items ≡ n)) }
{
    match need {
        None => Ok(()),
        Some(n) => bytes.resize(n as usize, 0),
    }
}
