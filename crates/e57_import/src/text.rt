//! The text of a file, read as a whole.

ghost use Rattle.std.specs.Prelude.{◌≡◌, ◌%◌, ◌<◌, ◌≤◌, [], MatchResult, Some};
ghost use Rattle.e57_base.specs.Source.{page_length};
ghost use Rattle.e57_import.specs.Reading.{text_limit, AddsRest, HasPages, ReadsAll, ReadsFront, ReadsNoText, StopsAtRest, StopsWithin};

use e57_base::{RunFault, Source};
use std::alloc::Global;

/// Reads the open file, which has this many bytes, at most 2^30. Its pages are read in their order, each once, and last what
/// stands behind them. Memory is taken for these bytes alone.
pub fn read_text<S: Source>(alloc: Global, source: &mut S, length: u64) -> Result<Vec<u8>, RunFault>
    requires size { (S.view source.old).size ≡ Some length }
    requires limit { length ≤ text_limit }
    ensures { MatchResult result
        (λ text. ReadsAll length (S.view source.old) text.items (S.view source.new))
        (λ fault. ReadsNoText length (S.view source.old) fault (S.view source.new)) }
{
    let Ok(mut text) = Vec::with_capacity(alloc, length as usize) else {
        return Err(RunFault::Memory);
    };
    if let Err(fault) = read_pages(source, length / 1024, &mut text) {
        return Err(fault);
    }
    if length % 1024 == 0 {
        return Ok(text);
    }
    if let Err(fault) = read_rest(source, length, &mut text) {
        return Err(fault);
    }
    Ok(text)
}

/// Reads the first pages of the open file, this many.
fn read_pages<S: Source>(source: &mut S, count: u64, text: &mut Vec<u8>) -> Result<(), RunFault>
    requires pages { HasPages count (S.view source.old) }
    requires empty { text.old.items ≡ [] }
    ensures { MatchResult result
        (λ _. ReadsFront count (S.view source.old) text.new.items (S.view source.new))
        (λ fault. StopsWithin count (S.view source.old) fault (S.view source.new)) }
{
    let mut page = [0; 1024];
    for n in 0..count {
        if let Err(_failed) = source.read_page(n, &mut page) {
            return Err(RunFault::Source);
        }
        if let Err(_full) = text.extend_from_slice(&page) {
            return Err(RunFault::Memory);
        }
    }
    Ok(())
}

/// Reads what stands behind the whole pages of the open file, which has this many bytes.
fn read_rest<S: Source>(source: &mut S, size: u64, text: &mut Vec<u8>) -> Result<(), RunFault>
    requires size { (S.view source.old).size ≡ Some size }
    requires rest { 0 < size % page_length }
    ensures { MatchResult result
        (λ _. AddsRest size text.old.items (S.view source.old) text.new.items (S.view source.new))
        (λ fault. StopsAtRest size (S.view source.old) fault (S.view source.new)) }
{
    let mut page = [0; 1024];
    if let Err(_failed) = source.read_rest(&mut page) {
        return Err(RunFault::Source);
    }
    let (rest, _) = page.split_at((size % 1024) as usize);
    if let Err(_full) = text.extend_from_slice(rest) {
        return Err(RunFault::Memory);
    }
    Ok(())
}
