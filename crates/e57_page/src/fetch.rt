//! Pages of a source: asked for and tested.

ghost use Rattle.std.specs.Prelude.{◌≡◌, ◌/◌, ℕ, Some, None, MatchResult};
ghost use Rattle.e57_base.specs.Fault.{fault};
ghost use Rattle.e57_base.specs.Source.{HasPage, page_length};
ghost use Rattle.e57_page.specs.File.{length_fault};
ghost use Rattle.e57_page.specs.Pages.{IsOpened, IsNotOpened, IsScanned, IsScannedTo};
ghost use Rattle.e57_page.specs.Fetch.{IsPage, IsFetched, IsNotFetched};

use crate::header::Header;
use crate::place::PAGE;
use e57_base::{Fault, Kind, ReadFault, Source};
use e57_crc::word_right;

/// Asks for page `n`, and tests its word. After a refusal `page` has any bytes.
pub fn fetch<S: Source>(source: &mut S, n: u64, page: &mut [u8; 1024]) -> Result<(), ReadFault>
    requires { HasPage (S.view source.old) n }
    ensures { MatchResult result
        (λ _. IsFetched (S.view source.old) n page.new (S.view source.new))
        (λ fault. IsNotFetched (S.view source.old) n fault (S.view source.new)) }
{
    if let Err(_) = source.read_page(n, page) {
        return Err(ReadFault::Source);
    }
    if !word_right(page) {
        return Err(wrong_page(n));
    }
    Ok(())
}

/// The fault of page `n`.
fn wrong_page(n: u64) -> ReadFault
    ensures { result ≡ ReadFault.Refused (fault Kind.Page n 0) }
{
    ReadFault::Refused(Fault::new(Kind::Page, n, 0))
}

/// Asks for page 0 of a file of `length` bytes, and judges its header and then its word. After a refusal `page` has
/// any bytes.
pub fn fetch_first<S: Source>(
    source: &mut S,
    length: u64,
    page: &mut [u8; 1024],
) -> Result<Header, ReadFault>
    requires size { (S.view source.old).size ≡ Some length }
    requires whole { length_fault length ≡ None }
    ensures { MatchResult result
        (λ header. IsOpened (S.view source.old) length length header (S.view source.new) × IsPage (S.view source.new) 0 page.new)
        (λ fault. IsNotOpened (S.view source.old) length fault (S.view source.new)) }
{
    if let Err(_) = source.read_page(0, page) {
        return Err(ReadFault::Source);
    }
    let header = match Header::read(page, length) {
        Ok(header) => header,
        Err(fault) => return Err(ReadFault::Refused(fault)),
    };
    if !word_right(page) {
        return Err(wrong_page(0));
    }
    Ok(header)
}

/// Asks for each page of a file of `length` bytes in order, and tests its word. Answers the number of pages.
pub fn scan<S: Source>(source: &mut S, length: u64) -> Result<u64, ReadFault>
    requires { (S.view source.old).size ≡ Some length }
    ensures count { MatchResult result (λ count. count ≡ length / page_length) (λ _. Unit {0}) }
    ensures pages { MatchResult result
        (λ count. IsScanned (S.view source.old) count (S.view source.new))
        (λ fault. (n : ℕ) × IsScannedTo (S.view source.old) (length / page_length) fault n (S.view source.new)) }
{
    let count = length / PAGE;
    let mut page = [0; 1024];
    for n in 0..count {
        if let Err(fault) = fetch(source, n, &mut page) {
            return Err(fault);
        }
    }
    Ok(count)
}
