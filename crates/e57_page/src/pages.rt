//! The pages of an open file.

ghost use Rattle.std.specs.Prelude.{◌≡◌, ◌+◌, ◌*◌, ◌/◌, ◌≤◌, ◌<◌, ℕ, Some, None, length, IfSome, MatchResult};
ghost use Rattle.e57_base.specs.Source.{page_length};
ghost use Rattle.e57_page.specs.Place.{payload_length};
ghost use Rattle.e57_page.specs.Header.{header_of};
ghost use Rattle.e57_page.specs.File.{length_fault, opening_fault};
ghost use Rattle.e57_page.specs.Kept.{KeepsFirst};
ghost use Rattle.e57_page.specs.Pages.{IsOpened, IsNotOpened, ReadsRange, IsCutAt, IsScanned, IsScannedTo};
ghost use Rattle.e57_page.specs.Fetch.{ReadsPiece, LosesPiece};

use crate::fetch::{fetch, fetch_first, scan};
use crate::header::Header;
use crate::kept::{Kept, keep, keep_first, kept_page};
use crate::piece::{before_page, copy_piece, span_end};
use crate::place::{PAGE, PAYLOAD};
use e57_base::{Fault, Kind, ReadFault, Source};
use std::marker::Model;

/// A read that stopped at a page that failed or is wrong.
#[derive(Clone, Copy, Debug, PartialEq, Eq)]
pub struct Cut {
    /// How many bytes of the range lie before that page. They were read.
    pub done: usize,
    /// The fault of that page.
    pub fault: ReadFault,
}

/// An open file whose length, header and first page are right (ASTM E2807, physical layout: pages of 1024 bytes).
///
/// It keeps the pages that it read last, up to 144, in itself: page n in place n % 144. A page that is kept isn't asked
/// for again. No byte of a page with a wrong word is ever given.
#[derive(Drop)]
pub struct Pages<S: Source> {
    source: S,
    length: u64,
    header: Header,
    kept: Kept,
}

impl<S: Source> Model for Pages<S> {
    ghost use Rattle.e57_page.specs.Pages.{Reading};
    ghost use Rattle.e57_page.specs.Fetch.{IsSound};

    ghost Value = { Reading S };

    ghost view = { λ p. record { source = p.source; length = p.length; header = p.header; kept = p.kept.numbers } };

    ghost invariant = { λ p. IsSound (S.view p.source) p.length p.header p.kept.numbers p.kept.pages };
}

impl<S: Source> Pages<S> {
    /// Opens the file that is open in `source`, of `length` bytes. Asks for no page but page 0, once.
    ///
    /// Refuses, in this order, and gives the source back: `FileLength` where the length is 0, no multiple of 1024 or
    /// above 2^48 bytes, before anything is asked for; `Source` where the source failed; what `Header::read` refuses;
    /// `Page` where the word of page 0 is wrong.
    pub fn open(mut source: S, length: u64) -> Result<Pages<S>, (S, ReadFault)>
        requires { (S.view source).size ≡ Some length }
        ensures kept { MatchResult result (λ pages. KeepsFirst pages.kept) (λ _. Unit {0}) }
        ensures opened { MatchResult result
            (λ pages. IsOpened (S.view source) length pages.length pages.header (S.view pages.source))
            (λ refusal. IsNotOpened (S.view source) length refusal.1 (S.view refusal.0)) }
    {
        if let Some(fault) = judge_length(length) {
            return Err((source, ReadFault::Refused(fault)));
        }
        let mut page = [0; 1024];
        match fetch_first(&mut source, length, &mut page) {
            Ok(header) => Ok(Pages {
                source,
                length,
                header,
                kept: keep_first(&page),
            }),
            Err(fault) => Err((source, fault)),
        }
    }

    /// Gives the source back. It calls nothing on the source.
    pub fn into_source(self) -> S
        ensures { result ≡ self.source }
    {
        self.source
    }

    /// The numbers of the file's header. The file is the one that was opened, so it has no fault of opening.
    pub fn header(&self) -> &Header
        ensures header { result.now ≡ self.now.header }
        ensures agrees { self.now.header.length ≡ self.now.length }
        ensures first { IfSome (S.view self.now.source).held (λ file. opening_fault file ≡ None) }
        ensures read { IfSome (S.view self.now.source).held (λ file. self.now.header ≡ header_of file) }
    {
        &self.header
    }

    /// The number of logical bytes of the file, which is still open and has one or more whole pages.
    pub fn logical_len(&self) -> u64
        ensures count { result ≡ self.now.length / page_length * payload_length }
        ensures open_size { (S.view self.now.source).size ≡ Some self.now.length }
        ensures whole { length_fault self.now.length ≡ None }
    {
        self.length / PAGE * PAYLOAD
    }

    /// Reads the logical bytes from place `at` on into `out`. The range lies in the logical bytes.
    ///
    /// Asks for those pages of the range that aren't kept, in ascending order, each once. Afterwards the last 144 pages of
    /// the range are kept. A `Cut` says that the first page of the range that failed (`Source`) or whose word is wrong
    /// (`Page`) stopped the read: the bytes of the range before that page were read, and the rest of `out` is as it was.
    /// The value can be used afterwards as before.
    pub fn read(&mut self, at: u64, out: &mut [u8]) -> Result<(), Cut>
        requires { at + length out.old ≤ self.old.length / page_length * payload_length }
        ensures length { self.new.length ≡ self.old.length }
        ensures header { self.new.header ≡ self.old.header }
        ensures range { let old = S.view self.old.source in
            let new = S.view self.new.source in
            MatchResult result
            (λ _. ReadsRange old self.old.kept at (length out.old) out.new new self.new.kept)
            (λ cut. (n : ℕ) × IsCutAt old self.old.kept at out.old cut out.new n new self.new.kept) }
    {
        let limit = self.logical_len();
        prove!(at <= limit);
        let high = span_end(at, out.len());
        for n in at / PAYLOAD..high {
            if let Err(fault) = self.read_piece(n, high, at, out) {
                return Err(Cut {
                    done: before_page(n, at),
                    fault,
                });
            }
        }
        Ok(())
    }

    /// Reads the bytes of the range from place `at` on that lie in page `n`, each to its place in `out`. The range's pages
    /// are below `high`. After a refusal `out` and the pages that are kept are as they were.
    fn read_piece(&mut self, n: u64, high: u64, at: u64, out: &mut [u8]) -> Result<(), ReadFault>
        requires page { n < self.old.length / page_length }
        requires below { n < high }
        requires reaches { at < payload_length * (n + 1) }
        requires begins { payload_length * n < at + length out.old }
        ensures length { self.new.length ≡ self.old.length }
        ensures header { self.new.header ≡ self.old.header }
        ensures piece { let old = S.view self.old.source in
            let new = S.view self.new.source in
            MatchResult result
            (λ _. ReadsPiece old self.old.kept at n high out.old out.new new self.new.kept)
            (λ fault. LosesPiece old self.old.kept n out.old fault out.new new self.new.kept) }
    {
        if let Some(page) = kept_page(&self.kept, n) {
            copy_piece(page, n, at, out);
            return Ok(());
        }
        let mut page = [0; 1024];
        fetch(&mut self.source, n, &mut page)?;
        keep(&mut self.kept, n, high, &page);
        copy_piece(&page, n, at, out);
        Ok(())
    }

    /// Asks for each page in order, once, and tests its word, up to the first one that fails or is wrong. Answers
    /// the number of pages. The pages that are kept stay kept, and no other is.
    ///
    /// Refuses `Source` where the source failed, and `Page` for the first page whose word is wrong.
    pub fn scan(&mut self) -> Result<u64, ReadFault>
        ensures length { self.new.length ≡ self.old.length }
        ensures header { self.new.header ≡ self.old.header }
        ensures kept { self.new.kept ≡ self.old.kept }
        ensures count { MatchResult result (λ count. count ≡ self.old.length / page_length) (λ _. Unit {0}) }
        ensures pages { let old = S.view self.old.source in
            let new = S.view self.new.source in
            MatchResult result
            (λ count. IsScanned old count new)
            (λ fault. (n : ℕ) × IsScannedTo old (self.old.length / page_length) fault n new) }
    {
        let length = self.length;
        scan(&mut self.source, length)
    }
}

/// The most bytes that a file has.
const LONGEST: u64 = 1 << 48;

/// The fault of a length in bytes: it is 0, no multiple of 1024 or above 2^48.
#[tactic(auto, unfolding(crate::specs::File::length_fault))]
fn judge_length(length: u64) -> Option<Fault>
    ensures { result ≡ length_fault length }
{
    let wrong = length == 0 || length % PAGE != 0 || length > LONGEST;
    wrong.then_some(Fault::new(Kind::FileLength, length, 0))
}
