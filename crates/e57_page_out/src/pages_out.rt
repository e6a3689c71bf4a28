//! The pages of a new file, as they are put.

ghost use Rattle.std.specs.Prelude.{◌≡◌, ◌+◌, ◌-◌, ◌*◌, ◌/◌, ◌%◌, ◌^◌, ◌<◌, ◌≤◌, ◌++◌, ℕ, true, false, Some, None, length, replicate, IfSome, IsSomeAnd, MatchResult, is_ok};
ghost use Rattle.std.specs.Option.{option_map};
ghost use Rattle.e57_base.specs.MemTarget.{with_piece};
ghost use Rattle.e57_base.specs.Target.{TakesPage, PutsPage};
ghost use Rattle.e57_page.specs.Place.{payload_length, place};
ghost use Rattle.e57_page_out.specs.Buffer.{ended_payload, turned};
ghost use Rattle.e57_page_out.specs.Sealed.{filled, page_bytes, pages_for};
ghost use Rattle.e57_page_out.specs.Sequences.{Leaves};
ghost use Rattle.e57_page_out.specs.Writing.{most_bytes, IsBeingWritten, IsBegun, IsNotBegun, Writes, IsBrokenOff, IsNotPut, IsClosed, IsNotClosed};

use crate::buffer::{Buffer, Held, PAYLOAD, append, complete, first_buffer, patch, seal, turn};
use crate::header::write_header;
use e57_base::{Failed, PutFault, Target};
use e57_page::{Header, physical_of};
use std::marker::Model;

/// The most logical bytes that a file has: those of 2^38 pages.
const MOST_BYTES: u64 = 1020 << 38;

/// A new file that is written from its first byte to its last, as pages of 1024 bytes (ASTM E2807, physical layout).
///
/// Each page is put once, as soon as it is whole, but page 0, which is blank until the file is closed, and a page that
/// was held, which is put again when it is released. Until the file is closed, what the target holds is no file: it
/// has a wrong length or no signature.
///
/// After a refusal, and after `close`, the value is spent: it only gives its target back. No call takes memory.
#[derive(Drop)]
pub struct PagesOut<T: Target> {
    target: T,
    buffer: Buffer,
    is_spent: bool,
}

impl<T: Target> Model for PagesOut<T> {
    ghost use Rattle.e57_page_out.specs.Writing.{Writing};
    ghost use Rattle.e57_page_out.specs.Buffer.{writing, IsSoundUnless};

    ghost Value = { Writing T };

    ghost view = { λ p. writing T.view p.target p.buffer p.is_spent };

    ghost invariant = { λ p. IsSoundUnless p.is_spent (T.view p.target) p.buffer };
}

impl<T: Target> PagesOut<T> {
    /// Creates the file of this name, once, and puts page 0 as 1024 zeros.
    ///
    /// Refuses `Target` where the target failed, and gives it back.
    pub fn open(mut target: T, name: &str) -> Result<PagesOut<T>, (T, PutFault)>
        ensures opened { MatchResult result
            (λ out. IsBegun T.view (T.view target) name.now out)
            (λ refusal. (refusal.1 ≡ PutFault.Target) × IsNotBegun (T.view target) name.now (T.view refusal.0)) }
    {
        if let Err(_) = target.create(name) {
            return Err((target, PutFault::Target));
        }
        if let Err(_) = target.put_page(0, &[0; 1024]) {
            return Err((target, PutFault::Target));
        }
        Ok(PagesOut {
            target,
            buffer: first_buffer(),
            is_spent: false,
        })
    }

    /// Gives the target back. It calls nothing on the target.
    pub fn into_target(self) -> T
        ensures { result ≡ self.target }
    {
        self.target
    }

    /// The physical place of the next byte.
    pub fn place(&self) -> u64
        requires unspent { self.now.is_spent ≡ false }
        ensures place { place result ≡ Some self.now.size }
        ensures state { IsBeingWritten T.view self.now }
    {
        physical_of(self.size())
    }

    /// Ends the page: where a byte of it is written, it is filled with zeros and put, and the next byte begins a page.
    /// Directly after `open` and after a whole page it does nothing.
    ///
    /// Refuses `Target` where the target failed.
    pub fn fresh_page(&mut self) -> Result<(), PutFault>
        requires unspent { self.old.is_spent ≡ false }
        ensures ended { MatchResult result
            (λ _. Writes T.view self.old (option_map (filled (pages_for self.old.size)) self.old.told_bytes) (payload_length * pages_for self.old.size) self.old.held self.new)
            (λ fault. (fault ≡ PutFault.Target) × IsBrokenOff T.view self.old (pages_for self.old.size) self.new) }
        ensures whole { self.old.size % payload_length ≡ 0 → (is_ok result ≡ true) × (self.new ≡ self.old) }
    {
        if self.buffer.filled == 0 {
            return Ok(());
        }
        self.end_page()
    }

    /// Puts bytes behind those that were put before. Each page that they end is put.
    ///
    /// Refuses `Large` where they would pass the last page, which is that before page 2^38, and then puts none of them;
    /// else `Target` where the target failed.
    pub fn put(&mut self, bytes: &[u8]) -> Result<(), PutFault>
        requires unspent { self.old.is_spent ≡ false }
        ensures put { MatchResult result
            (λ _. Writes T.view self.old (option_map (λ so_far. so_far ++ bytes.now) self.old.told_bytes) (self.old.size + length bytes.now) self.old.held self.new)
            (λ fault. IsNotPut T.view self.old (length bytes.now) fault self.new) }
    {
        let start = self.size();
        if bytes.len() as u64 > MOST_BYTES - start {
            self.is_spent = true;
            return Err(PutFault::Large);
        }
        let first = self.buffer.number;
        for n in first..page_count(start + bytes.len() as u64) {
            let done = before_page(n, start);
            let end = before_page(n + 1, start).min(bytes.len());
            prove!(done <= end);
            if let Err(fault) = self.put_piece(&bytes[done..end]) {
                return Err(fault);
            }
        }
        Ok(())
    }

    /// Holds the page that is begun next: it is kept in memory when it is put, so that its bytes can be patched. No byte
    /// of the page is written, and no page is held.
    pub fn hold(&mut self)
        requires unspent { self.old.is_spent ≡ false }
        requires begins { self.old.size % payload_length ≡ 0 }
        requires free { self.old.held ≡ None }
        ensures { self.new ≡ record self.old { held = Some (self.old.size / payload_length) } }
    {
        self.buffer.held = Held::Begun;
    }

    /// Writes bytes over those from byte `at` on of the page that is held. They lie in its written part.
    pub fn patch_held(&mut self, at: usize, bytes: &[u8])
        requires unspent { self.old.is_spent ≡ false }
        requires page { at + length bytes.now ≤ payload_length }
        requires written { IsSomeAnd self.old.held (λ n. payload_length * n + at + length bytes.now ≤ self.old.size) }
        ensures { IfSome self.old.held (λ n. self.new ≡ record self.old { told_bytes = option_map (with_piece (payload_length * n + at) bytes.now) self.old.told_bytes }) }
    {
        patch(&mut self.buffer, at, bytes);
    }

    /// Holds the page no longer. Where it was put, it is put again at its number; where it is still the begun page, its
    /// patched bytes stand in it, and nothing is put.
    ///
    /// Refuses `Target` where the target failed.
    pub fn release(&mut self) -> Result<(), PutFault>
        requires unspent { self.old.is_spent ≡ false }
        requires held { IsSomeAnd self.old.held (λ _. Unit {0}) }
        ensures released { MatchResult result
            (λ _. Writes T.view self.old self.old.told_bytes self.old.size None self.new)
            (λ fault. (fault ≡ PutFault.Target) × IsBrokenOff T.view self.old (self.old.size / payload_length + 1) self.new) }
        ensures begun { self.old.held ≡ Some (self.old.size / payload_length) → (is_ok result ≡ true) × (self.new ≡ record self.old { held = None }) }
    {
        let held = self.buffer.held;
        self.buffer.held = Held::Nothing;
        if let Held::Whole(n) = held {
            seal(&mut self.buffer.kept);
            if let Err(_) = self.target.put_page(n, &self.buffer.kept) {
                self.is_spent = true;
                return Err(PutFault::Target);
            }
        }
        Ok(())
    }

    /// Closes the file: fills the last page with zeros, puts page 0 again, with the header, last of all, and ends the
    /// target. Answers the file's length in bytes. No page is held.
    ///
    /// Refuses `Target` where the target failed.
    pub fn close(&mut self, header: &Header) -> Result<u64, PutFault>
        requires unspent { self.old.is_spent ≡ false }
        requires free { self.old.held ≡ None }
        ensures { MatchResult result
            (λ total. IsClosed T.view self.old header.now total self.new)
            (λ fault. (fault ≡ PutFault.Target) × IsNotClosed T.view self.old header.now self.new) }
    {
        let pages = page_count(self.size());
        self.fresh_page()?;
        self.is_spent = true;
        let mut page = [0; 1024];
        write_header(header, &mut page);
        seal(&mut page);
        if let Err(_) = self.target.put_page(0, &page) {
            return Err(PutFault::Target);
        }
        if let Err(_) = self.target.finish() {
            return Err(PutFault::Target);
        }
        Ok(1024 * pages)
    }

    /// Gives the file up: nothing is put, and the value is spent, as after a refusal. What the target holds is no file.
    pub fn give_up(&mut self)
        requires unspent { self.old.is_spent ≡ false }
        ensures spent { self.new ≡ record self.old { is_spent = true } }
        ensures left { Leaves T.view self.old (T.view self.new.target) }
    {
        self.is_spent = true;
    }

    /// The number of the logical bytes so far, those of page 0 with them: the logical place of the next byte.
    pub fn size(&self) -> u64
        requires unspent { self.now.is_spent ≡ false }
        ensures size { result ≡ self.now.size }
        ensures state { IsBeingWritten T.view self.now }
    {
        PAYLOAD as u64 * self.buffer.number + self.buffer.filled as u64
    }

    /// Puts bytes that fit into the page, and the page where they end it.
    fn put_piece(&mut self, piece: &[u8]) -> Result<(), PutFault>
        requires unspent { self.old.is_spent ≡ false }
        requires fits { self.old.size % payload_length + length piece.now ≤ payload_length }
        requires limit { self.old.size + length piece.now ≤ most_bytes }
        ensures { MatchResult result
            (λ _. Writes T.view self.old (option_map (λ so_far. so_far ++ piece.now) self.old.told_bytes) (self.old.size + length piece.now) self.old.held self.new)
            (λ fault. (fault ≡ PutFault.Target) × IsBrokenOff T.view self.old ((self.old.size + length piece.now) / payload_length) self.new) }
    {
        append(&mut self.buffer, piece);
        if self.buffer.filled < PAYLOAD {
            return Ok(());
        }
        if let Err(_) = end_page(&mut self.target, &mut self.buffer) {
            self.is_spent = true;
            return Err(PutFault::Target);
        }
        Ok(())
    }

    /// Fills the begun page with zeros, and puts it.
    fn end_page(&mut self) -> Result<(), PutFault>
        requires unspent { self.old.is_spent ≡ false }
        requires begun { 0 < self.old.size % payload_length }
        ensures { MatchResult result
            (λ _. Writes T.view self.old (option_map (filled (pages_for self.old.size)) self.old.told_bytes) (payload_length * pages_for self.old.size) self.old.held self.new)
            (λ fault. (fault ≡ PutFault.Target) × IsBrokenOff T.view self.old (pages_for self.old.size) self.new) }
    {
        if let Err(_) = end_page(&mut self.target, &mut self.buffer) {
            self.is_spent = true;
            return Err(PutFault::Target);
        }
        Ok(())
    }
}

/// Puts the begun page, with zeros behind what is written of it, and begins the next one.
fn end_page<T: Target>(target: &mut T, buffer: &mut Buffer) -> Result<(), Failed>
    requires page { TakesPage (T.view target.old) buffer.old.number }
    requires filled { buffer.old.filled ≤ 1020 }
    requires limit { buffer.old.number < 2 ^ 38 }
    ensures puts { PutsPage (T.view target.old) buffer.old.number (page_bytes (ended_payload buffer.old)) result (T.view target.new) }
    ensures turned { MatchResult result
        (λ _. buffer.new ≡ turned buffer.old (page_bytes (ended_payload buffer.old)))
        (λ _. Unit {0}) }
{
    complete(buffer);
    if let Err(failed) = target.put_page(buffer.number, &buffer.page) {
        return Err(failed);
    }
    turn(buffer);
    Ok(())
}

/// How many pages so many logical bytes take.
#[tactic(auto, unfolding(crate::specs::Sealed::pages_for))]
fn page_count(count: u64) -> u64
    requires { count + 1019 < 2 ^ 64 }
    ensures { result ≡ pages_for count }
{
    count.div_ceil(PAYLOAD as u64)
}

/// How many of the bytes from place `start` on lie before page `n`.
fn before_page(n: u64, start: u64) -> usize
    requires { 1020 * n < 2 ^ 64 }
    ensures { result ≡ 1020 * n - start }
{
    (PAYLOAD as u64 * n).saturating_sub(start) as usize
}
