//! A target of a new file in memory.

ghost use Rattle.std.specs.Prelude.{◌≡◌, ◌||◌, not, is_ok, is_some, OnOk, OnErr, IfOk};
ghost use Rattle.e57_base.specs.Calls.{is_failing, called, failing_at};
ghost use Rattle.e57_base.specs.Target.{Creates, TakesPage, PutsPage, Finishes};
ghost use Rattle.e57_base.specs.MemTarget.{initial_target, target_view, torn_at, last_tear, is_listed, fails, after_create, put_fails, bytes_of_call, after_put, after_finish};

use crate::calls::Calls;
use crate::fault::Failed;
use crate::overwrite::overwrite;
use crate::target::Target;
use std::alloc::{AllocError, Global};
use std::marker::Model;

/// A target of a new file in memory, with room for some pages. It fails at the calls that are listed, which are
/// counted from 0, and breaks off in the page that is written at those that are listed as torn.
#[derive(Drop)]
pub struct MemTarget {
    bytes: Vec<u8>,
    pages: Option<u64>,
    finished: bool,
    created: u64,
    name: Vec<u8>,
    is_named: bool,
    page_room: usize,
    name_room: usize,
    calls: Calls,
    tears: Vec<(u64, usize)>,
    faults: u64,
}

impl Model for MemTarget {
    ghost use Rattle.std.specs.Prelude.{◌*◌, ◌≤◌, length, IfSome, Some, None, if◌then◌else◌};
    ghost use Rattle.std.specs.Vec.{vec_capacity};
    ghost use Rattle.e57_base.specs.MemTarget.{TargetState, PagesFit};

    ghost Value = { TargetState };

    ghost view = { λ target. record {
      bytes = target.bytes.items;
      pages = target.pages;
      finished = target.finished;
      created = target.created;
      named = if target.is_named then Some target.name.items else None;
      page_room = target.page_room;
      name_room = target.name_room;
      calls = target.calls;
      tears = target.tears.items;
      faults = target.faults;
    } };

    ghost invariant = { λ target. (1024 * target.page_room ≤ vec_capacity target.bytes)
        × (target.name_room ≤ vec_capacity target.name)
        × (length target.bytes.items ≤ 1024 * target.page_room)
        × PagesFit target.page_room target.pages target.bytes.items };
}

impl MemTarget {
    /// A target with no file, and with room for so many pages and for a name of so many bytes. The calls of the
    /// trait take no memory.
    pub fn new(alloc: Global, pages: usize, name_room: usize) -> Result<MemTarget, AllocError>
        ensures { IfOk result (λ target. target ≡ initial_target pages name_room) }
    {
        let Some(size) = pages.checked_mul(1024) else {
            return Err(AllocError);
        };
        let bytes = Vec::with_capacity(alloc, size)?;
        let name = Vec::with_capacity(alloc, name_room)?;
        Ok(MemTarget {
            bytes,
            pages: None,
            finished: false,
            created: 0,
            name,
            is_named: false,
            page_room: pages,
            name_room,
            calls: Calls::new(alloc),
            tears: Vec::new(alloc),
            faults: 0,
        })
    }

    /// Lists a call that is to fail. It changes no byte.
    pub fn fail_at(&mut self, call: u64) -> Result<(), AllocError>
        ensures ok { OnOk result (self.new ≡ record self.old { calls = failing_at call self.old.calls }) }
        ensures err { OnErr result (self.new ≡ self.old) }
    {
        self.calls.fail_at(call)
    }

    /// Lists a call that is to fail. Where it is a `put_page` of a page that there is room for, the first
    /// `new_bytes` bytes of the page are written. Where a call is listed here more than once, the last time counts.
    pub fn tear_at(&mut self, call: u64, new_bytes: usize) -> Result<(), AllocError>
        ensures ok { OnOk result (self.new ≡ torn_at call new_bytes self.old) }
        ensures err { OnErr result (self.new ≡ self.old) }
    {
        self.tears.push((call, new_bytes))?;
        Ok(())
    }

    /// The bytes of the file.
    pub fn bytes(&self) -> &[u8]
        ensures { result.now ≡ self.now.bytes }
    {
        &self.bytes
    }

    /// Gives the bytes of the file. Takes no memory.
    pub fn into_bytes(self) -> Vec<u8>
        ensures { result.items ≡ self.bytes }
    {
        self.bytes
    }
}

impl Target for MemTarget {
    ghost view = { target_view };

    /// Creates the file of this name. It fails where the call is listed, and then holds what it held.
    #[tactic(auto, unfolding(crate::specs::MemTarget::after_create))]
    fn create(&mut self, name: &str) -> Result<(), Failed>
        ensures creates { Creates (target_view self.old) name.now result (target_view self.new) }
        ensures answer { is_ok result ≡ not (fails self.old) }
        ensures after { self.new ≡ after_create self.old name.now }
    {
        self.created = self.created.saturating_add(1);
        self.finished = false;
        if count(&self.tears, &mut self.calls) {
            self.pages = None;
            self.faults = self.faults.saturating_add(1);
            return Err(Failed);
        }
        self.pages = Some(0);
        self.bytes.clear();
        self.name.clear();
        self.is_named = name.len() <= self.name_room;
        if self.is_named {
            let _ = self.name.extend_from_slice(name.as_bytes());
        }
        Ok(())
    }

    /// Writes page `n`. It fails where the call is listed, or there is no room for the page.
    #[tactic(auto, unfolding(crate::specs::MemTarget::after_put))]
    fn put_page(&mut self, n: u64, page: &[u8; 1024]) -> Result<(), Failed>
        requires { TakesPage (target_view self.old) n }
        ensures puts { PutsPage (target_view self.old) n page.now result (target_view self.new) }
        ensures answer { is_ok result ≡ not (put_fails self.old n) }
        ensures after { self.new ≡ after_put self.old n page.now }
    {
        let tear = tear_of(&self.tears, self.calls.next());
        let is_listed = count(&self.tears, &mut self.calls);
        self.finished = false;
        if n >= self.page_room as u64 {
            self.faults = self.faults.saturating_add(1);
            return Err(Failed);
        }
        let (front, _) = page.split_at(bytes_written(tear, is_listed));
        overwrite(&mut self.bytes, 1024 * n as usize, front);
        if is_listed {
            self.faults = self.faults.saturating_add(1);
            return Err(Failed);
        }
        if self.pages == Some(n) {
            self.pages = Some(n + 1);
        }
        Ok(())
    }

    /// Ends the file. It fails where the call is listed.
    #[tactic(auto, unfolding(crate::specs::MemTarget::after_finish))]
    fn finish(&mut self) -> Result<(), Failed>
        ensures finishes { Finishes (target_view self.old) result (target_view self.new) }
        ensures answer { is_ok result ≡ not (fails self.old) }
        ensures after { self.new ≡ after_finish self.old }
    {
        self.finished = !count(&self.tears, &mut self.calls);
        if !self.finished {
            self.faults = self.faults.saturating_add(1);
            return Err(Failed);
        }
        Ok(())
    }
}

// How many bytes this call writes, by the last tear that is listed for it.
fn tear_of(tears: &[(u64, usize)], call: u64) -> Option<usize>
    ensures { result ≡ last_tear tears.now call }
{
    tears
        .iter()
        .rev()
        .find(|tear| tear.0 == call)
        .map(|tear| tear.1)
}

// Counts one call, and answers whether it is to fail or to be torn.
fn count(tears: &[(u64, usize)], calls: &mut Calls) -> bool
    ensures listed { result ≡ is_listed tears.now calls.old }
    ensures counted { calls.new ≡ called calls.old }
{
    let is_torn = tear_of(tears, calls.next()).is_some();
    calls.count() || is_torn
}

// How many bytes of a page that there is room for are written.
fn bytes_written(tear: Option<usize>, is_failing: bool) -> usize
    ensures { result ≡ bytes_of_call tear is_failing }
{
    match tear {
        Some(new_bytes) => new_bytes.min(1024),
        None => if is_failing { 0 } else { 1024 },
    }
}
