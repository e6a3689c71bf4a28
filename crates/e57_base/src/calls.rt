//! The calls of an object in memory, and those of them that are to fail.

ghost use Rattle.std.specs.Prelude.{◌≡◌, IsTrue, OnOk, OnErr};
ghost use Rattle.e57_base.specs.Calls.{no_calls, is_failing, called, failing_at};

use std::alloc::{AllocError, Global};
use std::marker::Model;

/// The calls so far, counted from 0, and the numbers of those that are to fail.
#[derive(Drop)]
pub struct Calls {
    next: u64,
    failing: Vec<u64>,
}

impl Model for Calls {
    ghost use Rattle.e57_base.specs.Calls.{CallList};

    ghost Value = { CallList };

    ghost view = { λ calls. record { next = calls.next; failing = calls.failing.items } };
}

impl Calls {
    /// No call so far, and none that is to fail. Takes no memory.
    pub fn new(alloc: Global) -> Calls
        ensures { result ≡ no_calls }
    {
        Calls {
            next: 0,
            failing: Vec::new(alloc),
        }
    }

    /// The number of the next call.
    pub fn next(&self) -> u64
        ensures { result ≡ self.now.next }
    {
        self.next
    }

    /// Lists a call that is to fail.
    pub fn fail_at(&mut self, call: u64) -> Result<(), AllocError>
        ensures ok { OnOk result (self.new ≡ failing_at call self.old) }
        ensures err { OnErr result (self.new ≡ self.old) }
    {
        self.failing.push(call)?;
        Ok(())
    }

    /// Counts one call, and answers whether it is to fail. Its number stays at 2^64 - 1.
    pub fn count(&mut self) -> bool
        ensures failing { result ≡ is_failing self.old }
        ensures counted { self.new ≡ called self.old }
    {
        let is_failing = self.failing.contains(&self.next);
        self.next = self.next.saturating_add(1);
        is_failing
    }
}
