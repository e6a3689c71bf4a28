//! A sink in memory.

ghost use Rattle.std.specs.Prelude.{◌≡◌, not, is_ok, OnOk, OnErr, IfOk};
ghost use Rattle.e57_base.specs.Calls.{failing_at};
ghost use Rattle.e57_base.specs.Sink.{Puts};
ghost use Rattle.e57_base.specs.MemSink.{initial_sink, sink_view, put_fails, after_put};

use crate::calls::Calls;
use crate::fault::Failed;
use crate::sink::Sink;
use std::alloc::{AllocError, Global};
use std::marker::Model;

/// A sink in memory, with room for some bytes. It fails at the calls that are listed, which are counted from 0.
#[derive(Drop)]
pub struct MemSink {
    written: Vec<u8>,
    room: usize,
    calls: Calls,
    faults: u64,
}

impl Model for MemSink {
    ghost use Rattle.std.specs.Prelude.{◌≤◌, length};
    ghost use Rattle.std.specs.Vec.{vec_capacity};
    ghost use Rattle.e57_base.specs.MemSink.{SinkState};

    ghost Value = { SinkState };

    ghost view = { λ sink. record { written = sink.written.items; room = sink.room; calls = sink.calls; faults = sink.faults } };

    ghost invariant = { λ sink. (sink.room ≤ vec_capacity sink.written) × (length sink.written.items ≤ sink.room) };
}

impl MemSink {
    /// A sink with no byte, and with room for so many. `put` takes no memory.
    pub fn new(alloc: Global, room: usize) -> Result<MemSink, AllocError>
        ensures { IfOk result (λ sink. sink ≡ initial_sink room) }
    {
        let written = Vec::with_capacity(alloc, room)?;
        Ok(MemSink {
            written,
            room,
            calls: Calls::new(alloc),
            faults: 0,
        })
    }

    /// Lists a call that is to fail.
    pub fn fail_at(&mut self, call: u64) -> Result<(), AllocError>
        ensures ok { OnOk result (self.new ≡ record self.old { calls = failing_at call self.old.calls }) }
        ensures err { OnErr result (self.new ≡ self.old) }
    {
        self.calls.fail_at(call)
    }

    /// The bytes put so far.
    pub fn bytes(&self) -> &[u8]
        ensures { result.now ≡ self.now.written }
    {
        &self.written
    }
}

impl Sink for MemSink {
    ghost view = { sink_view };

    /// Puts a piece. It fails where the call is listed, and then appends nothing, or where there is no room for the
    /// whole piece, and then appends what still fits.
    #[tactic(auto, unfolding(crate::specs::MemSink::after_put))]
    fn put(&mut self, piece: &[u8]) -> Result<(), Failed>
        ensures puts { Puts (sink_view self.old) piece.now result (sink_view self.new) }
        ensures answer { is_ok result ≡ not (put_fails self.old piece.now) }
        ensures after { self.new ≡ after_put self.old piece.now }
    {
        if self.calls.count() {
            self.faults = self.faults.saturating_add(1);
            return Err(Failed);
        }
        let room = self.room - self.written.len();
        if piece.len() > room {
            let (front, _) = piece.split_at(room);
            let _ = self.written.extend_from_slice(front);
            self.faults = self.faults.saturating_add(1);
            return Err(Failed);
        }
        let _ = self.written.extend_from_slice(piece);
        Ok(())
    }
}
