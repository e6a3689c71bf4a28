//! A standard stream as a sink.

ghost use Rattle.std.specs.Prelude.{◌≡◌};
ghost use Rattle.e57_base.specs.Sink.{Puts};
ghost use Rattle.e57_disk.specs.Disk.{stream_view, faults_after};

use e57_base::{Failed, Sink};
use std::io::Write;
use std::marker::Model;

/// A stream that bytes are written to. It tells nothing of what was written; contracts see how many calls failed.
#[derive(Drop)]
pub struct StdSink<W: Write + Drop> {
    stream: W,
    faults: u64,
}

impl<W: Write + Drop> Model for StdSink<W> {
    ghost use Rattle.std.specs.Prelude.{ℕ};

    ghost Value = { ℕ };

    ghost view = { λ s. s.faults };
}

impl<W: Write + Drop> StdSink<W> {
    /// Nothing was written. Takes no memory.
    pub fn new(stream: W) -> Self
        ensures { result ≡ 0 }
    {
        StdSink { stream, faults: 0 }
    }
}

impl<W: Write + Drop> Sink for StdSink<W> {
    ghost view = { stream_view };

    /// Writes the whole piece. It fails where the stream fails.
    fn put(&mut self, piece: &[u8]) -> Result<(), Failed>
        ensures puts { Puts (stream_view self.old) piece.now result (stream_view self.new) }
        ensures after { self.new ≡ faults_after result self.old }
    {
        if self.stream.write_all(piece).is_ok() {
            return Ok(());
        }
        self.faults = self.faults.saturating_add(1);
        Err(Failed)
    }
}
