//! A source of one file in memory.

ghost use Rattle.std.specs.Prelude.{◌≡◌, length, IsOkAnd, IsOk};
ghost use Rattle.e57_base.specs.Source.{Opens, HasPage, ReadsPage, HasRest, ReadsRest, page_of, rest_of};
ghost use Rattle.e57_base.specs.BytesSource.{initial_bytes, bytes_view, after_open, bytes_hold_size};

use crate::fault::Failed;
use crate::page::{copy_page, copy_rest};
use crate::source::Source;
use std::marker::Model;

/// A source of one file in memory, which opens under every name and never fails.
#[derive(Drop)]
pub struct BytesSource {
    bytes: Vec<u8>,
    is_open: bool,
    opened: u64,
}

impl Model for BytesSource {
    ghost use Rattle.e57_base.specs.BytesSource.{BytesState};

    ghost Value = { BytesState };

    ghost view = { λ source. record { bytes = source.bytes.items; is_open = source.is_open; opened = source.opened } };
}

impl BytesSource {
    /// The source of the file of these bytes, which isn't open. Takes no memory.
    pub fn new(bytes: Vec<u8>) -> BytesSource
        ensures { result ≡ initial_bytes bytes.items }
    {
        BytesSource {
            bytes,
            is_open: false,
            opened: 0,
        }
    }

    /// Gives the bytes back. Takes no memory.
    pub fn into_bytes(self) -> Vec<u8>
        ensures { result.items ≡ self.bytes }
    {
        self.bytes
    }
}

impl Source for BytesSource {
    ghost view = { bytes_view };

    /// Opens the file under any name.
    #[tactic(auto, unfolding(crate::specs::BytesSource::after_open))]
    fn open(&mut self, name: &str) -> Result<u64, Failed>
        ensures opens { Opens (bytes_view self.old) name.now result (bytes_view self.new) }
        ensures answer { IsOkAnd result (λ size. size ≡ length self.old.bytes) }
        ensures after { self.new ≡ after_open self.old }
    {
        self.is_open = true;
        self.opened = self.opened.saturating_add(1);
        Ok(self.bytes.len() as u64)
    }

    /// Reads page `n` of the file.
    fn read_page(&mut self, n: u64, out: &mut [u8; 1024]) -> Result<(), Failed>
        requires { HasPage (bytes_view self.old) n }
        ensures reads { ReadsPage (bytes_view self.old) n out.new result (bytes_view self.new) }
        ensures answer { IsOk result }
        ensures page { out.new ≡ page_of self.old.bytes n }
        ensures after { self.new ≡ self.old }
    {
        copy_page(&self.bytes, n, out);
        Ok(())
    }

    /// Reads the bytes of the file behind its whole pages.
    fn read_rest(&mut self, out: &mut [u8; 1024]) -> Result<(), Failed>
        requires { HasRest (bytes_view self.old) }
        ensures reads { ReadsRest (bytes_view self.old) out.new result (bytes_view self.new) }
        ensures answer { IsOk result }
        ensures rest { out.new ≡ rest_of self.old.bytes }
        ensures after { self.new ≡ self.old }
    {
        copy_rest(&self.bytes, out);
        Ok(())
    }

    ghost holds_size = { bytes_hold_size };
}
