//! The text of an element while it is read.

ghost use Rattle.std.specs.Prelude.{◌≡◌, ◌++◌, [], ◌&&◌, if◌then◌else◌, List, ℕ, OnOk};
ghost use Rattle.e57_elements.specs.Nested.{only_space};

use e57_base::Octets;
use std::alloc::{AllocError, Global};
use std::marker::Model;

/// A text that grows, which contracts see as a list of bytes.
#[derive(Drop)]
pub struct TextOut {
    bytes: Vec<u8>,
}

impl Model for TextOut {
    ghost Value = { List ℕ };

    ghost view = { λ text. text.bytes.items };
}

impl TextOut {
    /// No byte.
    pub fn new(alloc: Global) -> TextOut
        ensures { result ≡ [] }
    {
        TextOut {
            bytes: Vec::new(alloc),
        }
    }

    /// Adds bytes at the end.
    pub fn push(&mut self, more: Octets) -> Result<(), AllocError>
        ensures { OnOk result (self.new ≡ self.old ++ more) }
    {
        if self.bytes.is_empty() {
            self.bytes = more.into_bytes();
            return Ok(());
        }
        self.bytes.extend_from_slice(more.as_slice())?;
        Ok(())
    }

    /// The text of an element, where white space alone counts for nothing beside children. Takes no memory.
    pub fn beside(self, children: bool) -> Octets
        ensures { result ≡ (if children && only_space self then [] else self) }
    {
        let TextOut { mut bytes } = self;
        if children && is_only_space(&bytes) {
            bytes.clear();
            return shrunk(bytes);
        }
        shrunk(bytes)
    }
}

/// These bytes, without the memory that is kept for further ones.
fn shrunk(mut bytes: Vec<u8>) -> Octets
    ensures { result ≡ bytes.items }
{
    bytes.shrink_to_fit();
    Octets::new(bytes)
}

/// Whether each byte is white space.
#[tactic(auto, unfolding(e57_pieces::specs::Words::is_space))]
pub fn is_only_space(text: &[u8]) -> bool
    ensures { result ≡ only_space text.now }
{
    text.iter().all(|b| *b == b' ' || *b == b'\t' || *b == b'\r' || *b == b'\n')
}
