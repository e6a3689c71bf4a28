//! What the pieces of a text are.

ghost use Rattle.std.specs.Prelude.{◌≡◌, ◌==◌, ◌<◌, ◌∷◌, ◌++◌, [], length, slice_get, OnOk, OnErr};

use e57_base::Octets;
use std::alloc::{AllocError, Global};
use std::marker::Model;

/// An attribute: its name, and its value with references replaced.
#[derive(Drop)]
pub struct Attr {
    pub name: Octets,
    pub value: Octets,
}

/// The attributes of a tag, in order, which contracts see as a list of `Attr`.
#[derive(Drop)]
pub struct Attrs {
    list: Vec<Attr>,
}

impl Model for Attrs {
    ghost use Rattle.std.specs.Prelude.{List};
    ghost use Rattle.e57_pieces.specs.declared.piece.Attr.{Attr};

    ghost Value = { List Attr };

    ghost view = { λ attrs. attrs.list.items };
}

impl Attrs {
    /// No attributes.
    pub fn new(alloc: Global) -> Attrs
        ensures { result ≡ [] }
    {
        Attrs {
            list: Vec::new(alloc),
        }
    }

    /// How many there are.
    pub fn len(&self) -> usize
        ensures { result ≡ length self.now }
    {
        self.list.len()
    }

    /// Whether there is none.
    pub fn is_empty(&self) -> bool
        ensures { result ≡ (length self.now == 0) }
    {
        self.list.is_empty()
    }

    /// The attribute at a place.
    pub fn get(&self, i: usize) -> &Attr
        requires { i < length self.now }
        ensures { slice_get self.now i ≡ Some result.now }
    {
        &self.list[i]
    }

    /// Gives back the memory that is kept for further attributes.
    pub fn shrink_to_fit(&mut self)
        ensures { self.new ≡ self.old }
    {
        self.list.shrink_to_fit();
    }

    /// Adds an attribute at the end. After want of memory the list is as it was.
    pub fn push(&mut self, attr: Attr) -> Result<(), AllocError>
        ensures ok { OnOk result (self.new ≡ self.old ++ attr ∷ []) }
        ensures err { OnErr result (self.new ≡ self.old) }
    {
        self.list.push(attr)?;
        Ok(())
    }
}

/// A piece of a text, with references replaced.
#[derive(Drop)]
pub enum Piece {
    /// `<name a="v">`
    Start { name: Octets, attrs: Attrs },
    /// `<name a="v"/>`
    Empty { name: Octets, attrs: Attrs },
    /// `</name>`
    End { name: Octets },
    /// `<!-- .. -->`
    Comment,
    /// `<![CDATA[ .. ]]>`, with its text as it stands.
    CData { text: Octets },
    /// A text run.
    Text { text: Octets },
}
