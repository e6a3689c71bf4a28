//! The tree of the pieces that are read so far.

ghost use Rattle.std.specs.Prelude.{◌≡◌, ◌<◌, ◌≤◌, ◌∷◌, ◌++◌, List, length};

use crate::limits::{MAX_ATTRS, MAX_DEPTH, MAX_ELEMENTS};
use crate::text::{TextOut, is_only_space};
use crate::tree::{RawNode, RawTree};
use e57_base::{Fault, Kind, Octets, TextFault};
use e57_pieces::{Attrs, Piece};
use std::alloc::{AllocError, AllocFailed, Global};

/// An open element: where its node stands, and its text so far.
#[derive(Drop)]
pub struct Mark {
    pub place: usize,
    pub text: TextOut,
}

impl Mark {
    ghost use Rattle.e57_elements.specs.declared.tree.RawNode.{RawNode};
    ghost use Rattle.e57_elements.specs.Limits.{max_elements};
    ghost use Rattle.e57_elements.specs.Builder.{ended_node};

    /// Ends the element: its node gets its text and its size.
    fn end(self, nodes: &mut Vec<RawNode>)
        requires within { self.place < length nodes.old.items }
        requires few { length nodes.old.items ≤ max_elements }
        ensures { (before : List RawNode) (node : RawNode) (below : List RawNode)
            → nodes.old.items ≡ before ++ node ∷ below → length before ≡ self.place
            → nodes.new.items ≡ before ++ ended_node node below self.text ∷ below }
    {
        let size = nodes.len() - self.place;
        let text = self.text.beside(size > 1);
        let node = &mut nodes[self.place];
        node.size = size as u32;
        node.text = text;
    }
}

/// Why a piece isn't taken.
#[derive(Clone, Copy, Debug, PartialEq, Eq)]
pub enum TakeFault {
    /// With it the pieces begin no nested list.
    Nest,
    /// It passes a limit: 1 attributes, 2 depth, 3 elements.
    Limit(u64),
    /// Memory ran out.
    Memory,
}

impl TakeFault {
    ghost use Rattle.e57_elements.specs.Builder.{take_fault};

    /// The fault of a piece at this byte.
    pub fn at(self, byte: u64) -> TextFault
        ensures { result ≡ take_fault self byte }
    {
        match self {
            TakeFault::Nest => TextFault::Refused(Fault::new(Kind::Nest, byte, 0)),
            TakeFault::Limit(which) => TextFault::Refused(Fault::new(Kind::TreeLimit, byte, which)),
            TakeFault::Memory => TextFault::Memory,
        }
    }
}

impl From<AllocError> for TakeFault {
    ghost use Rattle.e57_elements.specs.declared.builder.TakeFault.TheVariants.{Memory};

    ghost from_gives = { λ _ fault. fault ≡ Memory };

    fn from(_error: AllocError) -> TakeFault {
        TakeFault::Memory
    }
}

impl<T: Drop> From<AllocFailed<T>> for TakeFault {
    ghost use Rattle.e57_elements.specs.declared.builder.TakeFault.TheVariants.{Memory};

    ghost from_gives = { λ _ fault. fault ≡ Memory };

    fn from(_error: AllocFailed<T>) -> TakeFault {
        TakeFault::Memory
    }
}

/// The nodes so far in preorder, of which those of open elements lack text and size; the open elements, the innermost
/// last; and whether the root has ended.
#[derive(Drop)]
pub struct Builder {
    pub nodes: Vec<RawNode>,
    pub marks: Vec<Mark>,
    pub done: bool,
}

impl Builder {
    ghost use Rattle.e57_pieces.specs.declared.piece.Piece.TheVariants.{Start, Empty, End, Comment, CData, Text};
    ghost use Rattle.std.specs.Prelude.{[]};
    ghost use Rattle.e57_elements.specs.Machine.{State, reading};
    ghost use Rattle.e57_elements.specs.Builder.{Keeps, IsBuilder, IsFinished, Takes, Admits, Ends};

    /// Before the first piece.
    pub fn new(alloc: Global) -> Builder
        ensures { Keeps result (reading []) }
    {
        Builder {
            nodes: Vec::new(alloc),
            marks: Vec::new(alloc),
            done: false,
        }
    }

    /// Takes the next piece.
    pub fn take(&mut self, alloc: Global, piece: Piece) -> Result<(), TakeFault>
        requires { IsBuilder self.old }
        ensures { (state : State) → Keeps self.old state → Takes state piece result self.new }
    {
        match piece {
            Piece::Start { name, attrs } => self.start(alloc, name, attrs),
            Piece::Empty { name, attrs } => self.empty(alloc, name, attrs),
            Piece::End { name } => self.end(&name),
            Piece::Comment => Ok(()),
            Piece::CData { text } => self.text(text),
            Piece::Text { text } => self.run(text),
        }
    }

    /// Whether an element with so many attributes may begin.
    fn admit(&self, attrs: usize) -> Result<(), TakeFault>
        ensures { (state : State) → Keeps self.now state → Admits state attrs result }
    {
        if self.done {
            return Err(TakeFault::Nest);
        }
        if attrs > MAX_ATTRS {
            return Err(TakeFault::Limit(1));
        }
        if self.marks.len() >= MAX_DEPTH {
            return Err(TakeFault::Limit(2));
        }
        if self.nodes.len() >= MAX_ELEMENTS {
            return Err(TakeFault::Limit(3));
        }
        Ok(())
    }

    /// Takes a start tag.
    fn start(&mut self, alloc: Global, name: Octets, attrs: Attrs) -> Result<(), TakeFault>
        ensures { (state : State) → Keeps self.old state → Takes state (Start name attrs) result self.new }
    {
        self.admit(attrs.len())?;
        let place = self.nodes.len();
        self.nodes.push(RawNode {
            name,
            attrs,
            text: Octets::new(Vec::new(alloc)),
            size: 0,
        })?;
        self.marks.push(Mark {
            place,
            text: TextOut::new(alloc),
        })?;
        Ok(())
    }

    /// Takes an empty tag.
    fn empty(&mut self, alloc: Global, name: Octets, attrs: Attrs) -> Result<(), TakeFault>
        ensures { (state : State) → Keeps self.old state → Takes state (Empty name attrs) result self.new }
    {
        self.admit(attrs.len())?;
        self.nodes.push(RawNode {
            name,
            attrs,
            text: Octets::new(Vec::new(alloc)),
            size: 1,
        })?;
        self.done = self.marks.is_empty();
        Ok(())
    }

    /// Takes an end tag.
    fn end(&mut self, name: &Octets) -> Result<(), TakeFault>
        requires { IsBuilder self.old }
        ensures { (state : State) → Keeps self.old state → Takes state (End name.now) result self.new }
    {
        let Some(mark) = self.marks.pop() else {
            return Err(TakeFault::Nest);
        };
        if self.nodes[mark.place].name.as_slice() != name.as_slice() {
            return Err(TakeFault::Nest);
        }
        mark.end(&mut self.nodes);
        self.done = self.marks.is_empty();
        Ok(())
    }

    /// Takes CDATA, or a text run in an element.
    fn text(&mut self, text: Octets) -> Result<(), TakeFault>
        ensures { (state : State) → Keeps self.old state → Takes state (CData text) result self.new }
    {
        let Some(mark) = self.marks.last_mut() else {
            return Err(TakeFault::Nest);
        };
        mark.text.push(text)?;
        Ok(())
    }

    /// Takes a text run.
    fn run(&mut self, text: Octets) -> Result<(), TakeFault>
        ensures { (state : State) → Keeps self.old state → Takes state (Text text) result self.new }
    {
        if !self.marks.is_empty() {
            return self.text(text);
        }
        if !is_only_space(text.as_slice()) {
            return Err(TakeFault::Nest);
        }
        Ok(())
    }

    /// The tree, where no piece is spelled at this byte because the text ends there. Takes no memory.
    pub fn finish(self, at_end: bool, byte: u64) -> Result<RawTree, TextFault>
        requires { IsFinished self }
        ensures { (state : State) → Keeps self state → Ends state at_end byte result }
    {
        let Builder { nodes, done, .. } = self;
        if !at_end {
            return Err(TextFault::Refused(Fault::new(Kind::Piece, byte, 0)));
        }
        if !done {
            return Err(TextFault::Refused(Fault::new(Kind::Nest, byte, 0)));
        }
        Ok(RawTree::new(nodes))
    }
}
