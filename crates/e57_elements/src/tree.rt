//! The nodes of a tree.

ghost use Rattle.std.specs.Prelude.{◌≡◌, ◌==◌, ◌<◌, length, slice_get, Some};

use e57_base::Octets;
use e57_pieces::Attrs;
use std::marker::Model;

/// An element: its name, its attributes, its text, and how many nodes it and those below it are.
#[derive(Drop)]
pub struct RawNode {
    pub name: Octets,
    pub attrs: Attrs,
    pub text: Octets,
    pub size: u32,
}

/// A tree of elements within the limits, which contracts see as the list of its nodes in preorder.
#[derive(Drop)]
pub struct RawTree {
    nodes: Vec<RawNode>,
}

impl Model for RawTree {
    ghost use Rattle.std.specs.Prelude.{List};
    ghost use Rattle.e57_elements.specs.declared.tree.RawNode.{RawNode};
    ghost use Rattle.e57_elements.specs.Lawful.{AreNodes};

    ghost Value = { List RawNode };

    ghost view = { λ tree. tree.nodes.items };

    ghost invariant = { λ tree. AreNodes tree.nodes.items };
}

impl RawTree {
    ghost use Rattle.e57_elements.specs.Lawful.{AreNodes};

    /// The tree of these nodes. Takes no memory.
    pub fn new(nodes: Vec<RawNode>) -> RawTree
        requires { AreNodes nodes.items }
        ensures { result ≡ nodes.items }
    {
        RawTree { nodes }
    }

    /// How many nodes there are.
    pub fn len(&self) -> usize
        ensures len { result ≡ length self.now }
        ensures nodes { AreNodes self.now }
        ensures some { 0 < length self.now }
    {
        self.nodes.len()
    }

    /// Whether there is none. There is always one.
    pub fn is_empty(&self) -> bool
        ensures { result ≡ (length self.now == 0) }
    {
        self.nodes.is_empty()
    }

    /// The node at a place in preorder. The root stands at 0.
    pub fn node(&self, i: usize) -> &RawNode
        requires { i < length self.now }
        ensures { slice_get self.now i ≡ Some result.now }
    {
        &self.nodes[i]
    }
}
