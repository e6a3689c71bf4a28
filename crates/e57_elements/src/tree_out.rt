//! A tree that is made by calls.

ghost use Rattle.std.specs.Prelude.{◌≡◌, ◌<◌, [], length, IfOk, OnOk, OnErr};

use crate::limits::MAX_DEPTH;
use crate::tree::{RawNode, RawTree};
use e57_base::Octets;
use e57_pieces::{Attr, Attrs};
use std::alloc::{AllocError, Global};
use std::marker::Model;

/// A tree that is made node by node in preorder. Contracts see the nodes so far, and the places of the begun ones. After
/// want of memory it is as it was.
#[derive(Drop)]
pub struct TreeOut {
    nodes: Vec<RawNode>,
    begun: Vec<usize>,
    alloc: Global,
}

impl Model for TreeOut {
    ghost use Rattle.e57_elements.specs.Making.{TreeSoFar, IsLawfulSoFar};

    ghost Value = { TreeSoFar };

    ghost view = { λ tree. record { nodes = tree.nodes.items; begun = tree.begun.items } };

    ghost invariant = { λ tree. IsLawfulSoFar (record { nodes = tree.nodes.items; begun = tree.begun.items }) };
}

impl TreeOut {
    ghost use Rattle.e57_elements.specs.Lawful.{AreNodes};
    ghost use Rattle.e57_elements.specs.Making.{TreeSoFar, started, add_attr, set_text, ChangesLast, Ends, MayStart, MayAttr, MayText};

    /// No node.
    pub fn new(alloc: Global) -> Result<TreeOut, AllocError>
        ensures { IfOk result (λ tree. tree ≡ record { nodes = []; begun = [] }) }
    {
        Ok(TreeOut {
            nodes: Vec::new(alloc),
            begun: Vec::with_capacity(alloc, MAX_DEPTH)?,
            alloc,
        })
    }

    /// Begins a node below the innermost begun one, or the root. At most 64 nodes are begun at a time, and there are at
    /// most 2^20.
    pub fn start(&mut self, name: &[u8]) -> Result<(), AllocError>
        requires { MayStart self.old name.now }
        ensures ok { OnOk result (self.new ≡ started name.now self.old) }
        ensures err { OnErr result (self.new ≡ self.old) }
    {
        let node = RawNode {
            name: Octets::new(Vec::from_slice(self.alloc, name)?),
            attrs: Attrs::new(self.alloc),
            text: Octets::new(Vec::new(self.alloc)),
            size: 0,
        };
        self.begun.push(self.nodes.len())?;
        if let Err(_full) = self.nodes.push(node) {
            let _place = self.begun.pop();
            return Err(AllocError);
        }
        Ok(())
    }

    /// Adds an attribute to the innermost begun node, which has no child yet. It has at most 64, whose names differ.
    pub fn attr(&mut self, name: &[u8], value: &[u8]) -> Result<(), AllocError>
        requires { MayAttr self.old name.now value.now }
        ensures ok { OnOk result (ChangesLast (add_attr name.now value.now) self.old self.new) }
        ensures err { OnErr result (self.new ≡ self.old) }
    {
        let attr = Attr {
            name: Octets::new(Vec::from_slice(self.alloc, name)?),
            value: Octets::new(Vec::from_slice(self.alloc, value)?),
        };
        let last = self.nodes.len() - 1;
        self.nodes[last].attrs.push(attr)
    }

    /// Sets the text of the innermost begun node, which has no child yet.
    pub fn text(&mut self, text: &[u8]) -> Result<(), AllocError>
        requires { MayText self.old text.now }
        ensures ok { OnOk result (ChangesLast (set_text text.now) self.old self.new) }
        ensures err { OnErr result (self.new ≡ self.old) }
    {
        let text = Octets::new(Vec::from_slice(self.alloc, text)?);
        let last = self.nodes.len() - 1;
        self.nodes[last].text = text;
        Ok(())
    }

    /// Ends the innermost begun node.
    pub fn end(&mut self)
        requires { 0 < length self.old.begun }
        ensures { Ends self.old self.new }
    {
        let place = self.begun.pop().unwrap();
        let size = self.nodes.len() - place;
        self.nodes[place].size = size as u32;
    }

    /// The tree of the calls. Takes no memory.
    pub fn finish(self) -> RawTree
        requires some { 0 < length self.nodes }
        requires ended { self.begun ≡ [] }
        ensures tree { result ≡ self.nodes }
        ensures lawful { AreNodes result }
    {
        let TreeOut { nodes, .. } = self;
        RawTree::new(nodes)
    }
}
