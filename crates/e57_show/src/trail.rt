//! The paths of nodes, one after another in preorder.

ghost use Rattle.std.specs.Prelude.{◌≡◌, ◌+◌, ◌<◌, ◌≤◌, length, reverse, IfOk, OnOk};
ghost use Rattle.e57_nodes.specs.Facts.{type_in};
ghost use Rattle.e57_nodes.specs.Paths.{counts_children as are_counted};
ghost use Rattle.e57_tree.specs.Flat.{raw_at};
ghost use Rattle.e57_tree.specs.Paths.{named_path};
ghost use Rattle.e57_show.specs.Trail.{first_mark, GivesParent, IsTrail};

use crate::lines::push_number;
use e57_elements::{RawNode, RawTree};
use e57_nodes::ElementType;
use e57_tree::{element_type, end_of};
use std::alloc::{AllocError, Global};

/// An element on the way down, before its next child.
#[derive(Clone, Copy)]
pub struct Mark {
    /// The number after those of its nodes.
    pub end: usize,
    /// How many bytes its path has.
    pub own: usize,
    /// Whether its children go by their positions.
    pub counted: bool,
    /// The position of the next child.
    pub position: u32,
}

/// Stands at one node after another, and has its path.
#[derive(Drop)]
pub struct Trail {
    /// The number of the node.
    pub node: usize,
    /// Its path.
    pub path: Vec<u8>,
    /// The elements on the way down to what follows the node, the innermost last.
    pub marks: Vec<Mark>,
}

/// The node with this number.
fn node(raw: &RawTree, n: usize) -> &RawNode
    requires { n < length raw.now }
    ensures { result.now ≡ raw_at raw.now n }
{
    raw.node(n)
}

/// Whether the children of a node of this type go by their positions.
fn counts_children(t: Option<ElementType>) -> bool
    ensures { result ≡ are_counted t }
{
    match t {
        Some(ElementType::Vector) => true,
        None
        | Some(
            ElementType::Structure
            | ElementType::CompressedVector
            | ElementType::Integer
            | ElementType::ScaledInteger
            | ElementType::Float
            | ElementType::String
            | ElementType::Blob,
        ) => false,
    }
}

/// The element at a node, before its first child.
fn mark_of(raw: &RawTree, n: usize, own: usize) -> Mark
    requires { n < length raw.now }
    ensures { result ≡ first_mark raw.now n own }
{
    Mark {
        end: end_of(raw, n),
        own,
        counted: counts_children(element_type(&node(raw, n).attrs)),
        position: 0,
    }
}

/// Takes away the elements that end at n, and the innermost of the others, which it gives.
fn parent_of(marks: &mut Vec<Mark>, n: usize) -> Option<Mark>
    ensures { GivesParent (reverse marks.old.items) n result (reverse marks.new.items) }
{
    while let Some(mark) = marks.pop() {
        if n < mark.end {
            return Some(mark);
        }
    }
    None
}

/// Appends `/`, and the position of an element's next child or its name.
fn push_child(path: &mut Vec<u8>, parent: &Mark, name: &[u8]) -> Result<(), AllocError>
    ensures { OnOk result (path.new.items ≡ named_path parent.now.counted path.old.items parent.now.position name.now) }
{
    if parent.counted {
        return push_number(path, b"/".as_slice(), u64::from(parent.position));
    }
    path.push(b'/')?;
    path.extend_from_slice(name)?;
    Ok(())
}

impl Trail {
    /// At the root.
    pub fn new(alloc: Global, raw: &RawTree) -> Result<Trail, AllocError>
        ensures trail { IfOk result (λ trail. IsTrail raw.now trail) }
        ensures root { IfOk result (λ trail. trail.node ≡ 0) }
    {
        let _count = raw.len();
        let mut marks = Vec::new(alloc);
        marks.push(mark_of(raw, 0, 0))?;
        Ok(Trail {
            node: 0,
            path: Vec::new(alloc),
            marks,
        })
    }

    /// Goes to the next node.
    fn step(&mut self, raw: &RawTree) -> Result<(), AllocError>
        requires inside { self.old.node + 1 < length raw.now }
        requires trail { IsTrail raw.now self.old }
        ensures trail { OnOk result (IsTrail raw.now self.new) }
        ensures next { OnOk result (self.new.node ≡ self.old.node + 1) }
    {
        let _count = raw.len();
        let n = self.node + 1;
        let _end = end_of(raw, n);
        let Some(parent) = parent_of(&mut self.marks, n) else {
            return Ok(());
        };
        self.path.truncate(parent.own);
        push_child(&mut self.path, &parent, node(raw, n).name.as_slice())?;
        self.marks.push(Mark {
            position: parent.position + 1,
            ..parent
        })?;
        self.marks.push(mark_of(raw, n, self.path.len()))?;
        self.node = n;
        Ok(())
    }

    /// Goes to a node that isn't before this one.
    pub fn go_to(&mut self, raw: &RawTree, wanted: usize) -> Result<(), AllocError>
        requires inside { wanted < length raw.now }
        requires before { self.old.node ≤ wanted }
        requires trail { IsTrail raw.now self.old }
        ensures trail { OnOk result (IsTrail raw.now self.new) }
        ensures there { OnOk result (self.new.node ≡ wanted) }
    {
        while self.node < wanted {
            self.step(raw)?;
        }
        Ok(())
    }
}
