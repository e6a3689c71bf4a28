//! The path of a node.

ghost use Rattle.std.specs.Prelude.{◌≡◌, ◌<◌, [], length, IfOk};
ghost use Rattle.e57_tree.specs.Flat.{end_of};
ghost use Rattle.e57_tree.specs.Paths.{path_in, LeadsTo};

use crate::fields::{counts_children, push_child};
use crate::nodes::{end_of, node, type_of};
use e57_base::Octets;
use e57_elements::RawTree;
use std::alloc::{AllocError, Global};

/// The path of the node with this number: it goes down from the root to the child in which the node stands.
pub fn path_of(alloc: Global, raw: &RawTree, wanted: usize) -> Result<Octets, AllocError>
    requires { wanted < length raw.now }
    ensures { IfOk result (λ path. path ≡ path_in raw.now 0 [] wanted) }
{
    let _count = raw.len();
    let mut path = Vec::new(alloc);
    let mut n = 0;
    while n < wanted {
        let step = child_with(raw, n, wanted);
        push_child(
            &mut path,
            counts_children(type_of(raw, n)),
            step.position,
            node(raw, step.child).name.as_slice(),
        )?;
        n = step.child;
    }
    Ok(Octets::new(path))
}

/// A child, and its position among the children.
#[derive(Clone, Copy)]
struct Step {
    child: usize,
    position: u32,
}

/// The child in which the wanted node stands.
fn child_with(raw: &RawTree, n: usize, wanted: usize) -> Step
    requires node { n < length raw.now }
    requires below { n < wanted }
    requires inside { wanted < end_of raw.now n }
    ensures { LeadsTo raw.now n wanted result.child result.position }
{
    let end = end_of(raw, n);
    let mut child = n + 1;
    let mut position = 0;
    let mut next = end_of(raw, child);
    while next <= wanted {
        child = next;
        position += 1;
        next = end_of(raw, child);
    }
    Step { child, position }
}
