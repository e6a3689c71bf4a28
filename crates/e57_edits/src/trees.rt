//! A tree of what stays.

ghost use Rattle.std.specs.Prelude.{◌≡◌, length, IfOk};
ghost use Rattle.e57_edits.specs.Changes.{IsSoundEdit};
ghost use Rattle.e57_edits.specs.Nodes.{edited_nodes};

use crate::changes::Change;
use crate::nodes::edited_nodes;
use e57_base::TextFault;
use e57_elements::RawTree;
use e57_tree::Tree;
use std::alloc::{AllocError, Global};

/// The tree of the nodes that stay, with these changes, one for each node. `Tree::from_raw` doesn't refuse it,
/// since the edit is sound.
pub fn edited(alloc: Global, raw: &RawTree, changes: &[Change]) -> Result<Tree, AllocError>
    requires all { length changes.now ≡ length raw.now }
    requires sound { IsSoundEdit changes.now raw.now }
    ensures { IfOk result (λ new. new ≡ edited_nodes changes.now raw.now) }
{
    let nodes = edited_nodes(alloc, raw, changes)?;
    match Tree::from_raw(alloc, RawTree::new(nodes)) {
        Ok(tree) => Ok(tree),
        Err(fault) => match fault {
            TextFault::Memory => Err(AllocError),
            TextFault::Refused(_) => unreachable!(),
        },
    }
}
