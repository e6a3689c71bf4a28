//! Other limits.

ghost use Rattle.std.specs.Prelude.{◌≡◌, length, map, IfOk, OnOk};
ghost use Rattle.e57_nodes.specs.Limits.{with_limits};
ghost use Rattle.e57_edits.specs.Changes.{limit_change};
ghost use Rattle.e57_edits.specs.Editing.{Gives};
ghost use Rattle.e57_edits.specs.Ranges.{range_at, AreOrdered, AreSigned, IsSigned};

use crate::changes::Change;
use crate::trees::edited;
use e57_tree::Tree;
use std::alloc::{AllocError, Global};

/// The limits of an integer element: the least value and the greatest one.
#[derive(Clone, Copy, Debug, PartialEq, Eq)]
pub struct Range {
    pub low: i64,
    pub high: i64,
}

/// The tree in which nodes have these limits (ASTM E2807, Integer and ScaledInteger), one entry for each
/// node in preorder, of which only integer elements are meant to have one. A node with no limits in its
/// entry, or whose attributes with both limits would be more than 64, stays as it is. An attribute
/// `minimum` or `maximum` that is there gets the number in decimal as its value; an absent one is put after
/// the last attribute, `minimum` before `maximum`. Takes time and memory linear in the tree.
pub fn with_limits(alloc: Global, tree: &Tree, ranges: &[Option<Range>]) -> Result<Tree, AllocError>
    requires all { length ranges.now ≡ length tree.now }
    requires ordered { AreOrdered ranges.now }
    ensures { Gives (with_limits (range_at ranges.now) 0) tree.now result }
{
    let changes = limit_changes(alloc, ranges)?;
    edited(alloc, tree.raw(), &changes)
}

/// The change of each node.
fn limit_changes(alloc: Global, ranges: &[Option<Range>]) -> Result<Vec<Change>, AllocError>
    ensures changes { IfOk result (λ changes. changes.items ≡ map limit_change ranges.now) }
    ensures signed { OnOk result (AreSigned ranges.now) }
{
    let mut changes = Vec::with_capacity(alloc, ranges.len())?;
    for range in ranges {
        changes.push(limit_change(*range))?;
    }
    Ok(changes)
}

/// The change to these limits.
fn limit_change(range: Option<Range>) -> Change
    ensures change { result ≡ limit_change range }
    ensures signed { IsSigned range }
{
    match range {
        None => Change::Keep,
        Some(range) => Change::Limit(range),
    }
}
