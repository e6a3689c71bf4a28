//! What an edit does with a node.

ghost use Rattle.std.specs.Prelude.{◌≡◌};
ghost use Rattle.e57_edits.specs.Changes.{stays_alone};

use crate::limits::Range;

/// What an edit does with a node.
#[derive(Clone, Copy, Debug, PartialEq, Eq)]
pub enum Change {
    /// It stays as it is.
    Keep,
    /// It stays only if a node below it does.
    Omit,
    /// It gets these limits, if it has room for both.
    Limit(Range),
    /// It gets this number of records.
    Records(u64),
    /// It gets this length in bytes.
    Length(u64),
}

/// Whether a node with this change stays also where no node below it does.
pub fn stays_alone(change: Change) -> bool
    ensures { result ≡ stays_alone change }
{
    match change {
        Change::Omit => false,
        Change::Keep | Change::Limit(_) | Change::Records(_) | Change::Length(_) => true,
    }
}
