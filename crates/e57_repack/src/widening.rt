//! Ranges that are widened by the items of fields.

ghost use Rattle.std.specs.Prelude.{◌≡◌, ◌<◌, [], ◌∷◌, map, length, Some};
ghost use Rattle.std.specs.List.{AllByRecursion};
ghost use Rattle.e57_layout.specs.Values.{whole};
ghost use Rattle.e57_plain.specs.Tight.{range_of};
ghost use Rattle.e57_edits.specs.Ranges.{limits_of, IsOrdered, IsSigned};
ghost use Rattle.e57_blocks.specs.Runs.{run_values, HasRecords};
ghost use Rattle.e57_copy.specs.Adding.{held_columns};
ghost use Rattle.e57_repack.specs.Ranges.{AreLimits};
ghost use Rattle.e57_repack.specs.Widening.{joined, AreWidened};

use e57_blocks::{FieldBlock, Run};
use e57_edits::Range;
use e57_layout::Field;

/// Widens the entries of the fields' nodes to the items of the `n` records from record `i` on, which all blocks hold: a block
/// for each field. Only integers count.
pub fn widen_by_run(
    ranges: &mut Vec<Option<Range>>,
    fields: &[Field],
    blocks: &[FieldBlock],
    i: u64,
    n: usize,
)
    requires have { AllByRecursion (HasRecords i n) blocks.now }
    requires as_many { length blocks.now ≡ length fields.now }
    requires there { AllByRecursion (λ field. field.node < length ranges.old.items) fields.now }
    requires limits { AreLimits (length ranges.old.items) ranges.old.items }
    ensures limits { AreLimits (length ranges.old.items) ranges.new.items }
    ensures widened { AreWidened ranges.old.items fields.now (held_columns blocks.now i n) ranges.new.items }
{
    for j in 0..blocks.len() {
        widen_by_field(ranges, &fields[j], blocks[j].run(i, n));
    }
}

/// Widens the entry of a field's node to these items.
fn widen_by_field(ranges: &mut Vec<Option<Range>>, field: &Field, run: Run<'_>)
    requires there { field.now.node < length ranges.old.items }
    requires limits { AreLimits (length ranges.old.items) ranges.old.items }
    ensures limits { AreLimits (length ranges.old.items) ranges.new.items }
    ensures widened { AreWidened ranges.old.items (field.now ∷ []) (run_values run.entry ∷ []) ranges.new.items }
{
    let Run::Ints(items) = run else {
        return;
    };
    if items.is_empty() {
        return;
    }
    let node = field.node as usize;
    ranges[node] = Some(covering(ranges[node], extremes(items)));
}

/// What covers both ranges.
fn covering(range: Option<Range>, other: Range) -> Range
    requires ordered { IsOrdered range }
    requires other_ordered { IsOrdered (Some other) }
    ensures both { limits_of (Some result) ≡ joined (limits_of range) (limits_of (Some other)) }
    ensures ordered { IsOrdered (Some result) }
    ensures signed { IsSigned (Some result) }
{
    let Some(range) = range else {
        return other;
    };
    Range {
        low: range.low.min(other.low),
        high: range.high.max(other.high),
    }
}

/// The least and the greatest of some integers.
fn extremes(items: &[i64]) -> Range
    requires some { 0 < length items.now }
    ensures range { limits_of (Some result) ≡ range_of (map whole items.now) }
    ensures ordered { IsOrdered (Some result) }
{
    let mut low = items[0];
    let mut high = items[0];
    for k in 1..items.len() {
        low = low.min(items[k]);
        high = high.max(items[k]);
    }
    Range { low, high }
}
