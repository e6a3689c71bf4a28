//! What is asked of the records of a cloud, looked up in the tree.

ghost use Rattle.std.specs.Prelude.{◌≡◌, ◌<◌, length, MatchResult};
ghost use Rattle.std.specs.List.{AllByRecursion};
ghost use Rattle.e57_base.specs.declared.fault.AskFault.TheVariants as AskFault;
ghost use Rattle.e57_base.specs.declared.fault.RunFault.TheVariants as RunFault;
ghost use Rattle.e57_layout.specs.Values.{IsValidField};
ghost use Rattle.e57_show.specs.Extract.{IsLimited, asked_by, lacking as lacking_of};
ghost use Rattle.e57_show.specs.Extracting.{IsSelected, IsUnselected};

use crate::ask::RowsAsk;
use e57_base::{AskFault, RunFault};
use e57_file::E57;
use e57_layout::Field;
use e57_rows::has_decimals;
use e57_select::{field_numbers, past_asked};
use e57_tree::Cloud;
use std::alloc::Global;

/// What is asked of a cloud that the file has.
#[derive(Drop)]
pub struct Selected {
    /// The number of the cloud.
    pub k: usize,
    /// The cloud.
    pub cloud: Cloud,
    /// The numbers of the asked fields, in the asked order.
    pub numbers: Vec<u16>,
    /// The number of the first record.
    pub from: u64,
    /// How many records.
    pub count: u64,
    /// Whether scaled integers are put as the numbers that they stand for.
    pub decimal: bool,
}

/// Looks up what is asked: the cloud, then each field of the list, then the decimals of the asked fields, then the records.
pub fn select(alloc: Global, file: &E57, ask: &RowsAsk<'_>) -> Result<Selected, RunFault>
    requires { IsLimited ask.now }
    ensures { MatchResult result
        (λ s. IsSelected file.now (asked_by ask.now) s)
        (λ fault. IsUnselected file.now (asked_by ask.now) fault) }
{
    let _raw = file.tree().raw();
    let RowsAsk {
        cloud: asked,
        fields: list,
        from,
        count,
        decimal,
    } = *ask;
    let clouds = file.tree().clouds();
    let have = clouds.len() as u64;
    if asked >= have {
        return Err(RunFault::Ask(AskFault::Cloud { asked, have }));
    }
    let k = asked as usize;
    let cloud = clouds[k];
    let fields = file.tree().fields(k);
    let numbers = field_numbers(alloc, file, k, fields, list)?;
    if let Some(j) = lacking(decimal, fields, &numbers) {
        return Err(no_decimals(j, fields));
    }
    let end = past_asked(from, count);
    if cloud.count < end {
        return Err(RunFault::Ask(AskFault::Range {
            asked: end,
            have: cloud.count,
        }));
    }
    Ok(Selected {
        k,
        cloud,
        numbers,
        from,
        count: count.unwrap_or(cloud.count - from),
        decimal,
    })
}

/// The place, among the asked fields, of the first one whose items have no decimals, where these are asked for.
fn lacking(decimal: bool, fields: &[Field], numbers: &[u16]) -> Option<u64>
    requires valid { AllByRecursion IsValidField fields.now }
    requires numbers { AllByRecursion (λ f. f < length fields.now) numbers.now }
    ensures { result ≡ lacking_of decimal fields.now numbers.now }
{
    if !decimal {
        return None;
    }
    for (j, f) in numbers.iter().enumerate() {
        if !has_decimals(&fields[*f as usize]) {
            return Some(j as u64);
        }
    }
    None
}

/// The field at place j of the asked ones has no decimals.
fn no_decimals(j: u64, fields: &[Field]) -> RunFault
    ensures { result ≡ RunFault.Ask (AskFault.Decimal j (length fields.now)) }
{
    RunFault::Ask(AskFault::Decimal {
        asked: j,
        have: fields.len() as u64,
    })
}
