//! What is asked of one cloud, looked up in the tree.

ghost use Rattle.std.specs.Prelude.{◌≡◌, ◌+◌, ◌<◌, ◌≤◌, ◌==◌, ℕ, List, length, map, Ok, IfOk, MatchResult};
ghost use Rattle.std.specs.List.{list_any, AllByRecursion};
ghost use Rattle.e57_layout.specs.Values.{item_kind};
ghost use Rattle.e57_elements.specs.Tree.{Element, preorder};
ghost use Rattle.e57_nodes.specs.Typed.{max_fields};
ghost use Rattle.e57_select.specs.Looking.{HasFields};
ghost use Rattle.e57_filter.specs.Asking.{chosen_of, is_integer, tests_from};
ghost use Rattle.e57_filter.specs.Asks.{filter_asked, keep_asked, IsLimitedFilter};
ghost use Rattle.e57_filter.specs.Selecting.{chosen_numbers, field_test, IsIntegerField, IsSelected, IsUnselected, LacksTest, MakesTest};

use crate::ask::{FilterAsk, Keep};
use e57_base::{AskFault, RunFault};
use e57_file::E57;
use e57_layout::{Field, FieldKind};
use e57_select::{field_named, field_numbers, past_asked};
use e57_tree::Cloud;
use std::alloc::{AllocError, Global};

/// Limits of the integers of a field, by its number in the cloud.
#[derive(Clone, Copy)]
pub struct FieldTest {
    pub field: u16,
    pub low: i64,
    pub high: i64,
}

/// What is asked of a cloud that the file has.
#[derive(Drop)]
pub struct Selected {
    /// The number of the cloud.
    pub k: usize,
    /// The cloud.
    pub cloud: Cloud,
    /// The numbers of the fields that are kept, in ascending order.
    pub numbers: Vec<u16>,
    /// Of each field whether it is kept.
    pub chosen: Vec<bool>,
    /// The tests of a record.
    pub tests: Vec<FieldTest>,
    /// The number of the first record.
    pub from: u64,
    /// How many records.
    pub count: u64,
}

/// Looks up what is asked: the cloud, then each field of the list, then the field of each test and its integers, then the
/// records.
///
/// Refuses with `Ask`: `Cloud`, `Field` for the first name that no field has, by its place in the list, `Keep` for the
/// first test whose field isn't there, `NotInteger` for the first one whose field has no integers, or `Range`. `Memory`
/// if there is none.
pub fn select(alloc: Global, file: &E57, ask: &FilterAsk<'_>) -> Result<Selected, RunFault>
    requires { IsLimitedFilter ask.now }
    ensures { (e : Element) → file.now ≡ preorder e → MatchResult result
        (λ s. IsSelected (filter_asked ask.now) e s)
        (λ fault. IsUnselected (filter_asked ask.now) e fault) }
{
    let _raw = file.tree().raw();
    let clouds = file.tree().clouds();
    let have = clouds.len() as u64;
    if ask.cloud >= have {
        return Err(RunFault::Ask(AskFault::Cloud {
            asked: ask.cloud,
            have,
        }));
    }
    let k = ask.cloud as usize;
    let cloud = clouds[k];
    let fields = file.tree().fields(k);
    let named = field_numbers(alloc, file, k, fields, ask.fields)?;
    let tests = tests_of(alloc, file, k, fields, ask.keeps.as_slice())?;
    let end = past_asked(ask.from, ask.count);
    if cloud.count < end {
        return Err(RunFault::Ask(AskFault::Range {
            asked: end,
            have: cloud.count,
        }));
    }
    let chosen = flags_of(alloc, fields.len(), &named)?;
    let numbers = numbers_where(alloc, &chosen)?;
    Ok(Selected {
        k,
        cloud,
        numbers,
        chosen,
        tests,
        from: ask.from,
        count: ask.count.unwrap_or(cloud.count - ask.from),
    })
}

/// Which of the first n fields are among these.
fn flags_of(alloc: Global, n: usize, numbers: &[u16]) -> Result<Vec<bool>, AllocError>
    requires { n ≤ max_fields }
    ensures { IfOk result (λ flags. flags.items ≡ chosen_of n numbers.now) }
{
    let mut flags = Vec::new(alloc);
    for f in 0..n {
        flags.push(is_among(f as u16, numbers))?;
    }
    Ok(flags)
}

/// Whether field f is one of these.
fn is_among(f: u16, numbers: &[u16]) -> bool
    ensures { result ≡ list_any (λ (k : ℕ). k == f) numbers.now }
{
    numbers.iter().any(|k| *k == f)
}

/// The numbers of the fields that these flags choose, in ascending order.
fn numbers_where(alloc: Global, chosen: &[bool]) -> Result<Vec<u16>, AllocError>
    requires { length chosen.now ≤ max_fields }
    ensures { IfOk result (λ numbers. numbers.items ≡ chosen_numbers chosen.now) }
{
    let mut numbers = Vec::new(alloc);
    for f in 0..chosen.len() {
        if !chosen[f] {
            continue;
        }
        numbers.push(f as u16)?;
    }
    Ok(numbers)
}

/// Whether the items of a field are integers.
fn has_integers(field: &Field) -> bool
    ensures { result ≡ is_integer (item_kind field.now.kind) }
{
    match &field.kind {
        FieldKind::Int { .. } => true,
        FieldKind::Scaled { .. } => true,
        _ => false,
    }
}

/// The tests of the fields of cloud k, which has these fields.
fn tests_of(
    alloc: Global,
    file: &E57,
    k: usize,
    fields: &[Field],
    keeps: &[Keep<'_>],
) -> Result<Vec<FieldTest>, RunFault>
    requires cloud { HasFields file.now k fields.now }
    ensures { MatchResult result
        (λ tests. (tests_from fields.now 0 (map keep_asked keeps.now) ≡ Ok (map field_test tests.items))
        × AllByRecursion (IsIntegerField fields.now) tests.items)
        (λ fault. LacksTest fields.now (map keep_asked keeps.now) fault) }
{
    let mut tests = Vec::new(alloc);
    for j in 0..keeps.len() {
        match test_of(file, k, fields, j, &keeps[j]) {
            Ok(test) => tests.push(test)?,
            Err(why) => return Err(RunFault::Ask(why)),
        }
    }
    Ok(tests)
}

/// The test of the field that test j of the list names.
fn test_of(
    file: &E57,
    k: usize,
    fields: &[Field],
    j: usize,
    keep: &Keep<'_>,
) -> Result<FieldTest, AskFault>
    requires cloud { HasFields file.now k fields.now }
    ensures { MakesTest fields.now j (keep_asked keep.now) result }
{
    let Keep { field, low, high } = *keep;
    let Some(f) = field_named(file, k, fields, field) else {
        return Err(AskFault::Keep {
            asked: j as u64,
            have: fields.len() as u64,
        });
    };
    if !has_integers(&fields[f as usize]) {
        return Err(AskFault::NotInteger {
            asked: j as u64,
            have: fields.len() as u64,
        });
    }
    Ok(FieldTest {
        field: f,
        low,
        high,
    })
}
