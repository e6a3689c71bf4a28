//! Fields and records that are asked for, by names and numbers.

ghost use Rattle.std.specs.Prelude.{◌≡◌, ◌≤◌, ℕ, List, length, map, Option, option_map, Ok, IfOk, IfSome, MatchResult};
ghost use Rattle.std.specs.List.{range_with_len};
ghost use Rattle.e57_base.specs.declared.fault.AskFault.TheVariants as AskFault;
ghost use Rattle.e57_base.specs.declared.fault.RunFault.TheVariants as RunFault;
ghost use Rattle.e57_nodes.specs.Typed.{max_fields};
ghost use Rattle.e57_file.specs.Opened.{field_number};
ghost use Rattle.e57_select.specs.Asking.{asked_end, most_asked, names_in, numbers_from, numbers_of};
ghost use Rattle.e57_select.specs.Looking.{HasFields, LacksField, LacksName};

use e57_base::{AskFault, RunFault};
use e57_file::E57;
use e57_layout::Field;
use std::alloc::{AllocError, Global};

/// The number of the record past the last one that is asked for by a number, else of the first one.
pub fn past_asked(from: u64, count: Option<u64>) -> u64
    requires from { from ≤ most_asked }
    requires count { IfSome count (λ n. n ≤ most_asked) }
    ensures { result ≡ asked_end from count }
{
    match count {
        None => from,
        Some(n) => from + n,
    }
}

/// The numbers of the asked fields of cloud k, which has these fields: those with the names of a list, or all.
pub fn field_numbers(
    alloc: Global,
    file: &E57,
    k: usize,
    fields: &[Field],
    list: Option<&str>,
) -> Result<Vec<u16>, RunFault>
    requires cloud { HasFields file.now k fields.now }
    requires few { length fields.now ≤ max_fields }
    ensures { let names : Option (List (List ℕ)) = option_map (λ text. names_in text.now) list.entry in MatchResult result
        (λ numbers. numbers_of fields.now names ≡ Ok numbers.items)
        (λ fault. LacksField names fields.now fault) }
{
    match list {
        None => Ok(all_numbers(alloc, fields.len())?),
        Some(text) => {
            let names = listed(alloc, text)?;
            named_numbers(alloc, file, k, fields, &names)
        }
    }
}

/// The names of a list, which commas separate.
fn listed<'a>(alloc: Global, list: &'a str) -> Result<Vec<&'a str>, AllocError>
    ensures { IfOk result (λ names. map (λ name. name.now) names.items ≡ names_in list.now) }
{
    list.split(',').collect(alloc)
}

/// The numbers below n.
fn all_numbers(alloc: Global, n: usize) -> Result<Vec<u16>, AllocError>
    requires { n ≤ max_fields }
    ensures { IfOk result (λ numbers. numbers.items ≡ range_with_len 0 n) }
{
    let mut numbers = Vec::new(alloc);
    for f in 0..n {
        numbers.push(f as u16)?;
    }
    Ok(numbers)
}

/// The numbers of the fields with these names, in their order.
fn named_numbers(
    alloc: Global,
    file: &E57,
    k: usize,
    fields: &[Field],
    names: &[&str],
) -> Result<Vec<u16>, RunFault>
    requires cloud { HasFields file.now k fields.now }
    ensures { MatchResult result
        (λ numbers. numbers_from fields.now 0 (map (λ name. name.now) names.now) ≡ Ok numbers.items)
        (λ fault. LacksName fields.now (map (λ name. name.now) names.now) fault) }
{
    let mut numbers = Vec::new(alloc);
    for (j, name) in names.iter().enumerate() {
        match field_named(file, k, fields, name) {
            Some(f) => numbers.push(f)?,
            None => return Err(no_field(j, fields)),
        }
    }
    Ok(numbers)
}

/// No field has name j of the list.
fn no_field(j: usize, fields: &[Field]) -> RunFault
    ensures { result ≡ RunFault.Ask (AskFault.Field j (length fields.now)) }
{
    RunFault::Ask(AskFault::Field {
        asked: j as u64,
        have: fields.len() as u64,
    })
}

/// The number of the first of these fields of cloud k that has this path.
pub fn field_named(file: &E57, k: usize, fields: &[Field], name: &str) -> Option<u16>
    requires cloud { HasFields file.now k fields.now }
    ensures { result ≡ field_number name.now fields.now }
{
    file.field_named(k, name)
}
