//! Trees edited, as the texts of their elements before and after.

ghost use Rattle.std.specs.Prelude.{◌≡◌, ℕ, ◌≤◌, ◌≤ℤ◌, ◌<◌, true, length, slice_index_or, Some};
ghost use Rattle.e57_nodes.specs.Typed.{max_records};
ghost use Rattle.e57_plain.specs.Pruned.{keeps_some};
ghost use Rattle.e57_edits.specs.Ranges.{AreOrdered, IsOrdered};

use crate::{Range, with_cloud, with_counts, with_limits};
use e57_elements::{MAX_TEXT, read_elements, write_elements};
use e57_tree::Tree;
use std::alloc::{AllocError, Global};
use std::process::Abort;
use std::test::Fail;

/// An edit of a tree.
#[derive(Clone, Copy)]
enum Edit<'a> {
    /// The limits of each node.
    Limits(&'a [Option<Range>]),
    /// The number of the cloud, its chosen fields, and its number of records.
    Cloud(usize, &'a [bool], u64),
    /// The counts of clouds and blobs.
    Counts(&'a [u64]),
}

/// The tree of a text.
fn read(alloc: Global, text: &[u8]) -> Result<Tree, Fail> {
    if text.len() > MAX_TEXT {
        return Err(AllocError.into());
    }
    match read_elements(alloc, text) {
        Ok(raw) => match Tree::from_raw(alloc, raw) {
            Ok(tree) => Ok(tree),
            Err(_fault) => Err(AllocError.into()),
        },
        Err(_fault) => Err(AllocError.into()),
    }
}

/// Whether the least value is at most the greatest in each entry.
fn are_ordered(ranges: &[Option<Range>]) -> bool
    ensures { result ≡ true → AreOrdered ranges.now }
{
    for range in ranges {
        if !is_ordered(*range) {
            return false;
        }
    }
    true
}

fn is_ordered(range: Option<Range>) -> bool
    ensures { result ≡ true → IsOrdered range }
{
    match range {
        None => true,
        Some(range) => range.low <= range.high,
    }
}

/// Whether each count is at most 2^40.
fn are_few(counts: &[u64]) -> bool
    ensures { result ≡ true → (i : ℕ) → slice_index_or counts.now i 0 ≤ max_records }
{
    for count in counts {
        if *count > 1 << 40 {
            return false;
        }
    }
    true
}

/// Whether one of these is true.
#[tactic(auto, using(crate::proofs::Chosen::any_at))]
fn is_any(chosen: &[bool]) -> bool
    ensures { result ≡ true → keeps_some chosen.now ≡ true }
{
    for i in 0..chosen.len() {
        if chosen[i] {
            return true;
        }
    }
    false
}

/// The edited tree; the tree as it is where the edit isn't one of this tree.
fn edited(alloc: Global, tree: Tree, edit: Edit<'_>) -> Result<Tree, AllocError> {
    match edit {
        Edit::Limits(ranges) => limits(alloc, tree, ranges),
        Edit::Cloud(k, chosen, count) => cloud(alloc, tree, k, chosen, count),
        Edit::Counts(counts) => numbers(alloc, tree, counts),
    }
}

fn limits(alloc: Global, tree: Tree, ranges: &[Option<Range>]) -> Result<Tree, AllocError> {
    let ordered = are_ordered(ranges);
    if !ordered || tree.raw().len() != ranges.len() {
        return Ok(tree);
    }
    with_limits(alloc, &tree, ranges)
}

fn cloud(
    alloc: Global,
    tree: Tree,
    k: usize,
    chosen: &[bool],
    count: u64,
) -> Result<Tree, AllocError> {
    let some = is_any(chosen);
    if k >= tree.clouds().len() || count > 1 << 40 || !some {
        return Ok(tree);
    }
    if tree.fields(k).len() != chosen.len() {
        return Ok(tree);
    }
    with_cloud(alloc, &tree, k, chosen, count)
}

fn numbers(alloc: Global, tree: Tree, counts: &[u64]) -> Result<Tree, AllocError> {
    let few = are_few(counts);
    if !few || tree.items().len() != counts.len() {
        return Ok(tree);
    }
    with_counts(alloc, &tree, counts)
}

/// The text of the edited tree, without its declaration.
fn shown(alloc: Global, text: &str, edit: Edit<'_>) -> Result<Vec<u8>, Fail> {
    let tree = edited(alloc, read(alloc, text.as_bytes())?, edit)?;
    Ok(write_elements(alloc, tree.raw())?)
}

const NONE: Option<Range> = None;

const fn range(low: i64, high: i64) -> Option<Range> {
    Some(Range { low, high })
}

/// Two clouds and a blob; the first cloud has fields in structures within one another.
const BEFORE: &str =
    "<e57Root type=\"Structure\"><a type=\"CompressedVector\" fileOffset=\"48\" recordCount=\"007\"><prototype type=\"Structure\"><p type=\"Structure\"><x type=\"Integer\" minimum=\"+0\" maximum=\"007\"/><y type=\"Float\"/></p><q type=\"Structure\"><r type=\"Structure\"><s type=\"String\"/></r><u type=\"Structure\"/></q><z type=\"ScaledInteger\" scale=\"2\"/></prototype></a><b type=\"CompressedVector\" fileOffset=\"0\" recordCount=\"1\"><prototype type=\"Structure\"><v type=\"Integer\" maximum=\"9\"/></prototype><codecs type=\"Blob\" fileOffset=\"7\" length=\"+5\"/></b></e57Root>";

fn check(
    rt: &impl Abort,
    alloc: Global,
    before: &str,
    edit: Edit<'_>,
    want: &str,
) -> Result<(), Fail> {
    let found = shown(alloc, before, edit)?;
    let (_declaration, root) = found.as_slice().split_at(found.len().min(39));
    assert_eq!(rt; root, want.as_bytes());
    Ok(())
}

#[test]
fn trees(rt: HostRuntime) -> Result<(), Fail> {
    let rows = [
        (
            Edit::Limits(&[
                NONE,
                NONE,
                NONE,
                NONE,
                range(0, 7),
                NONE,
                NONE,
                NONE,
                NONE,
                NONE,
                range(-1, 3),
                NONE,
                NONE,
                range(i64::MIN, i64::MAX),
                NONE,
            ]),
            "<e57Root type=\"Structure\"><a type=\"CompressedVector\" fileOffset=\"48\" recordCount=\"007\"><prototype type=\"Structure\"><p type=\"Structure\"><x type=\"Integer\" minimum=\"0\" maximum=\"7\"/><y type=\"Float\"/></p><q type=\"Structure\"><r type=\"Structure\"><s type=\"String\"/></r><u type=\"Structure\"/></q><z type=\"ScaledInteger\" scale=\"2\" minimum=\"-1\" maximum=\"3\"/></prototype></a><b type=\"CompressedVector\" fileOffset=\"0\" recordCount=\"1\"><prototype type=\"Structure\"><v type=\"Integer\" maximum=\"9223372036854775807\" minimum=\"-9223372036854775808\"/></prototype><codecs type=\"Blob\" fileOffset=\"7\" length=\"+5\"/></b></e57Root>",
        ),
        (
            Edit::Cloud(0, &[false, false, true, false], 12),
            "<e57Root type=\"Structure\"><a type=\"CompressedVector\" fileOffset=\"48\" recordCount=\"12\"><prototype type=\"Structure\"><q type=\"Structure\"><r type=\"Structure\"><s type=\"String\"/></r></q></prototype></a><b type=\"CompressedVector\" fileOffset=\"0\" recordCount=\"1\"><prototype type=\"Structure\"><v type=\"Integer\" maximum=\"9\"/></prototype><codecs type=\"Blob\" fileOffset=\"7\" length=\"+5\"/></b></e57Root>",
        ),
        (
            Edit::Cloud(0, &[false, true, false, true], 0),
            "<e57Root type=\"Structure\"><a type=\"CompressedVector\" fileOffset=\"48\" recordCount=\"0\"><prototype type=\"Structure\"><p type=\"Structure\"><y type=\"Float\"/></p><z type=\"ScaledInteger\" scale=\"2\"/></prototype></a><b type=\"CompressedVector\" fileOffset=\"0\" recordCount=\"1\"><prototype type=\"Structure\"><v type=\"Integer\" maximum=\"9\"/></prototype><codecs type=\"Blob\" fileOffset=\"7\" length=\"+5\"/></b></e57Root>",
        ),
        (
            Edit::Cloud(1, &[true], 1099511627776),
            "<e57Root type=\"Structure\"><a type=\"CompressedVector\" fileOffset=\"48\" recordCount=\"007\"><prototype type=\"Structure\"><p type=\"Structure\"><x type=\"Integer\" minimum=\"+0\" maximum=\"007\"/><y type=\"Float\"/></p><q type=\"Structure\"><r type=\"Structure\"><s type=\"String\"/></r><u type=\"Structure\"/></q><z type=\"ScaledInteger\" scale=\"2\"/></prototype></a><b type=\"CompressedVector\" fileOffset=\"0\" recordCount=\"1099511627776\"><prototype type=\"Structure\"><v type=\"Integer\" maximum=\"9\"/></prototype><codecs type=\"Blob\" fileOffset=\"7\" length=\"+5\"/></b></e57Root>",
        ),
        (
            Edit::Counts(&[4, 0, 5]),
            "<e57Root type=\"Structure\"><a type=\"CompressedVector\" fileOffset=\"48\" recordCount=\"4\"><prototype type=\"Structure\"><p type=\"Structure\"><x type=\"Integer\" minimum=\"+0\" maximum=\"007\"/><y type=\"Float\"/></p><q type=\"Structure\"><r type=\"Structure\"><s type=\"String\"/></r><u type=\"Structure\"/></q><z type=\"ScaledInteger\" scale=\"2\"/></prototype></a><b type=\"CompressedVector\" fileOffset=\"0\" recordCount=\"0\"><prototype type=\"Structure\"><v type=\"Integer\" maximum=\"9\"/></prototype><codecs type=\"Blob\" fileOffset=\"7\" length=\"5\"/></b></e57Root>",
        ),
    ];
    for (edit, want) in rows {
        check(&rt, rt.alloc(), BEFORE, edit, want)?;
    }
    Ok(())
}

/// An integer element with so many attributes without a meaning, between its type and these last ones.
fn crowded(alloc: Global, others: usize, last: &str) -> Result<String, AllocError> {
    let mut text = String::new(alloc);
    text.push_str("<e57Root type=\"Structure\"><x type=\"Integer\"")?;
    for i in 0..others {
        let attr = format!(in alloc; " a{i}=\"\"")?;
        text.push_str(attr.as_str())?;
    }
    text.push_str(last)?;
    text.push_str("/></e57Root>")?;
    Ok(text)
}

// Limits are set only if the element then has at most 64 attributes.
#[test]
fn elements_with_64_attributes(rt: HostRuntime) -> Result<(), Fail> {
    let rows = [
        (61, "", " minimum=\"-1\" maximum=\"3\""),
        (62, "", ""),
        (63, "", ""),
        (61, " minimum=\"+0\"", " minimum=\"-1\" maximum=\"3\""),
        (62, " minimum=\"+0\"", " minimum=\"+0\""),
        (61, " maximum=\"007\"", " maximum=\"3\" minimum=\"-1\""),
        (62, " maximum=\"007\"", " maximum=\"007\""),
        (
            61,
            " maximum=\"007\" minimum=\"+0\"",
            " maximum=\"3\" minimum=\"-1\"",
        ),
    ];
    for (others, before, after) in rows {
        let text = crowded(rt.alloc(), others, before)?;
        let want = crowded(rt.alloc(), others, after)?;
        let edit = Edit::Limits(&[NONE, range(-1, 3)]);
        check(&rt, rt.alloc(), text.as_str(), edit, want.as_str())?;
    }
    Ok(())
}
