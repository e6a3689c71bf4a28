//! The columns of a cloud read, and the raw numbers of the first one added up.

ghost use Rattle.std.specs.Prelude.{◌≡◌, ◌+◌, ◌*◌, ◌/◌, ◌%◌, ◌^◌, ◌<◌, ◌≤◌, [], map, length, get_or, IfOk, MatchResult};
ghost use Rattle.std.specs.List.{sum_by, AllByRecursion, range_with_len};
ghost use Rattle.e57_base.specs.Source.{page_length};
ghost use Rattle.e57_page.specs.Place.{payload_length};
ghost use Rattle.e57_layout.specs.Values.{whole};
ghost use Rattle.e57_cloud.specs.Cloud.{float_from};
ghost use Rattle.e57_section.specs.Opening.{LiesIn, most_records};
ghost use Rattle.e57_blocks.specs.Fields.{slice_at};
ghost use Rattle.e57_blocks.specs.Runs.{run_values, HasRecords};
ghost use Rattle.e57_elements.specs.Tree.{Element, preorder};
ghost use Rattle.e57_nodes.specs.Items.{leaves_of};
ghost use Rattle.e57_nodes.specs.Typed.{max_fields};
ghost use Rattle.e57_tree.specs.Held.{cloud_in, AreCloudFields};
ghost use Rattle.e57_check.specs.Checking.{IsCloud};
ghost use Rattle.e57_check.specs.Clouds.{cloud_of};
ghost use Rattle.e57_copy.specs.Adding.{held_columns};
ghost use Rattle.e57_copy.specs.Copying.{StandBefore};
ghost use Rattle.e57_copy.specs.Sections.{all_records};
ghost use Rattle.e57_trial.specs.Summing.{first_cloud, raw_number, SumsAll, SumsCloud, SumsNoCloud, SumsNot};

use e57_base::{OpenFault, Source};
use e57_blocks::{FieldBlock, FieldBlocks, MOST, Run};
use e57_file::E57;
use e57_layout::{Field, Fixed, Section};
use e57_page::Pages;
use e57_section::open_section;
use e57_tree::{Cloud, Tree};
use std::alloc::{AllocError, Global};

/// Reads all items of the first cloud of an open file, all fields side by side and up to 1,024 records at a time (ASTM E2807,
/// compressed vector section). Answers the sum of the raw numbers of the first field, modulo 2^64, or 0 if that isn't of
/// integers.
///
/// Refuses a fault that is met in the cloud, `Source` if the source failed, and `Memory` if there is none. It is taken for a
/// column and a block of each field, and for strings.
pub fn read_sum<S: Source>(
    alloc: Global,
    file: &E57,
    pages: &mut Pages<S>,
) -> Result<u64, OpenFault>
    requires cloud { (e : Element) → file.now ≡ preorder e → IsCloud e 0 }
    ensures length { pages.new.length ≡ pages.old.length }
    ensures header { pages.new.header ≡ pages.old.header }
    ensures sum { (e : Element) → file.now ≡ preorder e → let count = pages.old.length / page_length in MatchResult result
        (λ total. SumsCloud (first_cloud e) count (S.view pages.old.source) total (S.view pages.new.source))
        (λ fault. SumsNoCloud (first_cloud e) count (S.view pages.old.source) fault (S.view pages.new.source)) }
{
    let tree = file.tree();
    let _raw = tree.raw();
    let cloud = first_cloud(tree);
    let fields = tree.fields(0);
    let fixed = tree.fixed(0);
    sum_cloud(alloc, &cloud, fixed, fields, pages)
}

/// The first cloud, as its element states it.
fn first_cloud(tree: &Tree) -> Cloud
    requires { (e : Element) → tree.now ≡ preorder e → IsCloud e 0 }
    ensures { (e : Element) → tree.now ≡ preorder e → result ≡ cloud_in e 0 }
{
    let _raw = tree.raw();
    tree.clouds()[0]
}

/// The sum of all records of a cloud. `fixed` is the first Float field.
fn sum_cloud<S: Source>(
    alloc: Global,
    cloud: &Cloud,
    fixed: Option<Fixed>,
    fields: &[Field],
    pages: &mut Pages<S>,
) -> Result<u64, OpenFault>
    requires few { cloud.now.count ≤ most_records }
    requires fixed { fixed ≡ float_from 0 (leaves_of fields.now) }
    requires fields { AreCloudFields fields.now }
    ensures length { pages.new.length ≡ pages.old.length }
    ensures header { pages.new.header ≡ pages.old.header }
    ensures sum { let count = pages.old.length / page_length in
        let c = cloud_of cloud.now (leaves_of fields.now) in
        MatchResult result
        (λ total. SumsCloud c count (S.view pages.old.source) total (S.view pages.new.source))
        (λ fault. SumsNoCloud c count (S.view pages.old.source) fault (S.view pages.new.source)) }
{
    let _size = pages.logical_len();
    let Cloud { node, place, count } = *cloud;
    if count == 0 {
        return Ok(0);
    }
    let section = match open_section(pages, node, place, count, fields.len() as u16) {
        Ok(section) => section,
        Err(fault) => return Err(OpenFault::from(fault)),
    };
    sum_section(alloc, &section, fixed, fields, pages)
}

/// The sum of all records of a section.
fn sum_section<S: Source>(
    alloc: Global,
    section: &Section,
    fixed: Option<Fixed>,
    fields: &[Field],
    pages: &mut Pages<S>,
) -> Result<u64, OpenFault>
    requires lies { LiesIn section.now (pages.old.length / page_length * payload_length) }
    requires as_many { length fields.now ≡ section.now.fields }
    requires fixed { fixed ≡ float_from 0 (leaves_of fields.now) }
    requires fields { AreCloudFields fields.now }
    ensures length { pages.new.length ≡ pages.old.length }
    ensures header { pages.new.header ≡ pages.old.header }
    ensures sum { let a = all_records section.now fixed fields.now in MatchResult result
        (λ total. SumsAll a (S.view pages.old.source) total (S.view pages.new.source))
        (λ fault. SumsNot a (S.view pages.old.source) fault (S.view pages.new.source)) }
{
    let numbers = match all_numbers(alloc, fields.len()) {
        Ok(numbers) => numbers,
        Err(_) => return Err(OpenFault::Memory),
    };
    let mut blocks = match FieldBlocks::open(alloc, section, fixed, fields, &numbers) {
        Ok(blocks) => blocks,
        Err(_) => return Err(OpenFault::Memory),
    };
    sum_records(section.count, &mut blocks, pages)
}

/// The numbers of so many fields.
fn all_numbers(alloc: Global, n: usize) -> Result<Vec<u16>, AllocError>
    requires { n ≤ max_fields }
    ensures { IfOk result (λ numbers. numbers.items ≡ range_with_len 0 n) }
{
    let mut numbers = Vec::new(alloc);
    for f in 0..n {
        numbers.push(f as u16)?;
    }
    Ok(numbers)
}

/// The sum of the first `count` records of the blocks' section.
fn sum_records<S: Source>(
    count: u64,
    blocks: &mut FieldBlocks,
    pages: &mut Pages<S>,
) -> Result<u64, OpenFault>
    requires lies { LiesIn blocks.old.section (pages.old.length / page_length * payload_length) }
    requires stand { StandBefore blocks.old 0 (S.view pages.old.source) }
    requires all { count ≤ blocks.old.section.count }
    requires some { 0 < length blocks.old.blocks }
    ensures length { pages.new.length ≡ pages.old.length }
    ensures header { pages.new.header ≡ pages.old.header }
    ensures sum { let a = slice_at blocks.old 0 count in MatchResult result
        (λ total. SumsAll a (S.view pages.old.source) total (S.view pages.new.source))
        (λ fault. SumsNot a (S.view pages.old.source) fault (S.view pages.new.source)) }
{
    let _size = pages.logical_len();
    let mut at = 0;
    let mut total = 0;
    while at < count {
        let n = match blocks.fill(pages, at, run_length(count - at)) {
            Ok(n) => n,
            Err(fault) => return Err(fault),
        };
        total = add_records(total, blocks.blocks(), at, n);
        at += n as u64;
    }
    Ok(total)
}

/// How many of the records that are left are read at a time.
fn run_length(left: u64) -> usize
    requires { 0 < left }
    ensures some { 0 < result }
    ensures few { result ≤ left }
{
    if left < MOST as u64 {
        left as usize
    } else {
        MOST
    }
}

/// The sum with the first field of the `n` records from record `i` on, which all blocks hold.
fn add_records(total: u64, blocks: &[FieldBlock], i: u64, n: usize) -> u64
    requires some { 0 < length blocks.now }
    requires have { AllByRecursion (HasRecords i n) blocks.now }
    ensures { result ≡ (total + sum_by raw_number (get_or (held_columns blocks.now i n) 0 [])) % 2 ^ 64 }
{
    add_run(total, blocks[0].run(i, n))
}

/// The sum with the items of a run.
fn add_run(total: u64, run: Run<'_>) -> u64
    ensures { result ≡ (total + sum_by raw_number (run_values run.entry)) % 2 ^ 64 }
{
    let Run::Ints(items) = run else {
        return total;
    };
    add_items(total, items)
}

/// The sum with these integers.
fn add_items(total: u64, items: &[i64]) -> u64
    ensures { result ≡ (total + sum_by raw_number (map whole items.now)) % 2 ^ 64 }
{
    let mut sum = total;
    for item in items {
        sum = sum.wrapping_add(item.cast_unsigned());
    }
    sum
}
