//! One cloud or blob of a file.

ghost use Rattle.std.specs.Prelude.{◌≡◌, ◌*◌, ◌/◌, MatchResult};
ghost use Rattle.e57_base.specs.Source.{page_length};
ghost use Rattle.e57_elements.specs.Tree.{Element, preorder};
ghost use Rattle.e57_check.specs.Checking.{IsCloud, FitsItem, JudgesCloudAt, RefusesCloudAt, JudgesThing, RefusesThing};

use crate::cloud::judge_cloud;
use crate::summary::Summary;
use e57_base::{OpenFault, Source};
use e57_file::E57;
use e57_page::Pages;
use e57_tree::{Item, Tree};
use std::alloc::Global;

/// Judges a cloud or a blob, and counts it.
pub fn judge_item<S: Source>(
    alloc: Global,
    file: &E57,
    item: Item,
    summary: Summary,
    pages: &mut Pages<S>,
) -> Result<Summary, OpenFault>
    requires { (e : Element) → file.now ≡ preorder e → FitsItem e item summary }
    ensures length { pages.new.length ≡ pages.old.length }
    ensures header { pages.new.header ≡ pages.old.header }
    ensures thing { (e : Element) → file.now ≡ preorder e → let count = pages.old.length / page_length in MatchResult result
        (λ next. JudgesThing count (S.view pages.old.source) e item summary next (S.view pages.new.source))
        (λ found. RefusesThing count (S.view pages.old.source) e item found (S.view pages.new.source)) }
{
    let _raw = file.tree().raw();
    match item {
        Item::Cloud(k) => match judge_cloud_at(alloc, file.tree(), k, pages) {
            Ok(count) => Ok(Summary {
                clouds: summary.clouds + 1,
                records: summary.records + count,
                ..summary
            }),
            Err(fault) => Err(fault),
        },
        Item::Blob(k) => match file.open_blob(pages, k as usize) {
            Ok(_start) => Ok(Summary {
                blobs: summary.blobs + 1,
                ..summary
            }),
            Err(fault) => Err(OpenFault::from(fault)),
        },
    }
}

/// Judges cloud k, and answers how many records it has.
fn judge_cloud_at<S: Source>(
    alloc: Global,
    tree: &Tree,
    k: u32,
    pages: &mut Pages<S>,
) -> Result<u64, OpenFault>
    requires { (e : Element) → tree.now ≡ preorder e → IsCloud e k }
    ensures length { pages.new.length ≡ pages.old.length }
    ensures header { pages.new.header ≡ pages.old.header }
    ensures cloud { (e : Element) → tree.now ≡ preorder e → let count = pages.old.length / page_length in MatchResult result
        (λ records. JudgesCloudAt count (S.view pages.old.source) e k records (S.view pages.new.source))
        (λ found. RefusesCloudAt count (S.view pages.old.source) e k found (S.view pages.new.source)) }
{
    let _raw = tree.raw();
    let cloud = tree.clouds()[k as usize];
    let fields = tree.fields(k as usize);
    let fixed = tree.fixed(k as usize);
    match judge_cloud(alloc, &cloud, fields, fixed, pages) {
        Ok(()) => Ok(cloud.count),
        Err(fault) => Err(fault),
    }
}
