//! The tree of a content of two numbers.

ghost use Rattle.std.specs.Prelude.{◌≡◌, ◌≤◌, ◌++◌, decimal, IfOk};
ghost use Rattle.e57_elements.specs.Tree.{preorder};
ghost use Rattle.e57_trial.specs.Content.{most_records, trial_tree};
ghost use Rattle.e57_trial.specs.Text.{text_front, text_behind};

use e57_base::TextFault;
use e57_elements::{RawTree, one_answer, read_elements, spelling_spells};
use e57_tree::Tree;
use itoa::Buffer;
use std::alloc::{AllocError, Global};

// What stands before the number of records, and behind it.
const FRONT: &[u8; 230] =
    b"<?xml version=\"1.0\" encoding=\"UTF-8\"?>\n<e57Root type=\"Structure\" xmlns=\"http://www.astm.org/COMMIT/E57/2010-e57-v1.0\"><data3D type=\"Vector\"><vectorChild type=\"Structure\"><points type=\"CompressedVector\" fileOffset=\"0\" recordCount=\"";

const BEHIND: &[u8; 430] =
    b"\"><prototype type=\"Structure\"><cartesianX type=\"ScaledInteger\" minimum=\"0\" maximum=\"1048575\" scale=\"0.001\" offset=\"0\"/><cartesianY type=\"ScaledInteger\" minimum=\"0\" maximum=\"1048575\" scale=\"0.001\" offset=\"0\"/><intensity type=\"Integer\" minimum=\"0\" maximum=\"255\"/><rowIndex type=\"Integer\" minimum=\"0\" maximum=\"0\"/><cartesianZ type=\"Float\" precision=\"single\"/><tag type=\"String\"/></prototype></points></vectorChild></data3D></e57Root>";

/// The tree of a cloud of so many records. `Tree::from_raw` doesn't refuse it.
pub fn tree_for(alloc: Global, count: u64) -> Result<Tree, AllocError>
    requires { count ≤ most_records }
    ensures { IfOk result (λ tree. tree ≡ preorder (trial_tree count)) }
{
    let raw = raw_tree(alloc, count)?;
    match Tree::from_raw(alloc, raw) {
        Ok(tree) => Ok(tree),
        Err(fault) => match fault {
            TextFault::Memory => Err(AllocError),
            TextFault::Refused(_) => unreachable!(),
        },
    }
}

/// Its elements. `read_elements` doesn't refuse their text.
fn raw_tree(alloc: Global, count: u64) -> Result<RawTree, AllocError>
    requires { count ≤ most_records }
    ensures { IfOk result (λ raw. raw ≡ preorder (trial_tree count)) }
{
    one_answer();
    spelling_spells();
    let text = text_of(alloc, count)?;
    match read_elements(alloc, &text) {
        Ok(raw) => Ok(raw),
        Err(fault) => match fault {
            TextFault::Memory => Err(AllocError),
            TextFault::Refused(_) => unreachable!(),
        },
    }
}

/// Their text.
fn text_of(alloc: Global, count: u64) -> Result<Vec<u8>, AllocError>
    ensures { IfOk result (λ text. text.items ≡ text_front ++ (decimal count ++ text_behind)) }
{
    let mut text = Vec::new(alloc);
    text.extend_from_slice(FRONT.as_slice())?;
    text.extend_from_slice(Buffer::new().format(count).as_bytes())?;
    text.extend_from_slice(BEHIND.as_slice())?;
    Ok(text)
}
