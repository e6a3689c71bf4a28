//! The tree of typed elements.

ghost use Rattle.std.specs.Prelude.{◌≡◌, ◌<◌, ◌≤◌, length, map, slice_get, IfOk, None, Some};
ghost use Rattle.std.specs.Fmt.{decimal};
ghost use Rattle.e57_elements.specs.Lawful.{AreNodes};
ghost use Rattle.e57_elements.specs.Tree.{Element, preorder};
ghost use Rattle.e57_layout.specs.Values.{item_kind};
ghost use Rattle.e57_nodes.specs.Shape.{shape_of};
ghost use Rattle.e57_nodes.specs.Paths.{path_of};
ghost use Rattle.e57_nodes.specs.Places.{with_places};
ghost use Rattle.e57_nodes.specs.Items.{leaves_of};
ghost use Rattle.e57_cloud.specs.Cloud.{float_from};
ghost use Rattle.e57_nodes.specs.Typed.{max_fields, typed_fault};
ghost use Rattle.e57_tree.specs.Judged.{IsJudged};
ghost use Rattle.e57_tree.specs.Held.{blobs_of, cloud_fields, clouds_of, float_bytes, items_of, AreCloudFields, IsFixed};

use crate::fields::Fields;
use crate::found::Found;
use crate::items::{Blob, Cloud, Item};
use crate::judge::judge;
use crate::path::path_of;
use crate::places::with_places;
use e57_base::{Octets, TextFault};
use e57_elements::RawTree;
use e57_layout::{Field, FieldKind, Fixed};
use std::alloc::{AllocError, Global};
use std::marker::Model;

/// A tree without a fault of its nodes, with its clouds, their fields, and its blobs. Contracts see its nodes in preorder.
#[derive(Drop)]
pub struct Tree {
    raw: RawTree,
    found: Found,
}

impl Model for Tree {
    ghost use Rattle.std.specs.Prelude.{List};
    ghost use Rattle.e57_elements.specs.declared.tree.RawNode.{RawNode};
    ghost use Rattle.e57_tree.specs.Held.{IsTree};

    ghost Value = { List RawNode };

    ghost view = { λ tree. tree.raw };

    ghost invariant = { λ tree. IsTree tree.raw tree.found };
}

impl Tree {
    /// Judges the nodes of a tree, and finds its clouds and blobs. Refused: the first fault of the first node at fault, of
    /// the kinds `NodeType` to `RecordLimit`. Memory is linear in the tree and in the paths of its fields.
    pub fn from_raw(alloc: Global, raw: RawTree) -> Result<Tree, TextFault>
        ensures same { IfOk result (λ tree. tree ≡ raw) }
        ensures judged { (e : Element) → raw ≡ preorder e → IsJudged result (typed_fault (shape_of e)) }
    {
        let _count = raw.len();
        if let Err(error) = judge(alloc, &raw, 0, None) {
            return Err(error);
        }
        match Found::of(alloc, &raw) {
            Err(_error) => Err(TextFault::Memory),
            Ok(found) => Ok(Tree { raw, found }),
        }
    }

    /// The elements.
    pub fn raw(&self) -> &RawTree
        ensures same { result.now ≡ self.now }
        ensures nodes { AreNodes self.now }
        ensures typed { (e : Element) → self.now ≡ preorder e → typed_fault (shape_of e) ≡ None }
    {
        &self.raw
    }

    /// The clouds, in document order.
    pub fn clouds(&self) -> &[Cloud]
        ensures { (e : Element) → self.now ≡ preorder e → result.now ≡ clouds_of e }
    {
        &self.found.clouds
    }

    /// The blobs, in document order.
    pub fn blobs(&self) -> &[Blob]
        ensures { (e : Element) → self.now ≡ preorder e → result.now ≡ blobs_of e }
    {
        &self.found.blobs
    }

    /// The clouds and blobs, in document order.
    pub fn items(&self) -> &[Item]
        ensures { (e : Element) → self.now ≡ preorder e → result.now ≡ items_of e }
    {
        &self.found.items
    }

    /// The fields of cloud k, 1 to 512 of them, which are valid.
    pub fn fields(&self, k: usize) -> &[Field]
        requires { (e : Element) → self.now ≡ preorder e → k < length (clouds_of e) }
        ensures fields { (e : Element) → self.now ≡ preorder e → slice_get (cloud_fields e) k ≡ Some result.now }
        ensures valid { AreCloudFields result.now }
    {
        self.found.fields[k].as_slice()
    }

    /// The first Float field of cloud k, with the bytes of an item.
    pub fn fixed(&self, k: usize) -> Option<Fixed>
        requires { (e : Element) → self.now ≡ preorder e → k < length (clouds_of e) }
        ensures { (e : Element) → self.now ≡ preorder e → IsFixed (cloud_fields e) k result }
    {
        fixed_of(self.fields(k))
    }

    /// The path of the node with this number.
    pub fn path(&self, alloc: Global, node: u32) -> Result<Octets, AllocError>
        requires { node < length self.now }
        ensures { (e : Element) → self.now ≡ preorder e → IfOk result (λ path. path ≡ path_of (shape_of e) node) }
    {
        path_of(alloc, &self.raw, node as usize)
    }

    /// The elements with these physical offsets as the places of clouds and blobs, one for each item: each `fileOffset` is
    /// its number in decimal.
    pub fn with_places(&self, alloc: Global, places: &[u64]) -> Result<RawTree, AllocError>
        requires { (e : Element) → self.now ≡ preorder e → length places.now ≡ length (items_of e) }
        ensures { (e : Element) → self.now ≡ preorder e → IfOk result (λ new. new ≡ preorder (with_places (map decimal places.now) e)) }
    {
        with_places(alloc, &self.raw, places)
    }
}

/// The first Float field, with the bytes of an item.
#[tactic(auto, unfolding(e57_cloud::specs::Cloud::float_from))]
fn fixed_of(fields: &[Field]) -> Option<Fixed>
    requires { length fields.now ≤ max_fields }
    ensures { result ≡ float_from 0 (leaves_of fields.now) }
{
    for (i, field) in fields.iter().enumerate() {
        let bytes = float_bytes(&field.kind);
        if bytes > 0 {
            return Some(Fixed {
                field: i as u16,
                bytes,
            });
        }
    }
    None
}

/// How many bytes an item of a Float has, and 0 of another field.
fn float_bytes(kind: &FieldKind) -> u8
    ensures { result ≡ float_bytes (item_kind kind.now) }
{
    match kind {
        FieldKind::Bits32 => 4,
        FieldKind::Bits64 => 8,
        FieldKind::Int { .. } | FieldKind::Scaled { .. } | FieldKind::Text => 0,
    }
}
