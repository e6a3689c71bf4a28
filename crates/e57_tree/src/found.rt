//! The clouds and blobs that are found in a tree.

ghost use Rattle.std.specs.Prelude.{◌≡◌, ◌≤◌, ◌<◌, ◌^◌, length, IfOk, OnOk};
ghost use Rattle.e57_elements.specs.Tree.{Element, preorder};
ghost use Rattle.e57_nodes.specs.Facts.{type_in};
ghost use Rattle.e57_tree.specs.Flat.{raw_at};
ghost use Rattle.e57_tree.specs.Held.{cloud_at, AddsBlob, AddsCloud, AddsNode, Holds};

use crate::attributes::{blob_length, place, record_count};
use crate::fields::{Fields, fields_of};
use crate::items::{Blob, Cloud, Item};
use crate::nodes::{end_of, node, type_of};
use e57_elements::RawTree;
use e57_nodes::ElementType;
use std::alloc::{AllocError, Global};

/// Clouds, blobs, both in document order, and the fields of each cloud.
#[derive(Drop)]
pub struct Found {
    pub clouds: Vec<Cloud>,
    pub blobs: Vec<Blob>,
    pub items: Vec<Item>,
    pub fields: Vec<Fields>,
}

impl Found {
    /// Those of a tree. Memory is linear in the tree and its paths.
    pub fn of(alloc: Global, raw: &RawTree) -> Result<Found, AllocError>
        ensures { IfOk result (λ found. (e : Element) → raw.now ≡ preorder e → Holds e found) }
    {
        let mut found = Found {
            clouds: Vec::new(alloc),
            blobs: Vec::new(alloc),
            items: Vec::new(alloc),
            fields: Vec::new(alloc),
        };
        for n in 0..raw.len() {
            found.add(alloc, raw, n)?;
        }
        Ok(found)
    }

    /// Adds the cloud or blob at a node, if it is one.
    fn add(&mut self, alloc: Global, raw: &RawTree, n: usize) -> Result<(), AllocError>
        requires node { n < length raw.now }
        requires clouds { length self.old.clouds.items ≤ n }
        requires blobs { length self.old.blobs.items ≤ n }
        ensures { OnOk result (AddsNode raw.now n (type_in (raw_at raw.now n).attrs) self.old self.new) }
    {
        let _end = end_of(raw, n);
        match type_of(raw, n) {
            Some(ElementType::CompressedVector) => self.add_cloud(alloc, raw, n),
            Some(ElementType::Blob) => self.add_blob(raw, n),
            None
            | Some(
                ElementType::Structure
                | ElementType::Vector
                | ElementType::Integer
                | ElementType::ScaledInteger
                | ElementType::Float
                | ElementType::String,
            ) => Ok(()),
        }
    }

    /// Adds the cloud at a CompressedVector.
    fn add_cloud(&mut self, alloc: Global, raw: &RawTree, n: usize) -> Result<(), AllocError>
        requires node { n < length raw.now }
        requires few { n < 2 ^ 32 }
        requires clouds { length self.old.clouds.items ≤ n }
        ensures { OnOk result (AddsCloud raw.now n self.old self.new) }
    {
        let cloud = cloud_at(raw, n);
        let number = self.clouds.len() as u32;
        let fields = fields_of(alloc, raw, n)?;
        self.fields.push(fields)?;
        self.items.push(Item::Cloud(number))?;
        self.clouds.push(cloud)?;
        Ok(())
    }

    /// Adds the blob at a node.
    #[tactic(auto, unfolding(e57_nodes::specs::Facts::facts_of))]
    fn add_blob(&mut self, raw: &RawTree, n: usize) -> Result<(), AllocError>
        requires node { n < length raw.now }
        requires blobs { length self.old.blobs.items ≤ n }
        ensures { OnOk result (AddsBlob raw.now n self.old self.new) }
    {
        let _end = end_of(raw, n);
        let attrs = &node(raw, n).attrs;
        let blob = Blob {
            node: n as u32,
            place: place(attrs).unwrap_or(0),
            length: blob_length(attrs).unwrap_or(0),
        };
        let number = self.blobs.len() as u32;
        self.items.push(Item::Blob(number))?;
        self.blobs.push(blob)?;
        Ok(())
    }
}

/// The cloud that a CompressedVector states.
#[tactic(auto, unfolding(e57_nodes::specs::Facts::facts_of))]
fn cloud_at(raw: &RawTree, n: usize) -> Cloud
    requires { n < length raw.now }
    ensures { result ≡ cloud_at raw.now n }
{
    let _end = end_of(raw, n);
    let attrs = &node(raw, n).attrs;
    Cloud {
        node: n as u32,
        place: place(attrs).unwrap_or(0),
        count: record_count(attrs).unwrap_or(0),
    }
}
