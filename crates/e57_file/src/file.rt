//! An opened file.

ghost use Rattle.std.specs.Prelude.{◌≡◌, ◌+◌, ◌*◌, ◌/◌, ◌<◌, ◌≤◌, length, slice_get, List, Some, IfSome, MatchResult};
ghost use Rattle.e57_elements.specs.Lawful.{AreNodes};
ghost use Rattle.e57_elements.specs.Tree.{Element, preorder};
ghost use Rattle.e57_layout.specs.declared.field.Field.{Field};
ghost use Rattle.e57_tree.specs.Held.{blobs_of, cloud_fields, clouds_of};
ghost use Rattle.e57_file.specs.Text.{AsksForXml, JudgesPlace};
ghost use Rattle.e57_base.specs.Source.{page_length};
ghost use Rattle.e57_page.specs.Place.{payload_length};
ghost use Rattle.e57_file.specs.Opened.{HasNodes, IsOpenCause, field_number};
ghost use Rattle.e57_file.specs.Blob.{HasBlob, LiesIn, OfBlob};
ghost use Rattle.e57_file.specs.BlobReading.{CutsBlob, JudgesBlobPlace, OpensBlob, OpensNoBlob, ReadsBlob};

use crate::blob::{open_section, read_bytes};
use crate::text::open_text;
use e57_base::{OpenFault, ReadFault, Source};
use e57_layout::Field;
use e57_page::{Cut, Pages};
use e57_tree::{Blob, Tree};
use std::alloc::Global;
use std::marker::Model;

/// A file whose element tree was read and has no fault. Contracts see the nodes of its tree in preorder.
#[derive(Drop)]
pub struct E57 {
    tree: Tree,
}

impl Model for E57 {
    ghost use Rattle.std.specs.Prelude.{List};
    ghost use Rattle.e57_elements.specs.declared.tree.RawNode.{RawNode};

    ghost Value = { List RawNode };

    ghost view = { λ file. file.tree };
}

impl E57 {
    /// Reads the element tree of the file's XML section and judges its nodes (ASTM E2807, XML section). It asks for those
    /// pages of the section that aren't kept, in ascending order, each at most once, and for no other.
    ///
    /// Refuses what `open_text` refuses, and then the first fault of the first node at fault, of the kinds `NodeType` to
    /// `RecordLimit`. `Source` if the source failed.
    ///
    /// Memory is taken for the section's length, which the file bounds, and for the tree.
    pub fn open<S: Source>(alloc: Global, pages: &mut Pages<S>) -> Result<E57, OpenFault>
        ensures length { pages.new.length ≡ pages.old.length }
        ensures header { pages.new.header ≡ pages.old.header }
        ensures asked { AsksForXml pages.old (S.view pages.old.source) (S.view pages.new.source) }
        ensures place { JudgesPlace pages.old result pages.new }
        ensures opened { MatchResult result
            (λ file. IfSome (S.view pages.old.source).held (λ bytes. HasNodes bytes file))
            (λ fault. IsOpenCause (S.view pages.old.source) fault (S.view pages.new.source)) }
    {
        let raw = open_text(alloc, pages)?;
        let _count = raw.len();
        let tree = Tree::from_raw(alloc, raw)?;
        Ok(E57 { tree })
    }

    /// The element tree.
    pub fn tree(&self) -> &Tree
        ensures { result.now ≡ self.now }
    {
        &self.tree
    }

    /// The number of cloud k's first field with this path, from 0, if there is one.
    pub fn field_named(&self, k: usize, name: &str) -> Option<u16>
        requires { (e : Element) → self.now ≡ preorder e → k < length (clouds_of e) }
        ensures { (e : Element) → self.now ≡ preorder e
            → (fields : List Field) → slice_get (cloud_fields e) k ≡ Some fields → result ≡ field_number name.now fields }
    {
        let number = field_number(self.tree.fields(k), name.as_bytes())?;
        Some(number as u16)
    }

    /// Judges the section of blob k, counted from 0 in document order, and answers the place (a logical offset) of the
    /// blob's first byte (ASTM E2807, blob section header). It asks for those pages of the header's 16 bytes that aren't
    /// kept, in ascending order, each at most once, and for no other.
    ///
    /// Refuses, in this order: `BlobPlace` if the offset has no place, or the header and the blob's bytes pass the file;
    /// then nothing was asked for, and `pages` is as it was. `Page` for the first page of the header whose word is wrong,
    /// and `BlobId` if the id isn't 0. `Source` if the source failed. It takes no memory.
    pub fn open_blob<S: Source>(&self, pages: &mut Pages<S>, k: usize) -> Result<u64, ReadFault>
        requires { HasBlob self.now k }
        ensures length { pages.new.length ≡ pages.old.length }
        ensures header { pages.new.header ≡ pages.old.header }
        ensures place { OfBlob self.now k (λ blob. JudgesBlobPlace pages.old blob result pages.new) }
        ensures blob { let size = pages.old.length / page_length * payload_length in OfBlob self.now k (λ blob. MatchResult result
            (λ start. OpensBlob (S.view pages.old.source) pages.old.kept size blob start (S.view pages.new.source) pages.new.kept)
            (λ found. OpensNoBlob (S.view pages.old.source) pages.old.kept blob found (S.view pages.new.source) pages.new.kept)) }
    {
        let blob = self.blob(k);
        open_section(pages, &blob)
    }

    /// Reads the bytes of blob k from number `at` on into `out`, as `Pages::read` does: the blob's section lies in the
    /// file, which an Ok of `open_blob` promises, and the blob has these bytes. It takes no memory.
    pub fn blob_bytes<S: Source>(
        &self,
        pages: &mut Pages<S>,
        k: usize,
        at: u64,
        out: &mut [u8],
    ) -> Result<(), Cut>
        requires there { HasBlob self.now k }
        requires lies { OfBlob self.now k (λ blob. LiesIn (pages.old.length / page_length * payload_length) blob) }
        requires within { OfBlob self.now k (λ blob. at + length out.old ≤ blob.length) }
        ensures length { pages.new.length ≡ pages.old.length }
        ensures header { pages.new.header ≡ pages.old.header }
        ensures bytes { OfBlob self.now k (λ blob. MatchResult result
            (λ _. ReadsBlob (S.view pages.old.source) pages.old.kept blob at (length out.old) out.new (S.view pages.new.source) pages.new.kept)
            (λ cut. CutsBlob (S.view pages.old.source) pages.old.kept blob at out.old cut out.new (S.view pages.new.source) pages.new.kept)) }
    {
        let blob = self.blob(k);
        read_bytes(pages, &blob, at, out)
    }

    /// Blob k, as its element states it.
    fn blob(&self, k: usize) -> Blob
        requires { HasBlob self.now k }
        ensures there { (e : Element) → self.now ≡ preorder e → slice_get (blobs_of e) k ≡ Some result }
        ensures of_nodes { AreNodes self.now }
    {
        let _raw = self.tree.raw();
        self.tree.blobs()[k]
    }
}

/// The number of the first field with this path.
fn field_number(fields: &[Field], path: &[u8]) -> Option<usize>
    ensures number { result ≡ field_number path.now fields.now }
    ensures below { IfSome result (λ n. n < length fields.now) }
{
    fields
        .iter()
        .position(|field| field.path.as_slice() == path)
}
