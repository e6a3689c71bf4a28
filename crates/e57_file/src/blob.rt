//! A blob: its section's header, and its bytes.

ghost use Rattle.std.specs.Prelude.{◌≡◌, ◌+◌, ◌*◌, ◌/◌, ◌≤◌, length, MatchResult};
ghost use Rattle.e57_base.specs.Source.{page_length};
ghost use Rattle.e57_page.specs.Place.{payload_length};
ghost use Rattle.e57_file.specs.Blob.{LiesIn, blob_start, head_place as the_head_place};
ghost use Rattle.e57_file.specs.BlobReading.{CutsBlob, JudgesBlobPlace, OpensBlob, OpensNoBlob, ReadsBlob};

use e57_base::{Fault, Kind, ReadFault, Source};
use e57_packet::read_blob_header;
use e57_page::{Cut, Pages, place_of};
use e57_tree::Blob;

/// The bytes of the header of a blob's section.
const HEADER: u64 = 16;

/// The id of a blob section.
const BLOB_ID: u8 = 0;

/// Judges a blob's section, and answers the place of the blob's first byte.
pub fn open_section<S: Source>(pages: &mut Pages<S>, blob: &Blob) -> Result<u64, ReadFault>
    ensures length { pages.new.length ≡ pages.old.length }
    ensures header { pages.new.header ≡ pages.old.header }
    ensures place { JudgesBlobPlace pages.old blob.now result pages.new }
    ensures blob { let size = pages.old.length / page_length * payload_length in MatchResult result
        (λ start. OpensBlob (S.view pages.old.source) pages.old.kept size blob.now start (S.view pages.new.source) pages.new.kept)
        (λ found. OpensNoBlob (S.view pages.old.source) pages.old.kept blob.now found (S.view pages.new.source) pages.new.kept) }
{
    let size = pages.logical_len();
    let Blob { node, place, .. } = *blob;
    let node = node as u64;
    let Some(head) = head_place(size, blob) else {
        return Err(ReadFault::Refused(Fault::new(Kind::BlobPlace, node, place)));
    };
    let mut bytes = [0; 16];
    if let Err(cut) = pages.read(head, &mut bytes) {
        return Err(cut.fault);
    }
    let id = read_blob_header(&bytes).id;
    if id != BLOB_ID {
        return Err(ReadFault::Refused(Fault::new(Kind::BlobId, node, id as u64)));
    }
    Ok(head + HEADER)
}

/// The place of the header, if the header and the blob's bytes lie in the file's `size` logical bytes.
fn head_place(size: u64, blob: &Blob) -> Option<u64>
    ensures { result ≡ the_head_place size blob.now }
{
    let Blob { place, length, .. } = *blob;
    let head = place_of(place)?;
    if size < HEADER || size - HEADER < head || size - HEADER - head < length {
        None
    } else {
        Some(head)
    }
}

/// Reads the blob's bytes from number `at` on into `out`.
pub fn read_bytes<S: Source>(
    pages: &mut Pages<S>,
    blob: &Blob,
    at: u64,
    out: &mut [u8],
) -> Result<(), Cut>
    requires lies { LiesIn (pages.old.length / page_length * payload_length) blob.now }
    requires within { at + length out.old ≤ blob.now.length }
    ensures length { pages.new.length ≡ pages.old.length }
    ensures header { pages.new.header ≡ pages.old.header }
    ensures bytes { MatchResult result
        (λ _. ReadsBlob (S.view pages.old.source) pages.old.kept blob.now at (length out.old) out.new (S.view pages.new.source) pages.new.kept)
        (λ cut. CutsBlob (S.view pages.old.source) pages.old.kept blob.now at out.old cut out.new (S.view pages.new.source) pages.new.kept) }
{
    let size = pages.logical_len();
    let start = first_byte(blob);
    prove!(start + blob.length <= size);
    pages.read(start + at, out)
}

/// The place of the blob's first byte, if its offset has a place.
fn first_byte(blob: &Blob) -> u64
    ensures { result ≡ blob_start blob.now }
{
    let Blob { place, .. } = *blob;
    place_of(place).unwrap_or(0) + HEADER
}
