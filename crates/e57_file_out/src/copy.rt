//! Blobs that are copied into a new file.

ghost use Rattle.std.specs.Prelude.{◌≡◌, ◌+◌, ◌*◌, ◌/◌, ◌^◌, ◌<◌, ◌≤◌, false, true, length, min, MatchResult};
ghost use Rattle.e57_base.specs.Source.{page_length};
ghost use Rattle.e57_page.specs.Place.{payload_length};
ghost use Rattle.e57_layout.specs.Packets.{whole_words as the_whole_words};
ghost use Rattle.e57_page_out.specs.Sequences.{Loses};
ghost use Rattle.e57_page_out.specs.Writing.{IsBeingWritten, most_bytes};
ghost use Rattle.e57_file.specs.Blob.{HasBlob, LiesIn, OfBlob};
ghost use Rattle.e57_file_out.specs.Copying.{BeginsSection, CopiesBlob, CopiesFirst, CopiesPart, IsBlobOf, KeepsLast, LeavesWriter, LosesBlob, LosesPart, StillWrites, size_with};

use e57_base::{PutFault, ReadFault, Source, Target};
use e57_file::E57;
use e57_layout::BlobHeader;
use e57_packet::write_blob_header;
use e57_page::{Cut, Pages};
use e57_page_out::PagesOut;
use e57_tree::Blob;

/// How many bytes are read and put in one call at most.
const PIECE: usize = 65_536;

/// How the copying of a blob fails.
#[derive(Clone, Copy, Debug, PartialEq, Eq)]
pub enum CopyFault {
    /// Its bytes can't be read.
    Read(ReadFault),
    /// They can't be put.
    Put(PutFault),
}

/// Copies blob k, counted from 0 in document order, into a new file: puts its section from a fresh page on (ASTM E2807, blob
/// section), and answers the section's physical offset. The blob's section lies in the file, which an Ok of `E57::open_blob`
/// promises. It asks for pages of the blob's bytes in ascending order, each at most once, and for no other. It takes no
/// memory: the bytes are copied in pieces of 65,536.
///
/// Refuses `Read` with `Page` for the first page of the blob's bytes whose word is wrong, or `Source` if the source failed;
/// `out` then has some of the section, and isn't spent. Refuses `Put` with `Target` if the target failed, or `Large` if the
/// section would pass the last page; `out` is then spent.
pub fn copy_blob<S: Source, T: Target>(
    file: &E57,
    pages: &mut Pages<S>,
    k: usize,
    out: &mut PagesOut<T>,
) -> Result<u64, CopyFault>
    requires there { HasBlob file.now k }
    requires lies { OfBlob file.now k (λ blob. LiesIn (pages.old.length / page_length * payload_length) blob) }
    requires unspent { out.old.is_spent ≡ false }
    ensures length { pages.new.length ≡ pages.old.length }
    ensures header { pages.new.header ≡ pages.old.header }
    ensures state { MatchResult result
        (λ _. StillWrites T.view out.old out.new)
        (λ fault. LeavesWriter T.view out.old fault out.new) }
    ensures copied { OfBlob file.now k (λ blob. MatchResult result
        (λ offset. CopiesBlob T.view blob (S.view pages.old.source) (S.view pages.new.source) out.old offset out.new)
        (λ fault. LosesBlob T.view blob (size_with out.old.size blob) (S.view pages.old.source) (S.view pages.new.source) out.old fault out.new)) }
{
    let _size = pages.logical_len();
    let blob = stated_blob(file, k);
    let offset = match begin_section(&blob, out) {
        Ok(offset) => offset,
        Err(fault) => return Err(CopyFault::Put(fault)),
    };
    let mut buffer = [0; PIECE];
    match copy_bytes(file, pages, k, &blob, &mut buffer, out) {
        Ok(()) => Ok(offset),
        Err(fault) => Err(fault),
    }
}

/// Blob k, as its element states it.
fn stated_blob(file: &E57, k: usize) -> Blob
    requires { HasBlob file.now k }
    ensures { IsBlobOf file.now k result }
{
    let _raw = file.tree().raw();
    file.tree().blobs()[k]
}

/// Puts the header of a blob's section from a fresh page on, and answers its physical offset.
fn begin_section<T: Target>(blob: &Blob, out: &mut PagesOut<T>) -> Result<u64, PutFault>
    requires unspent { out.old.is_spent ≡ false }
    requires length { blob.now.length ≤ 2 ^ 48 }
    ensures { MatchResult result
        (λ offset. BeginsSection T.view blob.now out.old offset out.new)
        (λ fault. (out.new.is_spent ≡ true) × Loses T.view out.old (most_bytes < size_with out.old.size blob.now) fault (T.view out.new.target)) }
{
    if let Err(fault) = out.fresh_page() {
        return Err(fault);
    }
    let offset = out.place();
    let mut head = [0; 16];
    let length = 16 + whole_words(blob.length);
    write_blob_header(&BlobHeader { id: 0, length }, &mut head);
    if let Err(fault) = out.put(&head) {
        return Err(fault);
    }
    Ok(offset)
}

/// A number of bytes, rounded up to a multiple of 4.
#[tactic(auto, unfolding(e57_layout::specs::Packets::whole_words))]
fn whole_words(count: u64) -> u64
    requires { count ≤ 2 ^ 48 }
    ensures words { result ≡ the_whole_words count }
    ensures most { result ≤ count + 3 }
{
    count.div_ceil(4) * 4
}

/// Copies all bytes of a blob, a buffer full at a time.
fn copy_bytes<S: Source, T: Target>(
    file: &E57,
    pages: &mut Pages<S>,
    k: usize,
    blob: &Blob,
    buffer: &mut [u8],
    out: &mut PagesOut<T>,
) -> Result<(), CopyFault>
    requires blob { IsBlobOf file.now k blob.now }
    requires lies { LiesIn (pages.old.length / page_length * payload_length) blob.now }
    requires room { 0 < length buffer.old }
    requires state { IsBeingWritten T.view out.old }
    ensures length { pages.new.length ≡ pages.old.length }
    ensures header { pages.new.header ≡ pages.old.header }
    ensures bytes { MatchResult result
        (λ _. CopiesFirst T.view blob.now blob.now.length (S.view pages.old.source) (S.view pages.new.source) pages.new.kept out.old out.new)
        (λ fault. LosesBlob T.view blob.now (out.old.size + blob.now.length) (S.view pages.old.source) (S.view pages.new.source) out.old fault out.new) }
{
    let Blob { length, .. } = *blob;
    let mut at = 0;
    while at < length {
        let count = piece_length(length - at, buffer.len());
        if let Err(fault) = copy_piece(file, pages, k, blob, at, &mut buffer[..count], out) {
            return Err(fault);
        }
        at += count as u64;
    }
    Ok(())
}

/// How many of the bytes that are left go into so much room.
fn piece_length(left: u64, room: usize) -> usize
    ensures { result ≡ min left room }
{
    if left < room as u64 {
        left as usize
    } else {
        room
    }
}

/// Copies the blob's bytes from number `at` on, as many as the piece has room for.
fn copy_piece<S: Source, T: Target>(
    file: &E57,
    pages: &mut Pages<S>,
    k: usize,
    blob: &Blob,
    at: u64,
    piece: &mut [u8],
    out: &mut PagesOut<T>,
) -> Result<(), CopyFault>
    requires blob { IsBlobOf file.now k blob.now }
    requires lies { LiesIn (pages.old.length / page_length * payload_length) blob.now }
    requires within { at + length piece.old ≤ blob.now.length }
    requires kept { KeepsLast blob.now at pages.old.kept }
    requires some { 0 < length piece.old }
    requires unspent { out.old.is_spent ≡ false }
    ensures length { pages.new.length ≡ pages.old.length }
    ensures header { pages.new.header ≡ pages.old.header }
    ensures piece { MatchResult result
        (λ _. CopiesPart T.view blob.now at (length piece.old) (S.view pages.old.source) (S.view pages.new.source) pages.new.kept out.old out.new)
        (λ fault. LosesPart T.view blob.now at (length piece.old) (S.view pages.old.source) (S.view pages.new.source) out.old fault out.new) }
{
    let _blob = *blob;
    if let Err(cut) = file.blob_bytes(pages, k, at, piece) {
        return Err(unread(&cut));
    }
    match out.put(piece) {
        Ok(()) => Ok(()),
        Err(fault) => Err(CopyFault::Put(fault)),
    }
}

/// Why bytes were not read.
fn unread(cut: &Cut) -> CopyFault
    ensures { result ≡ CopyFault.Read cut.now.fault }
{
    CopyFault::Read(cut.fault)
}
