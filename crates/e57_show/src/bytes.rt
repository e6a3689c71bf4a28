//! The bytes of a blob.

ghost use Rattle.std.specs.Prelude.{◌≡◌, ◌+◌, ◌*◌, ◌/◌, ◌<◌, ◌≤◌, length, min, take, MatchResult, None, Some};
ghost use Rattle.e57_base.specs.Source.{page_length};
ghost use Rattle.e57_page.specs.Place.{payload_length};
ghost use Rattle.e57_file.specs.Blob.{HasBlob, LiesIn, OfBlob, blob_head, head_length};
ghost use Rattle.e57_show.specs.Opening.{JudgesPlaceFirst};
ghost use Rattle.e57_show.specs.Streaming.{StreamEnds};
ghost use Rattle.e57_show.specs.Blob.{AsksForBlob, IsBlobOf, FewerBlobs, blob_streamed};
ghost use Rattle.e57_show.specs.BlobPutting.{FailsBytes, FailsPart, KeepsLast, PutsBytes, PutsCut, PutsPart};

use e57_base::{AskFault, ReadFault, RunFault, Sink, Source};
use e57_elements::one_answer;
use e57_file::E57;
use e57_page::{Cut, Pages};
use e57_tree::Blob;
use std::alloc::Global;

/// How many bytes are put in one call at most.
const PIECE: usize = 65_536;

/// Puts the bytes of blob k on `out`, counted from 0 in document order, in pieces of at most 65,536 bytes. It asks the
/// source for those pages of the XML section that aren't kept, and then for pages of the blob's header and bytes, each in
/// ascending order and at most once, and for no other.
///
/// Refuses what `E57::open` refuses; then `Ask` if the file has no blob k; then what `E57::open_blob` refuses; and last
/// `Page` for the first page of the blob's bytes whose word is wrong. The bytes before that page were put; after any fault
/// before it nothing was. `Source` if the source failed and `Out` if the sink failed; a prefix of the bytes was put.
///
/// Memory is taken as for `E57::open`, and for one piece, before anything is put.
pub fn blob<S: Source, O: Sink>(
    alloc: Global,
    pages: &mut Pages<S>,
    k: u64,
    out: &mut O,
) -> Result<(), RunFault>
    ensures length { pages.new.length ≡ pages.old.length }
    ensures header { pages.new.header ≡ pages.old.header }
    ensures asked { AsksForBlob pages.old k (S.view pages.old.source) (S.view pages.new.source) }
    ensures place { JudgesPlaceFirst pages.old (O.view out.old) result pages.new (O.view out.new) }
    ensures ends { MatchResult result
        (λ _. StreamEnds (blob_streamed k) (S.view pages.old.source) (S.view pages.new.source) (O.view out.old) (O.view out.new) None)
        (λ fault. StreamEnds (blob_streamed k) (S.view pages.old.source) (S.view pages.new.source) (O.view out.old) (O.view out.new) (Some fault)) }
{
    // A text spells one tree, and then it has no fault.
    one_answer();
    let _size = pages.logical_len();
    let file = E57::open(alloc, pages)?;
    let blob = asked_blob(&file, k)?;
    file.open_blob(pages, k as usize)?;
    let mut buffer = vec![in alloc; 0; PIECE]?;
    put_bytes(&file, pages, k as usize, &blob, &mut buffer, out)
}

/// Blob k of the file.
fn asked_blob(file: &E57, k: u64) -> Result<Blob, AskFault>
    ensures { MatchResult result
        (λ blob. IsBlobOf file.now k blob)
        (λ why. FewerBlobs file.now k why) }
{
    let _raw = file.tree().raw();
    let blobs = file.tree().blobs();
    let have = blobs.len() as u64;
    if k >= have {
        return Err(AskFault::Blob { asked: k, have });
    }
    Ok(blobs[k as usize])
}

/// Puts all bytes of a blob, a buffer full at a time.
fn put_bytes<S: Source, O: Sink>(
    file: &E57,
    pages: &mut Pages<S>,
    k: usize,
    blob: &Blob,
    buffer: &mut [u8],
    out: &mut O,
) -> Result<(), RunFault>
    requires blob { IsBlobOf file.now k blob.now }
    requires lies { LiesIn (pages.old.length / page_length * payload_length) blob.now }
    requires kept { KeepsLast (blob_head blob.now) head_length pages.old.kept }
    requires room { 0 < length buffer.old }
    ensures length { pages.new.length ≡ pages.old.length }
    ensures header { pages.new.header ≡ pages.old.header }
    ensures bytes { MatchResult result
        (λ _. PutsBytes blob.now (S.view pages.old.source) (S.view pages.new.source) (O.view out.old) (O.view out.new))
        (λ fault. FailsBytes blob.now (S.view pages.old.source) (S.view pages.new.source) (O.view out.old) (O.view out.new) fault) }
{
    let Blob { length, .. } = *blob;
    let mut at = 0;
    while at < length {
        let count = piece_length(length - at, buffer.len());
        put_piece(file, pages, k, blob, at, &mut buffer[..count], out)?;
        at += count as u64;
    }
    Ok(())
}

/// How many of the bytes that are left go into so much room.
fn piece_length(left: u64, room: usize) -> usize
    ensures { result ≡ min left room }
{
    if left < room as u64 {
        left as usize
    } else {
        room
    }
}

/// Puts the blob's bytes from number `at` on, as many as the piece has.
fn put_piece<S: Source, O: Sink>(
    file: &E57,
    pages: &mut Pages<S>,
    k: usize,
    blob: &Blob,
    at: u64,
    piece: &mut [u8],
    out: &mut O,
) -> Result<(), RunFault>
    requires blob { IsBlobOf file.now k blob.now }
    requires lies { LiesIn (pages.old.length / page_length * payload_length) blob.now }
    requires within { at + length piece.old ≤ blob.now.length }
    requires kept { KeepsLast (blob_head blob.now) (head_length + at) pages.old.kept }
    requires some { 0 < length piece.old }
    ensures length { pages.new.length ≡ pages.old.length }
    ensures header { pages.new.header ≡ pages.old.header }
    ensures piece { MatchResult result
        (λ _. PutsPart blob.now at (length piece.old) (S.view pages.old.source) (S.view pages.new.source) pages.new.kept (O.view out.old) (O.view out.new))
        (λ fault. FailsPart blob.now at (length piece.old) (S.view pages.old.source) (S.view pages.new.source) (O.view out.old) (O.view out.new) fault) }
{
    let _blob = *blob;
    match file.blob_bytes(pages, k, at, piece) {
        Ok(()) => match out.put(piece) {
            Ok(()) => Ok(()),
            Err(_) => Err(RunFault::Out),
        },
        Err(cut) => Err(put_cut(piece, &cut, out)),
    }
}

/// Puts what was read of a piece before a page with a wrong word, and nothing if the source failed.
fn put_cut<O: Sink>(piece: &[u8], cut: &Cut, out: &mut O) -> RunFault
    requires { cut.now.done ≤ length piece.now }
    ensures { PutsCut (take cut.now.done piece.now) cut.now.fault (O.view out.old) result (O.view out.new) }
{
    match cut.fault {
        ReadFault::Source => RunFault::Source,
        ReadFault::Refused(found) => match out.put(&piece[..cut.done]) {
            Ok(()) => RunFault::Refused(found),
            Err(_) => RunFault::Out,
        },
    }
}
