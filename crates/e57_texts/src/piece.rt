//! Pieces of a stream, wherever packets cut them.

ghost use Rattle.std.specs.Prelude.{◌≡◌, ◌+◌, ◌-◌, ◌*◌, ◌/◌, ◌<◌, ◌≤◌, ◌++◌, min, length, take, drop, MatchResult};
ghost use Rattle.e57_base.specs.Source.{page_length};
ghost use Rattle.e57_page.specs.Place.{payload_length};
ghost use Rattle.e57_section.specs.Opening.{LiesIn};
ghost use Rattle.e57_texts.specs.Pieces.{IsFewer, TakesPiece, LacksPiece, SkipsPiece};

use e57_base::{ReadFault, Source};
use e57_page::Pages;
use e57_section::Packet;
use e57_stream::{Bytestream, Chunk, Window, take_packet};

/// Fills `out` with the next bytes of the stream, from the window and as many packets as it takes.
///
/// Refuses what is answered where the chunk's stream ends before.
pub fn read_piece<S: Source>(
    stream: &Bytestream,
    pages: &mut Pages<S>,
    packet: &mut Packet,
    chunk: &mut Chunk,
    out: &mut [u8],
) -> Result<(), ReadFault>
    requires lies { LiesIn stream.now.section (pages.old.length / page_length * payload_length) }
    requires field { stream.now.field < stream.now.section.fields }
    requires within { chunk.old.taken ≤ stream.now.section.end }
    ensures length { pages.new.length ≡ pages.old.length }
    ensures header { pages.new.header ≡ pages.old.header }
    ensures size { length out.new ≡ length out.old }
    ensures piece { MatchResult result
        (λ _. TakesPiece (S.view pages.old.source) stream.now chunk.old (IsFewer (length out.old)) out.new chunk.new (S.view pages.new.source))
        (λ found. LacksPiece (S.view pages.old.source) stream.now chunk.old (IsFewer (length out.old)) found chunk.new (S.view pages.new.source)) }
{
    let mut done = read_held(&mut chunk.window, out);
    while done < out.len() {
        if let Err(fault) = take_packet(stream, pages, packet, chunk) {
            return Err(fault);
        }
        done += read_held(&mut chunk.window, &mut out[done..]);
    }
    Ok(())
}

/// Moves bytes of the window to the front of `out`, all that are there or as many as there are places.
fn read_held(window: &mut Window, out: &mut [u8]) -> usize
    ensures count { result ≡ min (length out.old) (length window.old) }
    ensures bytes { out.new ≡ take result window.old ++ drop result out.old }
    ensures rest { window.new ≡ drop result window.old }
{
    let held = window.len();
    let count = if held < out.len() { held } else { out.len() };
    out[..count].copy_from_slice(&window.bytes()[..count]);
    window.skip(count);
    count
}

/// Skips the next `n` bytes of the stream.
///
/// Refuses what is answered where the chunk's stream ends before.
pub fn skip_piece<S: Source>(
    stream: &Bytestream,
    pages: &mut Pages<S>,
    packet: &mut Packet,
    chunk: &mut Chunk,
    n: u64,
) -> Result<(), ReadFault>
    requires lies { LiesIn stream.now.section (pages.old.length / page_length * payload_length) }
    requires field { stream.now.field < stream.now.section.fields }
    requires within { chunk.old.taken ≤ stream.now.section.end }
    ensures length { pages.new.length ≡ pages.old.length }
    ensures header { pages.new.header ≡ pages.old.header }
    ensures piece { MatchResult result
        (λ _. SkipsPiece (S.view pages.old.source) stream.now chunk.old n chunk.new (S.view pages.new.source))
        (λ found. LacksPiece (S.view pages.old.source) stream.now chunk.old (IsFewer n) found chunk.new (S.view pages.new.source)) }
{
    let mut left = skip_held(&mut chunk.window, n);
    while left > 0 {
        if let Err(fault) = take_packet(stream, pages, packet, chunk) {
            return Err(fault);
        }
        left = skip_held(&mut chunk.window, left);
    }
    Ok(())
}

/// Lets up to `n` bytes of the window go, and answers how many of the `n` weren't there.
fn skip_held(window: &mut Window, n: u64) -> u64
    ensures left { result ≡ n - length window.old }
    ensures rest { window.new ≡ drop n window.old }
{
    let held = window.len();
    if (held as u64) < n {
        window.clear();
        n - held as u64
    } else {
        window.skip(n as usize);
        0
    }
}
