//! Where a reader stands in a chunk.

ghost use Rattle.std.specs.Prelude.{◌≡◌, ◌+◌, ◌-◌, ◌*◌, ◌/◌, ◌<◌, ◌≤◌, min, length};
ghost use Rattle.e57_stream.specs.Standing.{let_gone, items_held, wanted as the_wanted};

use crate::window::Window;

/// A chunk, and how far the stream of a field was read in it.
#[derive(Drop)]
pub struct Chunk {
    /// The chunk's first record.
    pub start: u64,
    /// The first record past it.
    pub until: u64,
    /// The logical place of its first packet.
    pub entry: u64,
    /// The logical place up to which its packets were taken.
    pub taken: u64,
    /// No data packet was taken yet.
    pub fresh: bool,
    /// The next record.
    pub at: u64,
    /// Where in the window the item of the next record begins, in bits. It may lie past the window.
    pub bit: u64,
    /// The last bytes of the stream as far as it was taken.
    pub window: Window,
}

/// Lets the whole bytes before the next item go.
pub fn let_go(chunk: &mut Chunk)
    ensures { chunk.new ≡ let_gone chunk.old }
{
    let held = chunk.window.len();
    let whole = chunk.bit / 8;
    let gone = if whole < held as u64 {
        whole as usize
    } else {
        held
    };
    chunk.window.skip(gone);
    chunk.bit -= 8 * gone as u64;
}

/// How many records are read into so many places: as many as the chunk has left at most.
pub(crate) fn wanted(chunk: &Chunk, places: usize) -> usize
    requires { chunk.now.at ≤ chunk.now.until }
    ensures { result ≡ the_wanted chunk.now places }
{
    let left = chunk.until - chunk.at;
    if left < places as u64 {
        left as usize
    } else {
        places
    }
}

/// How many items of so many bits are read from the window into so many places: as many as it has at most.
pub(crate) fn held_for(chunk: &Chunk, width: u8, places: usize) -> usize
    requires { 0 < width }
    ensures { result ≡ min places (items_held width chunk.now) }
{
    let bits = 8 * chunk.window.len() as u64;
    let held = if chunk.bit < bits {
        (bits - chunk.bit) / width as u64
    } else {
        0
    };
    if held < places as u64 {
        held as usize
    } else {
        places
    }
}
