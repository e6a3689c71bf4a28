//! The two pages that a writer has in memory: the begun one, and one that is held.

ghost use Rattle.std.specs.Prelude.{◌≡◌, ◌+◌, ◌≤◌, ◌<◌, ◌^◌, length, replicate, take};
ghost use Rattle.e57_base.specs.MemTarget.{with_piece};
ghost use Rattle.e57_page_out.specs.Buffer.{appended, begun_first, ended_payload, patched, turned};
ghost use Rattle.e57_page_out.specs.Sealed.{page_bytes};

use crate::bytes::write_at;
use e57_crc::crc32c;

/// The payload of a page in bytes; its checksum word follows.
pub const PAYLOAD: usize = 1020;

/// Which page is held.
#[derive(Clone, Copy, Debug, PartialEq, Eq)]
pub enum Held {
    /// None.
    Nothing,
    /// The begun one.
    Begun,
    /// The page with this number, which was put.
    Whole(u64),
}

/// The begun page, with its number and how many bytes of its payload are written, and the held page where that was put.
#[derive(Drop)]
pub struct Buffer {
    pub number: u64,
    pub filled: usize,
    pub page: [u8; 1024],
    pub held: Held,
    pub kept: [u8; 1024],
}

/// Page 1 is begun, and none is held.
pub fn first_buffer() -> Buffer
    ensures { result ≡ begun_first }
{
    Buffer {
        number: 1,
        filled: 0,
        page: [0; 1024],
        held: Held::Nothing,
        kept: [0; 1024],
    }
}

/// Appends bytes to the begun page.
pub fn append(buffer: &mut Buffer, piece: &[u8])
    requires { buffer.old.filled + length piece.now ≤ 1020 }
    ensures { buffer.new ≡ appended buffer.old piece.now }
{
    write_at(&mut buffer.page, buffer.filled, piece);
    buffer.filled += piece.len();
}

/// Sets the page's word: the checksum of its payload, the most significant byte first (ASTM E2807, physical layout).
pub fn seal(page: &mut [u8; 1024])
    ensures { page.new ≡ page_bytes (take 1020 page.old) }
{
    let (payload, word) = page.split_at_mut(PAYLOAD);
    word.copy_from_slice(&crc32c(payload).to_be_bytes());
}

/// Makes the begun page ready to be put: zeros up to the end of its payload, and its word.
pub fn complete(buffer: &mut Buffer)
    requires { buffer.old.filled ≤ 1020 }
    ensures { buffer.new ≡ record buffer.old { page = page_bytes (ended_payload buffer.old) } }
{
    let zeros = [0; PAYLOAD];
    write_at(
        &mut buffer.page,
        buffer.filled,
        &zeros[..PAYLOAD - buffer.filled],
    );
    seal(&mut buffer.page);
}

/// The begun page was put. It is kept where it is held, and the next one is begun.
pub fn turn(buffer: &mut Buffer)
    requires { buffer.old.number < 2 ^ 38 }
    ensures { buffer.new ≡ turned buffer.old buffer.old.page }
{
    if buffer.held == Held::Begun {
        buffer.kept = buffer.page;
        buffer.held = Held::Whole(buffer.number);
    }
    buffer.number += 1;
    buffer.filled = 0;
}

/// Writes bytes over those from byte `at` on of the page that is held, if one is.
pub fn patch(buffer: &mut Buffer, at: usize, bytes: &[u8])
    requires { at + length bytes.now ≤ 1020 }
    ensures { buffer.new ≡ patched buffer.old at bytes.now }
{
    match buffer.held {
        Held::Nothing => {}
        Held::Begun => write_at(&mut buffer.page, at, bytes),
        Held::Whole(_) => write_at(&mut buffer.kept, at, bytes),
    }
}
