//! Pieces of a range: its pages, and the bytes of it that lie in one of them.

ghost use Rattle.std.specs.Prelude.{◌≡◌, ◌+◌, ◌-◌, ◌*◌, ◌<◌, ◌≤◌, ◌^◌, length};
ghost use Rattle.e57_page.specs.Place.{span_end as the_span_end};
ghost use Rattle.e57_page.specs.Fetch.{page_piece, with_part};

use crate::place::PAYLOAD;

/// The first page behind the range of `count` logical bytes from place `at` on.
pub fn span_end(at: u64, count: usize) -> u64
    requires { at + count < 2 ^ 64 }
    ensures { result ≡ the_span_end at count }
{
    let count = count as u64;
    if count == 0 {
        at / PAYLOAD
    } else {
        (at + count - 1) / PAYLOAD + 1
    }
}

/// How many of the bytes from place `at` on lie before page `n`.
pub fn before_page(n: u64, at: u64) -> usize
    requires { 1020 * n < 2 ^ 64 }
    ensures { result ≡ 1020 * n - at }
{
    (PAYLOAD * n).saturating_sub(at) as usize
}

/// Copies the bytes of page `n` that lie in the range from place `at` on, each to its place in `out`.
pub fn copy_piece(page: &[u8; 1024], n: u64, at: u64, out: &mut [u8])
    requires small { 1020 * n < 2 ^ 64 }
    requires reaches { at < 1020 * (n + 1) }
    requires begins { 1020 * n < at + length out.old }
    ensures { out.new ≡ with_part (1020 * n - at) (page_piece at n (length out.old) page.now) out.old }
{
    let done = before_page(n, at);
    let skip = at.saturating_sub(PAYLOAD * n) as usize;
    let count = (PAYLOAD as usize - skip).min(out.len() - done);
    out[done..done + count].copy_from_slice(&page[skip..skip + count]);
}
