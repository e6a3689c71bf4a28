//! Strings that wait, one behind another.

ghost use Rattle.std.specs.Prelude.{◌^◌, ◌≡◌, ℕ, ◌+◌, ◌-◌, ◌<◌, ◌≤◌, ◌++◌, List, [], ◌∷◌, length, take, drop, slice_index_or, MatchResult};
ghost use Rattle.std.specs.List.{AllByRecursion};
ghost use Rattle.e57_chunk_out.specs.Texts.{strings_at, AreEnds, AreGathered, IsMovable, moved_ends};

use crate::bytes::{grow, let_go, place, put};
use crate::texts::piece;
use std::alloc::AllocError;

/// Puts strings behind the first `until` ones, which end here in the bytes, one behind another, the first beginning at
/// `begin`.
pub fn add_texts(
    held: &mut Vec<u8>,
    held_ends: &mut [u64],
    until: usize,
    bytes: &[u8],
    begin: usize,
    ends: &[u64],
) -> Result<(), AllocError>
    requires held { AreEnds (length held.old.items) 0 (take until held_ends.old) }
    requires ends { AreEnds (length bytes.now) begin ends.now }
    requires room { until + length ends.now ≤ length held_ends.old }
    ensures { let there = strings_at held.old.items 0 (take until held_ends.old) in MatchResult result
        (λ _. AreGathered held.new.items (take (until + length ends.now) held_ends.new) (there ++ strings_at bytes.now begin ends.now))
        (λ _. AreGathered held.new.items (take until held_ends.new) there) }
{
    let used = begin_of(held_ends, until);
    let texts = piece(bytes, begin, last_end(begin, ends));
    let Ok(()) = grow(held, used + texts.len()) else {
        return Err(AllocError);
    };
    put(held, used, texts);
    place(held_ends, until, ends);
    move_ends(&mut held_ends[until..until + ends.len()], begin, used);
    Ok(())
}

/// Lets go of the first `n` of `until` strings.
pub fn drop_texts(held: &mut [u8], ends: &mut [u64], n: usize, until: usize)
    requires held { AreEnds (length held.old) 0 (take until ends.old) }
    requires there { (n ≤ until) × (until ≤ length ends.old) }
    ensures { AreGathered held.new (take (until - n) ends.new) (drop n (strings_at held.old 0 (take until ends.old))) }
{
    let cut = begin_of(ends, n);
    let used = begin_of(ends, until);
    let_go(held, cut, used);
    let_go(ends, n, until);
    move_ends(&mut ends[..until - n], cut, 0);
}

/// Where the strings end if the first one begins at `start`, and not at `begin`.
fn move_ends(ends: &mut [u64], begin: usize, start: usize)
    requires { AllByRecursion (IsMovable begin start) ends.old }
    ensures { ends.new ≡ moved_ends begin start ends.old }
{
    for k in 0..ends.len() {
        ends[k] = ends[k] - begin as u64 + start as u64;
    }
}

/// Where the last string ends.
fn last_end(begin: usize, ends: &[u64]) -> usize
    ensures { result ≡ slice_index_or (begin ∷ ends.now) (length ends.now) 0 }
{
    if ends.is_empty() {
        return begin;
    }
    ends[ends.len() - 1] as usize
}

/// Where string `k` begins.
pub fn begin_of(ends: &[u64], k: usize) -> usize
    requires { k ≤ length ends.now }
    ensures { result ≡ slice_index_or (0 ∷ ends.now) k 0 }
{
    if k == 0 {
        return 0;
    }
    ends[k - 1] as usize
}
