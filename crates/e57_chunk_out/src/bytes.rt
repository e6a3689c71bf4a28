//! Pieces put into slices, and moved there.

ghost use Rattle.std.specs.Prelude.{◌≡◌, ◌+◌, ◌-◌, ◌<◌, ◌≤◌, ◌++◌, length, take, drop, replicate, MatchResult};

use std::alloc::AllocError;

/// Puts bytes from `at` on, and answers where they end. What stands before them stays.
#[inline]
pub fn put(out: &mut [u8], at: usize, bytes: &[u8]) -> usize
    requires { at + length bytes.now ≤ length out.old }
    ensures bytes { take result out.new ≡ take at out.old ++ bytes.now }
    ensures end { result ≡ at + length bytes.now }
{
    let end = at + bytes.len();
    out[at..end].copy_from_slice(bytes);
    end
}

/// Zeros.
pub fn clear(out: &mut [u8])
    ensures { out.new ≡ replicate (length out.old) 0 }
{
    out.fill(0);
}

/// Makes room for so many bytes. Where there is room, nothing is done.
pub fn grow(run: &mut Vec<u8>, size: usize) -> Result<(), AllocError>
    ensures kept { take (length run.old.items) run.new.items ≡ run.old.items }
    ensures same { size ≤ length run.old.items → length run.new.items ≡ length run.old.items }
    ensures room { MatchResult result (λ _. size ≤ length run.new.items) (λ _. length run.old.items < size) }
{
    if run.len() < size {
        run.resize(size, 0)?;
    }
    Ok(())
}

/// Puts values behind the first `until` items.
#[inline]
pub fn place<T: Copy>(items: &mut [T], until: usize, values: &[T])
    requires { until + length values.now ≤ length items.old }
    ensures { take (until + length values.now) items.new ≡ take until items.old ++ values.now }
{
    items[until..until + values.len()].copy_from_slice(values);
}

/// Lets go of the first `n` of `until` items. Those behind them move to the front.
#[inline]
pub fn let_go<T: Copy>(items: &mut [T], n: usize, until: usize)
    requires { (n ≤ until) × (until ≤ length items.old) }
    ensures { take (until - n) items.new ≡ drop n (take until items.old) }
{
    items.copy_within(n..until, 0);
}
