//! The bytes of a stream that were taken from packets and not read yet.

ghost use Rattle.std.specs.Prelude.{◌≡◌, ◌+◌, ◌-◌, ◌≤◌, ◌++◌, [], length, take, drop, IfOk};
ghost use Rattle.e57_stream.specs.Window.{room, most_left, most_more};

use std::alloc::{AllocError, Global};
use std::marker::Model;

/// The most bytes of a window: those of a packet, and 16 that were left before it.
const ROOM: usize = 65_552;

/// Up to 65,552 bytes in a row. What is left of one packet's stream and the stream of the next stand in one buffer, so an
/// item that a packet's end cuts is read as any other.
#[derive(Drop)]
pub struct Window {
    buffer: Vec<u8>,
    begin: usize,
    end: usize,
}

impl Model for Window {
    ghost use Rattle.std.specs.Prelude.{ℕ, List};
    ghost use Rattle.e57_stream.specs.Window.{held_bytes, IsRoom};

    ghost Value = { List ℕ };

    ghost view = { λ w. held_bytes w.buffer.items w.begin w.end };

    ghost invariant = { λ w. IsRoom w.buffer.items w.begin w.end };
}

impl Window {
    /// A window with no bytes. It takes 65,552 bytes of memory, and nothing takes more later.
    pub fn new(alloc: Global) -> Result<Window, AllocError>
        ensures { IfOk result (λ window. window ≡ []) }
    {
        let buffer = vec![in alloc; 0; ROOM]?;
        Ok(Window {
            buffer,
            begin: 0,
            end: 0,
        })
    }

    /// The bytes.
    #[inline]
    pub fn bytes(&self) -> &[u8]
        ensures bytes { result.now ≡ self.now }
        ensures few { length self.now ≤ room }
    {
        &self.buffer[self.begin..self.end]
    }

    /// The bytes, and behind them what stands in the buffer up to its end. A number is unpacked faster where there are bytes
    /// behind it.
    #[inline]
    pub fn with_spare(&self) -> &[u8]
        ensures bytes { take (length self.now) result.now ≡ self.now }
        ensures spare { length self.now ≤ length result.now }
    {
        &self.buffer[self.begin..]
    }

    /// How many bytes there are.
    #[inline]
    pub fn len(&self) -> usize
        ensures count { result ≡ length self.now }
        ensures few { length self.now ≤ room }
    {
        self.end - self.begin
    }

    /// Lets the first `n` bytes go.
    #[inline]
    pub fn skip(&mut self, n: usize)
        requires { n ≤ length self.old }
        ensures { self.new ≡ drop n self.old }
    {
        let held = self.end - self.begin;
        prove!(n <= held);
        self.begin += n;
    }

    /// Lets all bytes go.
    #[inline]
    pub fn clear(&mut self)
        ensures { self.new ≡ [] }
    {
        self.begin = 0;
        self.end = 0;
    }

    /// Puts the bytes of a packet's stream behind at most 16 that are left.
    pub fn extend(&mut self, more: &[u8])
        requires left { length self.old ≤ most_left }
        requires packet { length more.now ≤ most_more }
        ensures { self.new ≡ self.old ++ more.now }
    {
        let left = self.end - self.begin;
        gather(&mut self.buffer, self.begin, self.end, more);
        self.begin = 0;
        self.end = left + more.len();
    }
}

/// Moves the bytes from `begin` to before `end` to the front, and puts more behind them.
fn gather(buffer: &mut [u8], begin: usize, end: usize, more: &[u8])
    requires order { begin ≤ end }
    requires within { end ≤ length buffer.old }
    requires fits { end - begin + length more.now ≤ length buffer.old }
    ensures front { take (end - begin + length more.now) buffer.new ≡ take (end - begin) (drop begin buffer.old) ++ more.now }
{
    let left = end - begin;
    buffer.copy_within(begin..end, 0);
    buffer[left..left + more.len()].copy_from_slice(more);
}
