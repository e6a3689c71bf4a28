//! Strings as they are written.

ghost use Rattle.std.specs.Prelude.{◌≡◌, ℕ, ◌+◌, ◌-◌, ◌*◌, ◌≤◌, ◌++◌, List, length, take, drop};
ghost use Rattle.e57_layout.specs.Values.{ItemKind};
ghost use Rattle.e57_layout.specs.Strings.{string_limit, string_bytes_of};
ghost use Rattle.e57_layout.specs.Items.{field_bytes};
ghost use Rattle.e57_chunk_out.specs.Texts.{strings_at, AreEnds, text_size, texts_size};

use crate::bytes::put;
use e57_strings::spell_prefix;

/// The most bytes of a string whose prefix is one byte.
const ONE_BYTE: usize = 127;

/// How many bytes strings have as they are written, which end here, one behind another, the first beginning at `begin`.
pub fn all_texts_size(bytes: &[u8], begin: usize, ends: &[u64]) -> usize
    requires ends { AreEnds (length bytes.now) begin ends.now }
    requires few { length ends.now ≤ 1031 }
    ensures size { result ≡ texts_size begin ends.now }
    ensures few { result ≤ 16777224 * length ends.now }
{
    let mut before = begin;
    let mut size = 0;
    for k in 0..ends.len() {
        let end = ends[k] as usize;
        size += one_text_size(end - before);
        before = end;
    }
    size
}

/// How many bytes a string of `len` bytes has as it is written.
#[inline]
#[tactic(auto, unfolding(crate::specs::Texts::text_size))]
fn one_text_size(len: usize) -> usize
    requires { len ≤ string_limit }
    ensures { result ≡ text_size len }
{
    if len <= ONE_BYTE {
        return 1 + len;
    }
    8 + len
}

/// Writes strings, which end here in the bytes, one behind another, the first beginning at `begin`. They fill `out`.
pub fn write_texts(bytes: &[u8], begin: usize, ends: &[u64], out: &mut [u8])
    requires ends { AreEnds (length bytes.now) begin ends.now }
    requires room { length out.old ≡ texts_size begin ends.now }
    ensures { out.new ≡ field_bytes ItemKind.strings (strings_at bytes.now begin ends.now) }
{
    let mut before = begin;
    let mut at = 0;
    for k in 0..ends.len() {
        let end = ends[k] as usize;
        at = write_text(piece(bytes, before, end), at, out);
        before = end;
    }
}

/// The bytes from `begin` on and before `end`.
#[inline]
pub fn piece(bytes: &[u8], begin: usize, end: usize) -> &[u8]
    requires { begin ≤ end × end ≤ length bytes.now }
    ensures { result.now ≡ take (end - begin) (drop begin bytes.now) }
{
    &bytes[begin..end]
}

/// Writes a string from `at` on, and answers where it ends.
#[inline]
fn write_text(text: &[u8], at: usize, out: &mut [u8]) -> usize
    requires limit { length text.now ≤ string_limit }
    requires room { at + text_size (length text.now) ≤ length out.old }
    ensures bytes { take result out.new ≡ take at out.old ++ string_bytes_of text.now }
    ensures end { result ≡ at + text_size (length text.now) }
{
    let mut prefix = [0; 8];
    let size = spell_prefix(text.len() as u64, &mut prefix);
    let begin = put(out, at, &prefix[..size]);
    put(out, begin, text)
}
