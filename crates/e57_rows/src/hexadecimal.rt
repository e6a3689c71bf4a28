//! Words in hexadecimal.

ghost use Rattle.std.specs.Prelude.{◌≡◌, ◌+◌, ◌/◌, ◌%◌, ◌^◌, ◌≤◌};
ghost use Rattle.e57_rows.specs.Cells.{hex, hex_digit};

/// The two digits of each number below 256, one number after another.
const PAIRS: [u8; 512] = *b"000102030405060708090a0b0c0d0e0f\
101112131415161718191a1b1c1d1e1f\
202122232425262728292a2b2c2d2e2f\
303132333435363738393a3b3c3d3e3f\
404142434445464748494a4b4c4d4e4f\
505152535455565758595a5b5c5d5e5f\
606162636465666768696a6b6c6d6e6f\
707172737475767778797a7b7c7d7e7f\
808182838485868788898a8b8c8d8e8f\
909192939495969798999a9b9c9d9e9f\
a0a1a2a3a4a5a6a7a8a9aaabacadaeaf\
b0b1b2b3b4b5b6b7b8b9babbbcbdbebf\
c0c1c2c3c4c5c6c7c8c9cacbcccdcecf\
d0d1d2d3d4d5d6d7d8d9dadbdcdddedf\
e0e1e2e3e4e5e6e7e8e9eaebecedeeef\
f0f1f2f3f4f5f6f7f8f9fafbfcfdfeff";

/// The two digits of the eight bits of a word from bit `at` on, the higher first.
#[inline]
fn pair(word: u64, at: u32) -> (u8, u8)
    requires { at ≤ 56 }
    ensures high { result.0 ≡ hex_digit (word / 2 ^ (at + 4) % 16) }
    ensures low { result.1 ≡ hex_digit (word / 2 ^ at % 16) }
{
    let first = 2 * (word >> at & 0xff) as usize;
    (PAIRS[first], PAIRS[first + 1])
}

/// All digits of a word of 32 bits, the highest first.
#[inline]
pub fn digits32(word: u32) -> [u8; 8]
    ensures { result ≡ hex 8 word }
{
    let word = word as u64;
    let (a, b) = pair(word, 24);
    let (c, d) = pair(word, 16);
    let (e, f) = pair(word, 8);
    let (g, h) = pair(word, 0);
    [a, b, c, d, e, f, g, h]
}

/// All digits of a word of 64 bits, the highest first.
#[inline]
pub fn digits64(word: u64) -> [u8; 16]
    ensures { result ≡ hex 16 word }
{
    let (a, b) = pair(word, 56);
    let (c, d) = pair(word, 48);
    let (e, f) = pair(word, 40);
    let (g, h) = pair(word, 32);
    let (i, j) = pair(word, 24);
    let (k, l) = pair(word, 16);
    let (m, n) = pair(word, 8);
    let (o, p) = pair(word, 0);
    [a, b, c, d, e, f, g, h, i, j, k, l, m, n, o, p]
}
