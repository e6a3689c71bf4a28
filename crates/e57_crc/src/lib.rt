//! The checksum of a page: CRC-32C (polynomial 0x1EDC6F41, reflected), and the test of a page's word.
#![tactic(auto)]

mod tables;

ghost use Rattle.std.specs.Prelude.{◌≡◌, ◌+◌, ◌*◌, ◌≤◌, length, bit_xor};
ghost use Rattle.e57_bits.specs.Bits.{number};
ghost use Rattle.e57_crc.specs.Crc.{crc, is_right, register};
ghost use Rattle.e57_crc.specs.Steps.{steps};

use crate::tables::{looked_up, looked_up_far};
use e57_bits::u32_at;

/// The payload of a page in bytes; its checksum word follows.
const PAYLOAD: usize = 1020;

/// The bytes of a payload that go in from the start; the other 516 go in beside them.
const FIRST: usize = 504;

/// The CRC-32C of the bytes. Total, takes no memory.
pub fn crc32c(bytes: &[u8]) -> u32
    ensures { result ≡ crc bytes.now }
{
    if bytes.len() == PAYLOAD {
        return after_payload(bytes) ^ u32::MAX;
    }
    let eights = bytes.len() / 8;
    let mut so_far = u32::MAX;
    for i in 0..eights {
        so_far = after_eight(so_far, bytes, 8 * i);
    }
    after_rest(so_far, bytes, 8 * eights) ^ u32::MAX
}

/// Whether the page's word is the checksum of its 1020 bytes of payload, in one byte order or the
/// other.
pub fn word_right(page: &[u8; 1024]) -> bool
    ensures { result ≡ is_right page.now }
{
    let (payload, word) = page.as_slice().split_at(PAYLOAD);
    let stored = u32_at(word, 0);
    let checksum = crc32c(payload);
    stored == checksum || stored.swap_bytes() == checksum
}

/// The register after a page's payload. Its first 504 bytes and its last 516 go in side by side, the
/// last from register 0, since the register is linear: after all, it is the first part's register
/// over 516 bytes 0, exclusive or the last part's.
fn after_payload(payload: &[u8]) -> u32
    requires { length payload.now ≡ 1020 }
    ensures { result ≡ register payload.now (8 * 1020) }
{
    let mut first = u32::MAX;
    let mut last = 0;
    for i in 0..FIRST / 8 {
        first = after_eight(first, payload, 8 * i);
        last = after_eight(last, payload, FIRST + 8 * i);
    }
    last = after_eight(last, payload, PAYLOAD - 12);
    after_four_far(first) ^ after_four(last ^ u32_at(payload, PAYLOAD - 4), 0)
}

/// The register `start` after the eight bytes at `at`.
#[inline]
fn after_eight(start: u32, bytes: &[u8], at: usize) -> u32
    requires { at + 8 ≤ length bytes.now }
    ensures { result ≡ steps 64 (bit_xor start (number bytes.now (8 * at) 64)) }
{
    after_words(start, u32_at(bytes, at), u32_at(bytes, at + 4))
}

/// The register `start` after eight bytes, the words `low` and `high`.
fn after_words(start: u32, low: u32, high: u32) -> u32
    ensures { result ≡ steps 32 (bit_xor (steps 32 (bit_xor start low)) high) }
{
    after_four(high, 0) ^ after_four(start ^ low, 4)
}

/// The register `word` after its own 32 bits and then `zeros` bytes 0, at most four of them.
#[inline]
fn after_four(word: u32, zeros: usize) -> u32
    requires { zeros ≤ 4 }
    ensures { result ≡ steps (8 * (zeros + 4)) word }
{
    looked_up((word & 0xff) as u8, zeros + 3)
        ^ looked_up((word >> 8 & 0xff) as u8, zeros + 2)
        ^ looked_up((word >> 16 & 0xff) as u8, zeros + 1)
        ^ looked_up((word >> 24) as u8, zeros)
}

/// The register `word` after its own 32 bits and then 512 bytes 0.
fn after_four_far(word: u32) -> u32
    ensures { result ≡ steps (8 * (512 + 4)) word }
{
    looked_up_far((word & 0xff) as u8, 3)
        ^ looked_up_far((word >> 8 & 0xff) as u8, 2)
        ^ looked_up_far((word >> 16 & 0xff) as u8, 1)
        ^ looked_up_far((word >> 24) as u8, 0)
}

/// The register `start` after one byte.
fn after_byte(start: u32, byte: u8) -> u32
    ensures { result ≡ steps 8 (bit_xor start byte) }
{
    let mixed = start ^ byte as u32;
    looked_up((mixed & 0xff) as u8, 0) ^ (mixed >> 8)
}

/// The register `start`, where the bytes before `from` have gone in, after the rest of them.
fn after_rest(start: u32, bytes: &[u8], from: usize) -> u32
    requires within { from ≤ length bytes.now }
    requires so_far { start ≡ register bytes.now (8 * from) }
    ensures { result ≡ register bytes.now (8 * length bytes.now) }
{
    let mut so_far = start;
    for i in from..bytes.len() {
        so_far = after_byte(so_far, bytes[i]);
    }
    so_far
}

#[cfg(test)]
mod tests {
    use super::*;

    /// The same by one table alone.
    fn plain(bytes: &[u8]) -> u32
        ensures { result ≡ crc bytes.now }
    {
        after_rest(u32::MAX, bytes, 0) ^ u32::MAX
    }

    #[test]
    fn vectors(rt: HostRuntime) {
        assert_eq!(rt; crc32c(b"123456789"), 0xe306_9283);
        assert_eq!(rt; crc32c(&[]), 0);
    }

    #[test]
    fn one_table_and_eight(rt: HostRuntime) {
        let mut bytes = [0u8; 40];
        for i in 0..40 {
            bytes[i] = (i * 37 % 251) as u8;
        }
        for len in 0..=40 {
            assert_eq!(rt;
                crc32c(&bytes[..len]),
                plain(&bytes[..len]),
                "at {len} bytes"
            );
        }
    }

    /// Bytes of a payload: each `factor` more than the one before, modulo 251.
    fn payload_of(factor: u8) -> [u8; PAYLOAD] {
        let mut payload = [0u8; PAYLOAD];
        for i in 0..PAYLOAD {
            payload[i] = (i * factor as usize % 251) as u8;
        }
        payload
    }

    #[test]
    fn payloads(rt: HostRuntime) {
        for (factor, checksum) in [(0, 0xb641_cde2), (1, 0x2893_1a7c), (37, 0xc45b_c516)] {
            let payload = payload_of(factor);
            assert_eq!(rt; crc32c(&payload), checksum);
            assert_eq!(rt; plain(&payload), checksum);
        }
    }

    #[test]
    fn words(rt: HostRuntime) {
        let mut page = [0x5au8; 1024];
        let checksum = crc32c(&page[..PAYLOAD]);
        page[PAYLOAD..].copy_from_slice(&checksum.to_le_bytes());
        assert!(rt; word_right(&page));
        page[PAYLOAD..].copy_from_slice(&checksum.to_be_bytes());
        assert!(rt; word_right(&page));
        page[500] ^= 1;
        assert!(rt; !word_right(&page));
    }
}
