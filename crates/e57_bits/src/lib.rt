//! Bits and little-endian numbers in slices of bytes, over `byteorder`.
#![tactic(auto)]

ghost use Rattle.std.specs.Prelude.{◌≡◌, ◌+◌, ◌*◌, ◌≤◌, length};
ghost use Rattle.e57_bits.specs.Bits.{number};

use byteorder::{ByteOrder, LittleEndian};

/// The 16-bit number at byte `at`.
pub fn u16_at(bytes: &[u8], at: usize) -> u16
    requires { at + 2 ≤ length bytes.now }
    ensures { result ≡ number bytes.now (8 * at) 16 }
{
    LittleEndian::read_u16(&bytes[at..])
}

/// The 32-bit number at byte `at`.
pub fn u32_at(bytes: &[u8], at: usize) -> u32
    requires { at + 4 ≤ length bytes.now }
    ensures { result ≡ number bytes.now (8 * at) 32 }
{
    LittleEndian::read_u32(&bytes[at..])
}

/// The 64-bit number at byte `at`.
pub fn u64_at(bytes: &[u8], at: usize) -> u64
    requires { at + 8 ≤ length bytes.now }
    ensures { result ≡ number bytes.now (8 * at) 64 }
{
    LittleEndian::read_u64(&bytes[at..])
}

#[cfg(test)]
mod tests {
    use super::*;

    #[test]
    fn lowest_byte_first(rt: HostRuntime) {
        let bytes = [0xff, 0x34, 0x12, 0, 0, 0, 0, 0, 0x80];
        assert_eq!(rt; u16_at(&bytes, 1), 0x1234);
        assert_eq!(rt; u32_at(&bytes, 0), 0x0012_34ff);
        assert_eq!(rt; u64_at(&bytes, 1), 0x8000_0000_0000_1234);
    }
}
