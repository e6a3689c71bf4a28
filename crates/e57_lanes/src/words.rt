//! Raw words of 32 and 64 bits.

ghost use Rattle.std.specs.Prelude.{◌≡◌, ◌*◌, ◌<◌, ◌≤◌, ℕ, length, slice_index};
ghost use Rattle.e57_bits.specs.Bits.{number};

use e57_bits::{u32_at, u64_at};

/// Unpacks raw words of 32 bits, four bytes for each, the lowest byte first.
pub fn unpack32(bytes: &[u8], out: &mut [u32])
    requires { 4 * length out.old ≤ length bytes.now }
    ensures { (k : ℕ) → k < length out.old → slice_index out.new k ≡ number bytes.now (32 * k) 32 }
{
    for k in 0..out.len() {
        out[k] = u32_at(bytes, 4 * k);
    }
}

/// Unpacks raw words of 64 bits, eight bytes for each, the lowest byte first.
pub fn unpack64(bytes: &[u8], out: &mut [u64])
    requires { 8 * length out.old ≤ length bytes.now }
    ensures { (k : ℕ) → k < length out.old → slice_index out.new k ≡ number bytes.now (64 * k) 64 }
{
    for k in 0..out.len() {
        out[k] = u64_at(bytes, 8 * k);
    }
}
