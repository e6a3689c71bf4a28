//! Bytes in slices.

ghost use Rattle.std.specs.Prelude.{◌≡◌, ◌+◌, ◌*◌, ◌<◌, ◌≤◌, length};
ghost use Rattle.e57_bits.specs.Bits.{number};
ghost use Rattle.e57_packet.specs.Reading.{Puts};

/// The byte at `at`, as a number of 8 bits.
pub fn u8_at(bytes: &[u8], at: usize) -> u8
    requires { at < length bytes.now }
    ensures { result ≡ number bytes.now (8 * at) 8 }
{
    bytes[at]
}

/// Puts bytes from `at` on; what stands before them stays. What stands behind them stays too, and no caller needs it.
pub fn put(out: &mut [u8], at: usize, bytes: &[u8])
    requires { at + length bytes.now ≤ length out.old }
    ensures { Puts out.old at bytes.now out.new }
{
    out[at..at + bytes.len()].copy_from_slice(bytes);
}
