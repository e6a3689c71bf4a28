//! A piece that is written over a part of some bytes.

ghost use Rattle.std.specs.Prelude.{◌≡◌, ◌+◌, ◌≤◌, length};
ghost use Rattle.e57_base.specs.MemTarget.{with_piece};

/// Writes the piece over the bytes from `at` on.
pub fn write_at(bytes: &mut [u8], at: usize, piece: &[u8])
    requires { at + length piece.now ≤ length bytes.old }
    ensures piece { bytes.new ≡ with_piece at piece.now bytes.old }
    ensures size { length bytes.new ≡ length bytes.old }
{
    bytes[at..at + piece.len()].copy_from_slice(piece);
}
