//! A write into a file in memory.

ghost use Rattle.std.specs.Prelude.{◌≡◌, ◌+◌, ◌≤◌, length};
ghost use Rattle.std.specs.Vec.{vec_capacity};
ghost use Rattle.e57_base.specs.MemTarget.{with_piece};

/// Writes a piece over the bytes from `at` on, and what passes their end behind it. Takes no memory.
pub fn overwrite(bytes: &mut Vec<u8>, at: usize, piece: &[u8])
    requires within { at ≤ length bytes.old.items }
    requires fits { at + length piece.now ≤ vec_capacity bytes.old }
    ensures bytes { bytes.new.items ≡ with_piece at piece.now bytes.old.items }
    ensures capacity { vec_capacity bytes.old ≤ vec_capacity bytes.new }
{
    let (over, behind) = piece.split_at(piece.len().min(bytes.len() - at));
    bytes[at..at + over.len()].copy_from_slice(over);
    let _ = bytes.extend_from_slice(behind);
}
