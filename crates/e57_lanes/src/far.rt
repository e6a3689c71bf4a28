//! Fields of 58 to 64 bits: an item may lie in nine bytes.

ghost use Rattle.std.specs.Prelude.{◌≤◌, length};
ghost use Rattle.e57_lanes.specs.Unpack.{CanUnpack, Unpacks};

use crate::plain::unpack_from;

/// `unpack` for a width of 58 to 64: nine bytes for each item.
pub fn unpack_far(
    bytes: &[u8],
    phase: u8,
    width: u8,
    min: i64,
    span: u64,
    out: &mut [i64],
) -> Result<(), usize>
    requires fields { CanUnpack bytes.now phase width min span (length out.old) }
    requires width { 58 ≤ width × width ≤ 64 }
    ensures { Unpacks bytes.now phase width min span out.old result out.new }
{
    unpack_from(bytes, phase, width, min, span, out, 0)
}
