//! Short strings that stand whole in a window.

ghost use Rattle.std.specs.Prelude.{◌≡◌, ◌+◌, ◌≤◌, length, take, drop, IfSome};
ghost use Rattle.e57_texts.specs.Short.{BeginsShort, short_length};

/// The most bytes of a short string: so many are moved at a time, whatever its length.
pub const SHORT: usize = 16;

/// The length of the string that these bytes begin with, where it is short, `SHORT` bytes stand behind its prefix, and there
/// are as many places.
#[inline]
pub fn short_string(bytes: &[u8], places: usize) -> Option<usize>
    ensures { IfSome result (λ n. (short_length ≤ places) × BeginsShort bytes.now n) }
{
    if places < SHORT || bytes.len() < SHORT + 1 {
        return None;
    }
    let first = bytes[0];
    let length = first as usize / 2;
    if first % 2 == 1 || length > SHORT {
        return None;
    }
    Some(length)
}

/// Moves the `SHORT` bytes behind a prefix of one byte to the front of `out`.
#[inline]
pub fn move_short(out: &mut [u8], bytes: &[u8])
    requires places { short_length ≤ length out.old }
    requires there { short_length + 1 ≤ length bytes.now }
    ensures size { length out.new ≡ length out.old }
    ensures front { take short_length out.new ≡ take short_length (drop 1 bytes.now) }
{
    out[..SHORT].copy_from_slice(&bytes[1..SHORT + 1]);
}
