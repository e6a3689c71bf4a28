//! One page of a file in memory, or what stands behind its whole pages.

ghost use Rattle.std.specs.Prelude.{◌≡◌, ◌<◌, ◌≤◌, ◌/◌, ◌++◌, length, drop};
ghost use Rattle.e57_base.specs.Source.{page_of, rest_of};

/// Copies page `n` of a file, its bytes from 1024 * `n` on.
pub fn copy_page(file: &[u8], n: u64, out: &mut [u8; 1024])
    requires { n < length file.now / 1024 }
    ensures { out.new ≡ page_of file.now n }
{
    let (_, rest) = file.split_at(1024 * n as usize);
    let (page, _) = rest.split_at(1024);
    out.copy_from_slice(page);
}

/// Copies the bytes of a file behind its whole pages, with zeros behind them.
pub fn copy_rest(file: &[u8], out: &mut [u8; 1024])
    ensures { out.new ≡ rest_of file.now }
{
    let (_, rest) = file.split_at(file.len() / 1024 * 1024);
    *out = [0; 1024];
    put_first(out, rest);
}

// Writes these bytes over the first ones.
fn put_first(out: &mut [u8], bytes: &[u8])
    requires { length bytes.now ≤ length out.old }
    ensures { out.new ≡ bytes.now ++ drop (length bytes.now) out.old }
{
    out[..bytes.len()].copy_from_slice(bytes);
}
