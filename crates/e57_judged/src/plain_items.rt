//! The items of a field, as the plain program judges them.

use crate::plain::{Kind, Stop, fits, product, refuse_if, sum};
use crate::plain_chunks::Chunk;

// The items of field f, over the chunks in order.
pub fn judge_field(
    f: usize,
    node: u64,
    kind: Kind,
    count: u64,
    chunks: &[Chunk],
) -> Result<(), Stop> {
    for (j, chunk) in chunks.iter().enumerate() {
        let until = match chunks.get(j.wrapping_add(1)) {
            Some(next) => next.first,
            None => count,
        };
        let stream = chunk.streams.get(f).ok_or(Stop::Lost)?;
        match kind {
            Kind::Integer(low, high) => {
                judge_integers(stream, node, high.abs_diff(low), chunk.first, until)?;
            }
            Kind::Float(bytes) => judge_floats(stream, node, bytes, chunk.first, until)?,
            Kind::String => judge_strings(stream, node, chunk.first, until)?,
        }
    }
    Ok(())
}

// The least number of bits that has room for this number.
fn width(span: u64) -> u64 {
    for w in 0..64 {
        if span >> w == 0 {
            return w;
        }
    }
    64
}

// The number in so many bits of a stream from bit t on, the least significant first; none where it doesn't have them.
fn bits(stream: &[u8], t: u64, count: u64) -> Option<u64> {
    let mut value = 0u64;
    for k in (0..count).rev() {
        let bit = t.checked_add(k)?;
        let byte = *stream.get((bit / 8) as usize)? as u64;
        value = value.checked_mul(2)?.checked_add(byte >> (bit % 8) & 1)?;
    }
    Some(value)
}

// Of integers that take no bits nothing is read.
fn judge_integers(stream: &[u8], node: u64, span: u64, first: u64, until: u64) -> Result<(), Stop> {
    let width = width(span);
    if width == 0 {
        return Ok(());
    }
    for record in first..until {
        let from = product(record.wrapping_sub(first), width)?;
        let short = Stop::Fault("StreamShort", record, node);
        let value = bits(stream, from, width).ok_or(short)?;
        refuse_if(value > span, "ValueRange", record, node)?;
    }
    Ok(())
}

fn judge_floats(stream: &[u8], node: u64, bytes: u64, first: u64, until: u64) -> Result<(), Stop> {
    for record in first..until {
        let from = product(record.wrapping_sub(first), bytes)?;
        let short = !fits(from, bytes, stream.len() as u64);
        refuse_if(short, "StreamShort", record, node)?;
    }
    Ok(())
}

fn judge_strings(stream: &[u8], node: u64, first: u64, until: u64) -> Result<(), Stop> {
    let mut at = 0;
    for record in first..until {
        let short = Stop::Fault("StreamShort", record, node);
        let (length, begin) = string_prefix(stream, at).ok_or(short)?;
        refuse_if(length > 1 << 24, "StringLimit", record, node)?;
        if !fits(begin, length, stream.len() as u64) {
            return Err(short);
        }
        at = sum(begin, length)?;
    }
    Ok(())
}

// The length that the prefix at a place states, and where the string's bytes begin; none where the stream ends before. A
// prefix whose first byte is odd has eight bytes.
fn string_prefix(stream: &[u8], at: u64) -> Option<(u64, u64)> {
    let size: u64 = if bits(stream, at.checked_mul(8)?, 1)? == 0 {
        1
    } else {
        8
    };
    let stated = bits(stream, at.checked_mul(8)?, size.checked_mul(8)?)?;
    Some((stated / 2, at.checked_add(size)?))
}
