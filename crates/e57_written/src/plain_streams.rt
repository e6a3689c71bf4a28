//! The streams of a field, as the plain program writes them: bit by bit.

use std::alloc::{AllocError, Global};

/// What the items of a field are.
#[derive(Clone, Copy, PartialEq, Eq)]
pub enum Kind {
    /// Integers that take so many bits, up to 64.
    Bits(u64),
    /// Numbers of so many bytes, 4 or 8.
    Bytes(u64),
    /// Strings of less than so many bytes.
    Texts(u64),
}

// A number that a field and a record settle.
fn scattered(f: u64, i: u64) -> u64 {
    let x = i.wrapping_add(1).wrapping_mul(0x9E37_79B9_7F4A_7C15);
    let y = f.wrapping_add(3).wrapping_mul(0xC2B2_AE3D_27D4_EB4F);
    let z = (x ^ y ^ (x >> 29)).wrapping_mul(0xBF58_476D_1CE4_E5B9);
    z ^ (z >> 32)
}

// Puts the lowest bits of a number behind so many bits.
fn push_bits(bytes: &mut Vec<u8>, used: u64, number: u64, count: u64) -> Result<(), AllocError> {
    for t in 0..count {
        let place = used.wrapping_add(t) % 8;
        if place == 0 {
            bytes.push(0)?;
        }
        let last = bytes.len().wrapping_sub(1);
        if let Some(byte) = bytes.get_mut(last) {
            *byte |= ((number >> (t % 64) & 1) << place) as u8;
        }
    }
    Ok(())
}

// A string: its prefix, and its bytes.
fn push_text(bytes: &mut Vec<u8>, number: u64, limit: u64) -> Result<(), AllocError> {
    let length = if number % 7 == 0 {
        0
    } else {
        number / 7 % limit.max(1)
    };
    if length <= 127 {
        bytes.push(length.wrapping_mul(2) as u8)?;
    } else {
        bytes.extend_from_slice(&length.wrapping_mul(2).wrapping_add(1).to_le_bytes())?;
    }
    for j in 0..length {
        bytes.push(((number >> 8).wrapping_add(j) % 256) as u8)?;
    }
    Ok(())
}

/// The integer of field f and record i, in so many bits and with this least value.
pub fn integer(width: u64, low: i64, f: u64, i: u64) -> i64 {
    let number = scattered(f, i);
    let kept = if width < 64 {
        number & (1u64 << (width % 64)).wrapping_sub(1)
    } else {
        number
    };
    low.wrapping_add(i64::from_le_bytes(kept.to_le_bytes()))
}

/// The bytes of field f over these records.
pub fn stream(alloc: Global, kind: Kind, f: u64, records: &[u64]) -> Result<Vec<u8>, AllocError> {
    let mut bytes = Vec::new(alloc);
    let mut used = 0;
    for i in records {
        let number = scattered(f, *i);
        match kind {
            Kind::Bits(width) => {
                push_bits(&mut bytes, used, number, width)?;
                used = width.wrapping_add(used);
            }
            Kind::Bytes(size) => {
                for byte in number.to_le_bytes().iter().take(size as usize) {
                    bytes.push(*byte)?;
                }
            }
            Kind::Texts(limit) => push_text(&mut bytes, number, limit)?,
        }
    }
    Ok(bytes)
}
