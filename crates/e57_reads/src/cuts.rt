//! Streams that are cut into packets.

use crate::made::add_packet;
use std::alloc::{AllocError, Global};

// An empty packet.
const EMPTY: &[u8] = b"\x02\0\x03\0";

/// Bytes with no pattern of a few bytes.
pub fn mixed(alloc: Global, count: usize) -> Result<Vec<u8>, AllocError> {
    let mut bytes = Vec::new(alloc);
    for i in 0..count {
        bytes.push((i % 251 * 167 % 256) as u8 ^ (i / 251 % 256) as u8)?;
    }
    Ok(bytes)
}

/// The packets of a stream that is cut after every `size` bytes. Where that is 0, it is cut into pieces of 1 to 9 bytes in turn,
/// and behind each of them stand a packet with no byte of the stream and an empty packet.
pub fn cut(alloc: Global, stream: &[u8], size: usize) -> Result<Vec<u8>, AllocError> {
    let mut packets = b"".to_vec(alloc)?;
    if size == 0 {
        add_uneven(&mut packets, stream)?;
    } else {
        for piece in stream.chunks(size) {
            add_packet(&mut packets, false, &[piece])?;
        }
    }
    Ok(packets)
}

fn add_uneven(packets: &mut Vec<u8>, stream: &[u8]) -> Result<(), AllocError> {
    let mut rest = stream;
    for k in 0..stream.len() {
        let (piece, more) = rest.split_at((k % 9 + 1).min(rest.len()));
        if !piece.is_empty() {
            add_packet(packets, false, &[piece])?;
            add_packet(packets, false, &[b""])?;
            packets.extend_from_slice(EMPTY)?;
        }
        rest = more;
    }
    Ok(())
}
