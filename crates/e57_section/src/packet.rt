//! A buffer for a data packet.

ghost use Rattle.std.specs.Prelude.{◌≡◌, ◌<◌, ◌≤◌, None, length, get_or, [], IfSome, IfOk, IsSomeAnd};
ghost use Rattle.e57_section.specs.Streams.{most_bytes, first_stream, stream_begin as the_stream_begin};

use std::alloc::{AllocError, Global};
use std::marker::Model;

/// The most bytes of a packet.
const BYTES: usize = 65_536;

/// The most fields of a record.
const FIELDS: usize = 512;

/// The streams of a data packet, one for each field (ASTM E2807, data packets), or none where no packet is held.
#[derive(Drop)]
pub struct Packet {
    /// The packet's bytes, at the front.
    pub(crate) bytes: Vec<u8>,
    /// Where each stream ends in them.
    pub(crate) ends: Vec<u32>,
    /// How many streams there are, none where no packet is held.
    pub(crate) fields: Option<u16>,
}

impl Model for Packet {
    ghost use Rattle.std.specs.Prelude.{ℕ, List, Option};
    ghost use Rattle.e57_section.specs.Streams.{held_streams, IsBuffer};

    ghost Value = { Option (List (List ℕ)) };

    ghost view = { λ p. held_streams p.fields p.ends.items p.bytes.items };

    ghost invariant = { λ p. IsBuffer p.fields p.ends.items p.bytes.items };
}

impl Packet {
    /// A buffer that holds no packet. It takes 65,536 bytes and 512 ends, and nothing takes more later.
    pub fn new(alloc: Global) -> Result<Packet, AllocError>
        ensures { IfOk result (λ packet. packet ≡ None) }
    {
        let bytes = vec![in alloc; 0; BYTES]?;
        let ends = vec![in alloc; 0; FIELDS]?;
        Ok(Packet {
            bytes,
            ends,
            fields: None,
        })
    }

    /// The bytes of the stream of field `f`, at most 65,536. A data packet is held, and it has this field.
    pub fn stream(&self, f: u16) -> &[u8]
        requires { IsSomeAnd self.now (λ streams. f < length streams) }
        ensures few { length result.now ≤ most_bytes }
        ensures bytes { IfSome self.now (λ streams. result.now ≡ get_or streams f []) }
    {
        let f = f as usize;
        let begin = stream_begin(self.fields.unwrap_or(0), &self.ends, f);
        let end = self.ends[f] as usize;
        &self.bytes[begin..end]
    }
}

/// Where stream `f` of a packet with so many fields begins, whose streams have these ends.
fn stream_begin(fields: u16, ends: &[u32], f: usize) -> usize
    requires { f ≤ length ends.now }
    ensures { result ≡ the_stream_begin (first_stream fields) ends.now f }
{
    if f == 0 {
        6 + 2 * fields as usize
    } else {
        ends[f - 1] as usize
    }
}
