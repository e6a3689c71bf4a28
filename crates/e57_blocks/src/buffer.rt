//! Where items are kept.

ghost use Rattle.std.specs.Prelude.{◌≡◌, IfOk};
ghost use Rattle.e57_layout.specs.Values.{item_kind};
ghost use Rattle.e57_blocks.specs.Block.{places_of, room_of, first_room, IsFor};

use e57_base::Fault;
use e57_layout::{Field, FieldKind};
use std::alloc::{AllocError, Global};

/// The bytes of strings that a new buffer has room for.
const ROOM: usize = 65_536;

/// Items of one field, in a row.
#[derive(Drop)]
pub enum Buffer {
    /// Integers, scaled or not.
    Ints(Vec<i64>),
    /// Floating point numbers of 32 bits, as words.
    Bits32(Vec<u32>),
    /// Floating point numbers of 64 bits, as words.
    Bits64(Vec<u64>),
    /// Strings.
    Texts(Texts),
}

/// Strings, one behind another.
#[derive(Drop)]
pub struct Texts {
    /// Their bytes, at the front.
    pub bytes: Vec<u8>,
    /// Where each of them ends in the bytes.
    pub ends: Vec<u64>,
}

/// What was read into a buffer.
#[derive(Clone, Copy, Debug, PartialEq, Eq)]
pub struct Got {
    /// How many items.
    pub count: usize,
    /// The fault of the item behind them, if it has one.
    pub fault: Option<Fault>,
}

/// A buffer for so many items of a field.
pub fn new_buffer(alloc: Global, field: &Field, places: usize) -> Result<Buffer, AllocError>
    ensures kind { IfOk result (λ buffer. IsFor buffer (item_kind field.now.kind)) }
    ensures places { IfOk result (λ buffer. places_of buffer ≡ places) }
    ensures room { IfOk result (λ buffer. room_of buffer ≡ first_room (item_kind field.now.kind)) }
{
    match field.kind {
        FieldKind::Int { .. } => Ok(Buffer::Ints(vec![in alloc; 0; places]?)),
        FieldKind::Scaled { .. } => Ok(Buffer::Ints(vec![in alloc; 0; places]?)),
        FieldKind::Bits32 => Ok(Buffer::Bits32(vec![in alloc; 0; places]?)),
        FieldKind::Bits64 => Ok(Buffer::Bits64(vec![in alloc; 0; places]?)),
        FieldKind::Text => {
            let bytes = vec![in alloc; 0; ROOM]?;
            let ends = vec![in alloc; 0; places]?;
            Ok(Buffer::Texts(Texts { bytes, ends }))
        }
    }
}

/// How many items there are places for.
pub fn places(buffer: &Buffer) -> usize
    ensures { result ≡ places_of buffer.now }
{
    match buffer {
        Buffer::Ints(items) => items.len(),
        Buffer::Bits32(items) => items.len(),
        Buffer::Bits64(items) => items.len(),
        Buffer::Texts(texts) => texts.ends.len(),
    }
}
