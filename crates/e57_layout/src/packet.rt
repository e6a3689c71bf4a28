//! The heads of packets, and the entries of an index.

/// The first four bytes of a packet (ASTM E2807, packets).
#[derive(Clone, Copy, Debug, PartialEq, Eq)]
pub struct PacketHead {
    /// The packet type: 0 is an index packet, 1 a data packet, 2 an empty packet.
    pub sort: u8,
    /// The flags. In a data packet bit 0 says that a chunk begins here.
    pub flags: u8,
    /// The packet's length in bytes, the head counted: 1 to 65536.
    pub length: u32,
}

/// The numbers of an index packet after its first four bytes (ASTM E2807, index packets).
#[derive(Clone, Copy, Debug, PartialEq, Eq)]
pub struct IndexHead {
    /// How many entries the packet has.
    pub entries: u16,
    /// The packet's level: the entries of level 0 name chunks, those above it index packets one level lower.
    pub level: u8,
}

/// An entry of an index packet (ASTM E2807, index packets).
#[derive(Clone, Copy, Debug, PartialEq, Eq)]
pub struct Entry {
    /// The first record of what stands at the offset.
    pub first: u64,
    /// The physical offset of a chunk's first packet, or of an index packet.
    pub place: u64,
}
