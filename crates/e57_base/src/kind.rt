//! The kinds of faults, by name and number.

ghost use Rattle.std.specs.Prelude.{◌≡◌};
ghost use Rattle.e57_base.specs.Kind.{kind_name, kind_number};

/// A kind of fault. `docs/FORMAT.md` says when each comes.
#[derive(Clone, Copy, Debug, PartialEq, Eq)]
pub enum Kind {
    FileLength,
    Signature,
    Version,
    PageSize,
    Page,
    XmlPlace,
    XmlLimit,
    XmlUtf8,
    Piece,
    Nest,
    TreeLimit,
    NodeType,
    NodeAttr,
    NodeChild,
    NodeName,
    Codecs,
    Prototype,
    FieldCount,
    Limits,
    RecordLimit,
    SectionPlace,
    SectionId,
    DataPlace,
    PacketLength,
    PacketType,
    DataShape,
    IndexShape,
    IndexOrder,
    IndexTarget,
    RestartUnindexed,
    StreamShort,
    ValueRange,
    StringLimit,
    BlobPlace,
    BlobId,
}

impl Kind {
    /// The kind's name, as output has it.
    pub fn name(&self) -> &'static str
        ensures { result.now ≡ kind_name self.now }
    {
        match self {
            Kind::FileLength => "FileLength",
            Kind::Signature => "Signature",
            Kind::Version => "Version",
            Kind::PageSize => "PageSize",
            Kind::Page => "Page",
            Kind::XmlPlace => "XmlPlace",
            Kind::XmlLimit => "XmlLimit",
            Kind::XmlUtf8 => "XmlUtf8",
            Kind::Piece => "Piece",
            Kind::Nest => "Nest",
            Kind::TreeLimit => "TreeLimit",
            Kind::NodeType => "NodeType",
            Kind::NodeAttr => "NodeAttr",
            Kind::NodeChild => "NodeChild",
            Kind::NodeName => "NodeName",
            Kind::Codecs => "Codecs",
            Kind::Prototype => "Prototype",
            Kind::FieldCount => "FieldCount",
            Kind::Limits => "Limits",
            Kind::RecordLimit => "RecordLimit",
            Kind::SectionPlace => "SectionPlace",
            Kind::SectionId => "SectionId",
            Kind::DataPlace => "DataPlace",
            Kind::PacketLength => "PacketLength",
            Kind::PacketType => "PacketType",
            Kind::DataShape => "DataShape",
            Kind::IndexShape => "IndexShape",
            Kind::IndexOrder => "IndexOrder",
            Kind::IndexTarget => "IndexTarget",
            Kind::RestartUnindexed => "RestartUnindexed",
            Kind::StreamShort => "StreamShort",
            Kind::ValueRange => "ValueRange",
            Kind::StringLimit => "StringLimit",
            Kind::BlobPlace => "BlobPlace",
            Kind::BlobId => "BlobId",
        }
    }

    /// The kind's number, from 1 to 35.
    pub fn number(&self) -> u8
        ensures { result ≡ kind_number self.now }
    {
        match self {
            Kind::FileLength => 1,
            Kind::Signature => 2,
            Kind::Version => 3,
            Kind::PageSize => 4,
            Kind::Page => 5,
            Kind::XmlPlace => 6,
            Kind::XmlLimit => 7,
            Kind::XmlUtf8 => 8,
            Kind::Piece => 9,
            Kind::Nest => 10,
            Kind::TreeLimit => 11,
            Kind::NodeType => 12,
            Kind::NodeAttr => 13,
            Kind::NodeChild => 14,
            Kind::NodeName => 15,
            Kind::Codecs => 16,
            Kind::Prototype => 17,
            Kind::FieldCount => 18,
            Kind::Limits => 19,
            Kind::RecordLimit => 20,
            Kind::SectionPlace => 21,
            Kind::SectionId => 22,
            Kind::DataPlace => 23,
            Kind::PacketLength => 24,
            Kind::PacketType => 25,
            Kind::DataShape => 26,
            Kind::IndexShape => 27,
            Kind::IndexOrder => 28,
            Kind::IndexTarget => 29,
            Kind::RestartUnindexed => 30,
            Kind::StreamShort => 31,
            Kind::ValueRange => 32,
            Kind::StringLimit => 33,
            Kind::BlobPlace => 34,
            Kind::BlobId => 35,
        }
    }
}
