//! A fault of a file with its two numbers, and how calls fail.

use crate::kind::Kind;

/// A call of a source, a target or a sink failed. Its count of faults rose.
#[derive(Clone, Copy, Debug, PartialEq, Eq)]
pub struct Failed;

/// The first fault of a file: its kind, and two numbers that `docs/FORMAT.md` names for each kind.
#[derive(Clone, Copy, Debug, PartialEq, Eq)]
pub struct Fault {
    pub kind: Kind,
    pub a: u64,
    pub b: u64,
}

impl Fault {
    ghost use Rattle.std.specs.Prelude.{◌≡◌};
    ghost use Rattle.e57_base.specs.Fault.{fault};

    /// The fault of this kind with these two numbers.
    pub fn new(kind: Kind, a: u64, b: u64) -> Fault
        ensures { result ≡ fault kind a b }
    {
        Fault { kind, a, b }
    }
}

/// How a read of a file's pages fails.
#[derive(Clone, Copy, Debug, PartialEq, Eq)]
pub enum ReadFault {
    /// The file has this fault.
    Refused(Fault),
    /// The source failed.
    Source,
}

/// How the reading of a text in memory fails.
#[derive(Clone, Copy, Debug, PartialEq, Eq)]
pub enum TextFault {
    /// The text has this fault.
    Refused(Fault),
    /// Memory ran out.
    Memory,
}

/// How a call that reads pages and takes memory fails.
#[derive(Clone, Copy, Debug, PartialEq, Eq)]
pub enum OpenFault {
    /// The file has this fault.
    Refused(Fault),
    /// The source failed.
    Source,
    /// Memory ran out.
    Memory,
}

/// How a write of pages fails.
#[derive(Clone, Copy, Debug, PartialEq, Eq)]
pub enum PutFault {
    /// The target failed.
    Target,
    /// The file would pass the format's limit.
    Large,
}

/// How a call that writes pages and takes memory fails.
#[derive(Clone, Copy, Debug, PartialEq, Eq)]
pub enum WriteFault {
    /// The target failed.
    Target,
    /// The file would pass the format's limit.
    Large,
    /// Memory ran out.
    Memory,
}

/// Why a file doesn't have what was asked for of it. `asked` is the number that was asked for, or the place of what is
/// at fault; `have` is how many there are, or the limit.
#[derive(Clone, Copy, Debug, PartialEq, Eq)]
pub enum AskFault {
    /// The file has fewer clouds.
    Cloud { asked: u64, have: u64 },
    /// The file has fewer blobs.
    Blob { asked: u64, have: u64 },
    /// The cloud has fewer fields.
    Field { asked: u64, have: u64 },
    /// The field of a test isn't among the cloud's fields.
    Keep { asked: u64, have: u64 },
    /// The field of a test has no integers.
    NotInteger { asked: u64, have: u64 },
    /// The cloud has fewer records.
    Range { asked: u64, have: u64 },
    /// The field's scale or offset is no decimal number that can be computed with.
    Decimal { asked: u64, have: u64 },
    /// The two files can't be joined.
    Clash { asked: u64, have: u64 },
    /// The file is too long.
    Length { asked: u64, have: u64 },
    /// The first row isn't the list of names.
    Header { asked: u64, have: u64 },
    /// A row has another number of cells than there are columns.
    Width { asked: u64, have: u64 },
    /// A cell isn't of its column's form.
    Cell { asked: u64, have: u64 },
    /// The new file would pass the format's limit.
    Large,
}

/// How a command of the program fails.
#[derive(Clone, Copy, Debug, PartialEq, Eq)]
pub enum RunFault {
    /// The file has this fault.
    Refused(Fault),
    /// The source failed.
    Source,
    /// The target or a sink failed.
    Out,
    /// Memory ran out.
    Memory,
    /// What was asked for can't be had of the file.
    Ask(AskFault),
}
