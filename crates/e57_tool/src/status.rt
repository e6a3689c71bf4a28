//! How a run ends.

ghost use Rattle.std.specs.Prelude.{◌≡◌};
ghost use Rattle.e57_tool.specs.Status.{code_of};

/// How a run of the program ends. `docs/COMMANDS.md` says when each comes.
#[derive(Clone, Copy, Debug, PartialEq, Eq)]
pub enum Status {
    Done,
    Refused,
    WordsFault,
    SourceFault,
    OutFault,
    Memory,
    AskRefused,
}

impl Status {
    /// The exit status of the process, from 0 to 6.
    pub fn code(&self) -> u8
        ensures { result ≡ code_of self.now }
    {
        match self {
            Status::Done => 0,
            Status::Refused => 1,
            Status::WordsFault => 2,
            Status::SourceFault => 3,
            Status::OutFault => 4,
            Status::Memory => 5,
            Status::AskRefused => 6,
        }
    }
}
