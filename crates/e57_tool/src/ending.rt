//! How a command ends.

ghost use Rattle.std.specs.Prelude.{◌≡◌, Some, None, MatchOption, MatchResult};
ghost use Rattle.e57_tool.specs.declared.ending.Ending.TheVariants.{Done, Failed};
ghost use Rattle.e57_tool.specs.Ending.{status_of, line_of, fault_status, fault_line};

use crate::lines::{Line, ask_line, refused_line, second_line, text_line};
use crate::status::Status;
use e57_base::{Fault, RunFault};

/// How a command ends. Not every command can answer each of these.
#[derive(Clone, Copy, Debug, PartialEq, Eq)]
pub enum Ending {
    /// It is done.
    Done,
    /// The file has a fault, and the line of that stands on `out`.
    RefusedOnOut,
    /// The second file has this fault.
    RefusedSecond(Fault),
    /// The file has a fault, or something failed.
    Failed(RunFault),
}

impl Ending {
    /// How a command ends that writes one file, by how that was written.
    pub fn of_writing(answer: Result<u64, RunFault>) -> Ending
        ensures { MatchResult answer (λ total. result ≡ Done) (λ fault. result ≡ Failed fault) }
    {
        match answer {
            Ok(_) => Ending::Done,
            Err(fault) => Ending::Failed(fault),
        }
    }

    /// The status of the program.
    pub fn status(&self) -> Status
        ensures { result ≡ status_of self.now }
    {
        match self {
            Ending::Done => Status::Done,
            Ending::RefusedOnOut => Status::Refused,
            Ending::RefusedSecond(_) => Status::Refused,
            Ending::Failed(fault) => fault_status(fault),
        }
    }

    /// The line on `err`, none where there is nothing to say there.
    pub fn line(&self) -> Option<Line>
        ensures { MatchOption result (line_of self.now ≡ None) (λ line. line_of self.now ≡ Some line.bytes) }
    {
        match self {
            Ending::Done => None,
            Ending::RefusedOnOut => None,
            Ending::RefusedSecond(found) => Some(second_line(found)),
            Ending::Failed(fault) => Some(fault_line(fault)),
        }
    }
}

fn fault_status(fault: &RunFault) -> Status
    ensures { result ≡ fault_status fault.now }
{
    match fault {
        RunFault::Refused(_) => Status::Refused,
        RunFault::Source => Status::SourceFault,
        RunFault::Out => Status::OutFault,
        RunFault::Memory => Status::Memory,
        RunFault::Ask(_) => Status::AskRefused,
    }
}

fn fault_line(fault: &RunFault) -> Line
    ensures { result.bytes ≡ fault_line fault.now }
{
    match fault {
        RunFault::Refused(found) => refused_line(found),
        RunFault::Source => text_line("source fault\n"),
        RunFault::Out => text_line("output fault\n"),
        RunFault::Memory => text_line("out of memory\n"),
        RunFault::Ask(why) => ask_line(why),
    }
}
