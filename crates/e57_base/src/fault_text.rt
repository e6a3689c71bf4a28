//! The faults as text, for messages and tests. The lines of commands are the program's own.

use crate::fault::{
    AskFault, Failed, Fault, OpenFault, PutFault, ReadFault, RunFault, TextFault, WriteFault,
};
use crate::kind::Kind;
use std::error::Error;
use std::fmt;

impl fmt::Display for Kind {
    fn fmt<W: fmt::Write>(&self, f: &mut fmt::Formatter<W>) -> fmt::Result {
        f.write_str(self.name())
    }
}

impl fmt::Display for Failed {
    fn fmt<W: fmt::Write>(&self, f: &mut fmt::Formatter<W>) -> fmt::Result {
        f.write_str("a call failed")
    }
}

impl Error for Failed {}

impl fmt::Display for Fault {
    fn fmt<W: fmt::Write>(&self, f: &mut fmt::Formatter<W>) -> fmt::Result {
        write!(f, "{} {} {}", self.kind, self.a, self.b)
    }
}

impl Error for Fault {}

impl fmt::Display for ReadFault {
    fn fmt<W: fmt::Write>(&self, f: &mut fmt::Formatter<W>) -> fmt::Result {
        RunFault::from(*self).fmt(f)
    }
}

impl Error for ReadFault {}

impl fmt::Display for TextFault {
    fn fmt<W: fmt::Write>(&self, f: &mut fmt::Formatter<W>) -> fmt::Result {
        OpenFault::from(*self).fmt(f)
    }
}

impl Error for TextFault {}

impl fmt::Display for OpenFault {
    fn fmt<W: fmt::Write>(&self, f: &mut fmt::Formatter<W>) -> fmt::Result {
        RunFault::from(*self).fmt(f)
    }
}

impl Error for OpenFault {}

impl fmt::Display for PutFault {
    fn fmt<W: fmt::Write>(&self, f: &mut fmt::Formatter<W>) -> fmt::Result {
        WriteFault::from(*self).fmt(f)
    }
}

impl Error for PutFault {}

impl fmt::Display for WriteFault {
    fn fmt<W: fmt::Write>(&self, f: &mut fmt::Formatter<W>) -> fmt::Result {
        RunFault::from(*self).fmt(f)
    }
}

impl Error for WriteFault {}

impl fmt::Display for AskFault {
    fn fmt<W: fmt::Write>(&self, f: &mut fmt::Formatter<W>) -> fmt::Result {
        match self {
            AskFault::Cloud { asked, have } => write!(f, "cloud {asked} {have}"),
            AskFault::Blob { asked, have } => write!(f, "blob {asked} {have}"),
            AskFault::Field { asked, have } => write!(f, "field {asked} {have}"),
            AskFault::Keep { asked, have } => write!(f, "keep {asked} {have}"),
            AskFault::NotInteger { asked, have } => write!(f, "integer {asked} {have}"),
            AskFault::Range { asked, have } => write!(f, "range {asked} {have}"),
            AskFault::Decimal { asked, have } => write!(f, "decimal {asked} {have}"),
            AskFault::Clash { asked, have } => write!(f, "clash {asked} {have}"),
            AskFault::Length { asked, have } => write!(f, "length {asked} {have}"),
            AskFault::Header { asked, have } => write!(f, "header {asked} {have}"),
            AskFault::Width { asked, have } => write!(f, "width {asked} {have}"),
            AskFault::Cell { asked, have } => write!(f, "cell {asked} {have}"),
            AskFault::Large => f.write_str("large"),
        }
    }
}

impl Error for AskFault {}

impl fmt::Display for RunFault {
    fn fmt<W: fmt::Write>(&self, f: &mut fmt::Formatter<W>) -> fmt::Result {
        match self {
            RunFault::Refused(found) => write!(f, "{found}"),
            RunFault::Source => f.write_str("the source failed"),
            RunFault::Out => f.write_str("the output failed"),
            RunFault::Memory => f.write_str("out of memory"),
            RunFault::Ask(fault) => write!(f, "{fault}"),
        }
    }
}

impl Error for RunFault {}
