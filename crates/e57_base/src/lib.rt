//! What every other crate stands on: the faults of a file and the failures of calls, the traits for what lies
//! outside (a source, a target, a sink), the objects in memory that meet them, and owned byte texts.
#![tactic(auto)]

mod bytes_source;
mod calls;
mod fault;
mod fault_from;
mod fault_text;
mod files;
mod kind;
mod mem_sink;
mod mem_source;
mod mem_target;
mod octets;
mod overwrite;
mod page;
mod sink;
mod source;
mod target;

pub use bytes_source::BytesSource;
pub use fault::{
    AskFault, Failed, Fault, OpenFault, PutFault, ReadFault, RunFault, TextFault, WriteFault,
};
pub use kind::Kind;
pub use mem_sink::MemSink;
pub use mem_source::MemSource;
pub use mem_target::MemTarget;
pub use octets::Octets;
pub use sink::Sink;
pub use source::Source;
pub use target::Target;

#[cfg(test)]
mod tests;
