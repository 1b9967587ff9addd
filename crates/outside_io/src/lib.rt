//! Where bytes come from and go to: sources and sinks that count their faults, in memory and over std's
//! readers and writers, and the two calls that read and write a whole input.
//!
//! All of it is the project's own and no statement about the CXL standard.
#![tactic(auto)]

mod count_sink;
mod faults;
mod memory_sink;
mod memory_source;
mod sinks;
mod sources;
mod standard;
mod whole;

pub use count_sink::CountSink;
pub use faults::Failed;
pub use memory_sink::MemSink;
pub use memory_source::MemSource;
pub use sinks::Sink;
pub use sources::Source;
pub use standard::{StdSink, StdSource};
pub use whole::{ReadAllRefusal, WriteAllRefusal, read_all, write_all};

#[cfg(test)]
mod tests;
