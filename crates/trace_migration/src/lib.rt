//! Migration of traces: the trace of either version that some bytes are becomes the trace of version 2 with the same setup,
//! names, opening and events.
//!
//! Every byte of a trace is this project's own and no statement about the CXL standard.
#![tactic(auto)]

mod heads;
mod laws;
mod migrating;
mod putting;
mod refusals;
mod surveys;
mod walks;

pub use laws::{
    each_trace_is_migrated, faults_are_not_migrated, migrated_is_a_trace, migrated_stays,
};
pub use migrating::migrate;
pub use refusals::MigrateRefusal;
