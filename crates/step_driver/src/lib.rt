//! The driving of scripts: the trace that a script's picks choose, written as it is driven, and what it has of operations, events
//! and messages.
//!
//! The order of choices and the picks are this project's own and no statement about the CXL standard.
#![tactic(auto)]

mod asking;
mod choosing;
mod driving;
mod going;
mod journals;
mod putting;
mod refusals;
mod schedules;
mod summary;
mod table;
mod turns;
mod versions;

pub use driving::{drive, drive_within};
pub use refusals::DriveRefusal;
pub use summary::Summary;
pub use versions::{trace_version, writer_for};
