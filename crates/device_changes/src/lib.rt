//! What an event of the device changes of what it keeps: `change` makes of the tables what the record of them is after
//! the event.
//!
//! Which message changes what is the project's own and no statement about the CXL standard. No call takes memory.
#![tactic(auto)]

mod accounts;
mod blocks;
mod changes;
mod tasks;
mod waiting;
mod writes;

pub use changes::change;
