//! What the device keeps beside its lines and its filter: its tasks, and of each host its buffered Req messages and what
//! is counted of its channels.
//!
//! A contract sees each as `device_record` has it. All of it is the project's own and no statement about the CXL
//! standard. No call but `open` takes memory.
#![tactic(auto)]

mod credits;
mod tasks;
mod waiting;

pub use credits::HostCredits;
pub use tasks::{Task, TaskKind, Tasks};
pub use waiting::{Progress, Requests, Waiting};
