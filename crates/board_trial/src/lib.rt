//! The board of `fabric_rule` on trial: seats of two hosts and their device mark events, from one thread and from two. That each
//! event is allowed is shown by a machine that stands for the whole run, or by the agent of the host that makes it, which stands
//! for the host's own events.
//!
//! All of it is the project's own and no statement about CXL 3.1. Only its tests stand on this crate.
#![tactic(auto)]

mod events;
mod front;
mod host;
mod marks;
mod stage;

pub use events::{ZEROS, load, loaded};
pub use marks::{Refused, mark_next, mark_own};
pub use stage::{Race, Stage};
