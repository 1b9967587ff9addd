//! Rule P0, which each agent and the machine test first: what a cause or an event names exists in the setup, and its
//! messages are in the profile and go the right way.
#![tactic(auto)]

mod profile;

pub use profile::{cause_passes, keeps_profile};
