//! The acts that a host's rows allow, counted and picked without a list of them, and what a host adds to the weight (own rule).
#![tactic(auto)]

mod counting;
mod weighing;

pub use counting::{act_at, act_count};
pub use weighing::weight;
