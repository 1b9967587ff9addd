//! The acts that are allowed at the device, by what it keeps: by number and counted, what is pending, and what it adds to
//! the weight.
#![tactic(auto)]

mod acts;
mod allowed;
mod counts;
mod searching;
mod sections;
mod weighing;

pub use acts::{act_at, act_count};
pub use counts::pending;
pub use weighing::weight;
