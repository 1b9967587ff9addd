//! What the benchmarks share: the events that those of records go over, and what is timed and counted of an agent.
#![tactic(auto)]

mod agents;
mod laps;
mod recorded;
mod rooms;
mod samples;
mod weights;

pub use agents::{AgentRefusal, AgentTally, AgentWork};
pub use laps::{TimedAgent, run_laps, step_by};
pub use recorded::Recorded;
pub use rooms::room_of;
pub use samples::{
    answered, asked, begun, committed, conflicted, granted, group, returned, snooped, started,
    stored, written,
};
pub use weights::weight_of;
