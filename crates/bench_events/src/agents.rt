// What is timed of an agent, what a run of it went over, and why a run ends early.
use crate::weights::weight_of;
use event_room::EventRoom;
use std::alloc::{AllocError, AllocFailed};
use thiserror::Error;

/// What is timed of an agent.
#[derive(Clone, Copy, PartialEq, Eq, Debug)]
pub enum AgentWork {
    /// Only the causes are made.
    Causes,
    /// The causes are made, and the agent steps by them.
    Step,
    /// The events of the first lap are encoded.
    Encode,
}

impl AgentWork {
    /// The work of this name.
    pub fn named(name: &str) -> Option<AgentWork> {
        match name {
            "causes" => Some(AgentWork::Causes),
            "step" => Some(AgentWork::Step),
            "encode" => Some(AgentWork::Encode),
            _ => None,
        }
    }
}

/// What a run of an agent went over. The weight stands for what a reader takes from the events that were made.
#[derive(Clone, Copy, PartialEq, Eq, Debug)]
pub struct AgentTally {
    pub events: u64,
    pub bytes: u64,
    pub weight: u64,
}

impl AgentTally {
    /// Nothing yet.
    pub fn new() -> AgentTally {
        AgentTally {
            events: 0,
            bytes: 0,
            weight: 0,
        }
    }

    /// Counts an event that was made, and weighs it.
    pub fn add_event(&mut self, event: &EventRoom) {
        self.events = self.events.wrapping_add(1);
        self.weight = self.weight.wrapping_add(weight_of(event));
    }

    /// Counts so many events that were encoded into so many bytes.
    pub fn add_records(&mut self, events: usize, bytes: usize) {
        self.events = self.events.wrapping_add(events as u64);
        self.bytes = self.bytes.wrapping_add(bytes as u64);
    }
}

/// Why a run of an agent ends early.
#[derive(Clone, Copy, PartialEq, Eq, Debug, Error)]
pub enum AgentRefusal {
    /// The numbers of the agent's setup are outside their limits.
    #[error("there is no such setup")]
    Setup,
    /// The agent refuses the cause at this place of a list, counted from 0.
    #[error("the agent refuses cause {0} of its list")]
    Refused(usize),
    /// The event of the cause at this place of the first lap, counted from 0, has no record.
    #[error("the event of cause {0} has no record")]
    Unrecorded(usize),
    /// There is no memory.
    #[error("memory")]
    Memory,
}

impl From<AllocError> for AgentRefusal {
    fn from(_error: AllocError) -> AgentRefusal {
        AgentRefusal::Memory
    }
}

impl<T: Drop> From<AllocFailed<T>> for AgentRefusal {
    fn from(_error: AllocFailed<T>) -> AgentRefusal {
        AgentRefusal::Memory
    }
}
