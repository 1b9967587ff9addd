// The home agent that is timed.
use crate::turns::{Kind, push_first, setup};
use bench_events::{AgentRefusal, AgentTally, TimedAgent, step_by};
use cxl_message::Cause;
use event_room::EventRoom;
use host_home::HostAgent;
use std::alloc::{AllocError, Global};

/// A home agent, and what it does in each turn.
#[derive(Drop)]
pub struct Host {
    kind: Kind,
    agent: HostAgent,
}

impl Host {
    /// The agent before its first turn: each of its ways has a modified line.
    pub fn open(alloc: Global, kind: Kind) -> Result<Host, AgentRefusal> {
        let Ok(setup) = setup() else {
            return Err(AgentRefusal::Setup);
        };
        let agent = HostAgent::open(alloc, &setup, 0)?;
        let mut host = Host { kind, agent };
        let mut causes = Vec::new(alloc);
        push_first(&mut causes)?;
        step_by(&mut host, &causes, &mut AgentTally::new())?;
        Ok(host)
    }
}

impl TimedAgent for Host {
    fn push_turn(&self, turn: u32, causes: &mut Vec<Cause>) -> Result<(), AllocError> {
        self.kind.push_turn(turn, causes)
    }

    fn step(&mut self, cause: &Cause, room: &mut EventRoom) -> bool {
        self.agent.step_into(cause, room).is_ok()
    }
}
