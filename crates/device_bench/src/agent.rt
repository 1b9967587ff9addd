// The device that is timed.
use crate::turns::{Kind, push_first};
use bench_events::{AgentRefusal, AgentTally, TimedAgent, step_by};
use cxl_message::{Cause, Opening, Setup};
use device_engine::DeviceAgent;
use event_room::EventRoom;
use std::alloc::{AllocError, Global};

/// A device, and what it does in each turn.
#[derive(Drop)]
pub struct Device {
    kind: Kind,
    setup: Setup,
    agent: DeviceAgent,
}

impl Device {
    /// The device before its first turn: its filter is full.
    pub fn open(alloc: Global, kind: Kind, setup: Setup) -> Result<Device, AgentRefusal> {
        let opening = Opening::new(alloc);
        let Ok(agent) = DeviceAgent::open(alloc, &setup, &opening) else {
            return Err(AgentRefusal::Memory);
        };
        let mut causes = Vec::new(alloc);
        push_first(&setup, &mut causes)?;
        let mut device = Device { kind, setup, agent };
        step_by(&mut device, &causes, &mut AgentTally::new())?;
        Ok(device)
    }
}

impl TimedAgent for Device {
    fn push_turn(&self, turn: u32, causes: &mut Vec<Cause>) -> Result<(), AllocError> {
        self.kind.push_turn(&self.setup, turn, causes)
    }

    fn step(&mut self, cause: &Cause, room: &mut EventRoom) -> bool {
        self.agent.step_into(cause, room).is_ok()
    }
}
