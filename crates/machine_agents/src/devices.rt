// The device of a machine.
ghost use Rattle.std.specs.Prelude.{◌≡◌, ◌↔◌, [], Err, IfOk, false};
ghost use Rattle.cxl_message.specs.Opening.{opening_fits};
ghost use Rattle.coherence_model.specs.Refusals.{device_answer};
ghost use Rattle.coherence_model.specs.Traces.{device};
ghost use Rattle.device_engine.specs.Contract.{StandsFor, WhereStands};
ghost use Rattle.device_engine.specs.declared.answers.OpenDeviceRefusal.{OpenDeviceRefusal as Refused};
ghost use Rattle.machine_agents.specs.Going.{DeviceFollows, DevicePerforms, HasDeviceActs, MakesAnswer};

use cxl_message::{Cause, Opening, Setup};
use device_engine::{DeviceAgent, OpenDeviceRefusal};
use event_room::EventRoom;
use std::alloc::Global;
use std::marker::Model;

/// The device agent, and how many of its acts are next. A contract sees the agent.
#[derive(Drop)]
pub struct MachineDevice {
    agent: DeviceAgent,
    acts: u32,
}

impl Model for MachineDevice {
    ghost use Rattle.device_state.specs.Agent.{AgentRecord};
    ghost use Rattle.machine_agents.specs.Going.{HasDeviceActs};

    ghost Value = { AgentRecord };

    ghost view = { λ d. d.agent };

    ghost invariant = { λ d. HasDeviceActs d.agent d.acts };
}

impl MachineDevice {
    /// The device before its first event, with memory as the opening has it. `BadOpening` is answered exactly where the opening names a line
    /// that the setup hasn't; any other refusal is want of memory.
    pub fn open(
        alloc: Global,
        setup: &Setup,
        opening: &Opening,
    ) -> Result<MachineDevice, OpenDeviceRefusal>
        ensures bad_opening { (result ≡ Err Refused.BadOpening) ↔ (opening_fits setup.now.lines opening.now ≡ false) }
        ensures stands { IfOk result (λ agent. StandsFor agent setup.now opening.now []) }
    {
        match DeviceAgent::open(alloc, setup, opening) {
            Ok(agent) => {
                let acts = agent.act_count();
                Ok(MachineDevice { agent, acts })
            }
            Err(refusal) => Err(refusal),
        }
    }

    /// The device agent.
    pub fn agent(&self) -> &DeviceAgent
        ensures { result.now ≡ self.now }
    {
        &self.agent
    }

    /// How many acts are next.
    pub fn act_count(&self) -> u32
        ensures { HasDeviceActs self.now result }
    {
        self.acts
    }

    /// Writes the event of a cause into a room, where the device answers with one.
    pub fn makes(&self, cause: &Cause, made: &mut EventRoom) -> bool
        ensures answer { WhereStands self.now (λ setup opening mine. MakesAnswer device cause.now (device_answer setup opening cause.now mine) result made.new) }
    {
        match self.agent.would_into(cause, made) {
            Ok(()) => true,
            Err(_) => false,
        }
    }

    /// Performs a cause, where the device answers with an event, which is written into the room.
    pub fn perform(&mut self, cause: &Cause, made: &mut EventRoom)
        ensures { DevicePerforms self.old self.new cause.now made.new }
    {
        let _answer = self.agent.step_into(cause, made);
        self.acts = self.agent.act_count();
    }

    /// Makes the event in a room, where it is what the device answers to its cause; else nothing changes. The room `made` is written over.
    pub fn follow(&mut self, cause: &Cause, event: &EventRoom, made: &mut EventRoom) -> bool
        ensures follows { DeviceFollows self.old self.new cause.now event.now result }
        ensures refused { result ≡ false → self.new ≡ self.old }
    {
        let follows = self.agent.step_as(cause, event, made);
        if follows {
            self.acts = self.agent.act_count();
        }
        follows
    }
}
