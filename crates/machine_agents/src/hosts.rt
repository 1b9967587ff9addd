// A home agent of a machine.
ghost use Rattle.std.specs.Prelude.{◌≡◌, ◌<◌, [], IfOk, false};
ghost use Rattle.coherence_model.specs.Refusals.{host_answer};
ghost use Rattle.host_home.specs.Contract.{StandsFor, WhereStands};
ghost use Rattle.host_rows.specs.Answers.{as_result};
ghost use Rattle.machine_agents.specs.Going.{HasHostActs, HostFollows, HostPerforms, MakesAnswer, as_event};

use cxl_message::{Cause, Event, Setup};
use event_room::EventRoom;
use host_home::{HostAgent, HostRefusal};
use std::alloc::{AllocError, Global};
use std::marker::Model;

/// A home agent, and how many of its acts are next. A contract sees the agent.
#[derive(Drop)]
pub struct MachineHost {
    agent: HostAgent,
    acts: u32,
}

impl Model for MachineHost {
    ghost use Rattle.host_tables.specs.Agent.{AgentRecord};
    ghost use Rattle.machine_agents.specs.Going.{HasHostActs};

    ghost Value = { AgentRecord };

    ghost view = { λ h. h.agent };

    ghost invariant = { λ h. HasHostActs h.agent h.acts };
}

impl MachineHost {
    /// The agent of a host, below the setup's hosts, before its first event. `Err` is want of memory.
    pub fn open(alloc: Global, setup: &Setup, host: u8) -> Result<MachineHost, AllocError>
        requires { host < setup.now.hosts }
        ensures stands { IfOk result (λ agent. StandsFor agent setup.now host []) }
    {
        let agent = HostAgent::open(alloc, setup, host)?;
        let acts = agent.act_count();
        Ok(MachineHost { agent, acts })
    }

    /// The home agent.
    pub fn agent(&self) -> &HostAgent
        ensures { result.now ≡ self.now }
    {
        &self.agent
    }

    /// How many acts are next.
    pub fn act_count(&self) -> u32
        ensures { HasHostActs self.now result }
    {
        self.acts
    }

    /// The event that a cause would be, or the host's refusal.
    pub fn event_of(&self, cause: &Cause) -> Result<Event, HostRefusal>
        ensures answer { WhereStands self.now (λ setup h mine. result ≡ as_event h cause.now (as_result (host_answer setup h cause.now mine))) }
    {
        let mut made = EventRoom::new();
        match self.agent.would_into(cause, &mut made) {
            Ok(()) => Ok(made.event()),
            Err(refusal) => Err(refusal),
        }
    }

    /// Writes the event of a cause into a room, where the host answers with one.
    pub fn makes(&self, cause: &Cause, made: &mut EventRoom) -> bool
        ensures answer { WhereStands self.now (λ setup h mine. MakesAnswer h cause.now (host_answer setup h cause.now mine) result made.new) }
    {
        match self.agent.would_into(cause, made) {
            Ok(()) => true,
            Err(_) => false,
        }
    }

    /// Performs a cause, where the host answers with an event, which is written into the room.
    pub fn perform(&mut self, cause: &Cause, made: &mut EventRoom)
        ensures { HostPerforms self.old self.new cause.now made.new }
    {
        let _answer = self.agent.step_into(cause, made);
        self.acts = self.agent.act_count();
    }

    /// Makes the event in a room, where it is what the host answers to its cause; else nothing changes. The room `made` is written over.
    pub fn follow(&mut self, cause: &Cause, event: &EventRoom, made: &mut EventRoom) -> bool
        ensures follows { HostFollows self.old self.new cause.now event.now result }
        ensures refused { result ≡ false → self.new ≡ self.old }
    {
        let follows = self.agent.step_as(cause, event, made);
        if follows {
            self.acts = self.agent.act_count();
        }
        follows
    }
}
