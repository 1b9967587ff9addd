// The next steps: how many, and the event of the one of a number.
ghost use Rattle.std.specs.Prelude.{◌≡◌, ◌<◌, ◌≤◌, Some, false, length, slice_get};
ghost use Rattle.answer_laws.specs.Answered.{agent_answer};
ghost use Rattle.coherence_model.specs.Fitting.{is_device as agent_is_device};
ghost use Rattle.coherence_model.specs.Next.{next_steps};
ghost use Rattle.coherence_model.specs.Traces.{events_of};
ghost use Rattle.machine_agents.specs.Going.{MakesAnswer};
ghost use Rattle.machine.specs.Stands.{StandsForSome, WhereStands};
ghost use Rattle.next_laws.specs.Told.{host_acts_told, takes_told};
ghost use Rattle.machine.specs.Steps.{IsChoice, host_acts_below, takes_below};

use crate::judging::is_device;
use crate::machine::Machine;
use crate::steps::Step;
use cxl_message::Event;
use event_room::EventRoom;

impl Machine {
    /// How many next steps there are after the run: the events that are allowed and aren't operations (own rule). It takes no memory.
    pub fn choices(&self) -> u32
        ensures count { WhereStands self.now (λ setup opening t. result ≡ length (next_steps setup opening t)) }
    {
        let takes = self.take_count();
        let acts = self.host_act_count();
        let device_acts = self.counted_device().act_count();
        takes + acts + device_acts
    }

    /// How many takes are next.
    pub(crate) fn take_count(&self) -> u32
        ensures count { WhereStands self.now (λ setup opening t. result ≡ length (takes_below t setup.hosts)) }
        ensures most { result ≤ 24576 }
        ensures some { StandsForSome self.now }
    {
        let mut count = 0u32;
        for host in 0..self.hosts() {
            count += self.takes_of(host);
        }
        count
    }

    /// How many takes of a host's channels are next.
    pub(crate) fn takes_of(&self, host: u8) -> u32
        requires { host < self.now.setup.hosts }
        ensures count { WhereStands self.now (λ setup opening t. result ≡ length (takes_told t host)) }
        ensures most { result ≤ 1536 }
    {
        self.links.takeable_count(host)
    }

    /// How many acts of hosts are next.
    pub(crate) fn host_act_count(&self) -> u32
        ensures count { WhereStands self.now (λ setup opening t. result ≡ length (host_acts_below setup t setup.hosts)) }
    {
        let mut count = 0u32;
        for host in 0..self.hosts() {
            count += self.acts_of(host);
        }
        count
    }

    /// How many acts of a host are next.
    pub(crate) fn acts_of(&self, host: u8) -> u32
        requires { host < self.now.setup.hosts }
        ensures count { WhereStands self.now (λ setup opening t. result ≡ length (host_acts_told setup t host)) }
    {
        self.counted_host(host).act_count()
    }

    /// The next step of a number, which is below `choices`, as an event, in the order of the next steps: takes, acts of the hosts, acts
    /// of the device (own rule). It takes no memory.
    pub fn choice(&self, k: u32) -> Event
        requires { IsChoice self.now k }
        ensures picked { WhereStands self.now (λ setup opening t. slice_get (next_steps setup opening t) k ≡ Some result) }
    {
        let Some(step) = self.step_at(k) else {
            unreachable!("the number is below the number of next steps")
        };
        let mut made = EventRoom::new();
        if !self.make(&step, &mut made) {
            unreachable!("a next step is allowed")
        }
        made.event()
    }

    /// Writes the event of a step into a room, where its agent answers with one.
    fn make(&self, step: &Step, made: &mut EventRoom) -> bool
        requires { agent_is_device step.now.agent ≡ false → step.now.agent < self.now.setup.hosts }
        ensures made { WhereStands self.now (λ setup opening t. MakesAnswer step.now.agent step.now.cause (agent_answer setup opening step.now.agent step.now.cause (events_of step.now.agent t)) result made.new) }
    {
        if is_device(step.agent) {
            self.counted_device().makes(&step.cause, made)
        } else {
            self.counted_host(step.agent).makes(&step.cause, made)
        }
    }
}
