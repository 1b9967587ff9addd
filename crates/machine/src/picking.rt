// The agent and the cause of the next step of a number.
ghost use Rattle.std.specs.Prelude.{◌≡◌, ◌<◌, option_map, slice_get};
ghost use Rattle.coherence_model.specs.Next.{receiver as receiver_of};
ghost use Rattle.machine.specs.Stands.{StandsForSome, WhereStands};
ghost use Rattle.machine.specs.Steps.{host_acts_below, parts_of, takes_below};
ghost use Rattle.next_laws.specs.Told.{act_told, device_acts_told, host_acts_told, steps_told, takes_told};

use crate::machine::Machine;
use crate::steps::Step;
use cxl_message::{Act, Cause, Channel, DEVICE};

impl Machine {
    /// The next step of a number, in their order: takes, acts of the hosts, acts of the device; `None` exactly where there is none.
    pub(crate) fn step_at(&self, k: u32) -> Option<Step>
        ensures step { WhereStands self.now (λ setup opening t. option_map parts_of result ≡ slice_get (steps_told setup opening t) k) }
        ensures some { StandsForSome self.now }
    {
        let takes = self.take_count();
        if k < takes {
            return self.take_at(k);
        }
        let acts = self.host_act_count();
        let past = k - takes;
        if past < acts {
            return self.host_act_at(past);
        }
        self.device_act_at(past - acts)
    }

    /// The take of a number among those of all hosts.
    fn take_at(&self, k: u32) -> Option<Step>
        ensures step { WhereStands self.now (λ setup opening t. option_map parts_of result ≡ slice_get (takes_below t setup.hosts) k) }
    {
        let mut left = k;
        for host in 0..self.hosts() {
            let count = self.takes_of(host);
            if left < count {
                return self.take_of(host, left);
            }
            left -= count;
        }
        None
    }

    /// The take of a number among those of a host's channels.
    fn take_of(&self, host: u8, k: u32) -> Option<Step>
        requires { host < self.now.setup.hosts }
        ensures step { WhereStands self.now (λ setup opening t. option_map parts_of result ≡ slice_get (takes_told t host) k) }
    {
        let message = match self.links.queues().takeable_at(host, k) {
            Some(message) => message.message(),
            None => return None,
        };
        Some(Step {
            agent: receiver(host, message.channel()),
            cause: Cause::Take { host, message },
        })
    }

    /// The act of a number among those of all hosts.
    fn host_act_at(&self, k: u32) -> Option<Step>
        ensures step { WhereStands self.now (λ setup opening t. option_map parts_of result ≡ slice_get (host_acts_below setup t setup.hosts) k) }
    {
        let mut left = k;
        for host in 0..self.hosts() {
            let count = self.acts_of(host);
            if left < count {
                return self.act_of(host, left);
            }
            left -= count;
        }
        None
    }

    /// The act of a host with a number.
    fn act_of(&self, host: u8, k: u32) -> Option<Step>
        requires { host < self.now.setup.hosts }
        ensures step { WhereStands self.now (λ setup opening t. option_map parts_of result ≡ slice_get (host_acts_told setup t host) k) }
    {
        match self.host(host).act_at(k) {
            Some(act) => Some(acting(host, act)),
            None => None,
        }
    }

    /// The act of the device with a number.
    fn device_act_at(&self, k: u32) -> Option<Step>
        ensures step { WhereStands self.now (λ setup opening t. option_map parts_of result ≡ slice_get (device_acts_told setup opening t) k) }
    {
        match self.device().act_at(k) {
            Some(act) => Some(acting(DEVICE, act)),
            None => None,
        }
    }
}

/// The step of an act.
fn acting(agent: u8, act: Act) -> Step
    ensures { parts_of result ≡ act_told agent act }
{
    Step {
        agent,
        cause: Cause::Act(act),
    }
}

/// The agent that takes from a host's channel.
fn receiver(host: u8, channel: Channel) -> u8
    ensures { result ≡ receiver_of host channel }
{
    if channel.goes_to_device() {
        DEVICE
    } else {
        host
    }
}
