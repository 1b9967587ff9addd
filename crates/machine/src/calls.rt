// What the machine tells of itself.
ghost use Rattle.std.specs.Prelude.{◌≡◌, ◌<◌, ◌≤◌, IsSome, Some, slice_get};
ghost use Rattle.coherence_model.specs.Traces.{device as the_device, events_of};
ghost use Rattle.coherence_model.specs.Weight.{flight_weight};
ghost use Rattle.coherence_model.specs.Pending.{host_pending, is_pending};
ghost use Rattle.cxl_message.specs.Setup.{stream_host};
ghost use Rattle.machine.specs.Offers.{offered, offered_by};
ghost use Rattle.device_engine.specs.Contract.{StandsFor as DeviceStandsFor};
ghost use Rattle.host_home.specs.Contract.{StandsFor as HostStandsFor};
ghost use Rattle.machine.specs.Stands.{StandsForSome, WhereStands, hosts_pending};

use crate::machine::Machine;
use cxl_message::{Cause, Event, Op, Setup};
use device_engine::DeviceAgent;
use host_home::{HostAgent, HostRefusal};
use machine_agents::{MachineDevice, MachineHost};

impl Machine {
    /// The setup of the run: the machine stands for some run of it at any time.
    pub fn setup(&self) -> &Setup
        ensures kept { result.now ≡ self.now.setup }
        ensures some { StandsForSome self.now }
        ensures same { WhereStands self.now (λ setup opening t. result.now ≡ setup) }
    {
        &self.setup
    }

    /// The number of hosts of the setup, 1 to 16. It takes no memory.
    pub fn hosts(&self) -> u8
        ensures count { result ≡ self.now.setup.hosts }
        ensures few { result ≤ 16 }
        ensures some { StandsForSome self.now }
        ensures same { WhereStands self.now (λ setup opening t. result ≡ setup.hosts) }
    {
        self.setup().hosts()
    }

    /// The home agent of a host, which is below `hosts`: it stands for its own events in the run. It takes no memory.
    pub fn host(&self, host: u8) -> &HostAgent
        requires { host < self.now.setup.hosts }
        ensures there { slice_get self.now.hosts host ≡ Some result.now }
        ensures stands { WhereStands self.now (λ setup opening t. HostStandsFor result.now setup host (events_of host t)) }
    {
        self.counted_host(host).agent()
    }

    /// The same agent, with the number of its acts.
    pub(crate) fn counted_host(&self, host: u8) -> &MachineHost
        requires { host < self.now.setup.hosts }
        ensures there { slice_get self.now.hosts host ≡ Some result.now }
        ensures stands { WhereStands self.now (λ setup opening t. HostStandsFor result.now setup host (events_of host t)) }
    {
        &self.hosts[host as usize]
    }

    /// The device: it stands for its own events in the run. It takes no memory.
    pub fn device(&self) -> &DeviceAgent
        ensures there { result.now ≡ self.now.device }
        ensures stands { WhereStands self.now (λ setup opening t. DeviceStandsFor result.now setup opening (events_of the_device t)) }
    {
        self.counted_device().agent()
    }

    /// The same, with the number of its acts.
    pub(crate) fn counted_device(&self) -> &MachineDevice
        ensures there { result.now ≡ self.now.device }
        ensures stands { WhereStands self.now (λ setup opening t. DeviceStandsFor result.now setup opening (events_of the_device t)) }
    {
        &self.device
    }

    /// Whether something is pending after the run: some line is Open, Snooped or Busy, or the device holds a Req or RwD message
    /// buffered (own rule). It takes no memory.
    pub fn pending(&self) -> bool
        ensures pending { WhereStands self.now (λ setup opening t. result ≡ is_pending setup t) }
    {
        if self.any_host_pends() {
            return true;
        }
        self.device().pending()
    }

    /// Whether some line is Open or Snooped at a host.
    fn any_host_pends(&self) -> bool
        ensures pending { WhereStands self.now (λ setup opening t. result ≡ hosts_pending setup t setup.hosts) }
    {
        for host in 0..self.hosts() {
            if self.host_pends(host) {
                return true;
            }
        }
        false
    }

    /// Whether some line is Open or Snooped at a host.
    fn host_pends(&self, host: u8) -> bool
        requires { host < self.now.setup.hosts }
        ensures pending { WhereStands self.now (λ setup opening t. result ≡ host_pending setup (events_of host t)) }
    {
        self.host(host).pending()
    }

    /// The event that a stream's next operation would be after the run, or its host's refusal: NoSuchLine, Again, NoTag, NoWay,
    /// NoCredit, Broken(P0), Broken(S0), the first of them that holds (own rule: the order). The setup has the stream. It takes no
    /// memory.
    pub fn offer(&self, stream: u8, op: &Op) -> Result<Event, HostRefusal>
        requires { IsSome (stream_host self.now.setup stream) }
        ensures offered { WhereStands self.now (λ setup opening t. result ≡ offered setup t stream op.now) }
    {
        let Some(host) = self.setup().stream_host(stream) else {
            unreachable!("the setup has the stream")
        };
        self.offer_of(host, stream, op)
    }

    /// The same, by the stream's host.
    fn offer_of(&self, host: u8, stream: u8, op: &Op) -> Result<Event, HostRefusal>
        requires { host < self.now.setup.hosts }
        ensures offered { WhereStands self.now (λ setup opening t. result ≡ offered_by setup host stream op.now (events_of host t)) }
    {
        let index = self.host(host).stream_next(stream);
        let cause = Cause::Op {
            stream,
            index,
            op: *op,
        };
        self.counted_host(host).event_of(&cause)
    }

    /// What all messages in flight add to the weight (own rule). It takes no memory.
    pub fn flight_weight(&self) -> u64
        ensures weight { WhereStands self.now (λ setup opening t. result ≡ flight_weight setup t) }
    {
        self.links.queues().weight()
    }
}
