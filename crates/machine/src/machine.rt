// The machine, and what it is opened with.
ghost use Rattle.std.specs.Prelude.{◌≡◌, ◌↔◌, [], Err, IfOk, false};
ghost use Rattle.cxl_message.specs.Opening.{opening_fits};
ghost use Rattle.machine.specs.Stands.{StandsFor};

use crate::opening::open_hosts;
use crate::refusals::OpenMachineRefusal;
use cxl_message::{Opening, Setup};
use device_engine::OpenDeviceRefusal;
use link_queues::CountedLinks;
use machine_agents::{MachineDevice, MachineHost};
use std::alloc::Global;
use std::marker::Model;

/// The coherence machine of a setup: its home agents, its device and the messages in flight between them (own rule).
///
/// A contract sees these parts, and speaks of each run that they stand for. Only `open` takes memory.
#[derive(Drop)]
pub struct Machine {
    pub(crate) setup: Setup,
    pub(crate) hosts: Vec<MachineHost>,
    pub(crate) device: MachineDevice,
    pub(crate) links: CountedLinks,
}

impl Model for Machine {
    ghost use Rattle.machine.specs.Stands.{MachineRecord, StandsForSome};

    ghost Value = { MachineRecord };

    ghost view = { λ m. record { setup = m.setup; hosts = m.hosts.items; device = m.device; links = m.links } };

    ghost invariant = { λ m. StandsForSome (record { setup = m.setup; hosts = m.hosts.items; device = m.device; links = m.links }) };
}

impl Machine {
    /// The machine of a setup and an opening before the first event: it stands for the empty run. `BadOpening` is answered exactly
    /// where the opening names a line that the setup hasn't; any other refusal is want of memory, which is all taken here.
    pub fn open(
        alloc: Global,
        setup: &Setup,
        opening: &Opening,
    ) -> Result<Machine, OpenMachineRefusal>
        ensures bad_opening { (result ≡ Err OpenMachineRefusal.BadOpening) ↔ (opening_fits setup.now.lines opening.now ≡ false) }
        ensures stands { IfOk result (λ machine. StandsFor machine setup.now opening.now []) }
    {
        let device = match MachineDevice::open(alloc, setup, opening) {
            Ok(device) => device,
            Err(OpenDeviceRefusal::BadOpening) => return Err(OpenMachineRefusal::BadOpening),
            Err(OpenDeviceRefusal::Memory) => return Err(OpenMachineRefusal::Memory),
        };
        let Ok(hosts) = open_hosts(alloc, setup) else {
            return Err(OpenMachineRefusal::Memory);
        };
        let Ok(links) = CountedLinks::open(alloc, setup) else {
            return Err(OpenMachineRefusal::Memory);
        };
        let _within = setup.hosts();
        Ok(Machine {
            setup: *setup,
            hosts,
            device,
            links,
        })
    }
}
