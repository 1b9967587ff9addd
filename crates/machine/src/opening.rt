// The parts of a machine before the first event.
ghost use Rattle.std.specs.Prelude.{◌≡◌, [], IfOk, length};
ghost use Rattle.machine.specs.Stands.{HostsStandFor};

use cxl_message::Setup;
use machine_agents::MachineHost;
use std::alloc::{AllocError, Global};

/// A home agent for each host, before its first event.
pub fn open_hosts(alloc: Global, setup: &Setup) -> Result<Vec<MachineHost>, AllocError>
    ensures count { IfOk result (λ hosts. length hosts.items ≡ setup.now.hosts) }
    ensures stand { IfOk result (λ hosts. HostsStandFor hosts.items setup.now []) }
{
    let mut hosts = Vec::with_capacity(alloc, setup.hosts() as usize)?;
    for host in 0..setup.hosts() {
        let agent = MachineHost::open(alloc, setup, host)?;
        hosts.push(agent)?;
    }
    Ok(hosts)
}
