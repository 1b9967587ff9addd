// The copies of a line.
ghost use Rattle.std.specs.Prelude.{◌≡◌, ◌<◌};
ghost use Rattle.coherence_model.specs.Cache.{copy};
ghost use Rattle.coherence_model.specs.Traces.{events_of};
ghost use Rattle.coherence_laws.specs.Laws.{copies_after};
ghost use Rattle.machine.specs.Stands.{WhereStands};

use cxl_message::{CopyState, Line, MAX_HOSTS};
use machine::Machine;

/// The copies of a line after the run that the machine stands for, by the hosts' numbers (CXL 3.1, chapter 3: the states of copies).
/// A host that the setup hasn't has I, and so has each host for a line that the setup hasn't (own rule). It takes no memory.
pub fn copies(machine: &Machine, line: Line) -> [CopyState; MAX_HOSTS as usize]
    ensures { WhereStands machine.now (λ setup opening t. result ≡ copies_after setup t line.0) }
{
    let mut states = [CopyState::I; MAX_HOSTS as usize];
    for host in 0..machine.hosts() {
        states[host as usize] = copy_at(machine, host, line);
    }
    states
}

/// The copy of a line at a host.
fn copy_at(machine: &Machine, host: u8, line: Line) -> CopyState
    requires { host < machine.now.setup.hosts }
    ensures { WhereStands machine.now (λ setup opening t. result ≡ (copy setup line.0 (events_of host t)).state) }
{
    machine.host(host).copy_of(line)
}
