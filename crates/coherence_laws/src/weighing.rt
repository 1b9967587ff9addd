// The weight of a run.
ghost use Rattle.std.specs.Prelude.{◌≡◌, ◌<◌};
ghost use Rattle.coherence_model.specs.Traces.{events_of};
ghost use Rattle.coherence_model.specs.Weight.{host_weight, weight as run_weight};
ghost use Rattle.machine.specs.Stands.{WhereStands};

use machine::Machine;

/// The weight of the run that the machine stands for: what is still to be done, which each event that isn't an operation lowers (own
/// rule: the weights). It is below 2 ^ 49. It takes no memory.
pub fn weight(machine: &Machine) -> u64
    ensures { WhereStands machine.now (λ setup opening t. result ≡ run_weight setup t) }
{
    let mut total = machine.flight_weight();
    for host in 0..machine.hosts() {
        total += weight_of_host(machine, host);
    }
    total + machine.device().weight()
}

/// What a host's owed credits and buffered snoops add.
fn weight_of_host(machine: &Machine, host: u8) -> u64
    requires { host < machine.now.setup.hosts }
    ensures { WhereStands machine.now (λ setup opening t. result ≡ host_weight setup host (events_of host t)) }
{
    machine.host(host).weight()
}
