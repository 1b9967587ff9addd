// The steps of a host among the hosts.
ghost use Rattle.std.specs.Prelude.{◌≡◌, ◌<◌, Some, false, length, slice_get, ℕ};
ghost use Rattle.host_tables.specs.Agent.{AgentRecord as HostRecord};
ghost use Rattle.machine_agents.specs.Going.{HostFollows, HostPerforms};

use cxl_message::Cause;
use event_room::EventRoom;
use machine_agents::MachineHost;

/// Performs a cause at the host of a number, where the host answers with an event, which is written into the room.
pub fn perform_at_host(hosts: &mut Vec<MachineHost>, host: u8, cause: &Cause, made: &mut EventRoom)
    requires { host < length hosts.old.items }
    ensures count { length hosts.new.items ≡ length hosts.old.items }
    ensures others { (k : ℕ) → (k ≡ host → ⊥) → slice_get hosts.new.items k ≡ slice_get hosts.old.items k }
    ensures performed { (a b : HostRecord) → slice_get hosts.old.items host ≡ Some a → slice_get hosts.new.items host ≡ Some b → HostPerforms a b cause.now made.new }
{
    perform_one(&mut hosts[host as usize], cause, made);
}

/// Performs a cause at a host.
fn perform_one(host: &mut MachineHost, cause: &Cause, made: &mut EventRoom)
    ensures { HostPerforms host.old host.new cause.now made.new }
{
    host.perform(cause, made);
}

/// Makes the event in a room at the host of a number, where it is what the host answers to its cause; else nothing changes. The room
/// `made` is written over.
pub fn follow_at_host(
    hosts: &mut Vec<MachineHost>,
    host: u8,
    cause: &Cause,
    event: &EventRoom,
    made: &mut EventRoom,
) -> bool
    requires { host < length hosts.old.items }
    ensures count { length hosts.new.items ≡ length hosts.old.items }
    ensures others { (k : ℕ) → (k ≡ host → ⊥) → slice_get hosts.new.items k ≡ slice_get hosts.old.items k }
    ensures followed { (a b : HostRecord) → slice_get hosts.old.items host ≡ Some a → slice_get hosts.new.items host ≡ Some b → HostFollows a b cause.now event.now result }
    ensures refused { result ≡ false → hosts.new.items ≡ hosts.old.items }
{
    follow_one(&mut hosts[host as usize], cause, event, made)
}

/// Makes the event in a room at a host.
fn follow_one(
    host: &mut MachineHost,
    cause: &Cause,
    event: &EventRoom,
    made: &mut EventRoom,
) -> bool
    ensures followed { HostFollows host.old host.new cause.now event.now result }
    ensures refused { result ≡ false → host.new ≡ host.old }
{
    host.follow(cause, event, made)
}
