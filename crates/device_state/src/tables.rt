// All that the device keeps.
use cxl_message::Setup;
use device_lines::DeviceLines;
use device_tables::{HostCredits, Requests, Tasks};
use snoop_filter::Filter;
use std::marker::Model;

/// What the device keeps: its setup, its lines, its filter, its tasks, and for each host its buffered requests and its
/// credits (own rule). A contract sees the setup and the record of the rest.
///
/// There is always room for as many RwD messages of a host as it has credits, and for a task of each line.
#[derive(Drop)]
pub struct Tables {
    /// The setup.
    pub setup: Setup,
    /// The lines of memory, and the buffered RwD messages of each host.
    pub lines: DeviceLines,
    /// The snoop filter.
    pub filter: Filter,
    /// The tasks, by first lines.
    pub tasks: Tasks,
    /// The buffered requests of each host.
    pub requests: Vec<Requests>,
    /// The credits of each host.
    pub credits: Vec<HostCredits>,
}

impl Model for Tables {
    ghost use Rattle.device_state.specs.Agent.{AgentRecord};
    ghost use Rattle.device_state.specs.Room.{HasRoom};

    ghost Value = { AgentRecord };

    ghost view = { λ t. record { setup = t.setup; kept = record { memory = t.lines.memory; filter = t.filter; tasks = t.tasks.tasks; requests = t.requests.items; writes = t.lines.writes; credits = t.credits.items } } };

    ghost invariant = { HasRoom };
}
