// The home agent, and what it is opened with.
ghost use Rattle.std.specs.Prelude.{◌≡◌, ◌<◌, [], IfOk};

use cxl_message::Setup;
use host_tables::HostTables;
use std::alloc::{AllocError, Global};
use std::marker::Model;

/// The home agent of a host: it answers causes, makes their events, and stands for the list of its own events.
///
/// A contract sees its setup, its host and the record of what it keeps. Only `open` takes memory.
#[derive(Drop)]
pub struct HostAgent {
    pub(crate) tables: HostTables,
}

impl Model for HostAgent {
    ghost use Rattle.host_tables.specs.Agent.{AgentRecord};

    ghost Value = { AgentRecord };

    ghost view = { λ a. a.tables };
}

impl HostAgent {
    ghost use Rattle.host_home.specs.Contract.{StandsFor};
    ghost use Rattle.host_tables.specs.Agent.{opened_agent};

    /// The agent of a host, below the setup's hosts, before its first event. It takes all the memory that the agent ever has, and
    /// `Err` is want of it.
    #[tactic(auto, using(crate::proofs::Clauses::opened_stands))]
    pub fn open(alloc: Global, setup: &Setup, host: u8) -> Result<HostAgent, AllocError>
        requires { host < setup.now.hosts }
        ensures stands { IfOk result (λ agent. StandsFor agent setup.now host []) }
    {
        let _hosts = setup.hosts();
        HostAgent::without_events(alloc, setup, host)
    }

    /// An agent that keeps nothing yet, with all credits.
    fn without_events(alloc: Global, setup: &Setup, host: u8) -> Result<HostAgent, AllocError>
        ensures opened { IfOk result (λ agent. agent ≡ opened_agent setup.now host) }
    {
        let tables = HostTables::open(alloc, setup, host)?;
        Ok(HostAgent { tables })
    }
}
