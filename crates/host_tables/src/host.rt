// What a home agent keeps.
ghost use Rattle.std.specs.Prelude.{◌≡◌};

use crate::streams::{IDLE, StreamPlace};
use credit_rules::Purse;
use cxl_message::Setup;
use held_snoops::HeldSnoops;
use host_cache::{BusyLines, HostCache};
use line_states::{LineStage, Open};
use std::alloc::{AllocError, Global};
use std::marker::Model;

/// The number of a Tag.
pub type TagNumber = u32;

/// What a home agent keeps: its cache and its busy lines, what is open by Tag and by line, the stages of snooped lines, the snoops that
/// it holds, the places of its streams, and its credits (own rule).
///
/// A contract sees its setup, its host and the record of what is kept. Only `open` takes memory.
#[derive(Drop)]
pub struct HostTables {
    pub(crate) setup: Setup,
    pub(crate) host: u8,
    pub(crate) cache: HostCache,
    pub(crate) busy: BusyLines,
    // By Tag: what is open, the line that last took it, and whether its conflict is open.
    pub(crate) opened: Vec<Option<Open>>,
    pub(crate) tag_lines: Vec<Option<u32>>,
    pub(crate) conflicts: Vec<bool>,
    // By line: the Tag of what is open, and the stage since the last snoop.
    pub(crate) line_tags: Vec<Option<TagNumber>>,
    pub(crate) stages: Vec<LineStage>,
    pub(crate) held: HeldSnoops,
    pub(crate) writing: Option<u32>,
    pub(crate) streams: Vec<StreamPlace>,
    pub(crate) req: Purse,
    pub(crate) rwd: Purse,
    pub(crate) bi_rsp: Purse,
    pub(crate) ndr_owed: u8,
    pub(crate) drs_owed: u8,
    pub(crate) bi_snp_owed: u8,
}

impl Model for HostTables {
    ghost use Rattle.host_tables.specs.Agent.{AgentRecord};
    ghost use Rattle.host_tables.specs.Kept.{Fits};

    ghost Value = { AgentRecord };

    ghost view = { λ a. record { setup = a.setup; host = a.host; kept = record { ways = a.cache.ways; opened = a.opened.items; tag_lines = a.tag_lines.items; conflicts = a.conflicts.items; line_tags = a.line_tags.items; stages = a.stages.items; busy = a.busy; snoops = a.held.snoops; writing = a.writing; streams = a.streams.items; req_left = a.req.left; rwd_left = a.rwd.left; bi_rsp_left = a.bi_rsp.left; ndr_owed = a.ndr_owed; drs_owed = a.drs_owed; bi_snp_owed = a.bi_snp_owed } } };

    ghost invariant = { λ a. Fits a.setup a.cache a.busy a.held a.bi_snp_owed a.req a.rwd a.bi_rsp };
}

impl HostTables {
    ghost use Rattle.std.specs.Prelude.{IfOk};
    ghost use Rattle.host_tables.specs.Agent.{opened_agent};

    /// What a host keeps before its first event: nothing, with all credits. It takes all the memory that a host ever has, and `Err` is
    /// want of it.
    pub fn open(alloc: Global, setup: &Setup, host: u8) -> Result<HostTables, AllocError>
        ensures opened { IfOk result (λ agent. agent ≡ opened_agent setup.now host) }
    {
        let lines = setup.lines();
        let tags = setup.tags() as usize;
        let credits = setup.credits();
        let cache = HostCache::open(alloc, setup.ways(), lines)?;
        let busy = BusyLines::open(alloc, lines)?;
        let opened = vec![in alloc; None; tags]?;
        let tag_lines = vec![in alloc; None; tags]?;
        let conflicts = vec![in alloc; false; tags]?;
        let line_tags = vec![in alloc; None; lines as usize]?;
        let stages = vec![in alloc; LineStage::NEW; lines as usize]?;
        let held = HeldSnoops::open(alloc, credits)?;
        let streams = vec![in alloc; IDLE; setup.streams().len()]?;
        Ok(HostTables {
            setup: *setup,
            host,
            cache,
            busy,
            opened,
            tag_lines,
            conflicts,
            line_tags,
            stages,
            held,
            writing: None,
            streams,
            req: Purse::new(credits),
            rwd: Purse::new(credits),
            bi_rsp: Purse::new(credits),
            ndr_owed: 0,
            drs_owed: 0,
            bi_snp_owed: 0,
        })
    }
}
