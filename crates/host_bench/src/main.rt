//! The work that `bench/run` times: a home agent goes turn after turn through events of one kind, or the same events are
//! encoded, as many laps of turns as are asked for.
#![tactic(auto)]

mod agent;
mod turns;

use agent::Host;
use anyhow::{Result, bail};
use bench_events::{AgentWork, run_laps};
use std::env;
use std::rt::Env;
use turns::Kind;

/// The work, the kind of turns and the laps that the program was asked for, if it was.
fn asked(rt: &(impl Env + AllocGlobal)) -> Result<Option<(AgentWork, Kind, u32)>> {
    let mut words = env::args(rt)?.skip(1);
    let Some(work) = words.next() else {
        return Ok(None);
    };
    let Some(kind) = words.next() else {
        return Ok(None);
    };
    let Some(laps) = words.next() else {
        return Ok(None);
    };
    let Some(work) = AgentWork::named(work.as_str()) else {
        return Ok(None);
    };
    let Some(kind) = Kind::named(kind.as_str()) else {
        return Ok(None);
    };
    let Ok(laps) = laps.as_str().parse::<u32>() else {
        return Ok(None);
    };
    Ok(Some((work, kind, laps)))
}

fn main(rt: HostRuntime) -> Result<()> {
    let Some((work, kind, laps)) = asked(&rt)? else {
        bail!("usage: host_bench causes|step|encode hits|misses|snoops LAPS");
    };
    let mut host = Host::open(rt.alloc(), kind)?;
    let tally = run_laps(rt.alloc(), work, laps, &mut host)?;
    println!(rt;
        "events {} bytes {} weight {}",
        tally.events, tally.bytes, tally.weight
    )?;
    Ok(())
}
