//! The work that `bench/run` times: the device goes turn after turn through events of one kind, or the same events are
//! encoded, as many laps of turns as are asked for.
#![tactic(auto)]

mod agent;
mod causes;
mod turns;

use agent::Device;
use anyhow::{Result, bail};
use bench_events::{AgentWork, run_laps};
use cxl_message::Setup;
use std::env;
use std::rt::Env;
use turns::{Kind, setup};

/// The work, the kind of turns, the setup and the laps that the program was asked for, if it was.
fn asked(rt: &(impl Env + AllocGlobal)) -> Result<Option<(AgentWork, Kind, Setup, u32)>> {
    let mut words = env::args(rt)?.skip(1);
    let Some(work) = words.next() else {
        return Ok(None);
    };
    let Some(kind) = words.next() else {
        return Ok(None);
    };
    let Some(entries) = words.next() else {
        return Ok(None);
    };
    let Some(laps) = words.next() else {
        return Ok(None);
    };
    let Some(work) = AgentWork::named(work.as_str()) else {
        return Ok(None);
    };
    let Some(kind) = Kind::named(kind.as_str()) else {
        return Ok(None);
    };
    let Ok(entries) = entries.as_str().parse::<u16>() else {
        return Ok(None);
    };
    let Ok(laps) = laps.as_str().parse::<u32>() else {
        return Ok(None);
    };
    Ok(Some((work, kind, setup(entries)?, laps)))
}

fn main(rt: HostRuntime) -> Result<()> {
    let Some((work, kind, setup, laps)) = asked(&rt)? else {
        bail!("usage: device_bench causes|step|encode grants|snoops|evictions ENTRIES LAPS");
    };
    let mut device = Device::open(rt.alloc(), kind, setup)?;
    let tally = run_laps(rt.alloc(), work, laps, &mut device)?;
    println!(rt;
        "events {} bytes {} weight {}",
        tally.events, tally.bytes, tally.weight
    )?;
    Ok(())
}
