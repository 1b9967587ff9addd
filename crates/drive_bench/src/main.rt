//! What `bench/run` sets the driving of scripts beside: the events of a trace on the standard input are encoded alone, as many
//! rounds as are asked for, or a script is printed that a seed makes.
#![tactic(auto)]

mod encoding;

use anyhow::{Result, bail};
use encoding::encode_events;
use outside_io::{StdSource, read_all};
use script_text::{MAX_OPERATIONS, generate, print_script};
use std::alloc::Global;
use std::env;
use std::io::Write;
use std::rt::Env;

/// The most bytes of a trace that are read.
const TRACE_LIMIT: u64 = 1 << 30;

/// What the program was asked for.
#[derive(Clone, Copy)]
enum Work {
    /// Encode the events of a trace so many rounds.
    Encode(u32),
    /// Print a script of so many operations.
    Script(u32),
}

/// The work that the program was asked for, if it was.
fn asked(rt: &(impl Env + AllocGlobal)) -> Result<Option<Work>> {
    let mut words = env::args(rt)?.skip(1);
    let Some(name) = words.next() else {
        return Ok(None);
    };
    let Some(count) = words.next() else {
        return Ok(None);
    };
    let Ok(count) = count.as_str().parse::<u32>() else {
        return Ok(None);
    };
    match name.as_str() {
        "encode" => Ok(Some(Work::Encode(count))),
        "script" => Ok(Some(Work::Script(count))),
        _ => Ok(None),
    }
}

/// The text of a script of so many operations, at most 65,536.
fn script_text_of(alloc: Global, operations: u32) -> Result<Vec<u8>> {
    let script = generate(alloc, operations.min(MAX_OPERATIONS), 1)?;
    Ok(print_script(alloc, &script)?)
}

fn main(rt: HostRuntime) -> Result<()> {
    match asked(&rt)? {
        Some(Work::Encode(rounds)) => {
            let trace = read_all(rt.alloc(), &mut StdSource::new(rt.stdin()), TRACE_LIMIT)?;
            let tally = encode_events(rt.alloc(), &trace, rounds)?;
            println!(rt; "events {} bytes {}", tally.events, tally.bytes)?;
        }
        Some(Work::Script(operations)) => {
            let text = script_text_of(rt.alloc(), operations)?;
            rt.stdout().write_all(&text)?;
        }
        None => bail!("usage: drive_bench encode ROUNDS | script OPERATIONS"),
    }
    Ok(())
}
