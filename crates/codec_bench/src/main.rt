//! The work that `bench/run` times: a buffer of mixed event records is encoded, decoded or copied, as many rounds as are
//! asked for.
#![tactic(auto)]

mod work;

use std::rt::Env;
use std::{env, io};
use work::Work;

/// The work, the groups of records and the rounds that the program was asked for, if it was.
fn asked(rt: &(impl Env + AllocGlobal)) -> io::Result<Option<(Work, u32, u32)>> {
    let mut words = env::args(rt)?.skip(1);
    let Some(name) = words.next() else {
        return Ok(None);
    };
    let Some(groups) = words.next() else {
        return Ok(None);
    };
    let Some(rounds) = words.next() else {
        return Ok(None);
    };
    let Some(work) = Work::named(name.as_str()) else {
        return Ok(None);
    };
    let Ok(groups) = groups.as_str().parse::<u32>() else {
        return Ok(None);
    };
    let Ok(rounds) = rounds.as_str().parse::<u32>() else {
        return Ok(None);
    };
    Ok(Some((work, groups, rounds)))
}

fn main(rt: HostRuntime) -> io::Result<()> {
    let Some((work, groups, rounds)) = asked(&rt)? else {
        return println!(rt; "usage: codec_bench encode|decode|copy GROUPS ROUNDS");
    };
    let tally = work::run(rt.alloc(), work, groups, rounds)?;
    println!(rt;
        "records {} bytes {} weight {} same {}",
        tally.records, tally.bytes, tally.weight, tally.same
    )
}
