//! The work that `bench/run` times: the text of a script of many lines is copied, parsed, or printed again, as many rounds
//! as are asked for.
#![tactic(auto)]

mod texts;
mod work;

use std::rt::Env;
use std::{env, io};
use work::Work;

/// The work, the text's bytes and the rounds that the program was asked for, if it was.
fn asked(rt: &(impl Env + AllocGlobal)) -> io::Result<Option<(Work, u32, u32)>> {
    let mut words = env::args(rt)?.skip(1);
    let Some(name) = words.next() else {
        return Ok(None);
    };
    let Some(bytes) = words.next() else {
        return Ok(None);
    };
    let Some(rounds) = words.next() else {
        return Ok(None);
    };
    let Some(work) = Work::named(name.as_str()) else {
        return Ok(None);
    };
    let Ok(bytes) = bytes.as_str().parse::<u32>() else {
        return Ok(None);
    };
    let Ok(rounds) = rounds.as_str().parse::<u32>() else {
        return Ok(None);
    };
    Ok(Some((work, bytes, rounds)))
}

fn main(rt: HostRuntime) -> io::Result<()> {
    let Some((work, bytes, rounds)) = asked(&rt)? else {
        return println!(rt; "usage: script_bench copy|parse|print BYTES ROUNDS");
    };
    let tally = work::run(rt.alloc(), work, bytes as usize, rounds)?;
    println!(rt;
        "lines {} bytes {} operations {} picks {} weight {} same {}",
        tally.lines, tally.bytes, tally.operations, tally.picks, tally.weight, tally.same
    )
}
