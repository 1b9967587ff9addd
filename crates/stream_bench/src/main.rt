//! The work that `bench/run` times: the trace of mixed event records is read and written in pieces, and its records are
//! decoded and encoded alone, as many rounds as are asked for.
#![tactic(auto)]

mod reading;
mod work;
mod writing;

use std::rt::Env;
use std::{env, io};
use work::{Size, Work};

/// The work and its size that the program was asked for, if it was.
fn asked(rt: &(impl Env + AllocGlobal)) -> io::Result<Option<(Work, Size)>> {
    let mut words = env::args(rt)?.skip(1);
    let Some(name) = words.next() else {
        return Ok(None);
    };
    let Some(groups) = words.next() else {
        return Ok(None);
    };
    let Some(rounds) = words.next() else {
        return Ok(None);
    };
    let Some(piece) = words.next() else {
        return Ok(None);
    };
    let Some(work) = Work::named(name.as_str()) else {
        return Ok(None);
    };
    let Some(size) = size_of(groups.as_str(), rounds.as_str(), piece.as_str()) else {
        return Ok(None);
    };
    Ok(Some((work, size)))
}

/// The size that these words say, if they do.
fn size_of(groups: &str, rounds: &str, piece: &str) -> Option<Size> {
    let Ok(groups) = groups.parse::<u32>() else {
        return None;
    };
    let Ok(rounds) = rounds.parse::<u32>() else {
        return None;
    };
    let Ok(piece) = piece.parse::<u32>() else {
        return None;
    };
    Some(Size {
        groups,
        rounds,
        piece,
    })
}

fn main(rt: HostRuntime) -> io::Result<()> {
    let Some((work, size)) = asked(&rt)? else {
        return println!(rt; "usage: stream_bench decode|read|encode|write GROUPS ROUNDS PIECE");
    };
    let tally = work::run(rt.alloc(), work, size)?;
    println!(rt;
        "records {} bytes {} weight {} same {}",
        tally.records, tally.bytes, tally.weight, tally.same
    )
}
