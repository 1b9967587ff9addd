// A large script from one number.
ghost use Rattle.std.specs.Prelude.{◌≡◌, ◌≤◌, IfOk, [], map, replicate};
ghost use Rattle.cxl_message.specs.declared.limits.TheConstants.{MAX_STREAMS};
ghost use Rattle.script_text.specs.Generator.{drawn_operations, drawn_picks, generated, large_setup};
ghost use Rattle.script_text.specs.declared.limits.TheConstants.{MAX_OPERATIONS};

use crate::drafts::Draft;
use crate::draws::Draws;
use crate::limits::MAX_ROOM;
use crate::scripts::Script;
use cxl_message::{MAX_STREAMS, Names, Op, Opening, Setup};
use std::alloc::{AllocError, Global};

/// The host of each stream: four streams for each of sixteen hosts.
const HOSTS: [u8; 64] = [
    0, 1, 2, 3, 4, 5, 6, 7, 8, 9, 10, 11, 12, 13, 14, 15, 0, 1, 2, 3, 4, 5, 6, 7, 8, 9, 10, 11, 12,
    13, 14, 15, 0, 1, 2, 3, 4, 5, 6, 7, 8, 9, 10, 11, 12, 13, 14, 15, 0, 1, 2, 3, 4, 5, 6, 7, 8, 9,
    10, 11, 12, 13, 14, 15,
];

/// A large script that a seed makes (own rule): so many operations, at most 65,536, of 64 streams on 16 hosts, over 64 lines
/// with 32 filter entries and 4 ways, and eight picks for each operation. No stream has a name. Equal numbers make equal scripts. `Err` is want of
/// memory.
pub fn generate(alloc: Global, count: u32, seed: u64) -> Result<Script, AllocError>
    requires few { count ≤ MAX_OPERATIONS }
    ensures script { IfOk result (λ script. script ≡ generated count seed) }
{
    let mut draws = Draws(seed);
    let operations = draw_operations(alloc, count, &mut draws)?;
    let picks = draw_picks(alloc, 8 * count, &mut draws)?;
    Ok(Script::new(Draft {
        setup: large_machine(),
        names: Names::new(alloc),
        room: MAX_ROOM,
        opening: Opening::new(alloc),
        operations,
        picks,
        count,
    }))
}

/// The machine of every script that is made so.
fn large_machine() -> Setup
    ensures { result ≡ large_setup }
{
    match Setup::new(16, 64, 32, 4, 4, 4, &HOSTS) {
        Ok(setup) => setup,
        Err(_) => unreachable!("each number is within its limits"),
    }
}

/// Draws so many operations, each in turn for the next of 64 streams.
fn draw_operations(alloc: Global, count: u32, draws: &mut Draws) -> Result<Vec<Vec<Op>>, AllocError>
    ensures drawn { IfOk result (λ streams. (map (λ ops. ops.items) streams.items, draws.new.0) ≡ drawn_operations draws.old.0 count) }
{
    let mut streams = empty_streams(alloc)?;
    for n in 0..count {
        let operation = draws.operation();
        let stream = n as usize % MAX_STREAMS as usize;
        streams[stream].push(operation)?;
    }
    Ok(streams)
}

/// 64 streams without an operation.
fn empty_streams(alloc: Global) -> Result<Vec<Vec<Op>>, AllocError>
    ensures empty { IfOk result (λ streams. map (λ ops. ops.items) streams.items ≡ replicate MAX_STREAMS []) }
{
    let mut streams = Vec::new(alloc);
    for _ in 0..MAX_STREAMS {
        streams.push(Vec::new(alloc))?;
    }
    Ok(streams)
}

/// Draws so many picks.
fn draw_picks(alloc: Global, count: u32, draws: &mut Draws) -> Result<Vec<u16>, AllocError>
    ensures drawn { IfOk result (λ picks. (picks.items, draws.new.0) ≡ drawn_picks draws.old.0 count) }
{
    let mut picks = Vec::new(alloc);
    for _ in 0..count {
        picks.push((draws.draw() % 65536) as u16)?;
    }
    Ok(picks)
}
