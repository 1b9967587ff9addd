// Planning an operation.
ghost use Rattle.std.specs.Prelude.{◌≡◌, ◌≤◌, IfOk, length};
ghost use Rattle.coherence_model.specs.Cache.{is_valid};
ghost use Rattle.cxl_message.specs.Events.{line_of as line_of_op};
ghost use Rattle.host_plans.specs.Plans.{PlanHolds, dropping, lacks_room_in, planned, replacing, requesting, waiting};
ghost use Rattle.host_record.specs.ViewRows.{hits_copy, may_write as copy_may_write};
ghost use Rattle.host_record.specs.Ways.{copy_in};

use crate::plans::{Plan, Unplanned};
use crate::tags::{first_tag, second_tag};
use cxl_message::{CopyState, Line, Op, Setup, Tag};
use host_cache::{BusyLines, HostCache};
use line_states::Open;

/// How an operation goes, or the first cause that it has no plan, by what a host keeps: its ways, its busy lines, and by Tag what is
/// open and whether a conflict is. A hit takes no Tag and no way.
pub fn plan(
    setup: &Setup,
    cache: &HostCache,
    busy: &BusyLines,
    opened: &[Option<Open>],
    conflicts: &[bool],
    op: &Op,
) -> Result<Plan, Unplanned>
    requires { cache.now.room ≡ setup.now.ways }
    ensures value { result ≡ planned setup.now cache.now.ways busy.now opened.now conflicts.now op.now }
    ensures holds { IfOk result (λ plan. PlanHolds setup.now.ways setup.now.lines cache.now.ways busy.now op.now plan) }
{
    let line = op.line();
    if line.0 >= setup.lines() {
        return Err(Unplanned::NoSuchLine);
    }
    if busy.has(line) {
        return Err(Unplanned::Again);
    }
    if hits(cache, op) {
        return Ok(Plan::Hit);
    }
    let tags = u32::from(setup.tags());
    let first = first_tag(opened, conflicts, tags);
    if lacks_room(cache, line) {
        let Some(victim) = cache.oldest_idle(busy) else {
            return waits(first);
        };
        if may_write(cache, victim) {
            let second = second_tag(opened, conflicts, first, tags);
            return replaces(victim, first, second);
        }
        return drops(victim, first);
    }
    requests(first)
}

/// A request alone takes the first free Tag.
fn requests(first: Option<Tag>) -> Result<Plan, Unplanned>
    ensures { result ≡ requesting first }
{
    match first {
        Some(tag) => Ok(Plan::Request { tag }),
        None => Err(Unplanned::NoTag),
    }
}

/// Without an idle way there is no plan.
fn waits(first: Option<Tag>) -> Result<Plan, Unplanned>
    ensures { result ≡ waiting first }
{
    match first {
        Some(_) => Err(Unplanned::NoWay),
        None => Err(Unplanned::NoTag),
    }
}

/// A shared victim is dropped, and the request takes the first free Tag.
fn drops(victim: Line, first: Option<Tag>) -> Result<Plan, Unplanned>
    ensures { result ≡ dropping victim first }
{
    match first {
        Some(tag) => Ok(Plan::Drop { victim, tag }),
        None => Err(Unplanned::NoTag),
    }
}

/// A writable victim is evicted with the first free Tag, and the request takes the second.
fn replaces(victim: Line, first: Option<Tag>, second: Option<Tag>) -> Result<Plan, Unplanned>
    ensures { result ≡ replacing victim first second }
{
    match (first, second) {
        (Some(lower), Some(tag)) => Ok(Plan::Replace { victim, lower, tag }),
        _ => Err(Unplanned::NoTag),
    }
}

/// Whether an operation hits the copy of its line: a load any copy, a store a writable one.
fn hits(cache: &HostCache, op: &Op) -> bool
    ensures { result ≡ hits_copy op.now (copy_in cache.now.ways (line_of_op op.now)) }
{
    match op {
        Op::Load { line } => has_copy(cache, *line),
        Op::Word { line, .. } => may_write(cache, *line),
        Op::Whole { line, .. } => may_write(cache, *line),
    }
}

/// Whether a line's copy isn't I.
fn has_copy(cache: &HostCache, line: Line) -> bool
    ensures { result ≡ is_valid (copy_in cache.now.ways line.0) }
{
    match cache.copy(line) {
        CopyState::I => false,
        CopyState::S => true,
        CopyState::E => true,
        CopyState::M => true,
    }
}

/// Whether a line's copy is E or M.
fn may_write(cache: &HostCache, line: Line) -> bool
    ensures { result ≡ copy_may_write (copy_in cache.now.ways line.0) }
{
    match cache.copy(line) {
        CopyState::I => false,
        CopyState::S => false,
        CopyState::E => true,
        CopyState::M => true,
    }
}

/// Whether a line has no way and there is none free.
fn lacks_room(cache: &HostCache, line: Line) -> bool
    ensures value { result ≡ lacks_room_in cache.now.room cache.now.ways line.0 }
    ensures most { length cache.now.ways ≤ cache.now.room }
{
    let full = cache.full();
    full && !cache.has_way(line)
}
