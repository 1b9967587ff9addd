// V2, V7 and V8: what answers, snoops and ends of tasks change.
ghost use Rattle.std.specs.Prelude.{◌≡◌, ◌+◌, ◌<◌, ◌≤◌, [], Some, length, map, true};
ghost use Rattle.std.specs.Option.{option_map_or};
ghost use Rattle.cxl_message.specs.Spans.{lines_of};
ghost use Rattle.coherence_model.specs.DirectoryChanges.{granted_listing, listing_after_response};
ghost use Rattle.coherence_model.specs.Tasks.{is_eviction as is_eviction_in};
ghost use Rattle.cxl_message.specs.declared.states.Listing.{Listing as Listed};
ghost use Rattle.snoop_filter.specs.Changes.{rows_set};
ghost use Rattle.device_record.specs.BufferChanges.{requests_finished};
ghost use Rattle.device_record.specs.Record.{task_at};
ghost use Rattle.device_record.specs.RowChanges.{lines_answered, rows_granted};
ghost use Rattle.device_record.specs.Steady.{AscendFrom};
ghost use Rattle.device_record.specs.TaskChanges.{lines_still_left, task_left, tasks_without};
ghost use Rattle.device_state.specs.Decisions.{heads_sent};
ghost use Rattle.device_tables.specs.Tasks.{purpose_seen};
ghost use Rattle.device_changes.specs.Acting.{GrantsTo, IsAnswer, MayFinish, StandsAt, finished_filter};
ghost use Rattle.cxl_message.specs.declared.opcodes.RspOp.{RspOp as Rsp};
ghost use Rattle.snoop_filter.specs.Rows.{held_in};

use crate::accounts::progress_at;
use crate::blocks::{let_go_lines, unlist_lines};
use block_snoop::span_len;
use cxl_message::{Line, Listing, NdrOp, RspOp};
use device_state::Decision;
use device_tables::{Progress, Requests, TaskKind, Tasks};
use snoop_filter::Filter;

/// V2: an answer of a host for the line `low` lines after the first of a task, or for the whole block. Its lines list the
/// host anew, and fewer are left to it.
pub fn answered(filter: &mut Filter, tasks: &mut Tasks, host: u8, op: RspOp, first: u32, low: u8)
    requires host { host < filter.old.hosts }
    requires answers { IsAnswer op host first low tasks.old.tasks filter.old }
    requires small { filter.old.lines ≤ 65536 }
    requires ascend { AscendFrom 0 tasks.old.tasks }
    ensures filter { filter.new ≡ record filter.old { rows = rows_set (lines_answered op host (first + low) (task_at first tasks.old.tasks)) host (listing_after_response op) filter.old.rows } }
    ensures tasks { tasks.new ≡ record tasks.old { tasks = map (task_left first host (lines_still_left op (first + low))) tasks.old.tasks } }
{
    match op {
        RspOp::I => filter.set(Line(first + u32::from(low)), host, Listing::I),
        RspOp::S => filter.set(Line(first + u32::from(low)), host, Listing::S),
        RspOp::IBlk => unlist_left(filter, tasks, host, first),
        RspOp::E => unreachable!("no answer of the profile"),
        RspOp::SBlk => unreachable!("no answer of the profile"),
        RspOp::EBlk => unreachable!("no answer of the profile"),
    }
    tasks.answer(first, host, op, low);
}

/// Unlists a host for all lines that it has left of a task.
fn unlist_left(filter: &mut Filter, tasks: &Tasks, host: u8, first: u32)
    requires host { host < filter.old.hosts }
    requires answers { IsAnswer Rsp.IBlk host first 0 tasks.now.tasks filter.old }
    requires small { filter.old.lines ≤ 65536 }
    ensures { filter.new ≡ record filter.old { rows = rows_set (lines_answered Rsp.IBlk host first (task_at first tasks.now.tasks)) host Listed.I filter.old.rows } }
{
    match tasks.with_first(first) {
        Some(task) => {
            let count = span_len(task.block().span);
            unlist_lines(filter, host, task.left_of(host), first, 0, count);
        }
        None => unreachable!("the task stands"),
    }
}

/// V7: all lines of a task are left to a host.
pub fn snoop(tasks: &mut Tasks, line: Line, host: u8)
    requires { AscendFrom 0 tasks.old.tasks }
    ensures { tasks.new ≡ record tasks.old { tasks = map (task_left line.0 host (λ old. option_map_or (λ t. lines_of t.first t.span) (task_at line.0 tasks.old.tasks) [])) tasks.old.tasks } }
{
    tasks.ask(line.0, host);
}

/// V8: the requester is listed by its grant, the lines are let go, an eviction leaves a reservation to its request, and
/// the task is gone.
pub fn finish(
    requests: &mut Vec<Requests>,
    filter: &mut Filter,
    tasks: &mut Tasks,
    line: Line,
    decision: Decision,
)
    requires may { MayFinish line.0 (heads_sent decision) tasks.old.tasks filter.old (length requests.old.items) }
    requires ascend { AscendFrom 0 tasks.old.tasks }
    requires small { filter.old.lines ≤ 65536 }
    ensures requests { requests.new.items ≡ requests_finished (task_at line.0 tasks.old.tasks) requests.old.items }
    ensures filter { filter.new ≡ finished_filter line.0 (heads_sent decision) (task_at line.0 tasks.old.tasks) filter.old }
    ensures tasks { tasks.new ≡ record tasks.old { tasks = tasks_without line.0 tasks.old.tasks } }
{
    match tasks.with_first(line.0) {
        Some(task) => {
            grant(filter, line, decision);
            let_go_lines(filter, line.0, span_len(task.block().span));
            if is_eviction(task.kind()) {
                filter.reserve();
                progress_at(requests, task.host(), task.tag(), Progress::Reserved);
            }
        }
        None => unreachable!("the task stands"),
    }
    tasks.end(line.0);
}

/// Lists the requester of a held line by the grant that is sent to it.
fn grant(filter: &mut Filter, line: Line, decision: Decision)
    requires line { line.0 < filter.old.lines }
    requires held { held_in line.0 filter.old.rows ≡ true }
    requires host { GrantsTo filter.old.hosts (heads_sent decision) }
    ensures { filter.new ≡ record filter.old { rows = rows_granted line.0 (heads_sent decision) filter.old.rows } }
{
    match decision {
        Decision::Nothing => {}
        Decision::Completion { host, op, .. } => filter.set(line, host, granted(op)),
        Decision::Grant { host, op, .. } => filter.set(line, host, granted(op)),
        Decision::Snoop { .. } => unreachable!("a task ends by a grant"),
        Decision::Credit { .. } => unreachable!("a task ends by a grant"),
    }
}

/// How a grant lists its host: S for Cmp-S, else A.
fn granted(op: NdrOp) -> Listing
    ensures { result ≡ granted_listing op }
{
    match op {
        NdrOp::CmpS => Listing::S,
        _ => Listing::A,
    }
}

/// Whether a task is an eviction.
fn is_eviction(kind: TaskKind) -> bool
    ensures { result ≡ is_eviction_in (purpose_seen kind) }
{
    match kind {
        TaskKind::SharedRead => false,
        TaskKind::OwningRead => false,
        TaskKind::Invalidation => false,
        TaskKind::Eviction => true,
    }
}
