// V4, V5 and V6: what a buffered request changes.
ghost use Rattle.std.specs.Prelude.{◌≡◌, ◌<◌, ◌≤◌, IsSome, Some, false, length, map, option_and_then, option_map};
ghost use Rattle.coherence_model.specs.Room.{Room as Roomed};
ghost use Rattle.coherence_model.specs.Tasks.{purpose_of};
ghost use Rattle.snoop_filter.specs.Victims.{victim_in};
ghost use Rattle.device_record.specs.BufferChanges.{request_roomed, without_request};
ghost use Rattle.device_record.specs.Record.{request_with, requests_at};
ghost use Rattle.device_record.specs.ReservationChanges.{reserved_started};
ghost use Rattle.device_record.specs.RowChanges.{line_asked, rows_cleaned, rows_evicting, rows_started};
ghost use Rattle.device_record.specs.Tables.{changed_at};
ghost use Rattle.device_record.specs.TaskChanges.{task_evicting, task_started, tasks_with};
ghost use Rattle.device_tables.specs.Tasks.{purpose_seen};
ghost use Rattle.device_changes.specs.Acting.{HasVictim, IsWaiting, MayStart};
ghost use Rattle.coherence_model.specs.Room.{is_reservation};
ghost use Rattle.device_tables.specs.Waiting.{room_seen};
ghost use Rattle.device_changes.specs.Acting.{started_filter};

use crate::accounts::{progress_at, remove_at};
use crate::blocks::hold_lines;
use block_snoop::span_len;
use cxl_message::{Listing, Meta, ReqOp, Span, Tag};
use device_tables::{Progress, Requests, Task, TaskKind, Tasks, Waiting};
use snoop_filter::{Block, Filter};

/// The buffered request of a host with a tag, which is there.
fn waiting_at(requests: &[Requests], host: u8, tag: Tag) -> Waiting
    requires host { host < length requests.now }
    requires waiting { IsSome (request_with tag.0 (requests_at host requests.now)) }
    ensures { request_with tag.0 (requests_at host requests.now) ≡ Some result }
{
    match requests[host as usize].with_tag(tag) {
        Some(request) => request,
        None => unreachable!("the request is buffered"),
    }
}

/// V4: the request is gone, and its host isn't listed any more for its line.
pub fn clean(requests: &mut Vec<Requests>, filter: &mut Filter, host: u8, tag: Tag)
    requires host { host < length requests.old.items }
    requires hosts { host < filter.old.hosts }
    requires waiting { IsWaiting host tag.0 requests.old.items filter.old.lines }
    ensures requests { requests.new.items ≡ changed_at host (without_request tag.0) requests.old.items }
    ensures filter { filter.new ≡ record filter.old { rows = rows_cleaned host (option_and_then line_asked (request_with tag.0 (requests_at host requests.old.items))) filter.old.rows } }
{
    let request = waiting_at(requests, host, tag);
    remove_at(requests, host, tag);
    filter.set(request.line, host, Listing::I);
}

/// V5: the request is gone, with its reservation if it had one, its line is held, and its task stands.
pub fn start(
    requests: &mut Vec<Requests>,
    filter: &mut Filter,
    tasks: &mut Tasks,
    host: u8,
    tag: Tag,
)
    requires host { host < length requests.old.items }
    requires waiting { IsWaiting host tag.0 requests.old.items filter.old.lines }
    requires may { MayStart host tag.0 requests.old.items filter.old }
    requires few { filter.old.hosts ≤ 16 }
    requires room { length tasks.old.tasks < tasks.old.room }
    ensures requests { requests.new.items ≡ changed_at host (without_request tag.0) requests.old.items }
    ensures filter { filter.new ≡ started_filter (request_with tag.0 (requests_at host requests.old.items)) filter.old }
    ensures tasks { tasks.new ≡ record tasks.old { tasks = tasks_with (option_and_then (λ r. task_started filter.old.hosts host r.message) (request_with tag.0 (requests_at host requests.old.items))) tasks.old.tasks } }
{
    let request = waiting_at(requests, host, tag);
    remove_at(requests, host, tag);
    if is_reserved(request.progress) {
        filter.release();
    }
    filter.hold(request.line);
    let block = Block {
        first: request.line,
        span: Span::One,
    };
    let kind = kind_of(request.op, request.meta);
    tasks.add(Task::new(block, kind, host, request.tag, filter.hosts()));
}

/// V6: the victim's lines are held, its task stands, and the request's eviction is in progress.
pub fn evict(
    requests: &mut Vec<Requests>,
    filter: &mut Filter,
    tasks: &mut Tasks,
    host: u8,
    tag: Tag,
)
    requires host { host < length requests.old.items }
    requires victim { HasVictim filter.old }
    requires small { filter.old.lines ≤ 65536 }
    requires few { filter.old.hosts ≤ 16 }
    requires room { length tasks.old.tasks < tasks.old.room }
    ensures requests { requests.new.items ≡ changed_at host (map (request_roomed tag.0 Roomed.EvictionInProgress)) requests.old.items }
    ensures filter { filter.new ≡ record filter.old { rows = rows_evicting (victim_in filter.old.rows) filter.old.rows } }
    ensures tasks { tasks.new ≡ record tasks.old { tasks = tasks_with (option_map (task_evicting filter.old.hosts host tag) (victim_in filter.old.rows)) tasks.old.tasks } }
{
    progress_at(requests, host, tag, Progress::Evicting);
    match filter.victim() {
        Some(block) => {
            hold_lines(filter, block.first.0, span_len(block.span));
            tasks.add(Task::new(block, TaskKind::Eviction, host, tag, filter.hosts()));
        }
        None => unreachable!("there is a victim"),
    }
}

/// Whether an entry is reserved for a request.
fn is_reserved(progress: Progress) -> bool
    ensures { result ≡ is_reservation (room_seen progress) }
{
    match progress {
        Progress::NoEviction => false,
        Progress::Evicting => false,
        Progress::Reserved => true,
    }
}

/// What the task of a request is for.
fn kind_of(op: ReqOp, meta: Meta) -> TaskKind
    ensures { purpose_seen result ≡ purpose_of op meta }
{
    match op {
        ReqOp::MemRd => match meta {
            Meta::Shared => TaskKind::SharedRead,
            Meta::Any => TaskKind::OwningRead,
            Meta::Invalid => TaskKind::OwningRead,
        },
        ReqOp::MemInv => TaskKind::Invalidation,
        ReqOp::MemClnEvct => TaskKind::Invalidation,
    }
}
