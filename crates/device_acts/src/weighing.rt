// What the device adds to the weight.
ghost use Rattle.std.specs.Prelude.{◌≡◌, ◌+◌, ◌*◌, ◌<◌, ◌≤◌, ◌&&◌, All, count_by, length, not, sum_by};
ghost use Rattle.cxl_message.specs.Codes.{span_len as lines_in};
ghost use Rattle.cxl_message.specs.Lists.{below};
ghost use Rattle.coherence_model.specs.Weight.{purpose_weight as purpose_weight_of, room_weight as room_weight_of};
ghost use Rattle.device_acts.specs.Placed.{LiesWithin};
ghost use Rattle.device_record.specs.Answers.{is_asked_by, is_wanted};
ghost use Rattle.device_record.specs.Record.{requests_at};
ghost use Rattle.device_record.specs.Steady.{IsSteady};
ghost use Rattle.device_record.specs.Weights.{waiting_weight as waiting_weight_of, weight_in, weight_of_host as host_weight_of, weight_of_task as task_weight_of};
ghost use Rattle.device_tables.specs.Tasks.{purpose_seen};
ghost use Rattle.device_tables.specs.Waiting.{room_seen};

use block_snoop::{is_asked, span_len};
use cxl_message::ReqOp;
use device_rows::{owed_answers, owed_requests, owed_writes};
use device_state::Tables;
use device_tables::{Progress, Task, TaskKind, Waiting};
use snoop_filter::Filter;

/// What a buffered MemRd or MemInv adds, for so many hosts.
fn room_weight(hosts: u8, progress: Progress) -> u64
    requires { (1 ≤ hosts) × (hosts ≤ 16) }
    ensures weight { result ≡ room_weight_of hosts (room_seen progress) }
    ensures few { result ≤ 1728 }
{
    let hosts = u64::from(hosts);
    match progress {
        Progress::NoEviction => 108 * hosts - 12,
        Progress::Evicting => 24 * hosts - 14,
        Progress::Reserved => 24 * hosts - 14,
    }
}

/// What a buffered request adds, for so many hosts.
fn waiting_weight(hosts: u8, request: &Waiting) -> u64
    requires { (1 ≤ hosts) × (hosts ≤ 16) }
    ensures weight { result ≡ waiting_weight_of hosts request.now }
    ensures few { result ≤ 1728 }
{
    match request.op {
        ReqOp::MemRd => room_weight(hosts, request.progress),
        ReqOp::MemInv => room_weight(hosts, request.progress),
        ReqOp::MemClnEvct => 6,
    }
}

/// What some buffered requests add, for so many hosts.
fn waiting_weights(hosts: u8, waiting: &[Waiting]) -> u64
    requires hosts { (1 ≤ hosts) × (hosts ≤ 16) }
    requires few { length waiting.now ≤ 255 }
    ensures weight { result ≡ sum_by (waiting_weight_of hosts) waiting.now }
    ensures few { result ≤ 1728 * length waiting.now }
{
    let mut weight = 0;
    for request in waiting {
        weight += waiting_weight(hosts, request);
    }
    weight
}

/// What the buffered requests of a host add.
fn requests_weight(tables: &Tables, host: u8) -> u64
    requires { IsSteady tables.now.setup tables.now.kept }
    ensures weight { result ≡ sum_by (waiting_weight_of tables.now.setup.hosts) (requests_at host tables.now.kept.requests) }
    ensures few { result ≤ 440640 }
{
    match tables.requests.get(host as usize) {
        Some(requests) => waiting_weights(tables.setup.hosts(), requests.waiting()),
        None => 0,
    }
}

/// What the owed Credits and the buffered messages of a host add.
fn host_weight(tables: &Tables, host: u8) -> u64
    requires steady { IsSteady tables.now.setup tables.now.kept }
    requires host { host < tables.now.setup.hosts }
    ensures weight { result ≡ host_weight_of tables.now.setup.hosts tables.now.kept host }
    ensures few { result ≤ 450000 }
{
    let requests = u64::from(owed_requests(tables, host));
    let writes = u64::from(owed_writes(tables, host));
    let answers = u64::from(owed_answers(tables, host));
    let owed = requests + (writes + answers);
    2 * owed + 6 * u64::from(tables.lines.count(host)) + requests_weight(tables, host)
}

/// What the owed Credits and the buffered messages of all hosts add.
fn hosts_weight(tables: &Tables) -> u64
    requires { IsSteady tables.now.setup tables.now.kept }
    ensures weight { result ≡ sum_by (host_weight_of tables.now.setup.hosts tables.now.kept) (below tables.now.setup.hosts) }
    ensures few { result ≤ 450000 * tables.now.setup.hosts }
{
    let mut weight = 0;
    for host in 0..tables.setup.hosts() {
        weight += host_weight(tables, host);
    }
    weight
}

/// Whether a host is to be asked by a task and isn't Asked.
fn is_unasked(filter: &Filter, task: &Task, host: u8) -> bool
    requires lines { task.now.first + lines_in task.now.span ≤ filter.now.lines }
    requires host { host < filter.now.hosts }
    ensures { result ≡ (is_wanted filter.now.rows task.now host && not (is_asked_by host task.now)) }
{
    is_asked(filter, task.block(), task.asks_for(), host) && !task.has_asked(host)
}

/// How many hosts are to be asked by a task and aren't Asked.
fn unasked(filter: &Filter, task: &Task) -> u8
    requires { task.now.first + lines_in task.now.span ≤ filter.now.lines }
    ensures count { result ≡ count_by (λ g. is_wanted filter.now.rows task.now g && not (is_asked_by g task.now)) (below filter.now.hosts) }
    ensures few { result ≤ filter.now.hosts }
{
    let mut count = 0;
    for host in 0..filter.hosts() {
        count += u8::from(is_unasked(filter, task, host));
    }
    count
}

/// What a task of a kind over so many lines adds, with so many hosts still to be asked.
fn kind_weight(kind: TaskKind, lines: u8, unasked: u8) -> u64
    requires { lines ≤ 4 }
    ensures weight { result ≡ purpose_weight_of (purpose_seen kind) lines unasked }
    ensures few { result ≤ 22000 }
{
    let unasked = u64::from(unasked);
    match kind {
        TaskKind::SharedRead => 7 + 24 * unasked,
        TaskKind::OwningRead => 7 + 24 * unasked,
        TaskKind::Invalidation => 7 + 24 * unasked,
        TaskKind::Eviction => 1 + (4 + 20 * u64::from(lines)) * unasked,
    }
}

/// What a task adds.
fn task_weight(filter: &Filter, task: &Task) -> u64
    requires { task.now.first + lines_in task.now.span ≤ filter.now.lines }
    ensures weight { result ≡ task_weight_of filter.now.hosts filter.now.rows task.now }
    ensures few { result ≤ 22000 }
{
    kind_weight(
        task.kind(),
        span_len(task.block().span),
        unasked(filter, task),
    )
}

/// What some tasks add.
fn tasks_weight(filter: &Filter, tasks: &[Task]) -> u64
    requires placed { All (LiesWithin filter.now.lines) tasks.now }
    requires few { length tasks.now ≤ 65536 }
    ensures weight { result ≡ sum_by (task_weight_of filter.now.hosts filter.now.rows) tasks.now }
    ensures few { result ≤ 22000 * length tasks.now }
{
    let mut weight = 0;
    for task in tasks {
        weight += task_weight(filter, task);
    }
    weight
}

/// What the device adds to the weight: what it owes, its buffered messages and its tasks (own rule).
pub fn weight(tables: &Tables) -> u64
    requires { IsSteady tables.now.setup tables.now.kept }
    ensures { result ≡ weight_in tables.now.setup tables.now.kept }
{
    hosts_weight(tables) + tasks_weight(&tables.filter, tables.tasks.all())
}
