// The rows of a task: its answers, its snoops and its end.
ghost use Rattle.std.specs.Prelude.{◌≡◌, ◌+◌, ◌<◌, ◌≤◌, ◌==◌, ◌&&◌, IfSome, length, not, option_map};
ghost use Rattle.cxl_message.specs.Codes.{span_len};
ghost use Rattle.coherence_model.specs.DeviceActs.{finish_emission, snoop_op};
ghost use Rattle.coherence_model.specs.Snoops.{invalidates_block};
ghost use Rattle.coherence_model.specs.Words.{when};
ghost use Rattle.device_record.specs.Answers.{grant_in, is_answer_to as is_answer_to_in, is_asked_by, is_finished as is_finished_in, is_wanted, reads_shared as is_shared_read, snoop_row as snoop_row_in};
ghost use Rattle.device_record.specs.Record.{bytes_in};
ghost use Rattle.device_state.specs.Decisions.{HasLine, emission_by};
ghost use Rattle.device_state.specs.declared.decisions.Decision.{Decision as DecisionOf};
ghost use Rattle.device_tables.specs.Tasks.{purpose_seen};
ghost use Rattle.snoop_filter.specs.Rows.{is_some_listing, listed_in};

use block_snoop::is_asked;
use cxl_message::{BiTag, Listing, NdrOp, RspOp, SnpOp, Span};
use device_state::{Decision, Tables};
use device_tables::{Task, TaskKind};
use snoop_filter::Filter;

/// V8: a task by which no host is Asked or to be asked.
pub fn finish_row(tables: &Tables, task: &Task) -> Option<Decision>
    requires lines { task.now.first + span_len task.now.span ≤ tables.now.kept.filter.lines }
    requires memory { task.now.first < length tables.now.kept.memory }
    ensures sends { option_map (emission_by tables.now.kept.memory) result ≡ when (is_finished_in tables.now.kept.filter.hosts tables.now.kept.filter.rows task.now) (finish_emission task.now.purpose (grant_in tables.now.kept.filter.hosts tables.now.kept.filter.rows task.now) task.now.host task.now.tag (bytes_in tables.now.kept.memory task.now.first)) }
    ensures line { IfSome result (HasLine tables.now.kept.memory) }
{
    if !is_finished(&tables.filter, task) {
        return None;
    }
    match task.kind() {
        TaskKind::SharedRead => Some(granted(task, shared_grant(&tables.filter, task))),
        TaskKind::OwningRead => Some(granted(task, NdrOp::CmpE)),
        TaskKind::Invalidation => Some(Decision::Completion {
            host: task.host(),
            op: NdrOp::CmpE,
            tag: task.tag(),
        }),
        TaskKind::Eviction => Some(Decision::Nothing),
    }
}

/// A grant with the data of the first line of a task.
fn granted(task: &Task, op: NdrOp) -> Decision
    ensures { result ≡ DecisionOf.Grant task.now.host op (record { 0 = task.now.tag }) (record { 0 = task.now.first }) }
{
    Decision::Grant {
        host: task.host(),
        op,
        tag: task.tag(),
        line: task.block().first,
    }
}

/// Whether a listing is S or A.
fn is_listed(listing: Listing) -> bool
    ensures { result ≡ is_some_listing listing }
{
    match listing {
        Listing::I => false,
        Listing::S => true,
        Listing::A => true,
    }
}

/// Whether an answer for the line `low` lines after the first answers a task's snoop to a host.
pub fn is_answer_to(op: RspOp, host: u8, low: u8, task: &Task) -> bool
    ensures { result ≡ is_answer_to_in op host (task.now.first + low) task.now }
{
    let mut left = task.left_of(host);
    match op {
        RspOp::I => left.answer_line(low),
        RspOp::S => left.answer_line(low) && reads_shared(task.kind()),
        RspOp::IBlk => is_block(task) && left.answer_all(),
        RspOp::E => false,
        RspOp::SBlk => false,
        RspOp::EBlk => false,
    }
}

/// Whether a task is for a shared read.
fn reads_shared(kind: TaskKind) -> bool
    ensures { result ≡ is_shared_read (purpose_seen kind) }
{
    match kind {
        TaskKind::SharedRead => true,
        TaskKind::OwningRead => false,
        TaskKind::Invalidation => false,
        TaskKind::Eviction => false,
    }
}

/// The opcode of a task's snoop (CXL 3.1, chapter 3: BISnp).
fn snoop_of(kind: TaskKind, span: Span) -> SnpOp
    ensures { result ≡ snoop_op (purpose_seen kind) span }
{
    match kind {
        TaskKind::SharedRead => SnpOp::Dat,
        _ => match span {
            Span::One => SnpOp::Inv,
            Span::Two => SnpOp::InvBlk,
            Span::Four => SnpOp::InvBlk,
        },
    }
}

/// Whether a task's snoop takes back a block.
fn is_block(task: &Task) -> bool
    ensures { result ≡ invalidates_block (snoop_op task.now.purpose task.now.span) }
{
    match snoop_of(task.kind(), task.block().span) {
        SnpOp::InvBlk => true,
        _ => false,
    }
}

/// V7: a host that is to be asked by a task and isn't Asked.
pub fn snoop_row(tables: &Tables, host: u8, task: &Task) -> Option<Decision>
    requires lines { task.now.first + span_len task.now.span ≤ tables.now.kept.filter.lines }
    requires few { tables.now.kept.filter.lines ≤ 65536 }
    requires host { host < tables.now.kept.filter.hosts }
    ensures sends { option_map (emission_by tables.now.kept.memory) result ≡ snoop_row_in host tables.now.kept.filter.rows task.now }
    ensures line { IfSome result (HasLine tables.now.kept.memory) }
{
    if !is_asked(&tables.filter, task.block(), task.asks_for(), host) {
        return None;
    }
    if task.has_asked(host) {
        return None;
    }
    let line = task.block().first;
    Some(Decision::Snoop {
        host,
        op: snoop_of(task.kind(), task.block().span),
        bitag: BiTag(line.0 as u16),
        line,
        span: task.block().span,
    })
}

/// V8: whether no host is Asked by a task or to be asked.
pub fn is_finished(filter: &Filter, task: &Task) -> bool
    requires lines { task.now.first + span_len task.now.span ≤ filter.now.lines }
    ensures { result ≡ is_finished_in filter.now.hosts filter.now.rows task.now }
{
    for host in 0..filter.hosts() {
        if concerns(filter, task, host) {
            return false;
        }
    }
    true
}

/// Whether a host is Asked by a task or to be asked.
fn concerns(filter: &Filter, task: &Task, host: u8) -> bool
    requires lines { task.now.first + span_len task.now.span ≤ filter.now.lines }
    requires host { host < filter.now.hosts }
    ensures { not result ≡ (not (is_asked_by host task.now) && not (is_wanted filter.now.rows task.now host)) }
{
    task.has_asked(host) || is_asked(filter, task.block(), task.asks_for(), host)
}

/// The grant of a shared read: Cmp-S where another host is listed.
pub fn shared_grant(filter: &Filter, task: &Task) -> NdrOp
    requires lines { task.now.first < filter.now.lines }
    ensures { result ≡ grant_in filter.now.hosts filter.now.rows task.now }
{
    for host in 0..filter.hosts() {
        if shares(filter, task, host) {
            return NdrOp::CmpS;
        }
    }
    NdrOp::CmpE
}

/// Whether a host is another one than a task's, and is listed for its first line.
fn shares(filter: &Filter, task: &Task, host: u8) -> bool
    requires line { task.now.first < filter.now.lines }
    requires host { host < filter.now.hosts }
    ensures { result ≡ (not (task.now.host == host) && is_some_listing (listed_in task.now.first host filter.now.rows)) }
{
    task.host() != host && is_listed(filter.listed(task.block().first, host))
}
