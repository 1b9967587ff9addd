// The events of decisions, written into a room: nothing is decided here, and nothing of the host changes.
ghost use Rattle.std.specs.Prelude.{◌≡◌, IsTrue, false, option_map};
ghost use Rattle.cxl_message.specs.Formed.{place_exists};
ghost use Rattle.cxl_message.specs.Opening.{zero_bytes};
ghost use Rattle.cxl_message.specs.declared.events.Cause.{Cause as TheCause};
ghost use Rattle.coherence_model.specs.HostOperations.{request_message};
ghost use Rattle.event_room.specs.Heads.{has_payload, with_payload};
ghost use Rattle.event_room.specs.Made.{begun, emitting, may_send, with_send};
ghost use Rattle.host_plans.specs.Plans.{eviction_in, planned_emission};
ghost use Rattle.host_rows.specs.Rows.{act_emission, act_line, filled_held, filled_with, row_emission, take_emission};
ghost use Rattle.host_tables.specs.Agent.{event_of};
ghost use Rattle.coherence_model.specs.HostTakes.{fill_emission};

use crate::taking::TakeRow;
use cxl_message::{Act, Bytes64, Line, Message, Meta, Op, ReqOp, SnpType, Tag};
use event_room::{EventRoom, MessageHead, MessageRef, OpRef};
use host_plans::Plan;
use host_tables::HostTables;
use line_states::Open;

/// Writes the event of an operation, by its plan, into a room.
pub(crate) fn emit_operation(
    agent: &HostTables,
    plan: Plan,
    stream: u8,
    index: u32,
    op: &Op,
    room: &mut EventRoom,
)
    requires { IsTrue (place_exists op.now) }
    ensures { room.new ≡ event_of agent.now.host (TheCause.Op stream index op.now) (planned_emission agent.now.host stream index agent.now.kept.ways op.now plan) }
{
    room.begin_op(agent.host(), stream, index, OpRef::of(op));
    match plan {
        Plan::Hit => {
            let value = op.line_after(&agent.bytes_of(op.line()));
            room.set_commit(stream, index, OpRef::of(op), &value.0);
        }
        Plan::Request { tag } => room.send(agent.host(), request(op, tag)),
        Plan::Drop { tag, .. } => room.send(agent.host(), request(op, tag)),
        Plan::Replace { victim, lower, tag } => {
            send_eviction(agent, victim, lower, room);
            room.send(agent.host(), request(op, tag));
        }
    }
}

/// The request of an operation that doesn't hit.
fn request(op: &Op, tag: Tag) -> MessageHead
    ensures plain { has_payload result ≡ false }
    ensures request { with_payload result zero_bytes ≡ request_message op.now tag.0 }
{
    let (request, meta, snp) = match op {
        Op::Load { .. } => (ReqOp::MemRd, Meta::Shared, SnpType::SnpData),
        Op::Word { .. } => (ReqOp::MemRd, Meta::Any, SnpType::SnpInv),
        Op::Whole { .. } => (ReqOp::MemInv, Meta::Any, SnpType::SnpInv),
    };
    MessageHead::Req {
        op: request,
        meta,
        snp,
        tag,
        line: op.line(),
    }
}

/// Sends the eviction of a writable copy: MemWr with its bytes where it is modified, MemClnEvct else.
fn send_eviction(agent: &HostTables, victim: Line, tag: Tag, room: &mut EventRoom)
    requires { IsTrue (may_send room.old.sends) }
    ensures { room.new ≡ with_send room.old (record { host = agent.now.host; message = eviction_in agent.now.kept.ways victim.0 tag.0 }) }
{
    let meta = Meta::Invalid;
    let snp = SnpType::NoOp;
    let line = victim;
    if agent.is_dirty(victim) {
        let bytes = agent.bytes_of(victim);
        let head = MessageHead::MemWr {
            meta,
            snp,
            tag,
            line,
        };
        let payload = &bytes.0;
        room.send_message(agent.host(), MessageRef { head, payload });
    } else {
        let head = MessageHead::Req {
            op: ReqOp::MemClnEvct,
            meta,
            snp,
            tag,
            line,
        };
        room.send(agent.host(), head);
    }
}

/// Writes the event of a take, by its row, into a room.
pub(crate) fn emit_take(
    agent: &HostTables,
    row: TakeRow,
    host: u8,
    message: &Message,
    room: &mut EventRoom,
)
    ensures { room.new ≡ event_of agent.now.host (TheCause.Take host message.now) (take_emission message.now agent.now.kept row) }
{
    room.begin_take(agent.host(), host, MessageRef::of(message));
    match message {
        Message::Ndr { tag, .. } => commit_row(row, &ZEROS, agent.open_with(*tag), room),
        Message::MemData { tag, bytes } => commit_row(row, bytes, agent.open_with(*tag), room),
        Message::BiSnp { .. } => {}
        Message::Credit { .. } => {}
        Message::Req { .. } => {}
        Message::MemWr { .. } => {}
        Message::BiConflict { .. } => {}
        Message::BiRsp { .. } => {}
    }
}

/// The bytes of a line that was never written.
const ZEROS: Bytes64 = Bytes64([0; 64]);

/// Commits what the row of a take performs, by the bytes of the message and what is open with its Tag.
fn commit_row(row: TakeRow, carried: &Bytes64, found: Option<&Open>, room: &mut EventRoom)
    requires { room.old ≡ begun room.old.agent room.old.cause }
    ensures { room.new ≡ emitting room.old (row_emission row carried.now (option_map (λ o. o.now) found.entry)).sends (row_emission row carried.now (option_map (λ o. o.now) found.entry)).commit }
{
    match row {
        TakeRow::Quiet => {}
        TakeRow::Held => commit_held(found, room),
        TakeRow::Carried => commit_with(carried, found, room),
        TakeRow::Zeros => commit_with(&ZEROS, found, room),
    }
}

/// Commits what is open, on the bytes that were taken for it before.
fn commit_held(found: Option<&Open>, room: &mut EventRoom)
    requires { room.old ≡ begun room.old.agent room.old.cause }
    ensures { room.new ≡ emitting room.old (filled_held (option_map (λ o. o.now) found.entry)).sends (filled_held (option_map (λ o. o.now) found.entry)).commit }
{
    if let Some(open) = found {
        if let Some(bytes) = &open.bytes {
            commit_open(open, bytes, room);
        }
    }
}

/// Commits what is open, on these bytes of its line.
fn commit_with(bytes: &Bytes64, found: Option<&Open>, room: &mut EventRoom)
    requires { room.old ≡ begun room.old.agent room.old.cause }
    ensures { room.new ≡ emitting room.old (filled_with bytes.now (option_map (λ o. o.now) found.entry)).sends (filled_with bytes.now (option_map (λ o. o.now) found.entry)).commit }
{
    if let Some(open) = found {
        commit_open(open, bytes, room);
    }
}

/// Commits what is open, on these bytes of its line.
fn commit_open(what: &Open, bytes: &Bytes64, room: &mut EventRoom)
    requires { room.old ≡ begun room.old.agent room.old.cause }
    ensures { room.new ≡ emitting room.old (fill_emission what.now bytes.now).sends (fill_emission what.now bytes.now).commit }
{
    let value = what.line_after(bytes);
    room.set_commit(what.stream, what.index, OpRef::of(&what.op), &value.0);
}

/// Writes the event of an act, by the head of the message that it sends, into a room.
#[tactic(auto, using(crate::proofs::Payloads::plain_same))]
pub(crate) fn emit_act(agent: &HostTables, act: &Act, head: MessageHead, room: &mut EventRoom)
    ensures { room.new ≡ event_of agent.now.host (TheCause.Act act.now) (act_emission agent.now.host act.now agent.now.kept head) }
{
    room.begin_act(agent.host(), *act);
    if head.has_payload() {
        let bytes = agent.bytes_of(line_of(act));
        let payload = &bytes.0;
        room.send_message(agent.host(), MessageRef { head, payload });
    } else {
        room.send(agent.host(), head);
    }
}

/// The line that an act of a host names.
fn line_of(act: &Act) -> Line
    ensures { result.0 ≡ act_line act.now }
{
    match act {
        Act::Conflict(line) => *line,
        Act::WriteBack(line) => *line,
        Act::Answer(line) => *line,
        Act::AnswerBlock(line) => *line,
        Act::HostReturn(_) => Line(0),
        Act::Serve { .. } => Line(0),
        Act::Clean { .. } => Line(0),
        Act::Start { .. } => Line(0),
        Act::Evict { .. } => Line(0),
        Act::Snoop { .. } => Line(0),
        Act::Finish(_) => Line(0),
        Act::DeviceReturn { .. } => Line(0),
    }
}
