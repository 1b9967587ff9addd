// Rows H7 to H10: the head of the message that an act sends.
ghost use Rattle.std.specs.List.{list_all};
ghost use Rattle.std.specs.Prelude.{◌≡◌, is_some, option_map};
ghost use Rattle.cxl_message.specs.declared.events.Act.{Act as TheAct};
ghost use Rattle.event_room.specs.Heads.{with_payload};
ghost use Rattle.host_rows.specs.Rows.{act_emission};
ghost use Rattle.host_tables.specs.Kept.{IsOwed};
ghost use Rattle.coherence_model.specs.HostActs.{is_data_snoop as asks_for_data, write_back_meta as meta_of_write_back};
ghost use Rattle.cxl_message.specs.Codes.{span_len};
ghost use Rattle.std.specs.Prelude.{◌==◌, ◌&&◌, ◌||◌, Some, not, true};
ghost use Rattle.cxl_message.specs.Lists.{is_in};
ghost use Rattle.host_rows.specs.Messages.{answer_of, write_back_of};
ghost use Rattle.host_record.specs.Ways.{copy_in};
ghost use Rattle.host_record.specs.HostRecord.{view_in};
ghost use Rattle.host_record.specs.ViewRows.{acts_by, answer_block_by, answer_by, block_at, block_by, conflict_by, in_block_by, is_ready_by, response_by, return_by, snoop_of_line, write_back_by};

use cxl_message::{Act, Channel, Line, Meta, RspOp, SnpOp, SnpType, Span};
use event_room::MessageHead;
use held_snoops::HeldSnoop;
use host_tables::HostTables;

/// The head of the message that an act sends, or None where its row doesn't hold, credits aside: the act's decision, made once.
/// A write-back's payload is the bytes of its line's copy. The acts of the device are none of a host's.
#[tactic(auto, using(crate::proofs::Passing::owed_some))]
pub fn act_row(agent: &HostTables, act: &Act) -> Option<MessageHead>
    ensures row { option_map (act_emission agent.now.host act.now agent.now.kept) result ≡ acts_by agent.now.setup agent.now.host act.now (view_in agent.now.kept) }
    ensures owed { is_some result ≡ true → IsOwed act.now agent.now.kept }
{
    match act {
        Act::Conflict(line) => declares(agent, *line),
        Act::WriteBack(line) => writes_back(agent, *line),
        Act::Answer(line) => answers(agent, *line),
        Act::AnswerBlock(line) => answers_block(agent, *line),
        Act::HostReturn(channel) => returns(agent, *channel),
        Act::Serve { .. } => None,
        Act::Clean { .. } => None,
        Act::Start { .. } => None,
        Act::Evict { .. } => None,
        Act::Snoop { .. } => None,
        Act::Finish(_) => None,
        Act::DeviceReturn { .. } => None,
    }
}

/// H7: the conflict of a snooped line, with the Tag of what is open for it.
fn declares(agent: &HostTables, line: Line) -> Option<MessageHead>
    ensures { option_map (act_emission agent.now.host (TheAct.Conflict line) agent.now.kept) result ≡ conflict_by agent.now.host line.0 (view_in agent.now.kept) ((view_in agent.now.kept).open_at line.0) }
{
    match agent.open_at(line) {
        None => None,
        Some(open) => {
            if agent.is_snooped(line) && agent.stage(line).is_new() && open.kind.may_conflict() {
                Some(MessageHead::BiConflict { tag: open.tag })
            } else {
                None
            }
        }
    }
}

/// H8: the write-back of a snooped line, by its snoop.
fn writes_back(agent: &HostTables, line: Line) -> Option<MessageHead>
    ensures { option_map (act_emission agent.now.host (TheAct.WriteBack line) agent.now.kept) result ≡ write_back_by agent.now.setup agent.now.host line.0 (view_in agent.now.kept) (snoop_of_line (view_in agent.now.kept).snoops line.0) }
{
    match agent.snoop_of(line) {
        None => None,
        Some(snoop) => {
            if agent.stage(line).is_new_or_late()
                && !agent.opens(line)
                && agent.is_dirty(line)
                && !agent.is_writing()
            {
                Some(write_back(agent, line, snoop.op()))
            } else {
                None
            }
        }
    }
}

/// The message of a write-back, with the write-back Tag.
fn write_back(agent: &HostTables, line: Line, op: SnpOp) -> MessageHead
    ensures { with_payload result (copy_in agent.now.kept.ways line.0).bytes ≡ write_back_of agent.now.setup op line (copy_in agent.now.kept.ways line.0) }
{
    MessageHead::MemWr {
        meta: write_back_meta(op),
        snp: SnpType::NoOp,
        tag: agent.write_back_tag(),
        line,
    }
}

/// H9: the answer for a snooped line, by its snoop.
fn answers(agent: &HostTables, line: Line) -> Option<MessageHead>
    ensures { option_map (act_emission agent.now.host (TheAct.Answer line) agent.now.kept) result ≡ answer_by agent.now.host line.0 (view_in agent.now.kept) (snoop_of_line (view_in agent.now.kept).snoops line.0) }
{
    match agent.snoop_of(line) {
        Some(snoop) => answers_for(agent, snoop, line),
        None => None,
    }
}

/// H9: the answer for a line of a snoop.
fn answers_for(agent: &HostTables, snoop: &HeldSnoop, line: Line) -> Option<MessageHead>
    requires { is_in line.0 snoop.now.unanswered ≡ true }
    ensures { option_map (act_emission agent.now.host (TheAct.Answer line) agent.now.kept) result ≡ answer_by agent.now.host line.0 (view_in agent.now.kept) (Some snoop.now) }
{
    if is_answered_alone(agent, snoop, line) {
        Some(answer_for(agent, snoop, line))
    } else {
        None
    }
}

/// Whether a line of a snoop is ready, and is answered by itself: not with a whole block.
fn is_answered_alone(agent: &HostTables, snoop: &HeldSnoop, line: Line) -> bool
    ensures { result ≡ (is_ready_by (view_in agent.now.kept) line.0 && ((span_len snoop.now.span == 1) || not (block_by (view_in agent.now.kept) snoop.now.first))) }
{
    is_ready(agent, line) && (is_single(snoop.span()) || !may_answer_block(agent, snoop.first()))
}

/// The message of an answer for a line of a snoop.
fn answer_for(agent: &HostTables, snoop: &HeldSnoop, line: Line) -> MessageHead
    requires { is_in line.0 snoop.now.unanswered ≡ true }
    ensures { with_payload result (copy_in agent.now.kept.ways line.0).bytes ≡ answer_of (response_by snoop.now.op line.0 (view_in agent.now.kept)) snoop.now.first line.0 }
{
    MessageHead::BiRsp {
        op: response(agent, snoop.op(), line),
        bitag: snoop.bitag(),
        low: snoop.low(line),
    }
}

/// Whether a snooped line needs nothing more before its answer.
fn is_ready(agent: &HostTables, line: Line) -> bool
    ensures { result ≡ is_ready_by (view_in agent.now.kept) line.0 }
{
    let stage = agent.stage(line);
    stage.is_early_or_written()
        || (stage.is_new_or_late() && !agent.opens(line) && !agent.is_dirty(line))
}

/// Whether a line of a whole block may be answered with the others.
fn may_answer_in_block(agent: &HostTables, line: Line) -> bool
    ensures { result ≡ in_block_by (view_in agent.now.kept) line.0 }
{
    agent.stage(line).is_new() && !agent.opens(line) && !agent.is_dirty(line)
}

/// Whether each line of a snoop without an answer may be answered with the others.
fn may_answer_all(agent: &HostTables, snoop: &HeldSnoop) -> bool
    ensures { result ≡ list_all (in_block_by (view_in agent.now.kept)) snoop.now.unanswered }
{
    let lines = snoop.lines();
    lines
        .iter()
        .all(|line| may_answer_in_block(agent, Line(*line)))
}

/// Whether the block with this first line may be answered at once.
fn may_answer_block(agent: &HostTables, first: Line) -> bool
    ensures { result ≡ block_by (view_in agent.now.kept) first.0 }
{
    match agent.whole_block(first) {
        Some(snoop) => may_answer_all(agent, snoop),
        None => false,
    }
}

/// The answer for one line: BIRspS keeps a shared copy, BIRspI gives it up.
fn response(agent: &HostTables, op: SnpOp, line: Line) -> RspOp
    ensures { result ≡ response_by op line.0 (view_in agent.now.kept) }
{
    if is_data_snoop(op) && !agent.stage(line).is_early() && agent.has_copy(line) {
        RspOp::S
    } else {
        RspOp::I
    }
}

/// H9: the answer for a whole block.
fn answers_block(agent: &HostTables, first: Line) -> Option<MessageHead>
    ensures { option_map (act_emission agent.now.host (TheAct.AnswerBlock first) agent.now.kept) result ≡ answer_block_by agent.now.host first.0 (view_in agent.now.kept) }
{
    match agent.whole_block(first) {
        Some(snoop) => {
            if may_answer_all(agent, snoop) {
                Some(MessageHead::BiRsp {
                    op: RspOp::IBlk,
                    bitag: snoop.bitag(),
                    low: 0,
                })
            } else {
                None
            }
        }
        None => None,
    }
}

/// H10: a Credit is given back, where one is owed.
fn returns(agent: &HostTables, channel: Channel) -> Option<MessageHead>
    ensures { option_map (act_emission agent.now.host (TheAct.HostReturn channel) agent.now.kept) result ≡ return_by agent.now.host channel (view_in agent.now.kept) }
{
    if agent.owed(channel) >= 1 {
        Some(MessageHead::Credit { channel })
    } else {
        None
    }
}

/// Whether an opcode is BISnpData.
fn is_data_snoop(op: SnpOp) -> bool
    ensures { result ≡ asks_for_data op }
{
    match op {
        SnpOp::Dat => true,
        SnpOp::Cur | SnpOp::Inv | SnpOp::CurBlk | SnpOp::DatBlk | SnpOp::InvBlk => false,
    }
}

/// The Meta0-State that a write-back carries: Shared for BISnpData, Invalid otherwise.
fn write_back_meta(op: SnpOp) -> Meta
    ensures { result ≡ meta_of_write_back op }
{
    if is_data_snoop(op) {
        Meta::Shared
    } else {
        Meta::Invalid
    }
}

/// Whether a span is of one line.
fn is_single(span: Span) -> bool
    ensures { result ≡ (span_len span == 1) }
{
    match span {
        Span::One => true,
        Span::Two | Span::Four => false,
    }
}
