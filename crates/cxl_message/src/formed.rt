// Well-formed events: those whose numbers a record of a trace can have.
ghost use Rattle.std.specs.List.{list_all};
ghost use Rattle.std.specs.Prelude.{◌≡◌, true};
ghost use Rattle.std.specs.Option.{option_map_or};
ghost use Rattle.cxl_message.specs.Events.{outs};
ghost use Rattle.cxl_message.specs.Formed.{is_block_snoop as is_block_opcode, span_fits as opcode_span_fits, message_formed as is_message_formed, act_formed as is_act_formed, cause_formed as is_cause_formed, out_formed as is_out_formed, commit_formed as is_commit_formed, well_formed as is_well_formed};

use crate::events::{Act, Cause, Commit, Event, Out, Sends};
use crate::limits::{DEVICE, MAX_HOSTS, MAX_SPAN, MAX_STREAMS};
use crate::messages::Message;
use crate::opcodes::{SnpOp, Span};

/// Whether the numbers of an event are such as a record of a trace can have: the agent is at most 16, each host below
/// 16, each `low` below 4, each `place` below 8, each stream below 64, a Credit and a Return name one of the first six
/// channels, a single snoop has span One and a block snoop Two or Four (own rule).
pub fn well_formed(event: &Event) -> bool
    ensures { result ≡ is_well_formed event.now }
{
    event.agent <= DEVICE
        && cause_formed(&event.cause)
        && sends_formed(&event.sends)
        && commit_formed(&event.commit)
}

/// Whether the numbers of a cause are such as a record can have: those of a well-formed event's cause (own rule).
pub fn cause_formed(cause: &Cause) -> bool
    ensures { result ≡ is_cause_formed cause.now }
{
    match cause {
        Cause::Op { stream, op, .. } => *stream < MAX_STREAMS && op.place_exists(),
        Cause::Take { host, message } => *host < MAX_HOSTS && message_formed(message),
        Cause::Act(act) => act_formed(act),
    }
}

/// Whether the numbers of the messages sent are such as a record can have.
fn sends_formed(sends: &Sends) -> bool
    ensures { result ≡ list_all is_out_formed (outs sends.now) }
{
    match sends {
        Sends::Nothing => true,
        Sends::One(out) => out_formed(out),
        Sends::Two(first, second) => out_formed(first) && out_formed(second),
    }
}

/// Whether the numbers of a sent message are such as a record can have.
fn out_formed(out: &Out) -> bool
    ensures { result ≡ is_out_formed out.now }
{
    out.host < MAX_HOSTS && message_formed(&out.message)
}

/// Whether the numbers of a commit, if there is one, are such as a record can have.
fn commit_formed(commit: &Option<Commit>) -> bool
    ensures { result ≡ option_map_or is_commit_formed commit.now true }
{
    match commit {
        Some(commit) => commit.stream < MAX_STREAMS && commit.op.place_exists(),
        None => true,
    }
}

/// Whether the numbers of a message are such as a record can have.
fn message_formed(message: &Message) -> bool
    ensures { result ≡ is_message_formed message.now }
{
    match message {
        Message::BiRsp { low, .. } => *low < MAX_SPAN,
        Message::BiSnp { op, span, .. } => span_fits(is_block_snoop(*op), *span),
        Message::Credit { channel } => channel.has_credits(),
        Message::Req { .. } => true,
        Message::MemWr { .. } => true,
        Message::BiConflict { .. } => true,
        Message::Ndr { .. } => true,
        Message::MemData { .. } => true,
    }
}

/// Whether the host and the channel of an act are such as a record can have.
fn act_formed(act: &Act) -> bool
    ensures { result ≡ is_act_formed act.now }
{
    match act {
        Act::Conflict(_) => true,
        Act::WriteBack(_) => true,
        Act::Answer(_) => true,
        Act::AnswerBlock(_) => true,
        Act::HostReturn(channel) => channel.has_credits(),
        Act::Serve { host, .. } => *host < MAX_HOSTS,
        Act::Clean { host, .. } => *host < MAX_HOSTS,
        Act::Start { host, .. } => *host < MAX_HOSTS,
        Act::Evict { host, .. } => *host < MAX_HOSTS,
        Act::Snoop { host, .. } => *host < MAX_HOSTS,
        Act::Finish(_) => true,
        Act::DeviceReturn { host, channel } => *host < MAX_HOSTS && channel.has_credits(),
    }
}

/// Whether a snoop's opcode is that of a block.
fn is_block_snoop(op: SnpOp) -> bool
    ensures { result ≡ is_block_opcode op }
{
    match op {
        SnpOp::CurBlk | SnpOp::DatBlk | SnpOp::InvBlk => true,
        SnpOp::Cur | SnpOp::Dat | SnpOp::Inv => false,
    }
}

/// Whether the span is one that a block snoop, or a single one, may have.
fn span_fits(is_block: bool, span: Span) -> bool
    ensures { result ≡ opcode_span_fits is_block span }
{
    match span {
        Span::One => !is_block,
        Span::Two | Span::Four => is_block,
    }
}
