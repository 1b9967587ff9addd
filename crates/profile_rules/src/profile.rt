// Rule P0: what the parts of an event name exists, and its messages are in the profile and go the right way.
ghost use Rattle.std.specs.Prelude.{◌≡◌, true, false};
ghost use Rattle.std.specs.List.{list_all};
ghost use Rattle.std.specs.Option.{option_map_or};
ghost use Rattle.cxl_message.specs.Events.{outs};
ghost use Rattle.coherence_model.specs.Fitting.{act_fits as act_fits_in, cause_fits as cause_fits_in, commit_fits as commit_fits_in, goes_to as message_goes_to, is_addressed as host_is_addressed, is_device as agent_is_device, is_host as agent_is_host, message_fits as message_fits_in, ndr_tag_exists as ndr_tag_is_there, operation_fits as operation_fits_in, out_fits as out_fits_in, span_exists as span_is_there, take_fits as take_fits_in};
ghost use Rattle.coherence_model.specs.Refusals.{cause_passes as cause_passes_in};
ghost use Rattle.coherence_model.specs.Rules.{p0_profile};

use cxl_message::{
    Act, Cause, Commit, DEVICE, Event, Line, Message, NdrOp, Op, Out, Sends, Setup, Span, Tag,
    cause_formed, in_profile, well_formed,
};

/// Whether an event keeps rule P0: it is well formed, its agent is a host of the setup or the device, what its parts
/// name exists, and its messages are in the profile and go the right way (CXL 3.1, chapter 3: the opcode tables; own
/// rule: the rest).
pub fn keeps_profile(setup: &Setup, event: &Event) -> bool
    ensures { result ≡ p0_profile setup.now event.now }
{
    well_formed(event)
        && (is_device(event.agent) || is_host(setup, event.agent))
        && cause_fits(setup, event.agent, &event.cause)
        && sends_fit(setup, event.agent, &event.sends)
        && commit_fits(setup, &event.commit)
}

/// Whether an agent may have a cause, which is what rule P0 asks of a cause by itself: its numbers are such as a record
/// can have, it is one of the agent's kind, and what it names exists (own rule).
pub fn cause_passes(setup: &Setup, agent: u8, cause: &Cause) -> bool
    ensures { result ≡ cause_passes_in setup.now agent cause.now }
{
    cause_formed(cause) && cause_fits(setup, agent, cause)
}

/// Whether an agent is the device.
fn is_device(agent: u8) -> bool
    ensures { result ≡ agent_is_device agent }
{
    agent == DEVICE
}

/// Whether an agent is a host of the setup.
fn is_host(setup: &Setup, agent: u8) -> bool
    ensures { result ≡ agent_is_host setup.now agent }
{
    agent < setup.hosts()
}

/// Whether a message of a host may go to or from the agent.
fn is_addressed(setup: &Setup, agent: u8, host: u8) -> bool
    ensures { result ≡ host_is_addressed setup.now agent host }
{
    is_host(setup, host) && (is_device(agent) || host == agent)
}

/// Whether a message goes to the agent rather than from it.
fn goes_to(agent: u8, message: &Message) -> bool
    ensures { result ≡ message_goes_to agent message.now }
{
    if is_device(agent) {
        message.channel().goes_to_device()
    } else {
        !message.channel().goes_to_device()
    }
}

/// Whether the agent may have such a cause.
fn cause_fits(setup: &Setup, agent: u8, cause: &Cause) -> bool
    ensures { result ≡ cause_fits_in setup.now agent cause.now }
{
    match cause {
        Cause::Op { stream, op, .. } => operation_fits(setup, agent, *stream, op),
        Cause::Take { host, message } => take_fits(setup, agent, *host, message),
        Cause::Act(act) => act_fits(setup, agent, act),
    }
}

/// Whether an operation is one of a stream of this host, and its line exists.
fn operation_fits(setup: &Setup, agent: u8, stream: u8, op: &Op) -> bool
    ensures { result ≡ operation_fits_in setup.now agent stream op.now }
{
    let own = match setup.stream_host(stream) {
        Some(host) => host == agent,
        None => false,
    };
    is_host(setup, agent) && own && op.line().0 < setup.lines()
}

/// Whether the agent may take such a message of a host.
fn take_fits(setup: &Setup, agent: u8, host: u8, message: &Message) -> bool
    ensures { result ≡ take_fits_in setup.now agent host message.now }
{
    is_addressed(setup, agent, host)
        && goes_to(agent, message)
        && in_profile(message)
        && message_fits(setup, message)
}

/// Whether the agent may send such messages.
fn sends_fit(setup: &Setup, agent: u8, sends: &Sends) -> bool
    ensures { result ≡ list_all (out_fits_in setup.now agent) (outs sends.now) }
{
    match sends {
        Sends::Nothing => true,
        Sends::One(out) => out_fits(setup, agent, out),
        Sends::Two(first, second) => {
            out_fits(setup, agent, first) && out_fits(setup, agent, second)
        }
    }
}

/// Whether the agent may send such a message.
fn out_fits(setup: &Setup, agent: u8, out: &Out) -> bool
    ensures { result ≡ out_fits_in setup.now agent out.now }
{
    is_addressed(setup, agent, out.host)
        && !goes_to(agent, &out.message)
        && in_profile(&out.message)
        && message_fits(setup, &out.message)
}

/// Whether the line of a commit exists, if there is a commit.
fn commit_fits(setup: &Setup, commit: &Option<Commit>) -> bool
    ensures { result ≡ option_map_or (commit_fits_in setup.now) commit.now true }
{
    match commit {
        Some(commit) => commit.op.line().0 < setup.lines(),
        None => true,
    }
}

/// Whether the setup has the tags, lines and spans that a message names.
fn message_fits(setup: &Setup, message: &Message) -> bool
    ensures { result ≡ message_fits_in setup.now message.now }
{
    match message {
        Message::Req { tag, line, .. } => tag_exists(setup, *tag) && line_exists(setup, *line),
        Message::MemWr { tag, line, .. } => {
            write_tag_exists(setup, *tag) && line_exists(setup, *line)
        }
        Message::BiConflict { tag } => tag_exists(setup, *tag),
        Message::BiRsp { .. } => true,
        Message::Ndr { op, tag } => ndr_tag_exists(setup, *op, *tag),
        Message::MemData { tag, .. } => tag_exists(setup, *tag),
        Message::BiSnp { line, span, .. } => span_exists(setup, *line, *span),
        Message::Credit { .. } => true,
    }
}

/// Whether an act is one of the agent's kind, and the host, the line and the tag that it names exist.
fn act_fits(setup: &Setup, agent: u8, act: &Act) -> bool
    ensures { result ≡ act_fits_in setup.now agent act.now }
{
    match act {
        Act::Conflict(line) => is_host(setup, agent) && line_exists(setup, *line),
        Act::WriteBack(line) => is_host(setup, agent) && line_exists(setup, *line),
        Act::Answer(line) => is_host(setup, agent) && line_exists(setup, *line),
        Act::AnswerBlock(line) => is_host(setup, agent) && line_exists(setup, *line),
        Act::HostReturn(_) => is_host(setup, agent),
        Act::Serve { host, tag } => {
            is_device(agent) && is_host(setup, *host) && write_tag_exists(setup, *tag)
        }
        Act::Clean { host, tag } => {
            is_device(agent) && is_host(setup, *host) && tag_exists(setup, *tag)
        }
        Act::Start { host, tag } => {
            is_device(agent) && is_host(setup, *host) && tag_exists(setup, *tag)
        }
        Act::Evict { host, tag } => {
            is_device(agent) && is_host(setup, *host) && tag_exists(setup, *tag)
        }
        Act::Snoop { host, line } => {
            is_device(agent) && is_host(setup, *host) && line_exists(setup, *line)
        }
        Act::Finish(line) => is_device(agent) && line_exists(setup, *line),
        Act::DeviceReturn { host, .. } => is_device(agent) && is_host(setup, *host),
    }
}

ghost use Rattle.coherence_model.specs.Fitting.{line_exists as line_is_there, tag_exists as tag_is_there, write_tag_exists as write_tag_is_there};

/// Whether a line exists.
fn line_exists(setup: &Setup, line: Line) -> bool
    ensures { result ≡ line_is_there setup.now line }
{
    line.0 < setup.lines()
}

/// Whether a tag is one of a request's.
fn tag_exists(setup: &Setup, tag: Tag) -> bool
    ensures { result ≡ tag_is_there setup.now tag }
{
    tag.0 < u32::from(setup.tags())
}

/// Whether a tag is one of a write's.
fn write_tag_exists(setup: &Setup, tag: Tag) -> bool
    ensures { result ≡ write_tag_is_there setup.now tag }
{
    tag.0 <= u32::from(setup.tags())
}

/// Whether an NDR message may have a tag.
fn ndr_tag_exists(setup: &Setup, op: NdrOp, tag: Tag) -> bool
    ensures { result ≡ ndr_tag_is_there setup.now op tag }
{
    match op {
        NdrOp::Cmp => write_tag_exists(setup, tag),
        NdrOp::CmpS => tag_exists(setup, tag),
        NdrOp::CmpE => tag_exists(setup, tag),
        NdrOp::ConflictAck => tag_exists(setup, tag),
    }
}

/// Whether the lines of a span exist and its first line is a multiple of it.
fn span_exists(setup: &Setup, line: Line, span: Span) -> bool
    ensures { result ≡ span_is_there setup.now line span }
{
    let lines = u64::from(line.0);
    match span {
        Span::One => lines + 1 <= u64::from(setup.lines()) && line.0 % 1 == 0,
        Span::Two => lines + 2 <= u64::from(setup.lines()) && line.0 % 2 == 0,
        Span::Four => lines + 4 <= u64::from(setup.lines()) && line.0 % 4 == 0,
    }
}
