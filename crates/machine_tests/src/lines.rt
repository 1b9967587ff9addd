// Events as the lines of rows.
use crate::words::{Word, act_words, add, host_word, message_words, operation_words};
use cxl_message::{Act, Cause, Commit, DEVICE, Event, Message, NdrOp, Out, RuleNo, Sends};
use std::alloc::{AllocError, Global};

/// An event as a line of a row.
pub fn line_of(alloc: Global, event: &Event) -> Result<String, AllocError> {
    let row = row_of(event);
    let mut line = format!(in alloc; "{row:?}")?;
    add(&mut line, &[agent_word(event.agent)])?;
    add_cause(&mut line, &event.cause)?;
    add_sends(&mut line, &event.sends)?;
    add_commit(&mut line, &event.commit)?;
    Ok(line)
}

fn agent_word(agent: u8) -> Word {
    if agent == DEVICE {
        Word::Name("dev")
    } else {
        host_word(agent)
    }
}

/// The row by which an event goes: an operation that commits at once hits.
pub fn row_of(event: &Event) -> RuleNo {
    match &event.cause {
        Cause::Op { .. } if event.commit.is_some() => RuleNo::H1,
        Cause::Op { .. } => RuleNo::H2,
        Cause::Take { message, .. } => take_row(event.agent, message),
        Cause::Act(act) => act_row(act),
    }
}

fn take_row(agent: u8, message: &Message) -> RuleNo {
    match message {
        Message::Credit { .. } if agent != DEVICE => RuleNo::H6,
        Message::Credit { .. }
        | Message::Req { .. }
        | Message::MemWr { .. }
        | Message::BiConflict { .. } => RuleNo::V1,
        Message::BiRsp { .. } => RuleNo::V2,
        Message::Ndr {
            op: NdrOp::ConflictAck,
            ..
        } => RuleNo::H5,
        Message::Ndr { .. } | Message::MemData { .. } => RuleNo::H3,
        Message::BiSnp { .. } => RuleNo::H4,
    }
}

fn act_row(act: &Act) -> RuleNo {
    match act {
        Act::Conflict(_) => RuleNo::H7,
        Act::WriteBack(_) => RuleNo::H8,
        Act::Answer(_) | Act::AnswerBlock(_) => RuleNo::H9,
        Act::HostReturn(_) => RuleNo::H10,
        Act::Serve { .. } => RuleNo::V3,
        Act::Clean { .. } => RuleNo::V4,
        Act::Start { .. } => RuleNo::V5,
        Act::Evict { .. } => RuleNo::V6,
        Act::Snoop { .. } => RuleNo::V7,
        Act::Finish(_) => RuleNo::V8,
        Act::DeviceReturn { .. } => RuleNo::V9,
    }
}

fn add_cause(text: &mut String, cause: &Cause) -> Result<(), AllocError> {
    match cause {
        Cause::Op { stream, index, op } => add(text, &operation_words(*stream, *index, op)),
        Cause::Take { host, message } => add_message(text, "take", *host, message),
        Cause::Act(act) => {
            add(text, &[Word::Name("act")])?;
            add(text, &act_words(act))
        }
    }
}

fn add_message(
    text: &mut String,
    mark: &'static str,
    host: u8,
    message: &Message,
) -> Result<(), AllocError> {
    add(text, &[Word::Name(mark), host_word(host)])?;
    add(text, &message_words(message))
}

fn add_sends(text: &mut String, sends: &Sends) -> Result<(), AllocError> {
    match sends {
        Sends::Nothing => Ok(()),
        Sends::One(out) => add_out(text, out),
        Sends::Two(first, second) => {
            add_out(text, first)?;
            add_out(text, second)
        }
    }
}

fn add_out(text: &mut String, out: &Out) -> Result<(), AllocError> {
    add_message(text, ">", out.host, &out.message)
}

fn add_commit(text: &mut String, commit: &Option<Commit>) -> Result<(), AllocError> {
    let Some(commit) = commit else {
        return Ok(());
    };
    add(text, &[Word::Name("=")])?;
    add(
        text,
        &operation_words(commit.stream, commit.index, &commit.op),
    )?;
    add(text, &[Word::Bytes("gives ", commit.value)])
}
