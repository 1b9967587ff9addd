// An event with one field changed, and the rule that it breaks then.
use crate::lines::row_of;
use cxl_message::{
    Act, Bytes64, Cause, Channel, Commit, DEVICE, Event, Line, Message, Op, Out, RuleNo, Sends, Tag,
};

/// The event with its agent, its sends, its commit or its cause changed, in a setup of so many lines and Tags, each with the rule that it
/// breaks.
pub fn changed(event: &Event, lines: u32, tags: u16) -> [(Event, RuleNo); 4] {
    let agent = if event.agent == DEVICE { 0 } else { DEVICE };
    let (cause, rule) = other_cause(event, lines, tags);
    [
        (Event { agent, ..*event }, RuleNo::P0),
        (with_other_sends(event), row_of(event)),
        (with_other_commit(event), row_of(event)),
        (Event { cause, ..*event }, rule),
    ]
}

/// The event with fewer sends, or where it has none with a Credit that its agent may send.
fn with_other_sends(event: &Event) -> Event {
    let (host, channel) = if event.agent == DEVICE {
        (0, Channel::Req)
    } else {
        (event.agent, Channel::Ndr)
    };
    let message = Message::Credit { channel };
    let sends = match event.sends {
        Sends::Nothing => Sends::One(Out { host, message }),
        Sends::One(_) => Sends::Nothing,
        Sends::Two(first, _) => Sends::One(first),
    };
    Event { sends, ..*event }
}

/// The event without its commit, or where it has none with one of a load.
fn with_other_commit(event: &Event) -> Event {
    let load = Commit {
        stream: 0,
        index: 0,
        op: Op::Load { line: Line(0) },
        value: Bytes64([0; 64]),
    };
    let commit = match event.commit {
        Some(_) => None,
        None => Some(load),
    };
    Event { commit, ..*event }
}

/// Another cause in the place of the event's, and the rule that the event breaks with it: an operation out of order, a message that isn't in
/// flight, or an act that isn't due.
fn other_cause(event: &Event, lines: u32, tags: u16) -> (Cause, RuleNo) {
    match event.cause {
        Cause::Op { stream, index, op } => {
            let index = if index == 0 { 1 } else { 0 };
            (Cause::Op { stream, index, op }, RuleNo::S0)
        }
        Cause::Take { host, message } => match with_other_tag(&message, tags) {
            Some(message) => (Cause::Take { host, message }, RuleNo::K0),
            None => other_act(event, lines),
        },
        Cause::Act(_) => other_act(event, lines),
    }
}

/// The message with another Tag, if it has one.
fn with_other_tag(message: &Message, tags: u16) -> Option<Message> {
    match *message {
        Message::Req {
            op,
            meta,
            snp,
            tag,
            line,
        } => Some(Message::Req {
            op,
            meta,
            snp,
            tag: other_tag(tag, tags),
            line,
        }),
        Message::MemWr {
            meta,
            snp,
            tag,
            line,
            bytes,
        } => Some(Message::MemWr {
            meta,
            snp,
            tag: other_tag(tag, tags),
            line,
            bytes,
        }),
        Message::BiConflict { tag } => Some(Message::BiConflict {
            tag: other_tag(tag, tags),
        }),
        Message::Ndr { op, tag } => Some(Message::Ndr {
            op,
            tag: other_tag(tag, tags),
        }),
        Message::MemData { tag, bytes } => Some(Message::MemData {
            tag: other_tag(tag, tags),
            bytes,
        }),
        Message::BiRsp { .. } | Message::BiSnp { .. } | Message::Credit { .. } => None,
    }
}

/// Tag 0, or Tag 1 in the place of it.
fn other_tag(tag: Tag, tags: u16) -> Tag {
    if tag.0 == 0 && tags > 1 {
        Tag(1)
    } else {
        Tag(0)
    }
}

/// An act of the agent for the last line that isn't due, and its row.
fn other_act(event: &Event, lines: u32) -> (Cause, RuleNo) {
    let last = Line(lines.saturating_sub(1));
    let (act, row, other, other_row) = if event.agent == DEVICE {
        let serve = Act::Serve {
            host: 0,
            tag: Tag(0),
        };
        (Act::Finish(last), RuleNo::V8, serve, RuleNo::V3)
    } else {
        (
            Act::Conflict(last),
            RuleNo::H7,
            Act::Answer(last),
            RuleNo::H9,
        )
    };
    if event.cause == Cause::Act(act) {
        (Cause::Act(other), other_row)
    } else {
        (Cause::Act(act), row)
    }
}
