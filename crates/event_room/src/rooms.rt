// The room of one event.
ghost use Rattle.std.specs.Prelude.{◌≡◌};
ghost use Rattle.event_room.specs.Made.{blank_event};

use crate::messages::MessageHead;
use crate::operations::OpHead;
use cxl_message::{Act, Channel, Line};
use std::marker::Model;

/// The cause of an event without payloads (own rule).
#[derive(Clone, Copy)]
pub enum CauseHead {
    Op { stream: u8, index: u32, op: OpHead },
    Take { host: u8, head: MessageHead },
    Act(Act),
}

/// A sent message without its payload (own rule).
#[derive(Clone, Copy)]
pub struct OutHead {
    /// The host that sends or gets it, below 16.
    pub host: u8,
    /// The message, but for its payload.
    pub head: MessageHead,
}

/// A commit without payloads (own rule).
#[derive(Clone, Copy)]
pub struct CommitHead {
    /// The stream, below 64.
    pub stream: u8,
    /// The operation's number among those of the stream, counted from 0.
    pub index: u32,
    /// The operation, but for its payload.
    pub op: OpHead,
}

/// How many messages an event sends.
#[derive(Clone, Copy)]
pub enum SendCount {
    Nothing,
    One,
    Two,
}

/// One event in parts: its heads, and beside them its payloads, each of which is written only where the event has one
/// (own rule). It may have one for its cause, one for each message sent, and two for its commit: those of a Whole, and
/// the line afterwards.
///
/// A contract sees the event.
#[derive(Drop)]
pub struct EventRoom {
    pub(crate) agent: u8,
    pub(crate) count: SendCount,
    pub(crate) is_commit: bool,
    pub(crate) cause: CauseHead,
    pub(crate) first: OutHead,
    pub(crate) second: OutHead,
    pub(crate) commit: CommitHead,
    pub(crate) cause_payload: [u8; 64],
    pub(crate) first_payload: [u8; 64],
    pub(crate) second_payload: [u8; 64],
    pub(crate) op_payload: [u8; 64],
    pub(crate) value: [u8; 64],
}

impl Model for EventRoom {
    ghost use Rattle.cxl_message.specs.declared.events.Event.{Event};

    ghost Value = { Event };

    ghost use Rattle.event_room.specs.Room.{event_in};

    ghost view = { event_in };
}

/// A sent message to be written over.
const BLANK_OUT: OutHead = OutHead {
    host: 0,
    head: MessageHead::Credit {
        channel: Channel::Req,
    },
};

impl EventRoom {
    /// A room with an event to be written over: host 0 finishes line 0, sends nothing and commits nothing.
    pub fn new() -> EventRoom
        ensures { result ≡ blank_event }
    {
        EventRoom {
            agent: 0,
            count: SendCount::Nothing,
            is_commit: false,
            cause: CauseHead::Act(Act::Finish(Line(0))),
            first: BLANK_OUT,
            second: BLANK_OUT,
            commit: CommitHead {
                stream: 0,
                index: 0,
                op: OpHead::Load { line: Line(0) },
            },
            cause_payload: [0; 64],
            first_payload: [0; 64],
            second_payload: [0; 64],
            op_payload: [0; 64],
            value: [0; 64],
        }
    }
}
