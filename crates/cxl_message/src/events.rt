// Operations, acts and events: the atomic steps of the machine.
use crate::channels::Channel;
use crate::identifiers::{Bytes64, Line, Tag};
use crate::messages::Message;

/// A load or a store that a stream performs (own rule).
#[derive(Clone, Copy, PartialEq, Eq, Debug)]
pub enum Op {
    /// Reads the line.
    Load {
        /// The line.
        line: Line,
    },
    /// Stores the bytes `8 * place` to `8 * place + 7`, the highest byte of the value first. `place` is 0 to 7.
    Word {
        /// The line.
        line: Line,
        /// Which eight bytes of the line, 0 to 7.
        place: u8,
        /// Their value, the highest byte first.
        value: u64,
    },
    /// Stores the whole line.
    Whole {
        /// The line.
        line: Line,
        /// The line's bytes.
        bytes: Bytes64,
    },
}

/// What an agent does by itself (own rule).
#[derive(Clone, Copy, PartialEq, Eq, Debug)]
pub enum Act {
    /// Host: declares a conflict for a snooped line whose request or clean eviction is pending.
    Conflict(Line),
    /// Host: writes a modified line back, since it is snooped.
    WriteBack(Line),
    /// Host: answers the snoop of a line.
    Answer(Line),
    /// Host: answers the block snoop that begins at a line, all lines at once.
    AnswerBlock(Line),
    /// Host: gives one credit of NDR, DRS or BISnp back.
    HostReturn(Channel),
    /// Device: completes a buffered write or acknowledges a buffered conflict.
    Serve {
        /// The host that sent it, below 16.
        host: u8,
        /// Its Tag.
        tag: Tag,
    },
    /// Device: completes a buffered clean eviction.
    Clean {
        /// The host that sent it, below 16.
        host: u8,
        /// Its Tag.
        tag: Tag,
    },
    /// Device: begins the task of a buffered request.
    Start {
        /// The host that sent it, below 16.
        host: u8,
        /// Its Tag.
        tag: Tag,
    },
    /// Device: begins to evict a block of filter entries, to make room for a buffered request.
    Evict {
        /// The host that sent it, below 16.
        host: u8,
        /// Its Tag.
        tag: Tag,
    },
    /// Device: asks a host by a snoop, for the task whose first line this is.
    Snoop {
        /// The host that is asked, below 16.
        host: u8,
        /// The first line of the task.
        line: Line,
    },
    /// Device: ends the task whose first line this is, and grants its request.
    Finish(Line),
    /// Device: gives one credit of Req, RwD or BIRsp back.
    DeviceReturn {
        /// The host that gets it back, below 16.
        host: u8,
        /// The channel that the credit is for.
        channel: Channel,
    },
}

/// Why an event happens (own rule).
#[derive(Clone, Copy, PartialEq, Eq, Debug)]
pub enum Cause {
    /// A stream begins its operation of this index, counted from 0.
    Op {
        /// The stream, below 64.
        stream: u8,
        /// The operation's number among those of the stream, counted from 0.
        index: u32,
        /// The operation.
        op: Op,
    },
    /// The agent takes a message of this host's channels.
    Take {
        /// The host whose channel the message is on, below 16.
        host: u8,
        /// The message.
        message: Message,
    },
    /// The agent acts by itself.
    Act(Act),
}

/// A message that an event sends, from or to a host.
#[derive(Clone, Copy, PartialEq, Eq, Debug)]
pub struct Out {
    /// The host that sends or gets it, below 16.
    pub host: u8,
    /// The message.
    pub message: Message,
}

/// The messages that an event sends, in order: at most two (own rule).
#[derive(Clone, Copy, PartialEq, Eq, Debug)]
pub enum Sends {
    /// No message.
    Nothing,
    /// One message.
    One(Out),
    /// Two messages, in this order.
    Two(Out, Out),
}

/// A completed load or store: the operation of a stream and the line's 64 bytes after it (own rule).
#[derive(Clone, Copy, PartialEq, Eq, Debug)]
pub struct Commit {
    /// The stream, below 64.
    pub stream: u8,
    /// The operation's number among those of the stream, counted from 0.
    pub index: u32,
    /// The operation.
    pub op: Op,
    /// The line's bytes after it.
    pub value: Bytes64,
}

/// One atomic step of one agent: its cause, the messages that it sends and at most one commit (own rule).
/// The agent is the number of its host, or 16 for the device.
#[derive(Clone, Copy, PartialEq, Eq, Debug)]
pub struct Event {
    /// Who makes it: the number of a host, or 16 for the device.
    pub agent: u8,
    /// Why it happens.
    pub cause: Cause,
    /// The messages that it sends.
    pub sends: Sends,
    /// The operation that it completes, if it completes one.
    pub commit: Option<Commit>,
}
