// The parts of an event, with payloads where they stand.
ghost use Rattle.std.specs.Prelude.{◌≡◌};
ghost use Rattle.event_room.specs.Parts.{cause_of, out_of, sends_of, commit_of};

use crate::messages::MessageRef;
use crate::operations::OpRef;
use cxl_message::{Act, Bytes64, Cause, Commit, Out, Sends};

/// Why an event happens.
#[derive(Clone, Copy)]
pub enum CauseRef<'a> {
    Op {
        stream: u8,
        index: u32,
        op: OpRef<'a>,
    },
    Take {
        host: u8,
        message: MessageRef<'a>,
    },
    Act(Act),
}

/// A message that an event sends, from or to a host.
#[derive(Clone, Copy)]
pub struct OutRef<'a> {
    /// The host that sends or gets it, below 16.
    pub host: u8,
    /// The message.
    pub message: MessageRef<'a>,
}

/// The messages that an event sends, in order.
#[derive(Clone, Copy)]
pub enum SendsRef<'a> {
    Nothing,
    One(OutRef<'a>),
    Two(OutRef<'a>, OutRef<'a>),
}

/// A completed operation of a stream, and the line's 64 bytes after it.
#[derive(Clone, Copy)]
pub struct CommitRef<'a> {
    /// The stream, below 64.
    pub stream: u8,
    /// The operation's number among those of the stream, counted from 0.
    pub index: u32,
    /// The operation.
    pub op: OpRef<'a>,
    /// The line's bytes after it.
    pub value: &'a [u8; 64],
}

impl<'a> CauseRef<'a> {
    /// A cause that was made by value.
    #[inline(always)]
    pub fn of(cause: &'a Cause) -> CauseRef<'a>
        ensures { cause_of result ≡ cause.now }
    {
        match cause {
            Cause::Op { stream, index, op } => CauseRef::Op {
                stream: *stream,
                index: *index,
                op: OpRef::of(op),
            },
            Cause::Take { host, message } => CauseRef::Take {
                host: *host,
                message: MessageRef::of(message),
            },
            Cause::Act(act) => CauseRef::Act(*act),
        }
    }

    /// The cause by value.
    pub fn cause(self) -> Cause
        ensures { result ≡ cause_of self.entry }
    {
        match self {
            CauseRef::Op { stream, index, op } => Cause::Op {
                stream,
                index,
                op: op.op(),
            },
            CauseRef::Take { host, message } => Cause::Take {
                host,
                message: message.message(),
            },
            CauseRef::Act(act) => Cause::Act(act),
        }
    }
}

impl<'a> OutRef<'a> {
    /// A sent message that was made by value.
    #[inline(always)]
    pub fn of(out: &'a Out) -> OutRef<'a>
        ensures { out_of result ≡ out.now }
    {
        OutRef {
            host: out.host,
            message: MessageRef::of(&out.message),
        }
    }

    /// The sent message by value.
    pub fn out(self) -> Out
        ensures { result ≡ out_of self.entry }
    {
        Out {
            host: self.host,
            message: self.message.message(),
        }
    }
}

impl<'a> SendsRef<'a> {
    /// Sent messages that were made by value.
    #[inline(always)]
    pub fn of(sends: &'a Sends) -> SendsRef<'a>
        ensures { sends_of result ≡ sends.now }
    {
        match sends {
            Sends::Nothing => SendsRef::Nothing,
            Sends::One(first) => SendsRef::One(OutRef::of(first)),
            Sends::Two(first, second) => SendsRef::Two(OutRef::of(first), OutRef::of(second)),
        }
    }

    /// The sent messages by value.
    pub fn sends(self) -> Sends
        ensures { result ≡ sends_of self.entry }
    {
        match self {
            SendsRef::Nothing => Sends::Nothing,
            SendsRef::One(first) => Sends::One(first.out()),
            SendsRef::Two(first, second) => Sends::Two(first.out(), second.out()),
        }
    }
}

impl<'a> CommitRef<'a> {
    /// A commit that was made by value.
    #[inline(always)]
    pub fn of(commit: &'a Commit) -> CommitRef<'a>
        ensures { commit_of result ≡ commit.now }
    {
        CommitRef {
            stream: commit.stream,
            index: commit.index,
            op: OpRef::of(&commit.op),
            value: &commit.value.0,
        }
    }

    /// The commit by value.
    pub fn commit(self) -> Commit
        ensures { result ≡ commit_of self.entry }
    {
        Commit {
            stream: self.stream,
            index: self.index,
            op: self.op.op(),
            value: Bytes64(*self.value),
        }
    }
}
