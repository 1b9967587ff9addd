// What an agent does turn after turn, as a device would have it: an operation, and the causes that it brings.
ghost use Rattle.std.specs.Prelude.{◌<◌, ◌^◌};

use cxl_message::{
    Act, BiTag, Bytes64, Cause, Channel, Line, Message, NdrOp, Op, Setup, SetupRefusal, SnpOp,
    Span, Tag,
};
use std::alloc::AllocError;

/// How many ways the agent has. Each has a line that is modified before the first turn.
const WAYS: u16 = 256;

/// The operations before the first turn, one for each way.
const FIRST: u32 = 256;

/// How many lines there are, twice as many as ways.
const LINES: u32 = 512;

/// The tags of requests and clean evictions; the first of a write-back follows them.
const TAGS: u16 = 64;

/// The bytes of each line that is brought.
const BYTES: Bytes64 = Bytes64([7; 64]);

/// What an agent does in each turn.
#[derive(Clone, Copy)]
pub enum Kind {
    /// A load or a store that hits: one event.
    Hits,
    /// A store that evicts a modified line, and is filled: nine events.
    Misses,
    /// A snoop of a modified line, which is written back and given up, and a store that brings the line again: fourteen
    /// events.
    Snoops,
}

impl Kind {
    /// The kind of this name.
    pub fn named(name: &str) -> Option<Kind> {
        match name {
            "hits" => Some(Kind::Hits),
            "misses" => Some(Kind::Misses),
            "snoops" => Some(Kind::Snoops),
            _ => None,
        }
    }

    /// Appends the causes of a turn: the first one has number 0. After the last index of a stream, the operation is one that
    /// the agent refuses.
    pub fn push_turn(self, turn: u32, causes: &mut Vec<Cause>) -> Result<(), AllocError> {
        let index = turn.wrapping_add(FIRST);
        match self {
            Kind::Hits if turn % 2 == 0 => causes.push(load(index, turn % FIRST))?,
            Kind::Hits => causes.push(store(index, turn % FIRST))?,
            Kind::Misses => {
                causes.push(store(index, index % LINES))?;
                push_eviction(causes)?;
                push_fill(1, causes)?;
            }
            Kind::Snoops => {
                push_snoop(turn % FIRST, causes)?;
                causes.push(store(index, turn % FIRST))?;
                push_fill(0, causes)?;
            }
        }
        Ok(())
    }
}

/// The setup: one host with one stream.
pub fn setup() -> Result<Setup, SetupRefusal> {
    Setup::new(1, LINES, 4096, WAYS, TAGS, 64, &[0])
}

/// Appends what comes before the first turn: a line for each way is stored to.
pub fn push_first(causes: &mut Vec<Cause>) -> Result<(), AllocError> {
    for index in 0..FIRST {
        causes.push(store(index, index))?;
        push_fill(0, causes)?;
    }
    Ok(())
}

/// The request with this tag has its credit again, and is granted; its line is brought, and those credits are returned.
fn push_fill(tag: u32, causes: &mut Vec<Cause>) -> Result<(), AllocError> {
    let tag = Tag(tag);
    causes.push(credit(Channel::Req))?;
    causes.push(take(Message::Ndr {
        op: NdrOp::CmpE,
        tag,
    }))?;
    causes.push(take(Message::MemData { tag, bytes: BYTES }))?;
    causes.push(returned(Channel::Ndr))?;
    causes.push(returned(Channel::Drs))?;
    Ok(())
}

/// The eviction with tag 0 has its credit again, and is complete.
fn push_eviction(causes: &mut Vec<Cause>) -> Result<(), AllocError> {
    causes.push(credit(Channel::Rwd))?;
    causes.push(completed(Tag(0)))?;
    causes.push(returned(Channel::Ndr))?;
    Ok(())
}

/// A modified line is snooped, written back and given up, with all the credits of that.
fn push_snoop(line: u32, causes: &mut Vec<Cause>) -> Result<(), AllocError>
    requires { line < 2 ^ 16 }
{
    causes.push(snoop(line))?;
    causes.push(Cause::Act(Act::WriteBack(Line(line))))?;
    causes.push(credit(Channel::Rwd))?;
    causes.push(completed(Tag(u32::from(TAGS))))?;
    causes.push(returned(Channel::Ndr))?;
    causes.push(Cause::Act(Act::Answer(Line(line))))?;
    causes.push(credit(Channel::BiRsp))?;
    causes.push(returned(Channel::BiSnp))?;
    Ok(())
}

/// The load of a line.
fn load(index: u32, line: u32) -> Cause {
    Cause::Op {
        stream: 0,
        index,
        op: Op::Load { line: Line(line) },
    }
}

/// The store of a word of a line.
fn store(index: u32, line: u32) -> Cause {
    Cause::Op {
        stream: 0,
        index,
        op: Op::Word {
            line: Line(line),
            place: 0,
            value: u64::from(index),
        },
    }
}

/// The take of a message of the device.
fn take(message: Message) -> Cause {
    Cause::Take { host: 0, message }
}

/// The take of a snoop of a line, which is to be given up.
fn snoop(line: u32) -> Cause
    requires { line < 2 ^ 16 }
{
    take(Message::BiSnp {
        op: SnpOp::Inv,
        bitag: BiTag(line as u16),
        line: Line(line),
        span: Span::One,
    })
}

/// The take of a Credit.
fn credit(channel: Channel) -> Cause {
    take(Message::Credit { channel })
}

/// The take of the Cmp of an eviction or a write-back.
fn completed(tag: Tag) -> Cause {
    take(Message::Ndr {
        op: NdrOp::Cmp,
        tag,
    })
}

/// The return of a Credit.
fn returned(channel: Channel) -> Cause {
    Cause::Act(Act::HostReturn(channel))
}
