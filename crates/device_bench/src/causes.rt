// The causes of turns, one by one. Requests have tag 0.
ghost use Rattle.std.specs.Prelude.{◌<◌, ◌^◌};

use cxl_message::{
    Act, BiTag, Bytes64, Cause, Channel, Line, Message, Meta, ReqOp, RspOp, SnpType, Tag,
};

/// How many tags of requests and clean evictions a host has; those of its write-backs follow them.
pub const TAGS: u16 = 64;

/// The tag of a request.
const TAG: Tag = Tag(0);

/// The tag of a write-back.
const WRITE_BACK: Tag = Tag(64);

/// The take of a host's request for the only copy of a line.
pub fn asks(host: u8, line: u32) -> Cause {
    let message = Message::Req {
        op: ReqOp::MemRd,
        meta: Meta::Any,
        snp: SnpType::SnpInv,
        tag: TAG,
        line: Line(line),
    };
    Cause::Take { host, message }
}

/// The take of a host's clean eviction of a line.
pub fn gives_up(host: u8, line: u32) -> Cause {
    let message = Message::Req {
        op: ReqOp::MemClnEvct,
        meta: Meta::Invalid,
        snp: SnpType::NoOp,
        tag: TAG,
        line: Line(line),
    };
    Cause::Take { host, message }
}

/// The take of a host's write-back of a line, of which it keeps no copy.
pub fn writes_back(host: u8, line: u32) -> Cause {
    let message = Message::MemWr {
        meta: Meta::Invalid,
        snp: SnpType::NoOp,
        tag: WRITE_BACK,
        line: Line(line),
        bytes: Bytes64([0x5a; 64]),
    };
    Cause::Take { host, message }
}

/// The take of a host's answer to a snoop: it has no copy of the line.
pub fn answers(host: u8, line: u32) -> Cause
    requires { line < 2 ^ 16 }
{
    let message = Message::BiRsp {
        op: RspOp::I,
        bitag: BiTag(line as u16),
        low: 0,
    };
    Cause::Take { host, message }
}

/// The take of a Credit.
pub fn credit(host: u8, channel: Channel) -> Cause {
    let message = Message::Credit { channel };
    Cause::Take { host, message }
}

/// The return of a Credit.
pub fn returned(host: u8, channel: Channel) -> Cause {
    Cause::Act(Act::DeviceReturn { host, channel })
}

/// A host's request starts.
pub fn starts(host: u8) -> Cause {
    Cause::Act(Act::Start { host, tag: TAG })
}

/// An entry is evicted for a host's request.
pub fn evicts(host: u8) -> Cause {
    Cause::Act(Act::Evict { host, tag: TAG })
}

/// A host's clean eviction is completed.
pub fn cleans(host: u8) -> Cause {
    Cause::Act(Act::Clean { host, tag: TAG })
}

/// A host's write-back is served.
pub fn serves(host: u8) -> Cause {
    Cause::Act(Act::Serve {
        host,
        tag: WRITE_BACK,
    })
}

/// A host is snooped for the task of a line.
pub fn snoops(host: u8, line: u32) -> Cause {
    let line = Line(line);
    Cause::Act(Act::Snoop { host, line })
}

/// The task of a line ends.
pub fn finishes(line: u32) -> Cause {
    Cause::Act(Act::Finish(Line(line)))
}
