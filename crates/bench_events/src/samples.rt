// The events of which the records are made, eleven a group: a load from its operation to its commit with a snoop and a
// conflict on the way, two stores and a credit.
ghost use Rattle.std.specs.Prelude.{◌≡◌, IsTrue};
ghost use Rattle.cxl_message.specs.Formed.{well_formed, message_formed, place_exists};
ghost use Rattle.cxl_codec.specs.VersionOne.{fits_version_one, message_fits_version_one};

use cxl_message::{
    Act, BiTag, Bytes64, Cause, Channel, Commit, Event, Line, Message, Meta, NdrOp, Op, Out, ReqOp,
    RspOp, Sends, SnpOp, SnpType, Span, Tag,
};

const LINE: Line = Line(0);

const TAG: Tag = Tag(0);

const BITAG: BiTag = BiTag(0);

const BYTES: Bytes64 = Bytes64([7; 64]);

/// A host begins a load, which sends its request.
pub fn begun() -> Event
    ensures formed { IsTrue (well_formed result) }
    ensures version_one { IsTrue (fits_version_one result) }
{
    Event {
        agent: 0,
        cause: Cause::Op {
            stream: 0,
            index: 0,
            op: Op::Load { line: LINE },
        },
        sends: Sends::One(sent(read())),
        commit: None,
    }
}

/// The device takes the request.
pub fn asked() -> Event
    ensures formed { IsTrue (well_formed result) }
    ensures version_one { IsTrue (fits_version_one result) }
{
    Event {
        agent: 16,
        cause: Cause::Take {
            host: 0,
            message: read(),
        },
        sends: Sends::Nothing,
        commit: None,
    }
}

/// The device begins the request's task.
pub fn started() -> Event
    ensures formed { IsTrue (well_formed result) }
    ensures version_one { IsTrue (fits_version_one result) }
{
    Event {
        agent: 16,
        cause: Cause::Act(Act::Start { host: 0, tag: TAG }),
        sends: Sends::Nothing,
        commit: None,
    }
}

/// The device asks another host.
pub fn snooped() -> Event
    ensures formed { IsTrue (well_formed result) }
    ensures version_one { IsTrue (fits_version_one result) }
{
    Event {
        agent: 16,
        cause: Cause::Act(Act::Snoop {
            host: 1,
            line: LINE,
        }),
        sends: Sends::One(sent(snoop())),
        commit: None,
    }
}

/// The other host declares a conflict.
pub fn conflicted() -> Event
    ensures formed { IsTrue (well_formed result) }
    ensures version_one { IsTrue (fits_version_one result) }
{
    Event {
        agent: 1,
        cause: Cause::Act(Act::Conflict(LINE)),
        sends: Sends::One(sent(conflict())),
        commit: None,
    }
}

/// The other host answers.
pub fn answered() -> Event
    ensures formed { IsTrue (well_formed result) }
    ensures version_one { IsTrue (fits_version_one result) }
{
    Event {
        agent: 1,
        cause: Cause::Act(Act::Answer(LINE)),
        sends: Sends::One(sent(answer())),
        commit: None,
    }
}

/// The device grants the line.
pub fn granted() -> Event
    ensures formed { IsTrue (well_formed result) }
    ensures version_one { IsTrue (fits_version_one result) }
{
    Event {
        agent: 16,
        cause: Cause::Act(Act::Finish(LINE)),
        sends: Sends::Two(sent(grant()), sent(data())),
        commit: None,
    }
}

/// The host takes the data, and the load commits.
pub fn committed() -> Event
    ensures formed { IsTrue (well_formed result) }
    ensures version_one { IsTrue (fits_version_one result) }
{
    Event {
        agent: 0,
        cause: Cause::Take {
            host: 0,
            message: data(),
        },
        sends: Sends::Nothing,
        commit: Some(Commit {
            stream: 0,
            index: 0,
            op: Op::Load { line: LINE },
            value: BYTES,
        }),
    }
}

/// A store of a word that hits.
pub fn stored() -> Event
    ensures formed { IsTrue (well_formed result) }
    ensures version_one { IsTrue (fits_version_one result) }
{
    Event {
        agent: 0,
        cause: Cause::Op {
            stream: 0,
            index: 1,
            op: word(),
        },
        sends: Sends::Nothing,
        commit: Some(Commit {
            stream: 0,
            index: 1,
            op: word(),
            value: BYTES,
        }),
    }
}

/// A store of a whole line that evicts another line.
pub fn written() -> Event
    ensures formed { IsTrue (well_formed result) }
    ensures version_one { IsTrue (fits_version_one result) }
{
    Event {
        agent: 0,
        cause: Cause::Op {
            stream: 0,
            index: 2,
            op: Op::Whole {
                line: LINE,
                bytes: BYTES,
            },
        },
        sends: Sends::Two(sent(write()), sent(read())),
        commit: None,
    }
}

/// A host gives a credit back.
pub fn returned() -> Event
    ensures formed { IsTrue (well_formed result) }
    ensures version_one { IsTrue (fits_version_one result) }
{
    Event {
        agent: 0,
        cause: Cause::Act(Act::HostReturn(Channel::Ndr)),
        sends: Sends::One(sent(Message::Credit {
            channel: Channel::Ndr,
        })),
        commit: None,
    }
}

/// The eleven events.
pub fn group() -> [Event; 11] {
    [
        begun(),
        asked(),
        started(),
        snooped(),
        conflicted(),
        answered(),
        granted(),
        committed(),
        stored(),
        written(),
        returned(),
    ]
}

/// A message to or from host 0.
fn sent(message: Message) -> Out
    ensures { result ≡ record { host = 0; message = message } }
{
    Out { host: 0, message }
}

/// A store of a word.
fn word() -> Op
    ensures { IsTrue (place_exists result) }
{
    Op::Word {
        line: LINE,
        place: 3,
        value: 7,
    }
}

/// The request.
fn read() -> Message
    ensures formed { IsTrue (message_formed result) }
    ensures version_one { IsTrue (message_fits_version_one result) }
{
    Message::Req {
        op: ReqOp::MemRd,
        meta: Meta::Shared,
        snp: SnpType::SnpData,
        tag: TAG,
        line: LINE,
    }
}

/// A snoop.
fn snoop() -> Message
    ensures formed { IsTrue (message_formed result) }
    ensures version_one { IsTrue (message_fits_version_one result) }
{
    Message::BiSnp {
        op: SnpOp::Inv,
        bitag: BITAG,
        line: LINE,
        span: Span::One,
    }
}

/// A conflict.
fn conflict() -> Message
    ensures formed { IsTrue (message_formed result) }
    ensures version_one { IsTrue (message_fits_version_one result) }
{
    Message::BiConflict { tag: TAG }
}

/// The answer to the snoop.
fn answer() -> Message
    ensures formed { IsTrue (message_formed result) }
    ensures version_one { IsTrue (message_fits_version_one result) }
{
    Message::BiRsp {
        op: RspOp::I,
        bitag: BITAG,
        low: 0,
    }
}

/// The grant.
fn grant() -> Message
    ensures formed { IsTrue (message_formed result) }
    ensures version_one { IsTrue (message_fits_version_one result) }
{
    Message::Ndr {
        op: NdrOp::CmpE,
        tag: TAG,
    }
}

/// The line's bytes.
fn data() -> Message
    ensures formed { IsTrue (message_formed result) }
    ensures version_one { IsTrue (message_fits_version_one result) }
{
    Message::MemData {
        tag: TAG,
        bytes: BYTES,
    }
}

/// The write of an evicted line.
fn write() -> Message
    ensures formed { IsTrue (message_formed result) }
    ensures version_one { IsTrue (message_fits_version_one result) }
{
    Message::MemWr {
        meta: Meta::Invalid,
        snp: SnpType::NoOp,
        tag: TAG,
        line: LINE,
        bytes: BYTES,
    }
}
