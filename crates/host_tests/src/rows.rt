use cxl_message::{
    Act, Bytes64, Cause, Channel, Commit, Line, Message, Meta, NdrOp, Op, Out, ReqOp, RuleNo,
    Sends, Setup, SnpType, Tag,
};
use event_room::{CommitRef, EventRoom, MessageHead};
use host_plans::Plan;
use host_rows::{HostRefusal, act_row, answer_into, change, lacking};
use host_tables::HostTables;
use std::alloc::Global;
use std::test::Fail;

const LOAD: Op = Op::Load { line: Line(3) };

const STORE: Op = Op::Word {
    line: Line(3),
    place: 8,
    value: 1,
};

const BYTES: Bytes64 = Bytes64([7; 64]);

/// The request of the load.
const REQUEST: Out = Out {
    host: 0,
    message: Message::Req {
        op: ReqOp::MemRd,
        meta: Meta::Shared,
        snp: SnpType::SnpData,
        tag: Tag(0),
        line: Line(3),
    },
};

/// The data of the load.
const DATA: Message = Message::MemData {
    tag: Tag(0),
    bytes: BYTES,
};

/// The grant of the load.
const GRANT: Message = Message::Ndr {
    op: NdrOp::CmpE,
    tag: Tag(0),
};

/// The commit of the load.
const LOADED: Commit = Commit {
    stream: 0,
    index: 0,
    op: LOAD,
    value: BYTES,
};

/// The one host of a setup of 8 lines, with a stream.
fn opened(alloc: Global) -> Option<HostTables> {
    let setup = Setup::new(1, 8, 4, 4, 2, 2, &[0]).ok()?;
    HostTables::open(alloc, &setup, 0).ok()
}

/// The stream's first operation.
fn operation(op: &Op) -> Cause {
    Cause::Op {
        stream: 0,
        index: 0,
        op: *op,
    }
}

/// Makes the event of a cause.
fn steps(host: &mut HostTables, cause: &Cause, room: &mut EventRoom) -> Result<(), HostRefusal> {
    let plan = answer_into(host, cause, room)?;
    change(host, cause, plan, room);
    Ok(())
}

/// Begins the stream's first operation.
fn operates(host: &mut HostTables, op: &Op, room: &mut EventRoom) -> Result<(), HostRefusal> {
    steps(host, &operation(op), room)
}

/// Takes a message of a host.
fn takes(
    host: &mut HostTables,
    from: u8,
    message: &Message,
    room: &mut EventRoom,
) -> Result<(), HostRefusal> {
    let cause = Cause::Take {
        host: from,
        message: *message,
    };
    steps(host, &cause, room)
}

/// Whether the event in a room sends this and nothing else.
fn sends(room: &EventRoom, wanted: &Sends) -> bool {
    room.sends().sends() == *wanted
}

#[test]
fn a_load_is_requested_granted_and_filled(rt: HostRuntime) -> Result<(), Fail> {
    let mut host = opened(rt.alloc()).ok_or("a host")?;
    let mut room = EventRoom::new();
    let plan = answer_into(&host, &operation(&LOAD), &mut room)?;
    assert_eq!(rt; plan, Some(Plan::Request { tag: Tag(0) }));
    assert!(rt; sends(&room, &Sends::One(REQUEST)));
    operates(&mut host, &LOAD, &mut room)?;
    assert!(rt; sends(&room, &Sends::One(REQUEST)));
    takes(&mut host, 0, &GRANT, &mut room)?;
    assert!(rt; sends(&room, &Sends::Nothing));
    takes(&mut host, 0, &DATA, &mut room)?;
    assert_eq!(rt; room.commit().map(CommitRef::commit), Some(LOADED));
    Ok(())
}

/// The host after the grant of its load.
fn granted(alloc: Global) -> Option<HostTables> {
    let mut host = opened(alloc)?;
    let mut room = EventRoom::new();
    operates(&mut host, &LOAD, &mut room).ok()?;
    takes(&mut host, 0, &GRANT, &mut room).ok()?;
    Some(host)
}

#[test]
fn the_credit_of_a_grant_is_given_back(rt: HostRuntime) -> Result<(), Fail> {
    let mut host = granted(rt.alloc()).ok_or("a host with a grant")?;
    let mut room = EventRoom::new();
    let channel = Channel::Ndr;
    let head = MessageHead::Credit { channel };
    assert_eq!(rt; act_row(&host, &Act::HostReturn(channel)), Some(head));
    assert_eq!(rt; lacking(&host, head), None);
    steps(&mut host, &Cause::Act(Act::HostReturn(channel)), &mut room)?;
    let message = Message::Credit { channel };
    assert!(rt; sends(&room, &Sends::One(Out { host: 0, message })));
    Ok(())
}

#[test]
fn what_is_refused_changes_nothing(rt: HostRuntime) -> Result<(), Fail> {
    let mut host = opened(rt.alloc()).ok_or("a host")?;
    let mut room = EventRoom::new();
    let p0 = HostRefusal::Broken(RuleNo::P0);
    assert!(rt; operates(&mut host, &STORE, &mut room) == Err(p0));
    assert!(rt; takes(&mut host, 1, &GRANT, &mut room) == Err(p0));
    let h3 = HostRefusal::Broken(RuleNo::H3);
    assert!(rt; takes(&mut host, 0, &GRANT, &mut room) == Err(h3));
    let h7 = HostRefusal::Broken(RuleNo::H7);
    let conflict = Cause::Act(Act::Conflict(Line(3)));
    assert!(rt; steps(&mut host, &conflict, &mut room) == Err(h7));
    assert_eq!(rt; room.agent(), 0);
    operates(&mut host, &LOAD, &mut room)?;
    assert!(rt; sends(&room, &Sends::One(REQUEST)));
    Ok(())
}
