// Each kind of message, operation and cause goes into a room and comes out of it.
use crate::{CauseRef, EventRoom, MessageHead, MessageRef, OpHead, OpRef, SendsRef};
use cxl_message::{
    Act, BiTag, Bytes64, Cause, Channel, Commit, Event, Line, Message, Meta, NdrOp, Op, Out, ReqOp,
    RspOp, Sends, SnpOp, SnpType, Span, Tag,
};
use std::test::Fail;

const BYTES: Bytes64 = Bytes64([7; 64]);

const MESSAGES: [Message; 8] = [
    Message::Req {
        op: ReqOp::MemRd,
        meta: Meta::Any,
        snp: SnpType::SnpInv,
        tag: Tag(5),
        line: Line(9),
    },
    Message::MemWr {
        meta: Meta::Invalid,
        snp: SnpType::NoOp,
        tag: Tag(6),
        line: Line(10),
        bytes: BYTES,
    },
    Message::BiConflict { tag: Tag(7) },
    Message::BiRsp {
        op: RspOp::S,
        bitag: BiTag(8),
        low: 3,
    },
    Message::Ndr {
        op: NdrOp::CmpE,
        tag: Tag(9),
    },
    Message::MemData {
        tag: Tag(10),
        bytes: BYTES,
    },
    Message::BiSnp {
        op: SnpOp::InvBlk,
        bitag: BiTag(12),
        line: Line(12),
        span: Span::Four,
    },
    Message::Credit {
        channel: Channel::Drs,
    },
];

const OPS: [Op; 3] = [
    Op::Load { line: Line(3) },
    Op::Word {
        line: Line(4),
        place: 7,
        value: 0x0102_0304_0506_0708,
    },
    Op::Whole {
        line: Line(5),
        bytes: BYTES,
    },
];

// An event that takes a message and sends it, and another one after it.
fn passes_on(taken: Message, next: Message) -> Event {
    Event {
        agent: 16,
        cause: Cause::Take {
            host: 2,
            message: taken,
        },
        sends: Sends::Two(
            Out {
                host: 3,
                message: taken,
            },
            Out {
                host: 4,
                message: next,
            },
        ),
        commit: None,
    }
}

// An event in which a stream begins an operation that is committed at once.
fn hits(op: Op) -> Event {
    Event {
        agent: 1,
        cause: Cause::Op {
            stream: 60,
            index: 1000,
            op,
        },
        sends: Sends::Nothing,
        commit: Some(Commit {
            stream: 60,
            index: 1000,
            op,
            value: Bytes64([9; 64]),
        }),
    }
}

#[test]
fn messages_go_through_a_room(rt: HostRuntime) -> Result<(), Fail> {
    let mut room = EventRoom::new();
    let mut last = MESSAGES[7];
    for message in MESSAGES {
        let event = passes_on(message, last);
        room.set(&event);
        assert_eq!(rt; room.event(), event);
        assert_eq!(rt; MessageRef::of(&message).message(), message);
        last = message;
    }
    Ok(())
}

#[test]
fn operations_go_through_a_room(rt: HostRuntime) -> Result<(), Fail> {
    let mut room = EventRoom::new();
    for op in OPS {
        let event = hits(op);
        room.set(&event);
        assert_eq!(rt; room.event(), event);
        assert_eq!(rt; OpRef::of(&op).op(), op);
    }
    Ok(())
}

#[test]
fn an_event_is_made_in_place(rt: HostRuntime) -> Result<(), Fail> {
    let mut room = EventRoom::new();
    room.begin_act(3, Act::WriteBack(Line(4)));
    room.send(
        3,
        MessageHead::Ndr {
            op: NdrOp::Cmp,
            tag: Tag(1),
        },
    );
    room.send_message(3, MessageRef::of(&MESSAGES[5]));
    assert_eq!(rt; room.agent(), 3);
    assert_eq!(rt; room.cause().cause(), Cause::Act(Act::WriteBack(Line(4))));
    assert!(rt;
        matches!(room.sends(), SendsRef::Two(first, second) if !first.message.head.has_payload() && second.message.head.has_payload())
    );
    room.clear();
    assert!(rt; matches!(room.sends(), SendsRef::Nothing));
    room.begin_op(3, 1, 2, OpRef::of(&OPS[2]));
    room.set_commit(1, 2, OpRef::of(&OPS[2]), &BYTES.0);
    assert!(rt;
        matches!(room.cause(), CauseRef::Op { op, .. } if op.head == OpHead::Whole { line: Line(5) })
    );
    assert!(rt; matches!(room.commit(), Some(commit) if *commit.value == BYTES.0));
    room.begin_take(
        3,
        2,
        MessageRef::plain(MessageHead::BiConflict { tag: Tag(7) }),
    );
    assert_eq!(rt;
        room.event().cause,
        Cause::Take {
            host: 2,
            message: MESSAGES[2]
        }
    );
    assert!(rt; room.commit().is_none());
    Ok(())
}

#[test]
fn rooms_are_compared(rt: HostRuntime) -> Result<(), Fail> {
    let (mut room, mut other) = (EventRoom::new(), EventRoom::new());
    room.set(&passes_on(MESSAGES[1], MESSAGES[5]));
    other.set(&passes_on(MESSAGES[1], MESSAGES[5]));
    assert!(rt; room.sends_match(&other));
    assert!(rt; room.commit_matches(&other));
    other.set(&passes_on(MESSAGES[1], MESSAGES[4]));
    assert!(rt; !room.sends_match(&other));
    room.set(&hits(OPS[2]));
    assert!(rt; !room.commit_matches(&other));
    other.set(&hits(OPS[2]));
    assert!(rt; room.commit_matches(&other));
    other.set(&hits(OPS[1]));
    assert!(rt; !room.commit_matches(&other));
    Ok(())
}
