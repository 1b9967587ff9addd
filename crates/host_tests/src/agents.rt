use cxl_message::{
    Act, BiTag, Bytes64, Cause, Channel, CopyState, Line, Message, Meta, NdrOp, Op, ReqOp, RspOp,
    RuleNo, Sends, Setup, SnpOp, SnpType, Span, Tag,
};
use host_home::{Emitted, EventRoom, HostAgent, HostRefusal};
use std::alloc::Global;

/// Host 0 of two, with so many lines, ways, Tags and credits, and these streams.
fn opened(
    alloc: Global,
    lines: u32,
    ways: u16,
    tags: u16,
    credits: u8,
    streams: &[u8],
) -> Option<HostAgent> {
    let setup = Setup::new(2, lines, 4, ways, tags, credits, streams).ok()?;
    HostAgent::open(alloc, &setup, 0).ok()
}

/// An operation of a stream.
fn operation(stream: u8, index: u32, op: Op) -> Cause {
    Cause::Op { stream, index, op }
}

/// A load of a line by a stream.
fn load(stream: u8, index: u32, line: u32) -> Cause {
    operation(stream, index, Op::Load { line: Line(line) })
}

/// The take of a message from the device by host 0.
fn take(message: Message) -> Cause {
    Cause::Take { host: 0, message }
}

/// The take of an NDR message.
fn ndr(op: NdrOp, tag: u32) -> Cause {
    take(Message::Ndr { op, tag: Tag(tag) })
}

/// The take of a Credit for a channel.
fn credit(channel: Channel) -> Cause {
    take(Message::Credit { channel })
}

/// The take of a MemData with these bytes.
fn data(tag: u32, byte: u8) -> Cause {
    take(Message::MemData {
        tag: Tag(tag),
        bytes: Bytes64([byte; 64]),
    })
}

/// The take of a snoop from line 0 on.
fn snoop(op: SnpOp, span: Span) -> Cause {
    take(Message::BiSnp {
        op,
        bitag: BiTag(0),
        line: Line(0),
        span,
    })
}

/// An act of the host.
fn act(act: Act) -> Cause {
    Cause::Act(act)
}

/// The request of a load.
fn read(tag: u32, line: u32) -> Message {
    Message::Req {
        op: ReqOp::MemRd,
        meta: Meta::Shared,
        snp: SnpType::SnpData,
        tag: Tag(tag),
        line: Line(line),
    }
}

/// The eviction of a clean copy.
fn clean_eviction(tag: u32, line: u32) -> Message {
    Message::Req {
        op: ReqOp::MemClnEvct,
        meta: Meta::Invalid,
        snp: SnpType::NoOp,
        tag: Tag(tag),
        line: Line(line),
    }
}

/// The conflict of a Tag.
fn conflict(tag: u32) -> Message {
    Message::BiConflict { tag: Tag(tag) }
}

/// The answer for lines of the snoop from line 0 on, whose copies are given up.
fn given_up(op: RspOp, low: u8) -> Message {
    Message::BiRsp {
        op,
        bitag: BiTag(0),
        low,
    }
}

/// Makes the event of a cause, which was foretold, in a room of its own.
fn event(host: &mut HostAgent, cause: &Cause) -> Option<EventRoom> {
    let mut told = EventRoom::new();
    let mut room = EventRoom::new();
    host.would_into(cause, &mut told).ok()?;
    host.step_into(cause, &mut room).ok()?;
    if told.sends_match(&room) && told.commit_matches(&room) {
        Some(room)
    } else {
        None
    }
}

/// Whether a cause is allowed and sends nothing.
fn passes(host: &mut HostAgent, cause: &Cause) -> bool {
    match event(host, cause) {
        Some(room) => room.sends().sends() == Sends::Nothing,
        None => false,
    }
}

/// Whether a cause is allowed and sends one message of host 0.
fn sends(host: &mut HostAgent, cause: &Cause, message: &Message) -> bool {
    match event(host, cause) {
        Some(room) => match room.sends().sends() {
            Sends::One(out) => out.host == 0 && out.message == *message,
            _ => false,
        },
        None => false,
    }
}

/// Whether a cause is allowed and sends two messages of host 0.
fn sends_two(host: &mut HostAgent, cause: &Cause, message: &Message, other: &Message) -> bool {
    match event(host, cause) {
        Some(room) => match room.sends().sends() {
            Sends::Two(first, second) => first.message == *message && second.message == *other,
            _ => false,
        },
        None => false,
    }
}

/// Whether a cause is allowed and commits an operation that leaves such bytes.
fn commits(host: &mut HostAgent, cause: &Cause, byte: u8) -> bool {
    match event(host, cause) {
        Some(room) => match room.commit() {
            Some(commit) => *commit.value == [byte; 64],
            None => false,
        },
        None => false,
    }
}

/// Whether a cause is refused so, and leaves the room as it was.
fn refuses(host: &mut HostAgent, cause: &Cause, refusal: HostRefusal) -> bool {
    let mut room = EventRoom::new();
    let would = host.would_into(cause, &mut room);
    let stepped = host.step_into(cause, &mut room);
    would == Err(refusal) && stepped == Err(refusal) && room.event() == EventRoom::new().event()
}

/// Whether a rule refuses a cause.
fn breaks(host: &mut HostAgent, cause: &Cause, rule: RuleNo) -> bool {
    refuses(host, cause, HostRefusal::Broken(rule))
}

/// Whether the load of a line by stream 0 is requested with Tag 0 and filled in E.
fn fills(host: &mut HostAgent, index: u32, line: u32) -> bool {
    sends(host, &load(0, index, line), &read(0, line))
        && passes(host, &ndr(NdrOp::CmpE, 0))
        && commits(host, &data(0, 7), 7)
}

#[test]
fn an_agent_begins_with_nothing(rt: HostRuntime) {
    let Some(host) = opened(rt.alloc(), 8, 4, 2, 2, &[0, 1]) else {
        return assert!(rt; false);
    };
    assert_eq!(rt; host.act_count(), 0);
    assert_eq!(rt; host.first_act(), None);
    assert_eq!(rt; host.act_at(0), None);
    assert_eq!(rt; host.copy_of(Line(7)), CopyState::I);
    assert_eq!(rt; host.stream_next(1), 0);
    assert!(rt; !host.stream_waits(1));
    assert!(rt; !host.is_open(Line(0)));
    assert!(rt; !host.is_snooped(Line(0)));
    assert!(rt; !host.pending());
    assert_eq!(rt; host.weight(), 0);
}

#[test]
fn answers_come_by_value_too(rt: HostRuntime) {
    let Some(mut host) = opened(rt.alloc(), 4, 1, 2, 2, &[0]) else {
        return assert!(rt; false);
    };
    let requested = Ok(Emitted::one_send(0, read(0, 3)));
    assert!(rt; host.would(&load(0, 0, 3)) == requested);
    assert!(rt; host.step(&load(0, 0, 3)) == requested);
    assert!(rt; host.step(&load(0, 1, 3)) == Err(HostRefusal::Again));
}

/// The eviction of line 0 crosses a snoop of lines 0 and 1.
fn crossed(host: &mut HostAgent) -> bool {
    fills(host, 0, 0)
        && passes(host, &credit(Channel::Req))
        && sends_two(host, &load(0, 1, 1), &clean_eviction(0, 0), &read(1, 1))
        && passes(host, &snoop(SnpOp::InvBlk, Span::Two))
        && sends(host, &act(Act::Conflict(Line(0))), &conflict(0))
        && sends(host, &act(Act::Conflict(Line(1))), &conflict(1))
}

/// The Credit for a channel is given back.
fn returns(host: &mut HostAgent, channel: Channel) -> bool {
    sends(
        host,
        &act(Act::HostReturn(channel)),
        &Message::Credit { channel },
    )
}

/// The acknowledgement of a line's conflict comes, and the line is given up.
fn acknowledged(host: &mut HostAgent, tag: u32, line: u32, low: u8) -> bool {
    passes(host, &ndr(NdrOp::ConflictAck, tag))
        && sends(
            host,
            &act(Act::Answer(Line(line))),
            &given_up(RspOp::I, low),
        )
}

#[test]
fn an_event_is_made_as_wanted_or_not_at_all(rt: HostRuntime) {
    let Some(mut host) = opened(rt.alloc(), 4, 1, 2, 2, &[0]) else {
        return assert!(rt; false);
    };
    let mut wanted = EventRoom::new();
    let mut made = EventRoom::new();
    assert!(rt; !host.step_as(&load(0, 0, 3), &wanted, &mut made));
    assert_eq!(rt; host.stream_next(0), 0);
    assert!(rt; host.would_into(&load(0, 0, 3), &mut wanted).is_ok());
    assert!(rt; host.step_as(&load(0, 0, 3), &wanted, &mut made));
    assert_eq!(rt; host.stream_next(0), 1);
}

#[test]
fn the_other_order_at_one_agent(rt: HostRuntime) {
    let Some(mut host) = opened(rt.alloc(), 2, 1, 2, 2, &[0]) else {
        return assert!(rt; false);
    };
    assert!(rt; crossed(&mut host));
    assert!(rt; passes(&mut host, &ndr(NdrOp::Cmp, 0)));
    assert!(rt; returns(&mut host, Channel::Ndr) && returns(&mut host, Channel::Ndr));
    assert!(rt; acknowledged(&mut host, 0, 0, 0));
    assert!(rt; acknowledged(&mut host, 1, 1, 1));
    assert!(rt; host.is_open(Line(1)) && !host.is_snooped(Line(1)));
}

#[test]
fn the_first_order_at_one_agent(rt: HostRuntime) {
    let Some(mut host) = opened(rt.alloc(), 2, 1, 2, 2, &[0]) else {
        return assert!(rt; false);
    };
    assert!(rt; crossed(&mut host));
    assert!(rt; acknowledged(&mut host, 0, 0, 0));
    assert!(rt; returns(&mut host, Channel::Ndr) && returns(&mut host, Channel::Ndr));
    assert!(rt; passes(&mut host, &ndr(NdrOp::Cmp, 0)));
    assert!(rt; acknowledged(&mut host, 1, 1, 1));
    assert!(rt; host.is_open(Line(1)) && host.pending());
}

#[test]
fn a_load_is_refused_in_order(rt: HostRuntime) {
    let Some(mut host) = opened(rt.alloc(), 4, 2, 2, 4, &[0, 0, 0]) else {
        return assert!(rt; false);
    };
    assert!(rt; refuses(&mut host, &load(0, 0, 4), HostRefusal::NoSuchLine));
    assert!(rt; breaks(&mut host, &load(3, 0, 0), RuleNo::P0));
    assert!(rt; breaks(&mut host, &load(0, 1, 0), RuleNo::S0));
    assert!(rt; sends(&mut host, &load(0, 0, 0), &read(0, 0)));
    assert!(rt; refuses(&mut host, &load(1, 0, 0), HostRefusal::Again));
    assert!(rt; sends(&mut host, &load(1, 0, 1), &read(1, 1)));
    assert!(rt; refuses(&mut host, &load(2, 0, 2), HostRefusal::NoTag));
}

#[test]
fn a_load_wants_a_way_and_a_credit(rt: HostRuntime) {
    let Some(mut host) = opened(rt.alloc(), 4, 1, 4, 2, &[0, 0]) else {
        return assert!(rt; false);
    };
    assert!(rt; sends(&mut host, &load(0, 0, 0), &read(0, 0)));
    assert!(rt; refuses(&mut host, &load(1, 0, 1), HostRefusal::NoWay));
    assert!(rt; passes(&mut host, &ndr(NdrOp::CmpE, 0)) && commits(&mut host, &data(0, 7), 7));
    assert!(rt;
        refuses(
            &mut host,
            &load(1, 0, 1),
            HostRefusal::NoCredit(Channel::Req)
        )
    );
    assert!(rt; passes(&mut host, &credit(Channel::Req)));
    assert!(rt;
        sends_two(
            &mut host,
            &load(1, 0, 1),
            &clean_eviction(0, 0),
            &read(1, 1)
        )
    );
}

#[test]
fn a_peer_that_breaks_rules_is_refused(rt: HostRuntime) {
    let Some(mut host) = opened(rt.alloc(), 4, 4, 4, 4, &[0]) else {
        return assert!(rt; false);
    };
    assert!(rt; breaks(&mut host, &take(read(0, 0)), RuleNo::P0));
    assert!(rt; breaks(&mut host, &ndr(NdrOp::Cmp, 1), RuleNo::H3));
    assert!(rt; passes(&mut host, &snoop(SnpOp::Inv, Span::One)));
    assert!(rt; breaks(&mut host, &snoop(SnpOp::Inv, Span::One), RuleNo::H4));
    assert!(rt; breaks(&mut host, &ndr(NdrOp::ConflictAck, 0), RuleNo::H5));
    assert!(rt; breaks(&mut host, &credit(Channel::Req), RuleNo::H6));
    assert!(rt; breaks(&mut host, &act(Act::Answer(Line(3))), RuleNo::H9));
}

#[test]
fn a_block_is_answered_whole(rt: HostRuntime) {
    let Some(mut host) = opened(rt.alloc(), 4, 4, 4, 4, &[0]) else {
        return assert!(rt; false);
    };
    assert!(rt; fills(&mut host, 0, 1));
    assert!(rt; passes(&mut host, &snoop(SnpOp::InvBlk, Span::Four)));
    let whole = Act::AnswerBlock(Line(0));
    assert_eq!(rt; host.first_act(), Some(whole));
    assert!(rt; breaks(&mut host, &act(Act::Answer(Line(1))), RuleNo::H9));
    assert!(rt; sends(&mut host, &act(whole), &given_up(RspOp::IBlk, 0)));
    assert_eq!(rt; host.copy_of(Line(1)), CopyState::I);
}

/// Lines 0 and 3 are filled, line 1 is modified, line 2 is open, and all four are snooped.
fn mixed(host: &mut HostAgent) -> bool {
    let line = Line(1);
    let store = Op::Word {
        line,
        place: 0,
        value: 1,
    };
    fills(host, 0, 0)
        && fills(host, 1, 3)
        && fills(host, 2, 1)
        && event(host, &operation(0, 3, store)).is_some()
        && sends(host, &load(0, 4, 2), &read(0, 2))
        && passes(host, &snoop(SnpOp::InvBlk, Span::Four))
}

#[test]
fn a_block_of_mixed_lines_is_answered_line_by_line(rt: HostRuntime) {
    let Some(mut host) = opened(rt.alloc(), 5, 5, 4, 4, &[0]) else {
        return assert!(rt; false);
    };
    assert!(rt; mixed(&mut host));
    assert_eq!(rt; host.act_count(), 6);
    assert_eq!(rt; host.act_at(1), Some(Act::WriteBack(Line(1))));
    assert_eq!(rt; host.act_at(4), Some(Act::HostReturn(Channel::Ndr)));
    assert_eq!(rt; host.act_at(6), None);
    assert!(rt;
        sends(
            &mut host,
            &act(Act::Answer(Line(3))),
            &given_up(RspOp::I, 3)
        )
    );
    assert!(rt; sends(&mut host, &act(Act::Conflict(Line(2))), &conflict(0)));
    assert!(rt; writes_back(&mut host, Line(1), Tag(4)));
    assert!(rt;
        sends(
            &mut host,
            &act(Act::Answer(Line(0))),
            &given_up(RspOp::I, 0)
        )
    );
}

/// Whether a line's write-back is a MemWr Invalid with a Tag.
fn writes_back(host: &mut HostAgent, line: Line, with: Tag) -> bool {
    match event(host, &act(Act::WriteBack(line))) {
        Some(room) => match room.sends().sends() {
            Sends::One(out) => match out.message {
                Message::MemWr { meta, tag, .. } => meta == Meta::Invalid && tag == with,
                _ => false,
            },
            _ => false,
        },
        None => false,
    }
}
