use cxl_message::{
    Act, BiTag, Bytes64, Cause, Channel, Line, Listing, Message, Meta, Op, Opening, ReqOp, RspOp,
    RuleNo, Sends, Setup, SnpType, Tag,
};
use device_engine::{DeviceAgent, DeviceRefusal, OpenDeviceRefusal};
use event_room::{EventRoom, MessageHead};
use std::process::Abort;
use std::test::Fail;

/// Two hosts, eight lines, one entry, three tags, two credits.
fn small() -> Option<Setup> {
    Setup::new(2, 8, 1, 4, 3, 2, &[0, 1]).ok()
}

#[test]
fn opening_is_refused_exactly_where_a_line_does_not_exist(rt: HostRuntime) -> Result<(), Fail> {
    let setup = Setup::new(2, 8, 1, 4, 3, 2, &[0, 1])?;
    let mut opening = Opening::new(rt.alloc());
    opening.add(Line(7), &Bytes64([9; 64]))?;
    let device = DeviceAgent::open(rt.alloc(), &setup, &opening)?;
    assert_eq!(rt; device.memory(Line(7)), Bytes64([9; 64]));
    assert_eq!(rt; device.memory(Line(0)), Bytes64([0; 64]));
    assert_eq!(rt; device.listed(Line(7), 1), Listing::I);
    assert!(rt; !device.is_busy(Line(7)));
    assert!(rt; !device.pending());
    opening.add(Line(8), &Bytes64([1; 64]))?;
    let refused = DeviceAgent::open(rt.alloc(), &setup, &opening).err();
    assert_eq!(rt; refused, Some(OpenDeviceRefusal::BadOpening));
    Ok(())
}

/// A MemRd Shared.
fn read(tag: u32, line: u32) -> Message {
    Message::Req {
        op: ReqOp::MemRd,
        meta: Meta::Shared,
        snp: SnpType::SnpData,
        tag: Tag(tag),
        line: Line(line),
    }
}

/// A message that host 1 sends is taken.
fn take(message: Message) -> Cause {
    Cause::Take { host: 1, message }
}

/// The rule that a device without events names for each message, or none where it takes it.
fn first_takes() -> [(Cause, Option<RuleNo>); 6] {
    let tag = Tag(2);
    let answer = Message::BiRsp {
        op: RspOp::I,
        bitag: BiTag(3),
        low: 0,
    };
    let credit = Message::Credit {
        channel: Channel::Ndr,
    };
    [
        (take(read(2, 3)), None),
        (take(read(3, 3)), Some(RuleNo::P0)),
        (take(read(2, 8)), Some(RuleNo::P0)),
        (take(Message::BiConflict { tag }), None),
        (take(answer), Some(RuleNo::V2)),
        (take(credit), Some(RuleNo::V1)),
    ]
}

/// The rule that a device without events names for an operation and for each act.
fn first_acts() -> [(Cause, Option<RuleNo>); 8] {
    let host = 1;
    let tag = Tag(2);
    let line = Line(3);
    let load = Cause::Op {
        stream: 0,
        index: 0,
        op: Op::Load { line },
    };
    let channel = Channel::Req;
    [
        (load, Some(RuleNo::P0)),
        (Cause::Act(Act::Serve { host, tag }), Some(RuleNo::V3)),
        (Cause::Act(Act::Clean { host, tag }), Some(RuleNo::V4)),
        (Cause::Act(Act::Start { host, tag }), Some(RuleNo::V5)),
        (Cause::Act(Act::Evict { host, tag }), Some(RuleNo::V6)),
        (Cause::Act(Act::Snoop { host, line }), Some(RuleNo::V7)),
        (Cause::Act(Act::Finish(line)), Some(RuleNo::V8)),
        (
            Cause::Act(Act::DeviceReturn { host, channel }),
            Some(RuleNo::V9),
        ),
    ]
}

/// The device answers causes by these rules, or sends nothing.
fn answers_by(rt: &impl Abort, device: &DeviceAgent, rows: &[(Cause, Option<RuleNo>)]) {
    for (cause, rule) in rows {
        match device.would(cause) {
            Ok(emitted) => {
                assert_eq!(rt; *rule, None);
                assert_eq!(rt; emitted.sends, Sends::Nothing);
            }
            Err(refusal) => {
                assert_eq!(rt; Some(refusal), rule.map(|rule| DeviceRefusal::Broken(rule)));
            }
        }
    }
}

#[test]
fn a_device_without_events_answers_each_cause_by_its_row(rt: HostRuntime) -> Result<(), Fail> {
    let setup = small().expect(&rt, "a setup");
    let opening = Opening::new(rt.alloc());
    let device = DeviceAgent::open(rt.alloc(), &setup, &opening)?;
    answers_by(&rt, &device, &first_takes());
    answers_by(&rt, &device, &first_acts());
    Ok(())
}

#[test]
fn an_event_is_made_in_its_room_and_a_refusal_leaves_it(rt: HostRuntime) -> Result<(), Fail> {
    let setup = small().expect(&rt, "a setup");
    let opening = Opening::new(rt.alloc());
    let mut device = DeviceAgent::open(rt.alloc(), &setup, &opening)?;
    let mut room = EventRoom::new();
    let cause = take(read(2, 3));
    assert!(rt; device.would_into(&cause, &mut room).is_ok());
    assert_eq!(rt; room.agent(), 16);
    assert_eq!(rt; room.event().cause, cause);
    assert!(rt; device.step_into(&cause, &mut room).is_ok());
    assert_eq!(rt; room.event().sends, Sends::Nothing);
    let refused = device.step_into(&cause, &mut room);
    assert_eq!(rt; refused, Err(DeviceRefusal::Broken(RuleNo::V1)));
    assert_eq!(rt; room.event().cause, cause);
    Ok(())
}

#[test]
fn an_event_is_made_as_wanted_or_not_at_all(rt: HostRuntime) -> Result<(), Fail> {
    let setup = small().expect(&rt, "a setup");
    let opening = Opening::new(rt.alloc());
    let mut device = DeviceAgent::open(rt.alloc(), &setup, &opening)?;
    let mut made = EventRoom::new();
    let mut wanted = EventRoom::new();
    let cause = take(read(2, 3));
    wanted.send(
        2,
        MessageHead::Credit {
            channel: Channel::Req,
        },
    );
    assert!(rt; !device.step_as(&cause, &wanted, &mut made));
    assert!(rt; !device.pending());
    assert!(rt; device.step_as(&cause, &EventRoom::new(), &mut made));
    assert!(rt; device.pending());
    Ok(())
}

/// One host, four lines, entries, ways and tags, two credits.
fn tight() -> Option<Setup> {
    Setup::new(1, 4, 4, 4, 4, 2, &[0]).ok()
}

/// Steps by the take of a message of host 0: whether it is made.
fn takes(device: &mut DeviceAgent, message: Message) -> bool {
    device.step(&Cause::Take { host: 0, message }).is_ok()
}

/// Steps by an act: whether it is made.
fn acts(device: &mut DeviceAgent, act: Act) -> bool {
    device.step(&Cause::Act(act)).is_ok()
}

/// Starts a buffered request of host 0: whether it is made.
fn starts(device: &mut DeviceAgent, tag: u32) -> bool {
    acts(
        device,
        Act::Start {
            host: 0,
            tag: Tag(tag),
        },
    )
}

#[test]
fn a_grant_is_weighed_and_counted_step_by_step(rt: HostRuntime) -> Result<(), Fail> {
    let setup = tight().expect(&rt, "a setup");
    let opening = Opening::new(rt.alloc());
    let mut device = DeviceAgent::open(rt.alloc(), &setup, &opening)?;
    assert_eq!(rt; device.act_count(), 0);
    assert!(rt; takes(&mut device, read(0, 0)));
    assert_eq!(rt; device.weight(), 96);
    assert!(rt; starts(&mut device, 0));
    assert_eq!(rt; device.weight(), 9);
    assert_eq!(rt; device.act_count(), 2);
    assert_eq!(rt; device.act_at(0), Some(Act::Finish(Line(0))));
    assert!(rt; acts(&mut device, Act::Finish(Line(0))));
    assert_eq!(rt; device.weight(), 2);
    assert_eq!(rt; device.act_at(1), None);
    Ok(())
}
