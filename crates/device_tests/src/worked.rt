// Worked rows of the device, through `would` and `step`.
use cxl_message::{
    Act, BiTag, Bytes64, Cause, Channel, Line, Message, Meta, NdrOp, Opening, Out, ReqOp, RspOp,
    RuleNo, Sends, Setup, SnpOp, SnpType, Span, Tag,
};
use device_engine::{DeviceAgent, DeviceRefusal};
use std::process::Abort;
use std::test::Fail;

/// What is sent by a cause, or why it is refused.
type Answer = Result<Sends, DeviceRefusal>;

/// A row: a cause and the answer to it.
type Row = (Cause, Answer);

const ZEROS: Bytes64 = Bytes64([0; 64]);

const NOTHING: Answer = Ok(Sends::Nothing);

fn broken(rule: RuleNo) -> Answer {
    Err(DeviceRefusal::Broken(rule))
}

fn one(host: u8, message: Message) -> Answer {
    Ok(Sends::One(Out { host, message }))
}

/// A grant with data that are all zero.
fn granted(host: u8, op: NdrOp, tag: u32) -> Answer {
    granted_with(host, op, tag, ZEROS)
}

/// A grant with these data.
fn granted_with(host: u8, op: NdrOp, tag: u32, bytes: Bytes64) -> Answer {
    let tag = Tag(tag);
    let completion = Out {
        host,
        message: Message::Ndr { op, tag },
    };
    let data = Out {
        host,
        message: Message::MemData { tag, bytes },
    };
    Ok(Sends::Two(completion, data))
}

fn read_shared(host: u8, tag: u32, line: u32) -> Cause {
    let message = Message::Req {
        op: ReqOp::MemRd,
        meta: Meta::Shared,
        snp: SnpType::SnpData,
        tag: Tag(tag),
        line: Line(line),
    };
    Cause::Take { host, message }
}

fn read_any(host: u8, tag: u32, line: u32) -> Cause {
    let message = Message::Req {
        op: ReqOp::MemRd,
        meta: Meta::Any,
        snp: SnpType::SnpInv,
        tag: Tag(tag),
        line: Line(line),
    };
    Cause::Take { host, message }
}

fn write_shared(host: u8, tag: u32, line: u32, bytes: Bytes64) -> Cause {
    let message = Message::MemWr {
        meta: Meta::Shared,
        snp: SnpType::NoOp,
        tag: Tag(tag),
        line: Line(line),
        bytes,
    };
    Cause::Take { host, message }
}

/// An answer for the first line of a snoop, or for its whole block.
fn answers(host: u8, op: RspOp, first: u16) -> Cause {
    let bitag = BiTag(first);
    let message = Message::BiRsp { op, bitag, low: 0 };
    Cause::Take { host, message }
}

fn credit(host: u8, channel: Channel) -> Cause {
    let message = Message::Credit { channel };
    Cause::Take { host, message }
}

fn start(host: u8, tag: u32) -> Cause {
    let tag = Tag(tag);
    Cause::Act(Act::Start { host, tag })
}

fn evict(host: u8, tag: u32) -> Cause {
    let tag = Tag(tag);
    Cause::Act(Act::Evict { host, tag })
}

fn serve(host: u8, tag: u32) -> Cause {
    let tag = Tag(tag);
    Cause::Act(Act::Serve { host, tag })
}

fn snoop(host: u8, line: u32) -> Cause {
    let line = Line(line);
    Cause::Act(Act::Snoop { host, line })
}

fn finish(line: u32) -> Cause {
    Cause::Act(Act::Finish(Line(line)))
}

/// The device gives a credit back.
fn gives_back(host: u8, channel: Channel) -> Row {
    (
        Cause::Act(Act::DeviceReturn { host, channel }),
        one(host, Message::Credit { channel }),
    )
}

/// A snoop of a block that begins at a line.
fn snooped(host: u8, op: SnpOp, first: u16, span: Span) -> Answer {
    let snoop = Message::BiSnp {
        op,
        bitag: BiTag(first),
        line: Line(u32::from(first)),
        span,
    };
    one(host, snoop)
}

/// Steps by the causes of some rows: the answers are those of the rows, and `would` says so before.
fn step_by(rt: &impl Abort, device: &mut DeviceAgent, rows: &[Row]) {
    for (cause, answer) in rows {
        let before = device.would(cause);
        let stepped = device.step(cause);
        assert_eq!(rt; stepped, before);
        assert_eq!(rt; stepped.map(|emitted| emitted.sends), *answer);
    }
}

/// A load of a line that no other host has: the request, its grant, and the credits that come back.
fn loaded(host: u8, line: u32) -> [Row; 6] {
    [
        (read_shared(host, 0, line), NOTHING),
        (start(host, 0), NOTHING),
        (finish(line), granted(host, NdrOp::CmpE, 0)),
        (credit(host, Channel::Ndr), NOTHING),
        (credit(host, Channel::Drs), NOTHING),
        gives_back(host, Channel::Req),
    ]
}

#[test]
fn refusals_of_the_device(rt: HostRuntime) -> Result<(), Fail> {
    let setup = Setup::new(1, 4, 4, 4, 4, 2, &[0])?;
    let opening = Opening::new(rt.alloc());
    let mut device = DeviceAgent::open(rt.alloc(), &setup, &opening)?;
    let rows = [
        (read_shared(0, 0, 0), NOTHING),
        (start(0, 0), NOTHING),
        (finish(0), granted(0, NdrOp::CmpE, 0)),
        (read_shared(0, 1, 1), NOTHING),
        (start(0, 1), NOTHING),
        (finish(1), granted(0, NdrOp::CmpE, 1)),
        (read_shared(0, 2, 2), broken(RuleNo::V1)),
        gives_back(0, Channel::Req),
        (read_shared(0, 2, 2), NOTHING),
        (start(0, 2), NOTHING),
        (finish(2), Err(DeviceRefusal::NoCredit(Channel::Ndr))),
    ];
    step_by(&rt, &mut device, &rows);
    assert!(rt; device.pending());
    Ok(())
}

#[test]
fn a_served_write_changes_memory_and_lists_no_host(rt: HostRuntime) -> Result<(), Fail> {
    let setup = Setup::new(2, 4, 1, 4, 4, 2, &[0])?;
    let opening = Opening::new(rt.alloc());
    let mut device = DeviceAgent::open(rt.alloc(), &setup, &opening)?;
    let written = Bytes64([0x33; 64]);
    let completion = Message::Ndr {
        op: NdrOp::Cmp,
        tag: Tag(4),
    };
    let rows = [
        (write_shared(0, 4, 3, written), NOTHING),
        (finish(3), broken(RuleNo::V8)),
        (serve(0, 4), one(0, completion)),
        (serve(0, 4), broken(RuleNo::V3)),
        (read_any(1, 0, 3), NOTHING),
        (start(1, 0), NOTHING),
        (snoop(0, 3), broken(RuleNo::V7)),
        (finish(3), granted_with(1, NdrOp::CmpE, 0, written)),
    ];
    step_by(&rt, &mut device, &rows);
    assert!(rt; !device.pending());
    Ok(())
}

#[test]
fn filter_of_one_entry(rt: HostRuntime) -> Result<(), Fail> {
    let setup = Setup::new(1, 2, 1, 2, 2, 2, &[0])?;
    let opening = Opening::new(rt.alloc());
    let mut device = DeviceAgent::open(rt.alloc(), &setup, &opening)?;
    step_by(&rt, &mut device, &loaded(0, 0));
    let rows = [
        (read_shared(0, 0, 1), NOTHING),
        (start(0, 0), broken(RuleNo::V5)),
        (evict(0, 0), NOTHING),
        (evict(0, 0), broken(RuleNo::V6)),
        (finish(0), broken(RuleNo::V8)),
        (snoop(0, 0), snooped(0, SnpOp::Inv, 0, Span::One)),
        (snoop(0, 0), broken(RuleNo::V7)),
        (answers(0, RspOp::S, 0), broken(RuleNo::V2)),
        (answers(0, RspOp::I, 0), NOTHING),
        (credit(0, Channel::BiSnp), NOTHING),
        (start(0, 0), broken(RuleNo::V5)),
        (finish(0), NOTHING),
        (start(0, 0), NOTHING),
        (finish(1), granted(0, NdrOp::CmpE, 0)),
    ];
    step_by(&rt, &mut device, &rows);
    assert!(rt; !device.pending());
    Ok(())
}

#[test]
fn a_store_over_two_shared_copies(rt: HostRuntime) -> Result<(), Fail> {
    let setup = Setup::new(2, 4, 4, 2, 2, 2, &[0, 1, 0])?;
    let opening = Opening::new(rt.alloc());
    let mut device = DeviceAgent::open(rt.alloc(), &setup, &opening)?;
    step_by(&rt, &mut device, &loaded(0, 0));
    let shared = [
        (read_shared(1, 0, 0), NOTHING),
        (start(1, 0), NOTHING),
        (snoop(0, 0), snooped(0, SnpOp::Dat, 0, Span::One)),
        (answers(0, RspOp::S, 0), NOTHING),
        (credit(0, Channel::BiSnp), NOTHING),
        (finish(0), granted(1, NdrOp::CmpS, 0)),
        (credit(1, Channel::Ndr), NOTHING),
        (credit(1, Channel::Drs), NOTHING),
        gives_back(0, Channel::BiRsp),
        gives_back(1, Channel::Req),
    ];
    step_by(&rt, &mut device, &shared);
    let stored = [
        (read_any(0, 0, 0), NOTHING),
        (start(0, 0), NOTHING),
        (snoop(0, 0), broken(RuleNo::V7)),
        (snoop(1, 0), snooped(1, SnpOp::Inv, 0, Span::One)),
        (answers(1, RspOp::I, 0), NOTHING),
        (credit(1, Channel::BiSnp), NOTHING),
        (finish(0), granted(0, NdrOp::CmpE, 0)),
    ];
    step_by(&rt, &mut device, &stored);
    assert!(rt; !device.pending());
    Ok(())
}

#[test]
fn blocks_of_four(rt: HostRuntime) -> Result<(), Fail> {
    let setup = Setup::new(1, 5, 4, 5, 2, 2, &[0])?;
    let opening = Opening::new(rt.alloc());
    let mut device = DeviceAgent::open(rt.alloc(), &setup, &opening)?;
    step_by(&rt, &mut device, &loaded(0, 0));
    step_by(&rt, &mut device, &loaded(0, 1));
    step_by(&rt, &mut device, &loaded(0, 2));
    step_by(&rt, &mut device, &loaded(0, 3));
    let evicted = [
        (read_shared(0, 0, 4), NOTHING),
        (evict(0, 0), NOTHING),
        (snoop(0, 0), snooped(0, SnpOp::InvBlk, 0, Span::Four)),
    ];
    step_by(&rt, &mut device, &evicted);
    let finished = [
        (answers(0, RspOp::IBlk, 0), NOTHING),
        (credit(0, Channel::BiSnp), NOTHING),
        (finish(0), NOTHING),
        (start(0, 0), NOTHING),
        (finish(4), granted(0, NdrOp::CmpE, 0)),
    ];
    step_by(&rt, &mut device, &finished);
    assert!(rt; !device.pending());
    Ok(())
}

#[test]
fn the_largest_setup_takes_and_serves_a_write(rt: HostRuntime) -> Result<(), Fail> {
    let setup = Setup::new(16, 65_536, 4_096, 256, 64, 64, &[])?;
    let opening = Opening::new(rt.alloc());
    let mut device = DeviceAgent::open(rt.alloc(), &setup, &opening)?;
    let written = Bytes64([0x77; 64]);
    let completion = Message::Ndr {
        op: NdrOp::Cmp,
        tag: Tag(64),
    };
    let rows = [
        (write_shared(15, 64, 65_535, written), NOTHING),
        (serve(15, 64), one(15, completion)),
        gives_back(15, Channel::Rwd),
        (read_any(7, 63, 65_535), NOTHING),
        (start(7, 63), NOTHING),
        (finish(65_535), granted_with(7, NdrOp::CmpE, 63, written)),
    ];
    step_by(&rt, &mut device, &rows);
    Ok(())
}
