// Events and operations that are refused, and an opening.
use crate::rows::{LATE_CONFLICT, SHARED_COPY_IS_DROPPED, SILENT_UPGRADE};
use crate::walks::{Walk, event_at, walked};
use cxl_message::{
    BiTag, Bytes64, Cause, Commit, Event, Line, Message, Meta, NdrOp, Op, Opening, Out, ReqOp,
    RuleNo, Sends, Setup, SnpOp, SnpType, Span, Tag,
};
use machine::{HostRefusal, Machine, OpenMachineRefusal};
use std::process::Abort;
use std::test::Fail;

const LOAD: Op = Op::Load { line: Line(0) };

#[test]
fn a_shared_copy_is_evicted_without_a_message(rt: HostRuntime) -> Result<(), Fail> {
    let mut walk = walked(&rt, &SHARED_COPY_IS_DROPPED, 32)?;
    let load = event_at(&rt, &walk, &SHARED_COPY_IS_DROPPED, 32)?;
    let request = |op, meta, snp, tag, line| Out {
        host: 1,
        message: Message::Req {
            op,
            meta,
            snp,
            tag: Tag(tag),
            line: Line(line),
        },
    };
    let evicting = Sends::Two(
        request(ReqOp::MemClnEvct, Meta::Invalid, SnpType::NoOp, 0, 0),
        request(ReqOp::MemRd, Meta::Shared, SnpType::SnpData, 1, 1),
    );
    let wrong = Event {
        sends: evicting,
        ..load
    };
    assert_eq!(rt; walk.apply(&wrong), Err(RuleNo::H2));
    Ok(())
}

#[test]
fn an_acknowledgement_waits_for_an_earlier_completion(rt: HostRuntime) -> Result<(), Fail> {
    let mut walk = walked(&rt, &LATE_CONFLICT, 12)?;
    let taken = Event {
        agent: 0,
        cause: Cause::Take {
            host: 0,
            message: Message::Ndr {
                op: NdrOp::ConflictAck,
                tag: Tag(0),
            },
        },
        sends: Sends::Nothing,
        commit: None,
    };
    assert_eq!(rt; walk.apply(&taken), Err(RuleNo::K0));
    Ok(())
}

#[test]
fn a_host_sends_no_snoop(rt: HostRuntime) -> Result<(), Fail> {
    let mut walk = Walk::new(&rt, &SILENT_UPGRADE)?;
    let snoop = Message::BiSnp {
        op: SnpOp::Cur,
        bitag: BiTag(0),
        line: Line(0),
        span: Span::One,
    };
    let snooping = Event {
        sends: Sends::One(Out {
            host: 0,
            message: snoop,
        }),
        ..event_at(&rt, &walk, &SILENT_UPGRADE, 0)?
    };
    assert_eq!(rt; walk.apply(&snooping), Err(RuleNo::P0));
    Ok(())
}

#[test]
fn a_load_gives_the_bytes_that_came(rt: HostRuntime) -> Result<(), Fail> {
    let mut walk = walked(&rt, &SILENT_UPGRADE, 5)?;
    let other = Event {
        commit: Some(Commit {
            stream: 0,
            index: 0,
            op: LOAD,
            value: Bytes64([1; 64]),
        }),
        ..event_at(&rt, &walk, &SILENT_UPGRADE, 5)?
    };
    assert_eq!(rt; walk.apply(&other), Err(RuleNo::H3));
    Ok(())
}

/// Tries an operation of stream 0 that is refused.
fn not_offered(rt: &impl Abort, walk: &Walk, op: &Op, refusal: HostRefusal) {
    assert!(rt; walk.offer(0, op) == Some(Err(refusal)));
}

#[test]
fn operations_are_refused(rt: HostRuntime) -> Result<(), Fail> {
    let mut walk = Walk::new(&rt, &SILENT_UPGRADE)?;
    let past = Op::Load { line: Line(4) };
    not_offered(&rt, &walk, &past, HostRefusal::NoSuchLine);
    let far = Op::Word {
        line: Line(0),
        place: 8,
        value: 0,
    };
    not_offered(&rt, &walk, &far, HostRefusal::Broken(RuleNo::P0));
    let load = event_at(&rt, &walk, &SILENT_UPGRADE, 0)?;
    assert_eq!(rt; walk.apply(&load), Ok(()));
    not_offered(&rt, &walk, &LOAD, HostRefusal::Again);
    let other = Op::Load { line: Line(1) };
    not_offered(&rt, &walk, &other, HostRefusal::Broken(RuleNo::S0));
    Ok(())
}

#[test]
fn an_opening_past_the_lines_is_bad(rt: HostRuntime) -> Result<(), Fail> {
    let setup = Setup::new(1, 4, 4, 4, 2, 2, &[0])?;
    let mut opening = Opening::new(rt.alloc());
    opening.add(Line(4), &Bytes64([1; 64]))?;
    let refused = Machine::open(rt.alloc(), &setup, &opening).err();
    assert_eq!(rt; refused, Some(OpenMachineRefusal::BadOpening));
    Ok(())
}
