use cxl_message::{
    Act, BiTag, Channel, CopyState, Line, Message, Op, Out, RspOp, Setup, SnpOp, Span, Tag,
};
use event_room::{OutRef, SendsRef};
use host_plans::Plan;
use host_tables::HostTables;
use std::test::Fail;

const LOAD: Op = Op::Load { line: Line(3) };

/// A snoop of line 3 alone.
const SNOOP: Message = Message::BiSnp {
    op: SnpOp::Inv,
    bitag: BiTag(3),
    line: Line(3),
    span: Span::One,
};

#[test]
fn a_host_begins_with_nothing(rt: HostRuntime) -> Result<(), Fail> {
    let setup = Setup::new(2, 8, 4, 4, 2, 2, &[0, 1])?;
    let host = HostTables::open(rt.alloc(), &setup, 1)?;
    assert_eq!(rt; host.host(), 1);
    assert_eq!(rt; host.setup().lines(), 8);
    assert_eq!(rt; host.left(Channel::Req), 2);
    assert_eq!(rt; host.owed(Channel::Ndr), 0);
    assert_eq!(rt; host.held_messages(Channel::BiSnp), 0);
    assert!(rt; host.open_with(Tag(0)).is_none());
    assert_eq!(rt; host.write_back_tag(), Tag(2));
    assert!(rt; !host.is_write_back_tag(Tag(2)));
    assert!(rt; !host.is_writing());
    assert!(rt; !host.any_busy());
    assert!(rt; host.has_none_snooped(Line(0), Span::Four));
    assert!(rt; host.snoops().is_empty());
    assert!(rt; host.whole_block(Line(0)).is_none());
    Ok(())
}

#[test]
fn a_load_that_misses_is_planned_with_the_lowest_tag(rt: HostRuntime) -> Result<(), Fail> {
    let setup = Setup::new(1, 8, 4, 4, 2, 2, &[0])?;
    let host = HostTables::open(rt.alloc(), &setup, 0)?;
    match host.plan(&LOAD) {
        Ok(plan) => assert!(rt; plan == Plan::Request { tag: Tag(0) }),
        Err(_) => assert!(rt; false),
    }
    assert!(rt; !host.opens(Line(3)));
    assert!(rt; host.open_at(Line(3)).is_none());
    assert_eq!(rt; host.tag_at(Line(3)), None);
    assert_eq!(rt; host.begun(0), 0);
    assert!(rt; !host.waits(0));
    assert_eq!(rt; host.copy(Line(3)), CopyState::I);
    assert!(rt; !host.has_copy(Line(3)));
    assert!(rt; !host.is_dirty(Line(3)));
    Ok(())
}

#[test]
fn a_snoop_is_held_until_it_is_answered(rt: HostRuntime) -> Result<(), Fail> {
    let setup = Setup::new(1, 8, 4, 4, 2, 2, &[0])?;
    let mut host = HostTables::open(rt.alloc(), &setup, 0)?;
    host.take(&SNOOP, None);
    assert!(rt; host.is_snooped(Line(3)));
    assert!(rt; host.snoop_of(Line(3)).is_some());
    assert!(rt; host.stage(Line(3)).is_new());
    assert!(rt; !host.has_conflict(Tag(0)));
    let message = Message::BiRsp {
        op: RspOp::I,
        bitag: BiTag(3),
        low: 0,
    };
    let answer = Out { host: 0, message };
    host.act(&Act::Answer(Line(3)), SendsRef::One(OutRef::of(&answer)));
    assert!(rt; !host.is_snooped(Line(3)));
    assert_eq!(rt; host.left(Channel::BiRsp), 1);
    assert_eq!(rt; host.owed(Channel::BiSnp), 1);
    Ok(())
}
