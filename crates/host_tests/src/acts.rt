use cxl_message::{Act, BiTag, Cause, Channel, Line, Message, Setup, SnpOp, Span};
use event_room::EventRoom;
use host_acts::{act_at, act_count, weight};
use host_rows::{HostRefusal, answer_into, change};
use host_tables::HostTables;
use std::test::Fail;

/// A snoop of line 3 alone.
const SNOOP: Message = Message::BiSnp {
    op: SnpOp::Inv,
    bitag: BiTag(3),
    line: Line(3),
    span: Span::One,
};

/// Makes the event of a cause.
fn steps(host: &mut HostTables, cause: &Cause) -> Result<(), HostRefusal> {
    let mut room = EventRoom::new();
    let plan = answer_into(host, cause, &mut room)?;
    change(host, cause, plan, &room);
    Ok(())
}

/// Takes the snoop.
fn snooped(host: &mut HostTables) -> Result<(), HostRefusal> {
    let cause = Cause::Take {
        host: 0,
        message: SNOOP,
    };
    steps(host, &cause)
}

#[test]
fn acts_are_counted_and_picked_in_their_order(rt: HostRuntime) -> Result<(), Fail> {
    let setup = Setup::new(1, 8, 4, 4, 2, 2, &[0])?;
    let mut host = HostTables::open(rt.alloc(), &setup, 0)?;
    assert_eq!(rt; act_count(&host), 0);
    assert_eq!(rt; act_at(&host, 0), None);
    assert_eq!(rt; weight(&host), 0);
    snooped(&mut host)?;
    assert_eq!(rt; act_count(&host), 1);
    assert_eq!(rt; act_at(&host, 0), Some(Act::Answer(Line(3))));
    assert_eq!(rt; act_at(&host, 1), None);
    steps(&mut host, &Cause::Act(Act::Answer(Line(3))))?;
    assert_eq!(rt; act_count(&host), 1);
    assert_eq!(rt; act_at(&host, 0), Some(Act::HostReturn(Channel::BiSnp)));
    assert_eq!(rt; weight(&host), 2);
    Ok(())
}
