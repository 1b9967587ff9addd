// Tallies stand in the order in which operations first name their lines.
use crate::texts::{ZEROS, quiet};
use cxl_message::{Act, Cause, Event, Line, Op};
use cxl_view::Tallies;
use std::test::Fail;

// An event in which stream 0 begins an operation.
fn begins(op: Op) -> Event {
    quiet(
        0,
        Cause::Op {
            stream: 0,
            index: 0,
            op,
        },
    )
}

#[test]
fn lines_stand_in_the_order_of_operations(rt: HostRuntime) -> Result<(), Fail> {
    let mut tallies = Tallies::new(rt.alloc(), 4);
    let word = Op::Word {
        line: Line(1),
        place: 0,
        value: 7,
    };
    let whole = Op::Whole {
        line: Line(3),
        bytes: ZEROS,
    };
    for event in [
        quiet(0, Cause::Act(Act::Finish(Line(0)))),
        begins(Op::Load { line: Line(3) }),
        begins(Op::Load { line: Line(4) }),
        begins(word),
        begins(whole),
        begins(Op::Load { line: Line(3) }),
        begins(word),
    ] {
        assert!(rt; tallies.events() < 7);
        tallies.count(&event)?;
    }
    let mut text = Vec::new(rt.alloc());
    tallies.render(&mut text)?;
    assert!(rt;
        text.as_slice()
            == b"line 3 loads 2 words 0 wholes 1\nline 1 loads 0 words 2 wholes 0\nevents 7 commits 0\n".as_slice()
    );
    Ok(())
}
