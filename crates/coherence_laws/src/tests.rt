// The laws along a worked run, and what is refused.
use crate::{advance, copies, quiet, weight};
use cxl_message::{Act, Cause, CopyState, Event, Line, Op, Opening, RuleNo, Sends, Setup};
use machine::{HostRefusal, Machine};
use std::process::Abort;
use std::test::Fail;

const WORD: Op = Op::Word {
    line: Line(0),
    place: 0,
    value: 0xff,
};

/// The machine of two hosts with a stream each.
fn opened(rt: &(impl Abort + AllocGlobal)) -> Result<Machine, Fail> {
    let setup = Setup::new(2, 4, 4, 4, 2, 2, &[0, 1])?;
    let opening = Opening::new(rt.alloc());
    Ok(Machine::open(rt.alloc(), &setup, &opening)?)
}

/// What a stream's next operation would be.
fn offered(rt: &impl Abort, machine: &Machine, stream: u8, op: &Op) -> Result<Event, HostRefusal> {
    assert!(rt; machine.setup().stream_host(stream).is_some());
    machine.offer(stream, op)
}

/// Begins the next operation of a stream, and takes first choices until none is left; each of them lowers the weight. Answers how many
/// there were.
fn performed(rt: &impl Abort, machine: &mut Machine, stream: u8, op: &Op) -> Result<u32, Fail> {
    let begun = offered(rt, machine, stream, op)?;
    advance(machine, &begun)?;
    let mut steps = 0;
    for step in 0..100u32 {
        if machine.choices() > 0 {
            let before = weight(machine);
            let next = machine.choice(0);
            advance(machine, &next)?;
            assert!(rt; weight(machine) < before, "at {step}");
            steps = step + 1;
        }
    }
    assert!(rt; quiet(machine));
    assert_eq!(rt; weight(machine), 0);
    Ok(steps)
}

#[test]
fn a_store_takes_the_only_copy(rt: HostRuntime) -> Result<(), Fail> {
    let mut machine = opened(&rt)?;
    assert_eq!(rt; copies(&machine, Line(0)), [CopyState::I; 16]);
    assert_eq!(rt; performed(&rt, &mut machine, 0, &WORD)?, 11);
    let mut wanted = [CopyState::I; 16];
    wanted[0] = CopyState::M;
    assert_eq!(rt; copies(&machine, Line(0)), wanted);
    assert_eq!(rt; copies(&machine, Line(1)), [CopyState::I; 16]);
    performed(&rt, &mut machine, 1, &WORD)?;
    wanted[0] = CopyState::I;
    wanted[1] = CopyState::M;
    assert_eq!(rt; copies(&machine, Line(0)), wanted);
    performed(&rt, &mut machine, 0, &Op::Load { line: Line(0) })?;
    wanted[0] = CopyState::S;
    wanted[1] = CopyState::S;
    assert_eq!(rt; copies(&machine, Line(0)), wanted);
    Ok(())
}

#[test]
fn what_is_begun_weighs(rt: HostRuntime) -> Result<(), Fail> {
    let mut machine = opened(&rt)?;
    assert!(rt; quiet(&machine));
    assert_eq!(rt; weight(&machine), 0);
    let begun = offered(&rt, &machine, 0, &WORD)?;
    assert_eq!(rt; advance(&mut machine, &begun), Ok(()));
    assert!(rt; !quiet(&machine));
    assert_eq!(rt; weight(&machine), 2 * 108 - 11);
    Ok(())
}

#[test]
fn a_broken_rule_is_named_and_changes_nothing(rt: HostRuntime) -> Result<(), Fail> {
    let mut machine = opened(&rt)?;
    let finish = Event {
        agent: 16,
        cause: Cause::Act(Act::Finish(Line(0))),
        sends: Sends::Nothing,
        commit: None,
    };
    assert_eq!(rt; advance(&mut machine, &finish), Err(RuleNo::V8));
    let of_a_host = Event { agent: 0, ..finish };
    assert_eq!(rt; advance(&mut machine, &of_a_host), Err(RuleNo::P0));
    assert!(rt; quiet(&machine));
    Ok(())
}
