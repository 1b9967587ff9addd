// The first events of two hosts that don't know of each other, and two loads with 2,000 more from two threads.

use board_trial::{Stage, ZEROS, load, loaded};
use cxl_message::{
    Act, Cause, Event, Line, Message, Meta, NdrOp, Op, Out, ReqOp, Sends, Setup, SnpType, Tag,
};
use std::process::Abort;
use std::test::Fail;

const DEVICE: u8 = 16;

/// Two hosts with a stream each.
fn opened(rt: &(impl Abort + AllocGlobal), room: u32) -> Result<Stage, Fail> {
    let setup = Setup::new(2, 4, 4, 2, 2, 2, &[0, 1])?;
    assert!(rt; setup.hosts() == 2);
    Ok(Stage::open(rt.alloc(), &setup, room)?)
}

fn plain(agent: u8, cause: Cause) -> Event {
    Event {
        agent,
        cause,
        sends: Sends::Nothing,
        commit: None,
    }
}

fn out(host: u8, message: Message) -> Out {
    Out { host, message }
}

fn read(host: u8) -> Message {
    Message::Req {
        op: ReqOp::MemRd,
        meta: Meta::Shared,
        snp: SnpType::SnpData,
        tag: Tag(0),
        line: Line(u32::from(host)),
    }
}

fn grant() -> Message {
    Message::Ndr {
        op: NdrOp::CmpE,
        tag: Tag(0),
    }
}

fn data() -> Message {
    Message::MemData {
        tag: Tag(0),
        bytes: ZEROS,
    }
}

/// A host begins to load its own line: it sends the request.
fn begins(host: u8) -> Event {
    Event {
        sends: Sends::One(out(host, read(host))),
        ..plain(host, load(host, 0))
    }
}

/// The six events of a host's load of its own line, which no host has.
fn one_load(host: u8) -> [Event; 6] {
    let take = |message| Cause::Take { host, message };
    let start = Act::Start { host, tag: Tag(0) };
    let finish = Act::Finish(Line(u32::from(host)));
    [
        begins(host),
        plain(DEVICE, take(read(host))),
        plain(DEVICE, Cause::Act(start)),
        Event {
            sends: Sends::Two(out(host, grant()), out(host, data())),
            ..plain(DEVICE, Cause::Act(finish))
        },
        plain(host, take(grant())),
        Event {
            commit: Some(loaded(host, 0)),
            ..plain(host, take(data()))
        },
    ]
}

#[test]
fn hosts_mark_their_first_loads_apart(rt: HostRuntime) -> Result<(), Fail> {
    let stage = opened(&rt, 10)?;
    let same = Cause::Op {
        stream: 1,
        index: 0,
        op: Op::Load { line: Line(0) },
    };
    let apart = stage.mark_apart(rt.alloc(), &load(0, 0), &same)?;
    assert_eq!(rt; (apart.first, apart.second), ([0], [1]));
    assert_eq!(rt; apart.events, 2);
    Ok(())
}

#[test]
fn two_threads_mark_two_thousand_loads(rt: HostRuntime) -> Result<(), Fail> {
    let mut stage = opened(&rt, 2000)?;
    for host in 0..2 {
        for event in &one_load(host) {
            stage = stage.play(event)?;
        }
    }
    let race = stage.race::<1000, _>(&rt, rt.alloc())?;
    assert_eq!(rt; race.events, 2012);
    let mut taken = [false; 2000];
    for number in race.first.iter().chain(race.second.iter()) {
        let place = number.checked_sub(12).ok_or("a number of the two loads")?;
        let seen = taken
            .get_mut(place as usize)
            .ok_or("a number past the run")?;
        assert!(rt; !*seen, "{number} twice");
        *seen = true;
    }
    assert!(rt; race.first.is_sorted() && race.second.is_sorted());
    Ok(())
}
