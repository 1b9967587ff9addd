// Worked traces as text.
use crate::texts::{AB_DIGITS, ZERO_DIGITS, ZEROS, joined, quiet};
use cxl_codec::Version;
use cxl_message::{
    Act, Bytes64, Cause, Commit, Event, Line, Message, Meta, NdrOp, Op, Out, ReqOp, Sends, Setup,
    SnpType, Tag,
};
use cxl_view::{Tallies, render_event, render_header, render_name, render_opening, render_room};
use event_room::EventRoom;
use std::test::Fail;

const LOAD: Op = Op::Load { line: Line(0) };

const READ: Message = Message::Req {
    op: ReqOp::MemRd,
    meta: Meta::Shared,
    snp: SnpType::SnpData,
    tag: Tag(0),
    line: Line(0),
};

const GRANT: Message = Message::Ndr {
    op: NdrOp::CmpE,
    tag: Tag(0),
};

const DATA: Message = Message::MemData {
    tag: Tag(0),
    bytes: ZEROS,
};

// A message to or from host 0.
fn out(message: Message) -> Out {
    Out { host: 0, message }
}

// A take of a message of host 0.
fn take(message: Message) -> Cause {
    Cause::Take { host: 0, message }
}

// The events of one load of line 0.
fn one_load() -> [Event; 6] {
    let mut begins = quiet(
        0,
        Cause::Op {
            stream: 0,
            index: 0,
            op: LOAD,
        },
    );
    begins.sends = Sends::One(out(READ));
    let start = Act::Start {
        host: 0,
        tag: Tag(0),
    };
    let mut grants = quiet(16, Cause::Act(Act::Finish(Line(0))));
    grants.sends = Sends::Two(out(GRANT), out(DATA));
    let mut ends = quiet(0, take(DATA));
    ends.commit = Some(Commit {
        stream: 0,
        index: 0,
        op: LOAD,
        value: ZEROS,
    });
    [
        begins,
        quiet(16, take(READ)),
        quiet(16, Cause::Act(start)),
        grants,
        quiet(0, take(GRANT)),
        ends,
    ]
}

#[test]
fn nothing_is_two_lines(rt: HostRuntime) -> Result<(), Fail> {
    let setup = Setup::new(1, 1, 1, 1, 2, 2, &[])?;
    let mut text = Vec::new(rt.alloc());
    render_header(Version::One, &setup, &mut text)?;
    Tallies::new(rt.alloc(), setup.lines()).render(&mut text)?;
    assert!(rt;
        text.as_slice()
            == b"trace 1 hosts 1 lines 1 filter 1 ways 1 tags 2 credits 2\nevents 0 commits 0\n".as_slice()
    );
    Ok(())
}

#[test]
fn one_load_is_shown(rt: HostRuntime) -> Result<(), Fail> {
    let setup = Setup::new(1, 4, 4, 4, 2, 2, &[0])?;
    let mut text = Vec::new(rt.alloc());
    let mut again = Vec::new(rt.alloc());
    let mut tallies = Tallies::new(rt.alloc(), setup.lines());
    let mut counted = Tallies::new(rt.alloc(), setup.lines());
    let mut room = EventRoom::new();
    let mut number = 0;
    render_header(Version::One, &setup, &mut text)?;
    render_header(Version::One, &setup, &mut again)?;
    for event in &one_load() {
        assert!(rt; number < 6 && tallies.events() < 6 && counted.events() < 6);
        render_event(number, event, &mut text)?;
        tallies.count(event)?;
        room.set(event);
        render_room(number, &room, &mut again)?;
        counted.count_room(&room)?;
        number += 1;
    }
    tallies.render(&mut text)?;
    counted.render(&mut again)?;
    let wanted = joined(
        rt.alloc(),
        &[
            b"trace 1 hosts 1 lines 4 filter 4 ways 4 tags 2 credits 2\nstream 0 host 0\n",
            b"0 h0 load s0.0 line=0 > h0 MemRd Shared SnpData tag=0 line=0\n",
            b"1 dev take h0 MemRd Shared SnpData tag=0 line=0\n2 dev act Start h0 tag=0\n",
            b"3 dev act Finish line=0 > h0 Cmp-E tag=0 > h0 MemData tag=0 bytes=",
            ZERO_DIGITS,
            b"\n4 h0 take h0 Cmp-E tag=0\n5 h0 take h0 MemData tag=0 bytes=",
            ZERO_DIGITS,
            b" = load s0.0 line=0 gives ",
            ZERO_DIGITS,
            b"\nline 0 loads 1 words 0 wholes 0\nevents 6 commits 1\n",
        ],
    )?;
    assert!(rt; text.as_slice() == wanted.as_slice());
    assert!(rt; again.as_slice() == wanted.as_slice());
    assert_eq!(rt; (tallies.events(), tallies.commits()), (6, 1));
    Ok(())
}

#[test]
fn names_and_openings_stand_behind_the_streams(rt: HostRuntime) -> Result<(), Fail> {
    let setup = Setup::new(2, 4, 4, 4, 1024, 2, &[0, 1])?;
    let mut text = Vec::new(rt.alloc());
    text.extend_from_slice(b"kept from before")?;
    text.clear();
    render_header(Version::Two, &setup, &mut text)?;
    render_name(0, b"cpu", &mut text)?;
    render_opening(Line(1), &Bytes64([0xab; 64]), &mut text)?;
    let wanted = joined(
        rt.alloc(),
        &[
            b"trace 2 hosts 2 lines 4 filter 4 ways 4 tags 1024 credits 2\n",
            b"stream 0 host 0\nstream 1 host 1\nname 0 cpu\nopen 1 ",
            AB_DIGITS,
            b"\n",
        ],
    )?;
    assert!(rt; text.as_slice() == wanted.as_slice());
    Ok(())
}
