// What the contracts leave to examples: each public call on its happy path, and the limits as a person knows them.
mod names;
mod profile;
mod values;

use super::*;
use std::test::Fail;

/// A setup of one stream with these numbers.
fn refusal(numbers: (u8, u32, u16, u16, u16, u8), streams: &[u8]) -> Option<SetupRefusal> {
    let (hosts, lines, entries, ways, tags, credits) = numbers;
    Setup::new(hosts, lines, entries, ways, tags, credits, streams).err()
}

#[test]
fn setups_are_refused_by_their_first_bad_number(rt: HostRuntime) {
    let good = (16, 65536, 4096, 256, 1024, 64);
    assert_eq!(rt; refusal(good, &[0, 15]), None);
    assert_eq!(rt; refusal((1, 1, 1, 1, 2, 2), &[]), None);
    for (numbers, wanted) in [
        ((0, 0, 0, 0, 0, 0), SetupRefusal::Hosts),
        ((17, 0, 0, 0, 0, 0), SetupRefusal::Hosts),
        ((1, 0, 0, 0, 0, 0), SetupRefusal::Lines),
        ((1, 65537, 0, 0, 0, 0), SetupRefusal::Lines),
        ((1, 1, 0, 0, 0, 0), SetupRefusal::Entries),
        ((1, 1, 4097, 0, 0, 0), SetupRefusal::Entries),
        ((1, 1, 1, 0, 0, 0), SetupRefusal::Ways),
        ((1, 1, 1, 257, 0, 0), SetupRefusal::Ways),
        ((1, 1, 1, 1, 1, 0), SetupRefusal::Tags),
        ((1, 1, 1, 1, 1025, 0), SetupRefusal::Tags),
        ((1, 1, 1, 1, 2, 1), SetupRefusal::Credits),
        ((1, 1, 1, 1, 2, 65), SetupRefusal::Credits),
        ((1, 1, 1, 1, 2, 2), SetupRefusal::Streams),
    ] {
        assert_eq!(rt; refusal(numbers, &[1]), Some(wanted), "at {numbers:?}");
    }
    assert_eq!(rt; refusal(good, &[0; 64]), None);
    assert_eq!(rt; refusal(good, &[0; 65]), Some(SetupRefusal::Streams));
}

#[test]
fn refusals_say_what_is_allowed(rt: HostRuntime) -> Result<(), Fail> {
    assert_eq!(rt;
        format!(in rt.alloc(); "{}", SetupRefusal::Tags)?.as_str(),
        "tags: each host has 2 to 1024"
    );
    assert_eq!(rt;
        format!(in rt.alloc(); "{}", OpeningRefusal::Order)?.as_str(),
        "order: the line isn't greater than the last one"
    );
    Ok(())
}

#[test]
fn a_setup_gives_its_numbers(rt: HostRuntime) -> Result<(), Fail> {
    let setup = Setup::new(2, 4, 3, 5, 6, 7, &[1, 0, 1])?;
    assert_eq!(rt; (setup.hosts(), setup.lines(), setup.entries()), (2, 4, 3));
    assert_eq!(rt; (setup.ways(), setup.tags(), setup.credits()), (5, 6, 7));
    assert_eq!(rt; setup.streams(), [1, 0, 1].as_slice());
    assert_eq!(rt; setup.stream_host(2), Some(1));
    assert_eq!(rt; setup.stream_host(3), None);
    let copy = setup;
    assert!(rt; copy == setup);
    Ok(())
}

#[test]
fn openings_keep_order_and_refuse_zeros(rt: HostRuntime) -> Result<(), Fail> {
    let full = Bytes64([0xab; 64]);
    let mut opening = Opening::new(rt.alloc());
    assert_eq!(rt; opening.add(Line(1), &full), Ok(()));
    assert_eq!(rt; opening.add(Line(1), &full), Err(OpeningRefusal::Order));
    assert_eq!(rt; opening.add(Line(0), &full), Err(OpeningRefusal::Order));
    assert_eq!(rt;
        opening.add(Line(2), &Bytes64([0; 64])),
        Err(OpeningRefusal::Zero)
    );
    assert_eq!(rt; opening.add(Line(65535), &Bytes64([1; 64])), Ok(()));
    assert_eq!(rt; opening.pairs().len(), 2);
    assert_eq!(rt; opening.bytes_at(Line(1)), full);
    assert_eq!(rt; opening.bytes_at(Line(2)), Bytes64([0; 64]));
    assert_eq!(rt; opening.bytes_at(Line(65535)), Bytes64([1; 64]));
    assert!(rt; opening.fits(&Setup::new(1, 65536, 1, 1, 2, 2, &[])?));
    assert!(rt; !opening.fits(&Setup::new(1, 65535, 1, 1, 2, 2, &[])?));
    Ok(())
}

#[test]
fn messages_go_on_their_channels(rt: HostRuntime) {
    let read = Message::Req {
        op: ReqOp::MemRd,
        meta: Meta::Shared,
        snp: SnpType::SnpData,
        tag: Tag(0),
        line: Line(0),
    };
    let snoop = Message::BiSnp {
        op: SnpOp::InvBlk,
        bitag: BiTag(4),
        line: Line(4),
        span: Span::Four,
    };
    let credit = Message::Credit {
        channel: Channel::BiSnp,
    };
    let back = Message::Credit {
        channel: Channel::Rwd,
    };
    for (message, channel) in [
        (read, Channel::Req),
        (snoop, Channel::BiSnp),
        (credit, Channel::CreditUp),
        (back, Channel::CreditDown),
    ] {
        assert_eq!(rt; message.channel(), channel, "at {message:?}");
    }
    assert!(rt; Channel::Req.goes_to_device());
    assert!(rt; !Channel::CreditDown.goes_to_device());
    assert!(rt; !Channel::CreditDown.has_credits());
}

#[test]
fn events_are_well_formed_within_the_limits_of_a_record(rt: HostRuntime) {
    let credit = Out {
        host: 15,
        message: Message::Credit {
            channel: Channel::Req,
        },
    };
    let event = Event {
        agent: 16,
        cause: Cause::Act(Act::DeviceReturn {
            host: 15,
            channel: Channel::Req,
        }),
        sends: Sends::One(credit),
        commit: None,
    };
    assert!(rt; well_formed(&event));
    let nobody = Event { agent: 17, ..event };
    assert!(rt; !well_formed(&nobody));
    let far = Out { host: 16, ..credit };
    let sent_far = Event {
        sends: Sends::Two(credit, far),
        ..event
    };
    assert!(rt; !well_formed(&sent_far));
    let ninth = Op::Word {
        line: Line(0),
        place: 8,
        value: 0,
    };
    let misplaced = Event {
        commit: Some(Commit {
            stream: 0,
            index: 0,
            op: ninth,
            value: Bytes64([0; 64]),
        }),
        ..event
    };
    assert!(rt; !well_formed(&misplaced));
}
