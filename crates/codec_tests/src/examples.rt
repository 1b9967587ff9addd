// Worked examples.
use crate::records::joined;
use cxl_codec::{
    DecodeRefusal, FieldName, decode_end, decode_event, decode_header, decode_opening, encode_end,
    encode_event, encode_header, encode_opening, encode_room, fits_version_one,
};
use cxl_message::{
    Act, Bytes64, Cause, Commit, Event, Line, Message, Meta, NdrOp, Op, Out, ReqOp, Sends, Setup,
    SnpType, Tag, well_formed,
};
use event_room::EventRoom;
use std::alloc::{AllocError, Global};
use std::test::Fail;

const ZEROS: Bytes64 = Bytes64([0; 64]);

const LOAD: Op = Op::Load { line: Line(0) };

const READ: Message = Message::Req {
    op: ReqOp::MemRd,
    meta: Meta::Shared,
    snp: SnpType::SnpData,
    tag: Tag(0),
    line: Line(0),
};

const GRANT: Message = Message::Ndr {
    op: NdrOp::CmpE,
    tag: Tag(0),
};

const DATA: Message = Message::MemData {
    tag: Tag(0),
    bytes: ZEROS,
};

const COMMIT: Commit = Commit {
    stream: 0,
    index: 0,
    op: LOAD,
    value: ZEROS,
};

// An event that sends and commits nothing.
fn quiet(agent: u8, cause: Cause) -> Event {
    Event {
        agent,
        cause,
        sends: Sends::Nothing,
        commit: None,
    }
}

// A message to or from host 0.
fn out(message: Message) -> Out {
    Out { host: 0, message }
}

// A take of a message of host 0.
fn take(message: Message) -> Cause {
    Cause::Take { host: 0, message }
}

// The events of the example 'One load'.
fn one_load() -> [Event; 6] {
    let operation = Cause::Op {
        stream: 0,
        index: 0,
        op: LOAD,
    };
    let start = Act::Start {
        host: 0,
        tag: Tag(0),
    };
    let mut begins = quiet(0, operation);
    begins.sends = Sends::One(out(READ));
    let mut grants = quiet(16, Cause::Act(Act::Finish(Line(0))));
    grants.sends = Sends::Two(out(GRANT), out(DATA));
    let mut ends = quiet(0, take(DATA));
    ends.commit = Some(COMMIT);
    [
        begins,
        quiet(16, take(READ)),
        quiet(16, Cause::Act(start)),
        grants,
        quiet(0, take(GRANT)),
        ends,
    ]
}

// The bytes of the example 'One load'.
fn one_load_bytes(alloc: Global) -> Result<Vec<u8>, AllocError> {
    joined(
        alloc,
        &[
            b"CXLT\x01\x01\x00\x03\x00\x03\x03\x02\x02\x01\x00",
            b"\x00\x01\x00\x00\x00\x00\x00\x01\x00\x00\x00\x00\x01\x00\x01\x02\x01\x00\x00\x00\x00\x00\x00\x00",
            b"\x10\x02\x00\x01\x02\x01\x00\x00\x00\x00\x00\x00\x00\x00",
            b"\x10\x03\x13\x00\x00\x00\x00\x00",
            b"\x10\x03\x16\x00\x00\x00\x00\x02\x00\x33\x00\x00\x00\x41\x00\x00",
            &[0; 64],
            b"\x00",
            b"\x00\x02\x00\x33\x00\x00\x00\x00",
            b"\x00\x02\x00\x41\x00\x00",
            &[0; 64],
            b"\x00\x01\x00\x00\x00\x00\x00\x01\x00\x00\x00\x00",
            &[0; 64],
            b"\xff\x00\x00\x00\x00\x00\x00\x00\x06",
        ],
    )
}

#[test]
fn one_load_is_written(rt: HostRuntime) -> Result<(), Fail> {
    let setup = Setup::new(1, 4, 4, 4, 2, 2, &[0])?;
    let mut out = Vec::new(rt.alloc());
    let mut again = Vec::new(rt.alloc());
    let mut room = EventRoom::new();
    encode_header(&setup, &mut out)?;
    encode_header(&setup, &mut again)?;
    for event in &one_load() {
        assert!(rt; well_formed(event));
        assert!(rt; fits_version_one(event));
        encode_event(event, &mut out)?;
        room.set(event);
        encode_room(&room, &mut again)?;
    }
    encode_end(6, &mut out)?;
    encode_end(6, &mut again)?;
    assert_eq!(rt; out.len(), 305);
    assert!(rt; out.as_slice() == one_load_bytes(rt.alloc())?.as_slice());
    assert!(rt; out.as_slice() == again.as_slice());
    Ok(())
}

#[test]
fn one_load_is_read(rt: HostRuntime) -> Result<(), Fail> {
    let bytes = one_load_bytes(rt.alloc())?;
    let (setup, length) = decode_header(&bytes)?;
    assert_eq!(rt; setup, Setup::new(1, 4, 4, 4, 2, 2, &[0])?);
    let mut at = length;
    for (event, length) in one_load().iter().zip([24, 14, 8, 81, 8, 146]) {
        let found = decode_event(bytes.get(at..).ok_or("the trace ends early")?)?;
        assert!(rt; found == (*event, length));
        at = at.wrapping_add(length);
    }
    assert_eq!(rt; at, 296);
    assert_eq!(rt;
        decode_end(bytes.get(at..).ok_or("the trace ends early")?)?,
        (6, 9)
    );
    Ok(())
}

#[test]
fn an_opening(rt: HostRuntime) -> Result<(), Fail> {
    let bytes = Bytes64([0xab; 64]);
    let mut out = Vec::new(rt.alloc());
    encode_opening(Line(0x0102), &bytes, &mut out)?;
    let expected = joined(rt.alloc(), &[b"\xf0\x01\x02", &[0xab; 64]])?;
    assert_eq!(rt; out.as_slice(), expected.as_slice());
    assert_eq!(rt; decode_opening(&out)?, (Line(0x0102), bytes, 67));
    Ok(())
}

#[test]
fn records(rt: HostRuntime) -> Result<(), Fail> {
    let kind = DecodeRefusal::Kind { at: 1 };
    let agent = DecodeRefusal::Field {
        at: 0,
        which: FieldName::Agent,
    };
    let payload = DecodeRefusal::Field {
        at: 12,
        which: FieldName::Payload,
    };
    let conflict = joined(
        rt.alloc(),
        &[
            b"\x00\x03\x01\x00\x00\x00\x00\x01\x00\x12\x00\x00\x01",
            &[0; 63],
        ],
    )?;
    assert_eq!(rt;
        decode_event(b"\x00\x01\x00").err(),
        Some(DecodeRefusal::Short)
    );
    assert_eq!(rt; decode_event(b"\x11").err(), Some(agent));
    assert_eq!(rt; decode_event(b"\x00\x04").err(), Some(kind));
    assert_eq!(rt; decode_event(&conflict).err(), Some(payload));
    Ok(())
}
