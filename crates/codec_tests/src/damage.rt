// Each byte of each kind of record, damaged in each way that changes its class: each byte that its place doesn't allow is
// put there in turn, and where every byte is allowed, each of them. `places` is the table of what a place allows.
use crate::places::{Place, expected, is_allowed};
use cxl_codec::{
    DecodeRefusal, FieldName, Version, decode_end, decode_event, decode_event_in, decode_header,
    decode_header_in, decode_name, decode_opening, decode_room, decode_room_in,
};
use event_room::EventRoom;
use std::alloc::{AllocError, Global};
use std::process::Abort;
use std::test::Fail;

// The records, each by its decoder: those of version 1, and below them those of either version or of version 2.
#[derive(Clone, Copy)]
pub enum Record {
    Header,
    Opening,
    Event,
    End,
    EitherHeader,
    Name,
    SecondEvent,
}

// A sample: some bytes at a time, and what stands at each of them.
pub type Parts<'a> = &'a [(Place, &'a [u8])];

pub const CAUSE: Place = Place::CauseKind;

const OP: Place = Place::OpKind;

pub const ACT: Place = Place::ActKind;

pub const KIND: Place = Place::MessageKind;

pub const FREE: Place = Place::Free;

pub const AGENT: Place = Place::Field(FieldName::Agent);

pub const HOST: Place = Place::Field(FieldName::Host);

const STREAM: Place = Place::Field(FieldName::Stream);

pub const META: Place = Place::Field(FieldName::Meta);

pub const SNOOP_TYPE: Place = Place::Field(FieldName::SnpType);

const CHANNEL: Place = Place::Field(FieldName::Channel);

const SENDS: Place = Place::Field(FieldName::SendCount);

const COMMIT: Place = Place::Field(FieldName::CommitFlag);

// What follows the cause of an event that sends and commits nothing.
pub const NOTHING: (Place, &[u8]) = (SENDS, b"\x00");

pub const NO_COMMIT: (Place, &[u8]) = (COMMIT, b"\x00");

// How many bytes are read at the front.
fn length_of(record: Record, bytes: &[u8]) -> Result<usize, DecodeRefusal> {
    match record {
        Record::Header => Ok(decode_header(bytes)?.1),
        Record::Opening => Ok(decode_opening(bytes)?.2),
        Record::Event => both_forms(bytes),
        Record::End => Ok(decode_end(bytes)?.1),
        Record::EitherHeader => Ok(decode_header_in(bytes)?.2),
        Record::Name => Ok(decode_name(bytes)?.2),
        Record::SecondEvent => both_second_forms(bytes),
    }
}

// How many bytes an event record has, by the decoder into a room and the one by value: more than there are where they differ.
fn both_forms(bytes: &[u8]) -> Result<usize, DecodeRefusal> {
    let mut room = EventRoom::new();
    match (decode_room(bytes, &mut room), decode_event(bytes)) {
        (Ok(length), Ok((event, same))) if length == same && room.event() == event => Ok(length),
        (Err(refusal), Err(same)) if refusal == same => Err(refusal),
        _ => Ok(usize::MAX),
    }
}

// The same in version 2.
fn both_second_forms(bytes: &[u8]) -> Result<usize, DecodeRefusal> {
    let mut room = EventRoom::new();
    let read = decode_room_in(Version::Two, bytes, &mut room);
    match (read, decode_event_in(Version::Two, bytes)) {
        (Ok(length), Ok((event, same))) if length == same && room.event() == event => Ok(length),
        (Err(refusal), Err(same)) if refusal == same => Err(refusal),
        _ => Ok(usize::MAX),
    }
}

// The bytes of a sample, and one more.
fn bytes_of(alloc: Global, parts: Parts<'_>) -> Result<Vec<u8>, AllocError> {
    let mut bytes = Vec::new(alloc);
    for part in parts {
        bytes.extend_from_slice(part.1)?;
    }
    bytes.push(0xaa)?;
    Ok(bytes)
}

// Damages a sample in every way.
pub fn try_sample(
    rt: &impl Abort,
    alloc: Global,
    record: Record,
    parts: Parts<'_>,
) -> Result<(), AllocError> {
    let mut bytes = bytes_of(alloc, parts)?;
    let whole = bytes.len().saturating_sub(1);
    assert_eq!(rt; length_of(record, &bytes), Ok(whole));
    for cut in 0..whole {
        assert_eq!(rt;
            length_of(record, &bytes[..cut]),
            Err(DecodeRefusal::Short),
            "cut to {cut}"
        );
    }
    let mut at = 0usize;
    for part in parts {
        for _ in 0..part.1.len() {
            try_byte(rt, record, &mut bytes, part.0, at, whole);
            at = at.wrapping_add(1);
        }
    }
    Ok(())
}

// Damages one byte in each way, and puts it back.
fn try_byte(
    rt: &impl Abort,
    record: Record,
    bytes: &mut Vec<u8>,
    place: Place,
    at: usize,
    whole: usize,
) {
    let good = bytes.get(at).copied().unwrap_or(0);
    for wrong in 0..=255u8 {
        if wrong != good && (matches!(place, Place::Free) || !is_allowed(place, wrong)) {
            put_byte(bytes, at, wrong);
            assert_eq!(rt;
                length_of(record, bytes),
                expected(place, at, whole),
                "byte {at} is {wrong}"
            );
        }
    }
    put_byte(bytes, at, good);
}

// Puts a byte at a place.
fn put_byte(bytes: &mut Vec<u8>, at: usize, byte: u8) {
    if let Some(there) = bytes.get_mut(at) {
        *there = byte;
    }
}

#[test]
fn headers_openings_and_ends(rt: HostRuntime) -> Result<(), Fail> {
    let header: Parts<'_> = &[
        (Place::Field(FieldName::Magic), b"CXLT"),
        (Place::Field(FieldName::Version), b"\x01"),
        (Place::Field(FieldName::Hosts), b"\x02"),
        (FREE, b"\x00\x03"),
        (Place::Field(FieldName::Entries), b"\x0f"),
        (FREE, b"\x03\x04"),
        (Place::Field(FieldName::Tags), b"\x02"),
        (Place::Field(FieldName::Credits), b"\x40"),
        (Place::Field(FieldName::StreamCount), b"\x03"),
        (Place::Field(FieldName::StreamHost), b"\x00\x01\x01"),
    ];
    try_sample(&rt, rt.alloc(), Record::Header, header)?;
    try_sample(
        &rt,
        rt.alloc(),
        Record::Opening,
        &[
            (Place::Mark, b"\xf0"),
            (FREE, b"\x00\x01"),
            (FREE, &[0xab; 64]),
        ],
    )?;
    try_sample(
        &rt,
        rt.alloc(),
        Record::End,
        &[
            (Place::Mark, b"\xff"),
            (FREE, b"\x00\x00\x00\x00\x00\x00\x00\x06"),
        ],
    )?;
    Ok(())
}

// A message that an event takes: the places after the cause's kind byte.
fn try_taken(rt: &impl Abort, alloc: Global, message: Parts<'_>) -> Result<(), AllocError> {
    let mut parts = Vec::new(alloc);
    parts.extend_from_slice(&[
        (AGENT, b"\x10".as_slice()),
        (CAUSE, b"\x02"),
        (HOST, b"\x0f"),
    ])?;
    parts.extend_from_slice(message)?;
    parts.extend_from_slice(&[NOTHING, NO_COMMIT])?;
    try_sample(rt, alloc, Record::Event, &parts)
}

// An act of the device.
fn try_act(rt: &impl Abort, alloc: Global, act: Parts<'_>) -> Result<(), AllocError> {
    let mut parts = Vec::new(alloc);
    parts.extend_from_slice(&[(AGENT, b"\x10".as_slice()), (CAUSE, b"\x03")])?;
    parts.extend_from_slice(act)?;
    parts.extend_from_slice(&[NOTHING, NO_COMMIT])?;
    try_sample(rt, alloc, Record::Event, &parts)
}

// An operation, begun and committed in one event.
fn try_operation(rt: &impl Abort, alloc: Global, operation: Parts<'_>) -> Result<(), AllocError> {
    let mut parts = Vec::new(alloc);
    parts.extend_from_slice(&[
        (AGENT, b"\x01".as_slice()),
        (CAUSE, b"\x01"),
        (STREAM, b"\x3f"),
        (FREE, b"\x00\x00\x00\x05"),
    ])?;
    parts.extend_from_slice(operation)?;
    parts.extend_from_slice(&[
        NOTHING,
        (COMMIT, b"\x01".as_slice()),
        (STREAM, b"\x3f"),
        (FREE, b"\x00\x00\x00\x05"),
    ])?;
    parts.extend_from_slice(operation)?;
    parts.push((FREE, [7; 64].as_slice()))?;
    try_sample(rt, alloc, Record::Event, &parts)
}

#[test]
fn requests_and_writes(rt: HostRuntime) -> Result<(), Fail> {
    let alloc = rt.alloc();
    let fields = [
        (META, b"\x02".as_slice()),
        (SNOOP_TYPE, b"\x03"),
        (FREE, b"\x00\x01"),
        (FREE, b"\x00\x00\x01\x00"),
    ];
    let [meta, snp, tag, line] = fields;
    for kind in [b"\x01".as_slice(), b"\x02", b"\x03"] {
        try_taken(&rt, alloc, &[(KIND, kind), meta, snp, tag, line])?;
    }
    try_taken(
        &rt,
        alloc,
        &[(KIND, b"\x11"), meta, snp, tag, line, (FREE, &[9; 64])],
    )?;
    try_taken(
        &rt,
        alloc,
        &[
            (KIND, b"\x12"),
            tag,
            (Place::Field(FieldName::Payload), &[0; 64]),
        ],
    )?;
    Ok(())
}

#[test]
fn answers_data_and_credits(rt: HostRuntime) -> Result<(), Fail> {
    let alloc = rt.alloc();
    let tag = (FREE, b"\x01\x02".as_slice());
    for kind in [
        b"\x21".as_slice(),
        b"\x22",
        b"\x23",
        b"\x24",
        b"\x25",
        b"\x26",
    ] {
        try_taken(
            &rt,
            alloc,
            &[
                (KIND, kind),
                tag,
                (Place::Field(FieldName::LowAddr), b"\x03"),
            ],
        )?;
    }
    for kind in [b"\x31".as_slice(), b"\x32", b"\x33", b"\x34"] {
        try_taken(&rt, alloc, &[(KIND, kind), tag])?;
    }
    try_taken(&rt, alloc, &[(KIND, b"\x41"), tag, (FREE, &[9; 64])])?;
    for channel in [b"\x01".as_slice(), b"\x06"] {
        try_taken(&rt, alloc, &[(KIND, b"\x61"), (CHANNEL, channel)])?;
    }
    Ok(())
}

#[test]
fn snoops(rt: HostRuntime) -> Result<(), Fail> {
    let alloc = rt.alloc();
    let tag = (FREE, b"\x01\x02".as_slice());
    let line = (FREE, b"\x00\x00\x01\x02".as_slice());
    for kind in [b"\x51".as_slice(), b"\x52", b"\x53"] {
        try_taken(
            &rt,
            alloc,
            &[(KIND, kind), tag, line, (Place::SingleSpan, b"\x01")],
        )?;
    }
    for kind in [b"\x54".as_slice(), b"\x55", b"\x56"] {
        try_taken(
            &rt,
            alloc,
            &[(KIND, kind), tag, line, (Place::BlockSpan, b"\x02")],
        )?;
        try_taken(
            &rt,
            alloc,
            &[(KIND, kind), tag, line, (Place::BlockSpan, b"\x04")],
        )?;
    }
    Ok(())
}

#[test]
fn acts_and_operations(rt: HostRuntime) -> Result<(), Fail> {
    let alloc = rt.alloc();
    let host = (HOST, b"\x0f".as_slice());
    let tag = (FREE, b"\x01\x02".as_slice());
    let line = (FREE, b"\x00\x00\x01\x02".as_slice());
    for kind in [b"\x01".as_slice(), b"\x02", b"\x03", b"\x04", b"\x16"] {
        try_act(&rt, alloc, &[(ACT, kind), line])?;
    }
    for kind in [b"\x11".as_slice(), b"\x12", b"\x13", b"\x14"] {
        try_act(&rt, alloc, &[(ACT, kind), host, tag])?;
    }
    try_act(&rt, alloc, &[(ACT, b"\x05"), (CHANNEL, b"\x04")])?;
    try_act(&rt, alloc, &[(ACT, b"\x15"), host, line])?;
    try_act(&rt, alloc, &[(ACT, b"\x17"), host, (CHANNEL, b"\x01")])?;
    try_operation(&rt, alloc, &[(OP, b"\x01"), line])?;
    try_operation(
        &rt,
        alloc,
        &[
            (OP, b"\x02"),
            line,
            (Place::Field(FieldName::Place), b"\x07"),
            (FREE, &[5; 8]),
        ],
    )?;
    try_operation(&rt, alloc, &[(OP, b"\x03"), line, (FREE, &[5; 64])])?;
    Ok(())
}

#[test]
fn sends(rt: HostRuntime) -> Result<(), Fail> {
    let act = [
        (AGENT, b"\x10".as_slice()),
        (CAUSE, b"\x03"),
        (ACT, b"\x16"),
        (FREE, &[0; 4]),
    ];
    let out = [
        (HOST, b"\x0f".as_slice()),
        (KIND, b"\x31"),
        (FREE, b"\x00\x01"),
    ];
    let mut parts = Vec::new(rt.alloc());
    parts.extend_from_slice(&act)?;
    parts.push((SENDS, b"\x02".as_slice()))?;
    parts.extend_from_slice(&out)?;
    parts.extend_from_slice(&out)?;
    parts.push(NO_COMMIT)?;
    try_sample(&rt, rt.alloc(), Record::Event, &parts)?;
    Ok(())
}
