// The records of version 2: their bytes, each of them damaged, and headers of both versions.
use crate::damage::{
    ACT, AGENT, CAUSE, FREE, HOST, KIND, META, NO_COMMIT, NOTHING, Parts, Record, SNOOP_TYPE,
    try_sample,
};
use crate::places::Place;
use cxl_codec::{
    DecodeRefusal, FieldName, Version, decode_event_in, decode_header, decode_header_in,
    decode_name, encode_event_in, encode_header_in, encode_name,
};
use cxl_message::{Act, Cause, Event, Message, NdrOp, Sends, Setup, Tag, well_formed};
use std::alloc::{AllocError, Global};
use std::process::Abort;
use std::test::Fail;

// A header behind its version: two hosts, the bytes of the tags in the middle, three streams.
fn try_header(
    rt: &impl Abort,
    alloc: Global,
    version: &[u8],
    tags: Parts<'_>,
) -> Result<(), AllocError> {
    let mut parts = Vec::new(alloc);
    parts.extend_from_slice(&[
        (Place::Field(FieldName::Magic), b"CXLT".as_slice()),
        (Place::EitherVersion, version),
        (Place::Field(FieldName::Hosts), b"\x02"),
        (FREE, b"\x00\x03"),
        (Place::Field(FieldName::Entries), b"\x0f"),
        (FREE, b"\x03\x04"),
    ])?;
    parts.extend_from_slice(tags)?;
    parts.extend_from_slice(&[
        (Place::Field(FieldName::Credits), b"\x40".as_slice()),
        (Place::Field(FieldName::StreamCount), b"\x03"),
        (Place::Field(FieldName::StreamHost), b"\x00\x01\x01"),
    ])?;
    try_sample(rt, alloc, Record::EitherHeader, &parts)
}

#[test]
fn headers_of_version_two(rt: HostRuntime) -> Result<(), Fail> {
    let alloc = rt.alloc();
    let tables: [Parts<'_>; 3] = [
        &[(Place::HighTags, b"\x00"), (Place::FewTags, b"\x41")],
        &[(Place::HighTags, b"\x03"), (FREE, b"\x00")],
        &[(Place::HighTags, b"\x04"), (Place::MostTags, b"\x00")],
    ];
    for tags in tables {
        try_header(&rt, alloc, b"\x02", tags)?;
    }
    Ok(())
}

#[test]
fn names(rt: HostRuntime) -> Result<(), Fail> {
    let parts: Parts<'_> = &[
        (Place::Mark, b"\xf1"),
        (Place::Field(FieldName::Stream), b"\x3f"),
        (Place::Field(FieldName::NameLength), b"\x05"),
        (Place::Field(FieldName::NameByte), b"cpu_0"),
    ];
    try_sample(&rt, rt.alloc(), Record::Name, parts)?;
    let mut bytes = Vec::new(rt.alloc());
    encode_name(0, b"cpu", &mut bytes)?;
    assert_eq!(&rt; bytes.as_slice(), b"\xf1\x00\x03cpu".as_slice());
    let (stream, name, length) = decode_name(&bytes)?;
    assert_eq!(&rt;
        (stream, name.as_slice(), length),
        (0, b"cpu".as_slice(), 6)
    );
    Ok(())
}

// A message that an event takes.
fn try_taken(rt: &impl Abort, alloc: Global, message: Parts<'_>) -> Result<(), AllocError> {
    let mut parts = Vec::new(alloc);
    parts.extend_from_slice(&[
        (AGENT, b"\x10".as_slice()),
        (CAUSE, b"\x02"),
        (HOST, b"\x0f"),
    ])?;
    parts.extend_from_slice(message)?;
    parts.extend_from_slice(&[NOTHING, NO_COMMIT])?;
    try_sample(rt, alloc, Record::SecondEvent, &parts)
}

#[test]
fn tags_of_messages(rt: HostRuntime) -> Result<(), Fail> {
    let alloc = rt.alloc();
    let tag = (FREE, b"\xff\x01\x00\x02".as_slice());
    let fields = [
        (META, b"\x02".as_slice()),
        (SNOOP_TYPE, b"\x03"),
        (FREE, b"\x00\x00\x01\x00"),
    ];
    let [meta, snp, line] = fields;
    for kind in [b"\x01".as_slice(), b"\x02", b"\x03"] {
        try_taken(&rt, alloc, &[(KIND, kind), meta, snp, tag, line])?;
    }
    let write = [
        (KIND, b"\x11".as_slice()),
        meta,
        snp,
        tag,
        line,
        (FREE, &[9; 64]),
    ];
    try_taken(&rt, alloc, &write)?;
    let zeros = (Place::Field(FieldName::Payload), [0; 64].as_slice());
    try_taken(&rt, alloc, &[(KIND, b"\x12"), tag, zeros])?;
    for kind in [b"\x31".as_slice(), b"\x32", b"\x33", b"\x34"] {
        try_taken(&rt, alloc, &[(KIND, kind), tag])?;
    }
    try_taken(&rt, alloc, &[(KIND, b"\x41"), tag, (FREE, &[9; 64])])?;
    Ok(())
}

#[test]
fn tags_of_acts(rt: HostRuntime) -> Result<(), Fail> {
    let alloc = rt.alloc();
    for kind in [b"\x11".as_slice(), b"\x12", b"\x13", b"\x14"] {
        let parts: Parts<'_> = &[
            (AGENT, b"\x10"),
            (CAUSE, b"\x03"),
            (ACT, kind),
            (HOST, b"\x0f"),
            (FREE, b"\xff\x01\x00\x02"),
            NOTHING,
            NO_COMMIT,
        ];
        try_sample(&rt, alloc, Record::SecondEvent, parts)?;
    }
    Ok(())
}

// A header of a version, read again as one of either version.
fn try_setup(
    rt: &impl Abort,
    alloc: Global,
    version: Version,
    tags: u16,
) -> Result<Option<usize>, AllocError> {
    let Ok(setup) = Setup::new(1, 4, 4, 4, tags, 2, &[0]) else {
        return Ok(None);
    };
    if !version.fits_setup(&setup) {
        return Ok(None);
    }
    let mut bytes = Vec::new(alloc);
    encode_header_in(version, &setup, &mut bytes)?;
    let Ok((read, same, length)) = decode_header_in(&bytes) else {
        return Ok(None);
    };
    assert_eq!(rt; (read, same.tags(), length), (version, tags, bytes.len()));
    assert_eq!(rt; decode_header(&bytes).is_ok(), version == Version::One);
    Ok(Some(length))
}

#[test]
fn headers_of_both_versions_are_read_again(rt: HostRuntime) -> Result<(), Fail> {
    let alloc = rt.alloc();
    let rows = [
        (Version::One, 2, Some(15)),
        (Version::One, 64, Some(15)),
        (Version::One, 65, None),
        (Version::Two, 2, Some(16)),
        (Version::Two, 65, Some(16)),
        (Version::Two, 1024, Some(16)),
        (Version::Two, 1025, None),
    ];
    for (version, tags, length) in rows {
        assert_eq!(&rt;
            try_setup(&rt, alloc, version, tags)?,
            length,
            "{tags} tags"
        );
    }
    let third = b"CXLT\x03";
    let refusal = DecodeRefusal::Field {
        at: 4,
        which: FieldName::Version,
    };
    assert_eq!(&rt; decode_header_in(third).err(), Some(refusal));
    Ok(())
}

#[test]
fn the_greatest_tag_stands_in_version_two_alone(rt: HostRuntime) -> Result<(), Fail> {
    let event = Event {
        agent: 16,
        cause: Cause::Take {
            host: 3,
            message: Message::Ndr {
                op: NdrOp::CmpE,
                tag: Tag(u32::MAX),
            },
        },
        sends: Sends::Nothing,
        commit: None,
    };
    assert!(&rt; well_formed(&event) && !Version::One.fits(&event));
    let mut bytes = Vec::new(rt.alloc());
    encode_event_in(Version::Two, &event, &mut bytes)?;
    assert_eq!(&rt;
        bytes.as_slice(),
        b"\x10\x02\x03\x33\xff\xff\xff\xff\x00\x00".as_slice()
    );
    assert_eq!(&rt; decode_event_in(Version::Two, &bytes)?, (event, 10));
    Ok(())
}

#[test]
fn short_tags_have_two_bytes_in_version_one(rt: HostRuntime) -> Result<(), Fail> {
    let act = Act::Start {
        host: 1,
        tag: Tag(258),
    };
    let event = Event {
        agent: 16,
        cause: Cause::Act(act),
        sends: Sends::Nothing,
        commit: None,
    };
    assert!(&rt; well_formed(&event) && Version::One.fits(&event));
    let rows: [(Version, &[u8]); 2] = [
        (Version::One, b"\x10\x03\x13\x01\x01\x02\x00\x00"),
        (Version::Two, b"\x10\x03\x13\x01\x00\x00\x01\x02\x00\x00"),
    ];
    for (version, spelled) in rows {
        let mut bytes = Vec::new(rt.alloc());
        if version.fits(&event) {
            encode_event_in(version, &event, &mut bytes)?;
        }
        assert_eq!(&rt; bytes.as_slice(), spelled);
        assert_eq!(&rt; decode_event_in(version, &bytes)?, (event, spelled.len()));
    }
    Ok(())
}
