// Headers, ends, names and the numbers that version 1 has room for.
use cxl_codec::{
    DecodeRefusal, FieldName, decode_end, decode_header, encode_end, encode_header,
    fits_version_one, setup_fits_version_one,
};
use cxl_message::{Act, Cause, Event, Line, Message, NdrOp, Out, Sends, Setup, Tag};
use std::alloc::{AllocError, Global};
use std::test::Fail;

// Some parts, one after the other.
pub fn joined(alloc: Global, parts: &[&[u8]]) -> Result<Vec<u8>, AllocError> {
    let mut all = Vec::new(alloc);
    for part in parts {
        all.extend_from_slice(part)?;
    }
    Ok(all)
}

#[test]
fn nothing(rt: HostRuntime) -> Result<(), Fail> {
    let setup = Setup::new(1, 1, 1, 1, 2, 2, &[])?;
    let mut out = Vec::new(rt.alloc());
    encode_header(&setup, &mut out)?;
    encode_end(0, &mut out)?;
    assert_eq!(rt;
        out.as_slice(),
        b"CXLT\x01\x01\x00\x00\x00\x00\x00\x02\x02\x00\xff\x00\x00\x00\x00\x00\x00\x00\x00".as_slice()
    );
    assert_eq!(rt; decode_header(&out)?, (setup, 14));
    assert_eq!(rt; decode_end(&out[14..])?, (0, 9));
    Ok(())
}

#[test]
fn headers_and_ends_of_large_numbers(rt: HostRuntime) -> Result<(), Fail> {
    let setup = Setup::new(16, 65536, 4096, 256, 64, 63, &[0, 15, 3])?;
    let mut out = Vec::new(rt.alloc());
    encode_header(&setup, &mut out)?;
    encode_end(0x0102_0304_0506_0708, &mut out)?;
    assert_eq!(rt;
        out.as_slice(),
        b"CXLT\x01\x10\xff\xff\x0f\xff\xff\x40\x3f\x03\x00\x0f\x03\xff\x01\x02\x03\x04\x05\x06\x07\x08".as_slice()
    );
    assert_eq!(rt; decode_header(&out)?, (setup, 17));
    assert_eq!(rt; decode_end(&out[17..])?, (0x0102_0304_0506_0708, 9));
    Ok(())
}

#[test]
fn names(rt: HostRuntime) -> Result<(), Fail> {
    let refusal = DecodeRefusal::Field {
        at: 3,
        which: FieldName::LowAddr,
    };
    assert_eq!(rt;
        format!(in rt.alloc(); "{refusal}")?.as_str(),
        "field LowAddr"
    );
    assert_eq!(rt;
        format!(in rt.alloc(); "{}", DecodeRefusal::Short)?.as_str(),
        "short"
    );
    assert_eq!(rt; FieldName::SnpType.name(), "SnpType");
    Ok(())
}

#[test]
fn version_one_has_room_for_two_bytes_of_tag(rt: HostRuntime) -> Result<(), Fail> {
    for (tag, fits) in [(0, true), (65535, true), (65536, false), (65601, false)] {
        let tag = Tag(tag);
        let served = Event {
            agent: 16,
            cause: Cause::Act(Act::Serve { host: 0, tag }),
            sends: Sends::Nothing,
            commit: None,
        };
        let completed = Out {
            host: 0,
            message: Message::Ndr {
                op: NdrOp::Cmp,
                tag,
            },
        };
        let sent = Event {
            cause: Cause::Act(Act::Finish(Line(0))),
            sends: Sends::One(completed),
            ..served
        };
        assert_eq!(rt; fits_version_one(&served), fits, "at {tag:?}");
        assert_eq!(rt; fits_version_one(&sent), fits, "at {tag:?}");
    }
    let most = Setup::new(1, 1, 1, 1, 64, 2, &[])?;
    let more = Setup::new(1, 1, 1, 1, 65, 2, &[])?;
    assert!(rt; setup_fits_version_one(&most));
    assert!(rt; !setup_fits_version_one(&more));
    Ok(())
}
