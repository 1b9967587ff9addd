// Traces of version 2: names, wide tags, and where a name record is refused.
use crate::reading::try_fault;
use crate::samples::*;
use cxl_codec::{FieldName, Version};
use cxl_message::{Cause, Event, Message, NdrOp, Sends, Setup, Tag};
use std::alloc::{AllocError, Global};
use std::test::Fail;
use trace_stream::*;

// A header of version 2: 1 host, 4 lines, 300 tags, three streams.
const SECOND_HEADER: &[u8] = b"CXLT\x02\x01\x00\x03\x00\x03\x03\x01\x2c\x02\x03\x00\x00\x00";

const CPU: &[u8] = b"\xf1\x00\x03cpu";

const DMA: &[u8] = b"\xf1\x02\x05dma_1";

// Line 1 opens with a byte 1 and zeros.
fn opening(alloc: Global) -> Result<Vec<u8>, AllocError> {
    joined(alloc, &[b"\xf0\x00\x01\x01", &[0; 63]])
}

// The device takes a message of host 3 with the tag 2^32 - 1.
const TAKEN: &[u8] = b"\x10\x02\x03\x33\xff\xff\xff\xff\x00\x00";

const END: &[u8] = b"\xff\x00\x00\x00\x00\x00\x00\x00\x01";

// A trace with two names, an opening and an event.
fn named_trace(alloc: Global) -> Result<Vec<u8>, AllocError> {
    let opened = opening(alloc)?;
    joined(alloc, &[SECOND_HEADER, CPU, DMA, &opened, TAKEN, END])
}

#[test]
fn names_and_wide_tags_in_pieces_of_any_size(rt: HostRuntime) -> Result<(), Fail> {
    let bytes = named_trace(rt.alloc())?;
    let setup = Setup::new(1, 4, 4, 4, 300, 2, &[0, 0, 0])?;
    let taken = Event {
        agent: 16,
        cause: Cause::Take {
            host: 3,
            message: Message::Ndr {
                op: NdrOp::CmpE,
                tag: Tag(u32::MAX),
            },
        },
        sends: Sends::Nothing,
        commit: None,
    };
    for chunk in [1usize, 7, 4096] {
        let outcome = read(rt.alloc(), &bytes, &[], chunk)?;
        assert_eq!(&rt; outcome.end, Ok(1));
        let [header, cpu, dma, opened, event, end] = outcome.items.as_slice() else {
            assert!(&rt; false, "{} items", outcome.items.len());
            return Ok(());
        };
        assert!(&rt; *header == Item::Header(Version::Two, setup));
        assert!(&rt;
            matches!(cpu, Item::Name { stream: 0, name } if name.as_slice() == b"cpu".as_slice())
        );
        assert!(&rt;
            matches!(dma, Item::Name { stream: 2, name } if name.as_slice() == b"dma_1".as_slice())
        );
        assert!(&rt;
            matches!(opened, Item::Opened { line, bytes } if line.0 == 1 && bytes.0[0] == 1)
        );
        assert!(&rt; *event == Item::Event(taken));
        assert!(&rt; *end == Item::End { count: 1 });
    }
    Ok(())
}

#[test]
fn each_cut_is_short(rt: HostRuntime) -> Result<(), Fail> {
    let bytes = named_trace(rt.alloc())?;
    for cut in 0..bytes.len() {
        let front = bytes.get(..cut).unwrap_or(&[]);
        let outcome = read(rt.alloc(), front, &[], 7)?;
        let short = TraceFault {
            at: cut as u64,
            reason: Reason::Short,
        };
        assert_eq!(&rt; outcome.end, Err(short), "cut to {cut}");
    }
    Ok(())
}

#[test]
fn names_out_of_place(rt: HostRuntime) -> Result<(), Fail> {
    let alloc = rt.alloc();
    let opened = opening(alloc)?;
    let agent = Reason::Field(FieldName::Agent);
    let rows: [(&[&[u8]], u64, Reason); 7] = [
        (&[HEADER, CPU], 15, agent),
        (&[SECOND_HEADER, CPU, CPU], 24, Reason::Name),
        (&[SECOND_HEADER, DMA, CPU], 26, Reason::Name),
        (&[SECOND_HEADER, b"\xf1\x03\x01x"], 18, Reason::Name),
        (&[SECOND_HEADER, &opened, CPU], 85, agent),
        (&[SECOND_HEADER, TAKEN, CPU], 28, agent),
        (&[b"CXLT\x03"], 4, Reason::Field(FieldName::Version)),
    ];
    for (parts, at, reason) in rows {
        let bytes = joined(alloc, parts)?;
        try_fault(&rt, alloc, &bytes, at, reason)?;
    }
    Ok(())
}
