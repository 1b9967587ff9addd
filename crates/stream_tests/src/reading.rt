// Traces that are cut, and bytes that aren't traces.
use crate::samples::*;
use cxl_codec::{FieldName, Version};
use cxl_message::{Bytes64, Line, Setup};
use std::alloc::{AllocError, Global};
use std::process::Abort;
use std::test::Fail;
use trace_stream::*;

// The bytes have this fault, in whatever pieces.
pub fn try_fault(
    rt: &impl Abort,
    alloc: Global,
    bytes: &[u8],
    at: u64,
    reason: Reason,
) -> Result<(), AllocError> {
    for chunk in [1usize, 7, 4096] {
        assert_eq!(rt;
            read(alloc, bytes, &[], chunk)?.end,
            Err(TraceFault { at, reason }),
            "pieces of {chunk}"
        );
    }
    Ok(())
}

#[test]
fn pieces_of_any_size(rt: HostRuntime) -> Result<(), Fail> {
    let bytes = one_load_bytes(rt.alloc())?;
    let setup = Setup::new(1, 4, 4, 4, 2, 2, &[0])?;
    for chunk in [1usize, 7, 4096] {
        let outcome = read(rt.alloc(), &bytes, &[], chunk)?;
        assert_eq!(rt; outcome.end, Ok(6));
        assert_eq!(rt; outcome.items.len(), 8);
        assert!(rt; outcome.items.first() == Some(&Item::Header(Version::One, setup)));
        for (item, event) in outcome.items.iter().skip(1).zip(&one_load()) {
            assert!(rt; *item == Item::Event(*event));
        }
        assert!(rt; outcome.items.last() == Some(&Item::End { count: 6 }));
    }
    Ok(())
}

#[test]
fn two_pieces_cut_anywhere(rt: HostRuntime) -> Result<(), Fail> {
    let bytes = one_load_bytes(rt.alloc())?;
    let whole = read(rt.alloc(), &bytes, &[], 4096)?;
    for cut in 0..=bytes.len() {
        let (first, second) = bytes.split_at(cut);
        let outcome = read(rt.alloc(), first, second, 4096)?;
        assert!(rt;
            outcome.items.as_slice() == whole.items.as_slice(),
            "cut at {cut}"
        );
        assert_eq!(rt; outcome.end, Ok(6), "cut at {cut}");
    }
    Ok(())
}

// Each event comes at its last byte, and is written to the room.
#[test]
fn one_room_byte_by_byte(rt: HostRuntime) -> Result<(), Fail> {
    let bytes = one_load_bytes(rt.alloc())?;
    let mut reader = TraceReader::new(rt.alloc())?;
    let mut room = Room::new();
    let mut events = Vec::new(rt.alloc());
    for byte in &bytes {
        assert!(rt; reader.fed() < 305);
        assert_eq!(rt; reader.feed(&[*byte]), 1);
        match reader.next_into(&mut room)? {
            Found::Event => events.push((reader.fed(), room.event.event()))?,
            Found::Header => assert_eq!(rt; reader.fed(), 15),
            Found::End { count } => assert_eq!(rt; (reader.fed(), count), (305, 6)),
            found => assert_eq!(rt; found, Found::More),
        }
    }
    assert_eq!(rt; room.setup, Setup::new(1, 4, 4, 4, 2, 2, &[0])?);
    assert_eq!(rt; events.len(), 6);
    for ((at, event), (end, expected)) in events
        .iter()
        .zip([39u64, 53, 61, 142, 150, 296].iter().zip(&one_load()))
    {
        assert_eq!(rt; at, end);
        assert!(rt; event == expected);
    }
    Ok(())
}

// Bytes that are cut short come to the same in pieces of any size: equal items, and short at the cut.
fn try_cut(rt: &impl Abort, alloc: Global, cut: &[u8]) -> Result<(), AllocError> {
    let whole = read(alloc, cut, &[], 4096)?;
    let short = TraceFault {
        at: cut.len() as u64,
        reason: Reason::Short,
    };
    assert_eq!(rt; whole.end, Err(short));
    for chunk in [1usize, 7] {
        let outcome = read(alloc, cut, &[], chunk)?;
        assert!(rt;
            outcome.items.as_slice() == whole.items.as_slice(),
            "pieces of {chunk}"
        );
        assert_eq!(rt; outcome.end, Err(short), "pieces of {chunk}");
    }
    Ok(())
}

#[test]
fn cut_short_and_too_long(rt: HostRuntime) -> Result<(), Fail> {
    let alloc = rt.alloc();
    let mut bytes = one_load_bytes(alloc)?;
    for n in 0..bytes.len() {
        try_cut(&rt, alloc, bytes.get(..n).unwrap_or(&[]))?;
    }
    bytes.push(0xff)?;
    try_fault(&rt, alloc, &bytes, 305, Reason::Trailing)?;
    Ok(())
}

// The header of a setup of four lines, and what follows it.
fn after_header(alloc: Global, parts: &[&[u8]]) -> Result<Vec<u8>, AllocError> {
    let mut bytes = joined(alloc, &[HEADER])?;
    for part in parts {
        bytes.extend_from_slice(part)?;
    }
    Ok(bytes)
}

const SOME: &[u8] = &[0xab; 64];

const END: &[u8] = b"\xff\x00\x00\x00\x00\x00\x00\x00\x00";

const START: &[u8] = b"\x10\x03\x13\x00\x00\x00\x00\x00";

#[test]
fn openings(rt: HostRuntime) -> Result<(), Fail> {
    let alloc = rt.alloc();
    let zeros: &[u8] = &[0; 64];
    let good = after_header(alloc, &[b"\xf0\x00\x00", SOME, b"\xf0\x00\x03", SOME, END])?;
    let outcome = read(alloc, &good, &[], 7)?;
    assert_eq!(rt; outcome.end, Ok(0));
    let third = Item::Opened {
        line: Line(3),
        bytes: Bytes64([0xab; 64]),
    };
    assert!(rt; outcome.items.get(2) == Some(&third));
    let order = after_header(alloc, &[b"\xf0\x00\x02", SOME, b"\xf0\x00\x02", SOME, END])?;
    try_fault(&rt, alloc, &order, 82, Reason::Opening)?;
    let missing = after_header(alloc, &[b"\xf0\x00\x04", SOME])?;
    try_fault(&rt, alloc, &missing, 15, Reason::Opening)?;
    let empty = after_header(alloc, &[b"\xf0\x00\x01", zeros, b"\x11"])?;
    try_fault(&rt, alloc, &empty, 15, Reason::Opening)?;
    let late = after_header(alloc, &[START, b"\xf0\x00\x01", SOME, END])?;
    try_fault(&rt, alloc, &late, 23, Reason::Field(FieldName::Agent))?;
    Ok(())
}

#[test]
fn counts_and_bytes(rt: HostRuntime) -> Result<(), Fail> {
    let alloc = rt.alloc();
    let count = after_header(alloc, &[START, END])?;
    try_fault(&rt, alloc, &count, 23, Reason::Count)?;
    let none = after_header(alloc, &[b"\xff\x00\x00\x00\x00\x00\x00\x00\x01\x00"])?;
    try_fault(&rt, alloc, &none, 15, Reason::Count)?;
    let kind = after_header(alloc, &[START, b"\x10\x04"])?;
    try_fault(&rt, alloc, &kind, 24, Reason::Kind)?;
    let agent = after_header(alloc, &[START, b"\x11"])?;
    try_fault(&rt, alloc, &agent, 23, Reason::Field(FieldName::Agent))?;
    try_fault(&rt, alloc, b"CXLS", 3, Reason::Field(FieldName::Magic))?;
    Ok(())
}

#[test]
fn texts(rt: HostRuntime) -> Result<(), Fail> {
    let fault = TraceFault {
        at: 305,
        reason: Reason::Field(FieldName::Agent),
    };
    assert_eq!(rt;
        format!(in rt.alloc(); "{fault}")?.as_str(),
        "byte 305: field Agent"
    );
    for (reason, text) in [
        (Reason::Short, "short"),
        (Reason::Kind, "kind"),
        (Reason::Opening, "opening"),
        (Reason::Count, "count"),
        (Reason::Trailing, "trailing"),
    ] {
        assert_eq!(rt; format!(in rt.alloc(); "{reason}")?.as_str(), text);
    }
    Ok(())
}
