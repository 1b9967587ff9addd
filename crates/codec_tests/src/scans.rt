// Records that come byte by byte.
use crate::records::joined;
use cxl_codec::{DecodeRefusal, decode_event};
use event_scan::{EventScan, opening_cut_below};
use std::alloc::{AllocError, Global};
use std::process::Abort;
use std::test::Fail;

// At each byte the scan says what decoding all bytes from the front says: whether the record is still cut short.
fn try_record(rt: &impl Abort, bytes: &[u8]) {
    let mut scan = EventScan::new();
    for count in 1..bytes.len() {
        let front = bytes.get(..count).unwrap_or(&[]);
        let last = front.get(count - 1..).unwrap_or(&[]);
        assert_eq!(rt; decode_event(front).err(), Some(DecodeRefusal::Short));
        assert!(rt; scan.goes_on(last), "byte {count}");
    }
    let last = bytes.get(bytes.len().saturating_sub(1)..).unwrap_or(&[]);
    assert!(rt; decode_event(bytes).is_ok());
    assert!(rt; !scan.goes_on(last));
}

#[test]
fn causes_byte_by_byte(rt: HostRuntime) -> Result<(), Fail> {
    for record in [
        b"\x10\x03\x16\x00\x00\x00\x01\x00\x00".as_slice(),
        b"\x00\x03\x04\x00\x00\x00\x01\x00\x00",
        b"\x10\x03\x13\x0f\x00\x3f\x00\x00",
        b"\x00\x03\x05\x04\x00\x00",
        b"\x10\x03\x15\x01\x00\x00\x00\x02\x00\x00",
        b"\x10\x03\x17\x01\x06\x00\x00",
        b"\x00\x01\x3f\x00\x00\x00\x00\x01\x00\x00\x00\x00\x00\x00",
        b"\x00\x01\x00\x00\x00\x00\x07\x02\x00\x00\x00\x00\x07\x01\x02\x03\x04\x05\x06\x07\x08\x00\x00",
    ] {
        try_record(&rt, record);
    }
    let whole = joined(
        rt.alloc(),
        &[
            b"\x00\x01\x00\x00\x00\x00\x00\x03\x00\x00\x00\x00",
            &[7; 64],
            b"\x00\x00",
        ],
    )?;
    try_record(&rt, &whole);
    Ok(())
}

#[test]
fn messages_byte_by_byte(rt: HostRuntime) -> Result<(), Fail> {
    for message in [
        b"\x01\x02\x01\x00\x05\x00\x00\x00\x02".as_slice(),
        b"\x22\x00\x05\x03",
        b"\x31\x00\x05",
        b"\x51\x00\x05\x00\x00\x00\x02\x01",
        b"\x54\x00\x05\x00\x00\x00\x02\x02",
        b"\x56\x00\x05\x00\x00\x00\x04\x04",
        b"\x61\x06",
    ] {
        let taken = joined(rt.alloc(), &[b"\x10\x02\x0f", message, b"\x00\x00"])?;
        try_record(&rt, &taken);
    }
    Ok(())
}

// The take of a message with 64 bytes after these.
fn try_payload(rt: &impl Abort, alloc: Global, front: &[u8], byte: u8) -> Result<(), AllocError> {
    let taken = joined(alloc, &[b"\x10\x02\x0f", front, &[byte; 64], b"\x00\x00"])?;
    try_record(rt, &taken);
    Ok(())
}

#[test]
fn payloads_byte_by_byte(rt: HostRuntime) -> Result<(), Fail> {
    let alloc = rt.alloc();
    try_payload(&rt, alloc, b"\x11\x00\x00\x00\x05\x00\x00\x00\x02", 9)?;
    try_payload(&rt, alloc, b"\x12\x00\x05", 0)?;
    try_payload(&rt, alloc, b"\x41\x00\x05", 9)?;
    Ok(())
}

#[test]
fn sends_and_a_commit_byte_by_byte(rt: HostRuntime) -> Result<(), Fail> {
    let sends = joined(
        rt.alloc(),
        &[
            b"\x10\x03\x16\x00\x00\x00\x00\x02\x00\x33\x00\x00\x00\x11\x00\x00\x00\x00\x00\x00\x00\x00",
            &[5; 64],
            b"\x01\x00\x00\x00\x00\x00\x03\x00\x00\x00\x00",
            &[6; 64],
            &[7; 64],
        ],
    )?;
    try_record(&rt, &sends);
    Ok(())
}

#[test]
fn scans_of_several_bytes(rt: HostRuntime) {
    let mut scan = EventScan::new();
    assert_eq!(rt; scan.patience(), 1);
    assert!(rt; scan.goes_on(b""));
    assert!(rt; scan.goes_on(b"\x00\x02\x00\x41"));
    // A tag, 64 bytes, and the number of sent messages.
    assert_eq!(rt; scan.patience(), 67);
    assert!(rt; scan.goes_on(&[1; 60]));
    assert_eq!(rt; scan.patience(), 7);
    assert!(rt; scan.goes_on(b"\x01\x02\x03\x04\x05\x06\x02\x00"));
    // A kind byte that no message has.
    assert!(rt; !scan.goes_on(b"\x13"));
    assert_eq!(rt; opening_cut_below(b"\xf0\x00"), 67);
    assert_eq!(rt; opening_cut_below(b"\x10"), 0);
    assert_eq!(rt; opening_cut_below(b""), 0);
}
