// Serial traces: without picks, and cut before the first event that has no room.
use crate::drives::{Call, SUMMARY_OF_ONE_LOAD, run};
use std::test::Fail;
use step_driver::{DriveRefusal, Summary};

/// One load, with room for one event of each agent.
const ROOM_FOR_ONE: &str =
    "hosts 1\nlines 4\nfilter 4\nways 4\ntags 2\ncredits 2\nroom 1\nstream 0\nload 0\n";

/// The serial trace of it: the operation, and the taking of its request.
const TWO_EVENTS: &[u8] =
    b"CXLT\x01\x01\x00\x03\x00\x03\x03\x02\x02\x01\x00\x00\x01\x00\x00\x00\x00\x00\x01\x00\x00\x00\x00\x01\x00\x01\x02\x01\x00\x00\x00\x00\x00\x00\x00\x10\x02\x00\x01\x02\x01\x00\x00\x00\x00\x00\x00\x00\x00\xff\x00\x00\x00\x00\x00\x00\x00\x02";

/// Two hosts store to one line and load it, by picks.
const BY_PICKS: &str =
    "hosts 2\nlines 4\nfilter 4\nways 2\ntags 2\ncredits 2\nroom 100\nstream 0\nword 0 0 0000000000000001\nload 0\nstream 1\nword 0 1 0000000000000002\nload 0\npick 1\npick 1\n";

/// The same without its picks.
const WITHOUT_PICKS: &str =
    "hosts 2\nlines 4\nfilter 4\nways 2\ntags 2\ncredits 2\nroom 100\nstream 0\nword 0 0 0000000000000001\nload 0\nstream 1\nword 0 1 0000000000000002\nload 0\n";

#[test]
fn a_serial_trace_ends_before_an_event_without_room(rt: HostRuntime) -> Result<(), Fail> {
    let cut = run(rt.alloc(), Call::DriveWithin, ROOM_FOR_ONE, &[])?;
    let summary = Summary {
        events: 2,
        loads: 0,
        ..SUMMARY_OF_ONE_LOAD
    };
    assert_eq!(rt; cut.answer, Ok(summary));
    assert!(rt; cut.written.as_slice() == TWO_EVENTS);
    let whole = run(rt.alloc(), Call::Drive, ROOM_FOR_ONE, &[])?;
    assert_eq!(rt; whole.answer, Ok(SUMMARY_OF_ONE_LOAD));
    Ok(())
}

#[test]
fn a_serial_trace_with_room_is_the_driven_one_without_picks(rt: HostRuntime) -> Result<(), Fail> {
    let serial = run(rt.alloc(), Call::DriveWithin, BY_PICKS, &[])?;
    let plain = run(rt.alloc(), Call::Drive, WITHOUT_PICKS, &[])?;
    let picked = run(rt.alloc(), Call::Drive, BY_PICKS, &[])?;
    assert_eq!(rt; serial.answer, plain.answer);
    assert!(rt; serial.written.as_slice() == plain.written.as_slice());
    assert_eq!(rt; serial.written.len(), 1199);
    assert!(rt; picked.written.as_slice() != plain.written.as_slice());
    Ok(())
}

#[test]
fn each_write_that_fails_cuts_a_serial_trace(rt: HostRuntime) -> Result<(), Fail> {
    for k in 0..TWO_EVENTS.len() {
        let failed = run(rt.alloc(), Call::DriveWithin, ROOM_FOR_ONE, &[k as u64])?;
        assert_eq!(rt;
            failed.answer,
            Err(DriveRefusal::WriteFault),
            "at write {k}"
        );
        assert!(rt;
            Some(failed.written.as_slice()) == TWO_EVENTS.get(..k),
            "at write {k}"
        );
    }
    Ok(())
}
