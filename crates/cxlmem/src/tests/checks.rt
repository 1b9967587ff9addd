// `check` over driven traces, over traces that are no run and over bytes that are no trace, and each read and write failing.
use super::*;

/// The text that `check` writes for one load's trace.
const ONE_LOAD_VERDICT: &str = "run: 6 events, 1 commits\n";

/// `check` of these bytes writes this text, with this status.
fn checks(
    rt: &impl Abort,
    alloc: Global,
    trace: &[u8],
    status: Status,
    text: &str,
) -> Result<(), AllocError> {
    let done = run(alloc, &["check"], trace, &[], &[])?;
    assert_eq!(rt; done.status, status, "{text}");
    assert!(rt; done.written.as_slice() == text.as_bytes(), "{text}");
    Ok(())
}

#[test]
fn driven_traces_are_runs(rt: HostRuntime) -> Result<(), Fail> {
    let nothing = bytes_of(rt.alloc(), &NOTHING_TRACE)?;
    let silent_upgrade = bytes_of(rt.alloc(), &SILENT_UPGRADE_TRACE)?;
    let opening = bytes_of(rt.alloc(), &OPENING_TRACE)?;
    let one_load = bytes_of(rt.alloc(), &ONE_LOAD_TRACE)?;
    for (trace, text) in [
        (&nothing, "run: 0 events, 0 commits\n"),
        (&one_load, ONE_LOAD_VERDICT),
        (&silent_upgrade, "run: 13 events, 2 commits\n"),
        (&opening, ONE_LOAD_VERDICT),
    ] {
        checks(&rt, rt.alloc(), trace, Status::Ok, text)?;
    }
    Ok(())
}

#[test]
fn flows_of_several_hosts_are_runs(rt: HostRuntime) -> Result<(), Fail> {
    for flow in [LATE_CONFLICT, DIRTY_EVICTION_CROSSES, BLOCKS_OF_FOUR] {
        let mut script = Vec::from_slice(rt.alloc(), flow.script.as_bytes())?;
        for _ in 0..flow.zeros {
            script.extend_from_slice(b"pick 0\n")?;
        }
        script.extend_from_slice(flow.picks.as_bytes())?;
        let driven = run(rt.alloc(), &["drive"], &script, &[], &[])?;
        let checked = run(rt.alloc(), &["check"], &driven.written, &[], &[])?;
        assert_eq!(&rt; checked.status, Status::Ok);
        assert!(&rt; checked.written.starts_with(b"run: "));
    }
    Ok(())
}

#[test]
fn the_first_broken_event_is_told(rt: HostRuntime) -> Result<(), Fail> {
    let mut unordered = bytes_of(rt.alloc(), &ONE_LOAD_TRACE)?;
    if let Some(index) = unordered.get_mut(21) {
        *index = 1;
    }
    checks(
        &rt,
        rt.alloc(),
        &unordered,
        Status::NotARun,
        "not a run: event 0: rule S0\n",
    )?;
    let mut other_value = bytes_of(rt.alloc(), &ONE_LOAD_TRACE)?;
    for place in 232..296usize {
        if let Some(byte) = other_value.get_mut(place) {
            *byte = 1;
        }
    }
    checks(
        &rt,
        rt.alloc(),
        &other_value,
        Status::NotARun,
        "not a run: event 5: rule H3\n",
    )?;
    Ok(())
}

#[test]
fn the_first_bad_byte_is_told(rt: HostRuntime) -> Result<(), Fail> {
    let trace = bytes_of(rt.alloc(), &ONE_LOAD_TRACE)?;
    for (cut, text) in [
        (0, "bad trace: byte 0: short\n"),
        (14, "bad trace: byte 14: short\n"),
        (296, "bad trace: byte 296: short\n"),
        (304, "bad trace: byte 304: short\n"),
    ] {
        let front = trace.get(..cut).unwrap_or(&[]);
        checks(&rt, rt.alloc(), front, Status::BadTrace, text)?;
    }
    for (place, byte, text) in [
        (4, 3, "bad trace: byte 4: field Version\n"),
        (15, 0xf1, "bad trace: byte 15: field Agent\n"),
        (16, 9, "bad trace: byte 16: kind\n"),
        (304, 7, "bad trace: byte 296: count\n"),
    ] {
        let mut damaged = Vec::from_slice(rt.alloc(), &trace)?;
        if let Some(at) = damaged.get_mut(place) {
            *at = byte;
        }
        checks(&rt, rt.alloc(), &damaged, Status::BadTrace, text)?;
    }
    let mut longer = Vec::from_slice(rt.alloc(), &trace)?;
    longer.push(0)?;
    checks(
        &rt,
        rt.alloc(),
        &longer,
        Status::BadTrace,
        "bad trace: byte 305: trailing\n",
    )?;
    Ok(())
}

#[test]
fn each_read_of_a_trace_that_fails_is_told(rt: HostRuntime) -> Result<(), Fail> {
    let trace = bytes_of(rt.alloc(), &ONE_LOAD_TRACE)?;
    for k in [0, 1, 14, 100, 304, 305] {
        let failed = run(rt.alloc(), &["check"], &trace, &[k], &[])?;
        assert_eq!(rt; failed.status, Status::ReadFault, "at read {k}");
        assert!(rt;
            failed.written.as_slice() == b"read fault\n".as_slice(),
            "at read {k}"
        );
    }
    Ok(())
}

#[test]
fn each_write_of_a_verdict_that_fails_cuts_it(rt: HostRuntime) -> Result<(), Fail> {
    let trace = bytes_of(rt.alloc(), &ONE_LOAD_TRACE)?;
    let text = ONE_LOAD_VERDICT.as_bytes();
    for k in 0..text.len() {
        let failed = run(rt.alloc(), &["check"], &trace, &[], &[k as u64])?;
        assert_eq!(rt; failed.status, Status::WriteFault, "at write {k}");
        assert!(rt; failed.written.as_slice() == &text[..k], "at write {k}");
    }
    Ok(())
}

/// One load of a stream with a name.
const NAMED_LOAD: &[u8] =
    b"hosts 1\nlines 4\nfilter 4\nways 4\ntags 2\ncredits 2\nroom 100\nstream 0 cpu\nload 0\n";

#[test]
fn a_named_stream_asks_for_version_two(rt: HostRuntime) -> Result<(), Fail> {
    let driven = run(rt.alloc(), &["drive"], NAMED_LOAD, &[], &[])?;
    assert_eq!(rt; driven.status, Status::Ok);
    assert_eq!(rt; driven.written.len(), 326);
    assert_eq!(rt; driven.written.get(4), Some(&2));
    assert!(rt; driven.written.get(16..22) == Some(b"\xf1\x00\x03cpu".as_slice()));
    checks(
        &rt,
        rt.alloc(),
        &driven.written,
        Status::Ok,
        ONE_LOAD_VERDICT,
    )?;
    Ok(())
}
