// The commands over sources and sinks in memory: worked examples, each read and write failing once, and each refusal.
mod checks;
mod examples;
mod flows;
mod line_feeds;
mod load_lines;

use super::*;
use examples::*;
use flows::{
    BLOCKS_OF_FOUR, CLEAN_EVICTION_CROSSES, DIRTY_EVICTION, DIRTY_EVICTION_CROSSES, EARLY_CONFLICT,
    FILTER_OF_ONE_ENTRY, Flow, LATE_CONFLICT, MODIFIED_LINE_IS_WANTED, SHARED_COPY_IS_DROPPED,
    SHARING, STORE_OVER_SHARED_COPIES, WHOLE_STORE_AND_HIT, WHOLE_STORES_IN_CONFLICT,
};
use line_feeds::LineFeeds;
use outside_io::{MemSink, MemSource};
use std::alloc::{AllocError, Global};
use std::process::Abort;
use std::test::Fail;

/// What a command answered, and what it wrote.
#[derive(Drop)]
struct Outcome {
    status: Status,
    written: Vec<u8>,
}

/// Words of a command line.
fn words_of(alloc: Global, words: &[&str]) -> Result<Vec<String>, AllocError> {
    let mut owned = Vec::new(alloc);
    for word in words {
        owned.push(String::from_str(alloc, word)?)?;
    }
    Ok(owned)
}

/// A command of these words over this input, in pieces of one byte, with these reads and writes failing.
fn run(
    alloc: Global,
    words: &[&str],
    input: &[u8],
    failing_reads: &[u64],
    failing_writes: &[u64],
) -> Result<Outcome, AllocError> {
    let owned = words_of(alloc, words)?;
    let mut source = MemSource::new(
        Vec::from_slice(alloc, input)?,
        1,
        Vec::from_slice(alloc, failing_reads)?,
    );
    let mut sink = MemSink::new(alloc, 2000, 1, Vec::from_slice(alloc, failing_writes)?)?;
    let status = command(alloc, &owned, &mut source, &mut sink);
    Ok(Outcome {
        status,
        written: Vec::from_slice(alloc, sink.bytes())?,
    })
}

/// The bytes of a trace in parts.
fn bytes_of(alloc: Global, parts: &[Part]) -> Result<Vec<u8>, AllocError> {
    let mut bytes = Vec::new(alloc);
    for part in parts {
        match *part {
            Part::Bytes(more) => bytes.extend_from_slice(more)?,
            Part::Run { byte, count } => {
                for _ in 0..count {
                    bytes.push(byte)?;
                }
            }
        }
    }
    Ok(bytes)
}

/// The script is driven, and its trace is these bytes.
fn drives(rt: &impl Abort, alloc: Global, script: &[u8], trace: &[Part]) -> Result<(), AllocError> {
    let done = run(alloc, &["drive"], script, &[], &[])?;
    let wanted = bytes_of(alloc, trace)?;
    assert_eq!(rt; done.status, Status::Ok);
    assert!(rt; done.written.as_slice() == wanted.as_slice());
    Ok(())
}

#[test]
fn scripts_of_one_host_are_driven(rt: HostRuntime) -> Result<(), Fail> {
    drives(&rt, rt.alloc(), NOTHING, &NOTHING_TRACE)?;
    drives(&rt, rt.alloc(), ONE_LOAD, &ONE_LOAD_TRACE)?;
    drives(&rt, rt.alloc(), SILENT_UPGRADE, &SILENT_UPGRADE_TRACE)?;
    drives(&rt, rt.alloc(), OPENING, &OPENING_TRACE)?;
    drives(&rt, rt.alloc(), TWO_STREAMS, &TWO_STREAMS_TRACE)?;
    Ok(())
}

/// The command writes this text, with this status.
fn refuses(
    rt: &impl Abort,
    alloc: Global,
    words: &[&str],
    input: &str,
    status: Status,
    text: &str,
) -> Result<(), AllocError> {
    let refused = run(alloc, words, input.as_bytes(), &[], &[])?;
    assert_eq!(rt; refused.status, status, "{input}");
    assert!(rt; refused.written.as_slice() == text.as_bytes(), "{input}");
    Ok(())
}

const USAGE: &str = "usage: cxlmem drive | check | view | load N | run\n";

// Words that are no form of the command line.
static OTHER_WORDS: [&[&str]; 9] = [
    &[],
    &["drive", "x"],
    &["Drive"],
    &["load"],
    &["load", "05"],
    &["load", "+5"],
    &["load", ""],
    &["load", "65537"],
    &["load", "4294967296"],
];

// Words of forms that aren't built.
static UNBUILT_WORDS: [&[&str]; 2] = [&["view"], &["run"]];

#[test]
fn other_words_are_told_the_usage(rt: HostRuntime) -> Result<(), Fail> {
    for words in &OTHER_WORDS {
        refuses(&rt, rt.alloc(), words, "", Status::Usage, USAGE)?;
    }
    Ok(())
}

#[test]
fn words_of_other_forms_are_not_built(rt: HostRuntime) -> Result<(), Fail> {
    for words in &UNBUILT_WORDS {
        refuses(&rt, rt.alloc(), words, "", Status::NotBuilt, "not built\n")?;
    }
    Ok(())
}

/// The sum of some bytes, each times its place from 1 on.
fn weighted(bytes: &[u8]) -> u64 {
    bytes.iter().enumerate().fold(0u64, |sum, (place, byte)| {
        sum.wrapping_add(
            (place as u64)
                .wrapping_add(1)
                .wrapping_mul(u64::from(*byte)),
        )
    })
}

/// The script of a flow is driven, and its trace sums up to what the flow says.
fn drives_flow(rt: &impl Abort, alloc: Global, flow: &Flow) -> Result<(), AllocError> {
    let mut script = Vec::from_slice(alloc, flow.script.as_bytes())?;
    for _ in 0..flow.zeros {
        script.extend_from_slice(b"pick 0\n")?;
    }
    script.extend_from_slice(flow.picks.as_bytes())?;
    let done = run(alloc, &["drive"], &script, &[], &[])?;
    assert_eq!(rt; done.status, Status::Ok);
    assert_eq!(rt; done.written.len(), flow.length);
    assert_eq!(rt; weighted(&done.written), flow.sum);
    Ok(())
}

#[test]
fn flows_of_several_hosts_are_driven(rt: HostRuntime) -> Result<(), Fail> {
    for flow in [
        SHARING,
        STORE_OVER_SHARED_COPIES,
        MODIFIED_LINE_IS_WANTED,
        EARLY_CONFLICT,
        LATE_CONFLICT,
        WHOLE_STORES_IN_CONFLICT,
    ] {
        drives_flow(&rt, rt.alloc(), &flow)?;
    }
    Ok(())
}

#[test]
fn flows_of_evictions_are_driven(rt: HostRuntime) -> Result<(), Fail> {
    for flow in [
        DIRTY_EVICTION,
        DIRTY_EVICTION_CROSSES,
        CLEAN_EVICTION_CROSSES,
        FILTER_OF_ONE_ENTRY,
        BLOCKS_OF_FOUR,
        SHARED_COPY_IS_DROPPED,
        WHOLE_STORE_AND_HIT,
    ] {
        drives_flow(&rt, rt.alloc(), &flow)?;
    }
    Ok(())
}

#[test]
fn other_inputs_are_refused_at_their_line(rt: HostRuntime) -> Result<(), Fail> {
    for (input, text) in [
        ("", "bad script: line 1: missing\n"),
        ("hosts 1\r\n", "bad script: line 1: spelling\n"),
        (
            "hosts 1\nlines 1\nfilter 1\nways 1\ntags 1025\n",
            "bad script: line 5: range\n",
        ),
        (
            "hosts 1\nlines 65536\nfilter 1\nways 1\ntags 2\ncredits 2\nroom 1\nstream 0\nload 65536\n",
            "bad script: line 9: range\n",
        ),
    ] {
        refuses(&rt, rt.alloc(), &["drive"], input, Status::BadScript, text)?;
    }
    Ok(())
}

/// What `drive` writes for so many line feeds.
fn drive_line_feeds(alloc: Global, count: u64) -> Result<Outcome, AllocError> {
    let owned = words_of(alloc, &["drive"])?;
    let mut source = LineFeeds { left: count };
    let mut sink = MemSink::new(alloc, 100, 100, Vec::new(alloc))?;
    let status = command(alloc, &owned, &mut source, &mut sink);
    Ok(Outcome {
        status,
        written: Vec::from_slice(alloc, sink.bytes())?,
    })
}

#[test]
fn a_byte_too_many_is_too_long(rt: HostRuntime) -> Result<(), Fail> {
    let most = drive_line_feeds(rt.alloc(), 67108864)?;
    assert_eq!(rt; most.status, Status::BadScript);
    let more = drive_line_feeds(rt.alloc(), 67108865)?;
    assert_eq!(rt; more.status, Status::TooLong);
    assert!(rt; more.written.as_slice() == b"too long\n".as_slice());
    Ok(())
}

/// A script of one line and so many streams with so many loads each.
fn loads(alloc: Global, streams: usize, loads: usize) -> Result<Vec<u8>, AllocError> {
    let mut script = Vec::from_slice(
        alloc,
        b"hosts 1\nlines 1\nfilter 1\nways 1\ntags 2\ncredits 2\nroom 1000\n",
    )?;
    for _ in 0..streams {
        script.extend_from_slice(b"stream 0\n")?;
        for _ in 0..loads {
            script.extend_from_slice(b"load 0\n")?;
        }
    }
    Ok(script)
}

/// What `drive` writes for a script, to a sink that takes 20,000 bytes at a time and fails at these writes.
fn drive_long(alloc: Global, script: &[u8], failing_writes: &[u64]) -> Result<Outcome, AllocError> {
    let owned = words_of(alloc, &["drive"])?;
    let mut source = MemSource::new(Vec::from_slice(alloc, script)?, 65536, Vec::new(alloc));
    let mut sink = MemSink::new(
        alloc,
        100_000,
        20_000,
        Vec::from_slice(alloc, failing_writes)?,
    )?;
    let status = command(alloc, &owned, &mut source, &mut sink);
    Ok(Outcome {
        status,
        written: Vec::from_slice(alloc, sink.bytes())?,
    })
}

/// The sum of some bytes.
fn sum_of(bytes: &[u8]) -> u64 {
    bytes
        .iter()
        .fold(0u64, |sum, byte| sum.wrapping_add(u64::from(*byte)))
}

#[test]
fn sixty_four_streams_are_driven(rt: HostRuntime) -> Result<(), Fail> {
    let done = drive_long(rt.alloc(), &loads(rt.alloc(), 64, 1)?, &[])?;
    assert_eq!(rt; done.status, Status::Ok);
    assert_eq!(rt; (done.written.len(), sum_of(&done.written)), (5961, 6058));
    assert_eq!(rt; done.written.get(13), Some(&64));
    assert!(rt;
        done.written.get(5952..) == Some(b"\xff\x00\x00\x00\x00\x00\x00\x00\x4b".as_slice())
    );
    let refused = drive_long(rt.alloc(), &loads(rt.alloc(), 65, 1)?, &[])?;
    assert_eq!(rt; refused.status, Status::BadScript);
    assert!(rt; refused.written.as_slice() == b"bad script: line 136: many\n".as_slice());
    Ok(())
}

#[test]
fn a_long_trace_goes_out_in_pieces(rt: HostRuntime) -> Result<(), Fail> {
    let script = loads(rt.alloc(), 1, 1000)?;
    let whole = drive_long(rt.alloc(), &script, &[])?;
    assert_eq!(rt; whole.status, Status::Ok);
    assert_eq!(rt;
        (whole.written.len(), sum_of(&whole.written)),
        (88_266, 258_238)
    );
    for (k, gone) in [0usize, 20_000, 40_000, 60_000, 65_025, 85_025]
        .iter()
        .enumerate()
    {
        let failed = drive_long(rt.alloc(), &script, &[k as u64])?;
        assert_eq!(rt; failed.status, Status::WriteFault, "at write {k}");
        assert!(rt;
            Some(failed.written.as_slice()) == whole.written.get(..*gone),
            "at write {k}"
        );
    }
    Ok(())
}

#[test]
fn each_read_that_fails_is_told(rt: HostRuntime) -> Result<(), Fail> {
    for k in 0..=ONE_LOAD.len() as u64 {
        let failed = run(rt.alloc(), &["drive"], ONE_LOAD, &[k], &[])?;
        assert_eq!(rt; failed.status, Status::ReadFault, "at read {k}");
        assert!(rt;
            failed.written.as_slice() == b"read fault\n".as_slice(),
            "at read {k}"
        );
    }
    Ok(())
}

#[test]
fn each_write_that_fails_cuts_the_trace(rt: HostRuntime) -> Result<(), Fail> {
    let trace = bytes_of(rt.alloc(), &ONE_LOAD_TRACE)?;
    for k in 0..trace.len() {
        let failed = run(rt.alloc(), &["drive"], ONE_LOAD, &[], &[k as u64])?;
        assert_eq!(rt; failed.status, Status::WriteFault, "at write {k}");
        assert!(rt; failed.written.as_slice() == &trace[..k], "at write {k}");
    }
    Ok(())
}

#[test]
fn a_write_that_fails_in_a_refusal_leaves_its_status(rt: HostRuntime) -> Result<(), Fail> {
    let refused = run(rt.alloc(), &["view"], NOTHING, &[], &[3])?;
    assert_eq!(rt; refused.status, Status::NotBuilt);
    assert_eq!(rt; refused.written.as_slice(), b"not".as_slice());
    let failed = run(rt.alloc(), &["drive"], NOTHING, &[0], &[4])?;
    assert_eq!(rt; failed.status, Status::ReadFault);
    assert_eq!(rt; failed.written.as_slice(), b"read".as_slice());
    Ok(())
}
