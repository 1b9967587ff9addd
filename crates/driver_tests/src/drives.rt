// What a drive writes and answers, into a sink that fails at some writes.
ghost use Rattle.std.specs.Prelude.{◌≤◌, length};

use outside_io::{CountSink, MemSink};
use script_text::parse_script;
use std::alloc::Global;
use std::test::Fail;
use step_driver::{DriveRefusal, Summary, drive, drive_within, writer_for};

/// Which of the two calls.
#[derive(Clone, Copy, PartialEq, Eq, Debug)]
pub enum Call {
    Drive,
    DriveWithin,
}

/// What a call answered, and what it wrote.
#[derive(Drop)]
pub struct Outcome {
    pub answer: Result<Summary, DriveRefusal>,
    pub written: Vec<u8>,
}

/// One load by one host.
pub const ONE_LOAD: &str =
    "hosts 1\nlines 4\nfilter 4\nways 4\ntags 2\ncredits 2\nroom 100\nstream 0\nload 0\n";

/// The summary of one load.
pub const SUMMARY_OF_ONE_LOAD: Summary = Summary {
    operations: 1,
    events: 6,
    loads: 1,
    words: 0,
    wholes: 0,
    snoops: 0,
    conflicts: 0,
    host_evictions: 0,
    filter_evictions: 0,
};

/// Calls `drive` or `drive_within` with the script of a text, with these writes of one byte failing.
pub fn run(alloc: Global, call: Call, text: &str, failing_writes: &[u64]) -> Result<Outcome, Fail>
    requires { length text.now ≤ 1000 }
{
    let script = parse_script(alloc, text.as_bytes())?;
    let mut sink = MemSink::new(alloc, 4000, 1, Vec::from_slice(alloc, failing_writes)?)?;
    let mut writer = writer_for(alloc, &script, &mut sink);
    let answer = match call {
        Call::Drive => drive(alloc, &script, &mut writer),
        Call::DriveWithin => drive_within(alloc, &script, &mut writer),
    };
    drop(writer);
    Ok(Outcome {
        answer,
        written: Vec::from_slice(alloc, sink.bytes())?,
    })
}

#[test]
fn a_load_is_driven_and_summed_up(rt: HostRuntime) -> Result<(), Fail> {
    let done = run(rt.alloc(), Call::Drive, ONE_LOAD, &[])?;
    assert_eq!(rt; done.answer, Ok(SUMMARY_OF_ONE_LOAD));
    assert_eq!(rt; done.written.len(), 305);
    Ok(())
}

/// Two hosts with one way each over a filter of one entry: snoops, a conflict, and evictions by both.
const EVICTIONS: &str =
    "hosts 2\nlines 3\nfilter 1\nways 1\ntags 2\ncredits 2\nroom 1000\nstream 0\nword 0 0 0000000000000001\nload 1\nload 0\nstream 1\nword 0 1 0000000000000002\nload 2\nwhole 0 abababababababababababababababababababababababababababababababababababababababababababababababababababababababababababababababab\npick 2\npick 2\npick 2\npick 2\npick 2\npick 0\npick 0\npick 1\npick 2\npick 2\npick 2\npick 0\npick 3\npick 2\npick 3\npick 3\npick 2\n";

#[test]
fn each_number_of_a_summary_is_counted(rt: HostRuntime) -> Result<(), Fail> {
    let done = run(rt.alloc(), Call::Drive, EVICTIONS, &[])?;
    let summary = Summary {
        operations: 6,
        events: 129,
        loads: 3,
        words: 2,
        wholes: 1,
        snoops: 3,
        conflicts: 1,
        host_evictions: 2,
        filter_evictions: 2,
    };
    assert_eq!(rt; done.answer, Ok(summary));
    Ok(())
}

#[test]
fn the_summary_needs_no_sink_that_tells(rt: HostRuntime) -> Result<(), Fail> {
    let script = parse_script(rt.alloc(), ONE_LOAD.as_bytes())?;
    let mut sink = CountSink::new();
    let mut writer = writer_for(rt.alloc(), &script, &mut sink);
    let answer = drive(rt.alloc(), &script, &mut writer);
    drop(writer);
    assert_eq!(rt; answer, Ok(SUMMARY_OF_ONE_LOAD));
    assert_eq!(rt; sink.count(), 305);
    Ok(())
}
