// A trace is written to a sink that takes pieces, or its records are encoded alone.
ghost use Rattle.std.specs.Prelude.{◌≡◌, ◌+◌, ◌*◌, ◌^◌, ◌<◌, ◌≤◌, IfSome, IsTrue, OnOk};
ghost use Rattle.cxl_codec.specs.VersionOne.{setup_fits_version_one};
ghost use Rattle.cxl_codec.specs.declared.versions.Version.{Version};
ghost use Rattle.trace_stream.specs.Buffers.{reach};
ghost use Rattle.trace_stream.specs.declared.progress.Progress.{Progress};

use crate::work::{Size, Tally};
use bench_events::{
    answered, asked, begun, committed, conflicted, granted, returned, room_of, snooped, started,
    stored, written,
};
use cxl_codec::{encode_end, encode_header, encode_room};
use cxl_message::{Opening, Setup};
use outside_io::{MemSink, Sink};
use std::alloc::{AllocError, Global};
use trace_stream::{TraceWriteRefusal, TraceWriter};

/// How many bytes wait at most where records are encoded alone.
const FULL: usize = 65000;

/// The trace of so many groups of records.
pub fn trace_of(alloc: Global, groups: u32) -> Result<Vec<u8>, AllocError> {
    let mut trace = Vec::new(alloc);
    let Some(setup) = setup() else {
        return Ok(trace);
    };
    encode_header(&setup, &mut trace)?;
    fill(groups, usize::MAX, &mut trace)?;
    encode_end(11 * u64::from(groups), &mut trace)?;
    Ok(trace)
}

/// Encodes the event records of a trace into one buffer, which is emptied where it is full.
pub fn encode(
    alloc: Global,
    trace: &[u8],
    groups: u32,
    tally: &mut Tally,
) -> Result<(), AllocError> {
    let mut buffer = Vec::new(alloc);
    fill(groups, FULL, &mut buffer)?;
    tally.add_groups(groups);
    tally.add_bytes(trace.len());
    Ok(())
}

/// Writes the same trace to a sink in memory that takes a piece of the size at once.
pub fn write(alloc: Global, trace: &[u8], size: Size, tally: &mut Tally) -> Result<(), AllocError> {
    let piece = (size.piece as usize).max(1);
    let mut sink = MemSink::new(alloc, trace.len(), piece, Vec::new(alloc))?;
    let ended = write_trace(alloc, size.groups, &mut sink).is_ok();
    tally.same = tally.same && ended && sink.bytes().len() == trace.len();
    tally.add_groups(size.groups);
    tally.add_bytes(trace.len());
    Ok(())
}

/// The setup of the trace, if it is one.
fn setup() -> Option<Setup>
    ensures { IfSome result (λ setup. IsTrue (setup_fits_version_one setup)) }
{
    Setup::new(2, 4, 4, 4, 2, 2, &[0]).ok()
}

/// Appends so many groups of records; the buffer is emptied where it has as many bytes as the limit.
fn fill(groups: u32, limit: usize, out: &mut Vec<u8>) -> Result<(), AllocError> {
    let begun = room_of(&begun());
    let asked = room_of(&asked());
    let started = room_of(&started());
    let snooped = room_of(&snooped());
    let conflicted = room_of(&conflicted());
    let answered = room_of(&answered());
    let granted = room_of(&granted());
    let committed = room_of(&committed());
    let stored = room_of(&stored());
    let written = room_of(&written());
    let returned = room_of(&returned());
    for _ in 0..groups {
        encode_room(&begun, out)?;
        encode_room(&asked, out)?;
        encode_room(&started, out)?;
        encode_room(&snooped, out)?;
        encode_room(&conflicted, out)?;
        encode_room(&answered, out)?;
        encode_room(&granted, out)?;
        encode_room(&committed, out)?;
        encode_room(&stored, out)?;
        encode_room(&written, out)?;
        encode_room(&returned, out)?;
        if out.len() >= limit {
            out.clear();
        }
    }
    Ok(())
}

/// Writes the trace of so many groups of records to a sink.
fn write_trace<K: Sink>(alloc: Global, groups: u32, sink: &mut K) -> Result<(), TraceWriteRefusal>
    requires { K.highest_count sink.old < 1000 }
{
    let Some(setup) = setup() else {
        return Err(TraceWriteRefusal::Memory);
    };
    let opening = Opening::new(alloc);
    let mut writer = TraceWriter::new(alloc, sink)?;
    writer.begin(&setup, &opening)?;
    put_groups(groups, &mut writer)?;
    writer.end()
}

/// Puts so many groups of events.
fn put_groups<K: Sink>(groups: u32, writer: &mut TraceWriter<K>) -> Result<(), TraceWriteRefusal>
    requires begun { writer.old.progress ≡ Progress.Begun }
    requires version { writer.old.version ≡ Version.One }
    requires none { writer.old.count ≡ 0 }
    requires counts { reach writer.old.out < 2000 }
    ensures begun { OnOk result (writer.new.progress ≡ Progress.Begun) }
    ensures counts { OnOk result (reach writer.new.out < 2 ^ 62) }
{
    let begun = room_of(&begun());
    let asked = room_of(&asked());
    let started = room_of(&started());
    let snooped = room_of(&snooped());
    let conflicted = room_of(&conflicted());
    let answered = room_of(&answered());
    let granted = room_of(&granted());
    let committed = room_of(&committed());
    let stored = room_of(&stored());
    let written = room_of(&written());
    let returned = room_of(&returned());
    for number in 0..groups {
        writer.put_room(&begun)?;
        writer.put_room(&asked)?;
        writer.put_room(&started)?;
        writer.put_room(&snooped)?;
        writer.put_room(&conflicted)?;
        writer.put_room(&answered)?;
        writer.put_room(&granted)?;
        writer.put_room(&committed)?;
        writer.put_room(&stored)?;
        writer.put_room(&written)?;
        writer.put_room(&returned)?;
    }
    Ok(())
}
