// A trace that is longer than what waits at most, and each of its writes failing.
ghost use Rattle.std.specs.Prelude.{◌≡◌, ◌<◌, [], IsTrue};
ghost use Rattle.cxl_message.specs.Formed.{well_formed as is_well_formed};
ghost use Rattle.cxl_codec.specs.VersionOne.{fits_version_one as has_short_tags, setup_fits_version_one as has_few_tags};
ghost use Rattle.trace_stream.specs.Writing.{IsNew};

use crate::samples::*;
use cxl_codec::{fits_version_one, setup_fits_version_one};
use cxl_message::{Event, Opening, Setup, well_formed};
use outside_io::{MemSink, Sink};
use std::alloc::Global;
use std::test::Fail;
use trace_stream::*;

// Puts a trace of the same event so many times.
fn put_many<K: Sink>(
    writer: &mut TraceWriter<K>,
    setup: &Setup,
    opening: &Opening,
    event: &Event,
    count: u32,
) -> Result<(), TraceWriteRefusal>
    requires new { IsNew writer.old }
    requires no_lines { opening.now ≡ [] }
    requires counts { writer.old.out.highest < 1000 }
    requires formed { IsTrue (is_well_formed event.now) }
    requires few_tags { IsTrue (has_few_tags setup.now) }
    requires short_tags { IsTrue (has_short_tags event.now) }
    requires few { count < 1000 }
{
    writer.begin(setup, opening)?;
    for _ in 0..count {
        writer.put(event)?;
    }
    writer.end()
}

// The last event of the example 'One load', 500 times, to a sink that takes 20,000 bytes at a time and fails at these
// writes: what was answered, and what went.
fn try_many(
    alloc: Global,
    fails: &[u64],
) -> Result<(Result<(), TraceWriteRefusal>, Vec<u8>), Fail> {
    let setup = Setup::new(1, 4, 4, 4, 2, 2, &[0])?;
    let opening = Opening::new(alloc);
    let mut sink = MemSink::new(alloc, 100_000, 20_000, Vec::from_slice(alloc, fails)?)?;
    let [.., event] = one_load();
    let mut writer = TraceWriter::new(alloc, &mut sink)?;
    let fits = setup_fits_version_one(&setup) && fits_version_one(&event);
    let answer = if well_formed(&event) && fits {
        put_many(&mut writer, &setup, &opening, &event, 500)
    } else {
        Err(TraceWriteRefusal::Memory)
    };
    drop(writer);
    Ok((answer, Vec::from_slice(alloc, sink.bytes())?))
}

#[test]
fn a_long_trace_is_written_before_it_ends(rt: HostRuntime) -> Result<(), Fail> {
    let (answer, whole) = try_many(rt.alloc(), &[])?;
    assert_eq!(rt; answer, Ok(()));
    assert_eq!(rt; whole.len(), 15 + 500 * 146 + 9);
    let outcome = read(rt.alloc(), &whole, &[], 4096)?;
    assert_eq!(rt; outcome.items.len(), 502);
    assert_eq!(rt; outcome.end, Ok(500));
    // After 446 events 65,131 bytes wait, and all of them are written.
    for (k, gone) in [0, 20_000, 40_000, 60_000, 65_131].iter().enumerate() {
        let (answer, bytes) = try_many(rt.alloc(), &[k as u64])?;
        assert_eq!(rt; answer, Err(TraceWriteRefusal::WriteFault), "at write {k}");
        assert!(rt;
            Some(bytes.as_slice()) == whole.get(..*gone as usize),
            "at write {k}"
        );
    }
    Ok(())
}
