// Traces that are written, and writes that fail.
ghost use Rattle.std.specs.Prelude.{◌≡◌, ◌<◌, ◌∷◌, [], length, IsErrOf, IsTrue, OnOk};
ghost use Rattle.cxl_message.specs.Formed.{well_formed as is_well_formed};
ghost use Rattle.cxl_message.specs.Opening.{opening_fits};
ghost use Rattle.cxl_codec.specs.Versions.{event_fits, setup_fits};
ghost use Rattle.outside_io.specs.Counts.{TellsFaults};
ghost use Rattle.trace_stream.specs.Runs.{NamesFit};
ghost use Rattle.trace_stream.specs.Writing.{IsUnused, WritesTraceIn};

use crate::samples::*;
use cxl_codec::Version;
use cxl_message::{Bytes64, Event, Line, Names, Opening, Setup, well_formed};
use event_room::EventRoom;
use outside_io::{MemSink, Sink};
use std::alloc::{AllocError, Global};
use std::test::Fail;
use trace_stream::*;

// Puts the trace of two events, the second of them from its room.
fn put_two<K: Sink>(
    writer: &mut TraceWriter<K>,
    setup: &Setup,
    opening: &Opening,
    first: &Event,
    second: &EventRoom,
) -> Result<(), TraceWriteRefusal>
    requires unused { IsUnused writer.old }
    requires version { IsTrue (setup_fits writer.old.version setup.now) }
    requires named { NamesFit writer.old.version (length setup.now.streams) writer.old.names }
    requires lines { IsTrue (opening_fits setup.now.lines opening.now) }
    requires few_names { length writer.old.names < 100 }
    requires few { length opening.now < 100 }
    requires counts { writer.old.out.highest < 1000 }
    requires first_formed { IsTrue (is_well_formed first.now) }
    requires second_formed { IsTrue (is_well_formed second.now) }
    requires first_tags { IsTrue (event_fits writer.old.version first.now) }
    requires second_tags { IsTrue (event_fits writer.old.version second.now) }

    ensures trace { OnOk result (WritesTraceIn writer.old.out.gone writer.new.out.gone writer.old.version setup.now writer.old.names opening.now (first.now ∷ second.now ∷ [])) }
    ensures same_sink { writer.new.out.sink ≡ writer.old.out.sink }
    ensures faults { TellsFaults writer.old.out.faults writer.new.out.faults (IsErrOf result TraceWriteRefusal.WriteFault) }
{
    writer.begin(setup, opening)?;
    writer.put(first)?;
    writer.put_room(second)?;
    writer.end()
}

// Writes the trace of two events to a sink: what went is the trace, and a reader reads it as these names and events.
fn write_two<K: Sink>(
    alloc: Global,
    sink: &mut K,
    version: Version,
    setup: &Setup,
    names: &Names,
    opening: &Opening,
    first: &Event,
    second: &Event,
) -> Result<(), TraceWriteRefusal>
    requires version { IsTrue (setup_fits version setup.now) }
    requires named { NamesFit version (length setup.now.streams) names.now }
    requires lines { IsTrue (opening_fits setup.now.lines opening.now) }
    requires few_names { length names.now < 100 }
    requires few { length opening.now < 100 }
    requires counts { K.highest_count sink.old < 1000 }
    requires first_formed { IsTrue (is_well_formed first.now) }
    requires second_formed { IsTrue (is_well_formed second.now) }
    requires first_tags { IsTrue (event_fits version first.now) }
    requires second_tags { IsTrue (event_fits version second.now) }

    ensures trace { OnOk result (WritesTraceIn (K.gone sink.old) (K.gone sink.new) version setup.now names.now opening.now (first.now ∷ second.now ∷ [])) }
    ensures faults { TellsFaults (K.faults sink.old) (K.faults sink.new) (IsErrOf result TraceWriteRefusal.WriteFault) }
{
    let Ok(mut writer) = TraceWriter::named(alloc, sink, version, names) else {
        unreachable!("a new writer is never refused")
    };
    let mut room = EventRoom::new();
    room.set(second);
    let result = put_two(&mut writer, setup, opening, first, &room);
    writer.into_sink();
    result
}

// Whether an event is one that a trace of the version may have.
fn may_be_put(version: Version, event: &Event) -> bool
    ensures formed { IsTrue result → IsTrue (is_well_formed event.now) }
    ensures tags { IsTrue result → IsTrue (event_fits version event.now) }
{
    well_formed(event) && version.fits(event)
}

// Whether the names are those of a trace of the version, and few.
fn may_name(version: Version, setup: &Setup, names: &Names) -> bool
    ensures named { IsTrue result → NamesFit version (length setup.now.streams) names.now }
    ensures few { IsTrue result → length names.now < 100 }
{
    if names.len() >= 100 {
        return false;
    }
    match version {
        Version::One => names.is_empty(),
        Version::Two => names.fit(setup),
    }
}

// Whether a trace of the version may begin so, with few openings.
fn may_begin(version: Version, setup: &Setup, opening: &Opening) -> bool
    ensures lines { IsTrue result → IsTrue (opening_fits setup.now.lines opening.now) }
    ensures few { IsTrue result → length opening.now < 100 }
    ensures tags { IsTrue result → IsTrue (setup_fits version setup.now) }
{
    version.fits_setup(setup) && opening.fits(setup) && opening.pairs().len() < 100
}

// The header and the first two events of the example 'One load' in a version, with these streams named and these lines
// opened, to a sink that takes 7 bytes at a time and fails at these writes: what was answered, and what went.
fn try_two(
    alloc: Global,
    version: Version,
    named: &[(u8, &[u8])],
    opened: &[(Line, Bytes64)],
    fails: &[u64],
) -> Result<(Result<(), TraceWriteRefusal>, Vec<u8>), Fail> {
    let setup = Setup::new(1, 4, 4, 4, 2, 2, &[0])?;
    let mut names = Names::new(alloc);
    for (stream, name) in named {
        names.add(*stream, *name)?;
    }
    let mut opening = Opening::new(alloc);
    for (line, bytes) in opened {
        opening.add(*line, bytes)?;
    }
    let mut sink = MemSink::new(alloc, 1000, 7, Vec::from_slice(alloc, fails)?)?;
    let [first, second, ..] = one_load();
    let may_begin = may_begin(version, &setup, &opening) && may_name(version, &setup, &names);
    let answer = if may_begin && may_be_put(version, &first) && may_be_put(version, &second) {
        write_two(
            alloc, &mut sink, version, &setup, &names, &opening, &first, &second,
        )
    } else {
        Err(TraceWriteRefusal::Memory)
    };
    Ok((answer, Vec::from_slice(alloc, sink.bytes())?))
}

#[test]
fn a_trace_is_written(rt: HostRuntime) -> Result<(), Fail> {
    let (answer, bytes) = try_two(rt.alloc(), Version::One, &[], &[], &[])?;
    let whole = one_load_bytes(rt.alloc())?;
    assert_eq!(rt; answer, Ok(()));
    assert_eq!(rt; bytes.len(), 62);
    assert!(rt; bytes.get(..53) == whole.get(..53));
    assert!(rt; bytes.get(53..) == Some(b"\xff\x00\x00\x00\x00\x00\x00\x00\x02".as_slice()));
    let outcome = read(rt.alloc(), &bytes, &[], 7)?;
    assert_eq!(rt; outcome.end, Ok(2));
    Ok(())
}

#[test]
fn an_opening_is_written(rt: HostRuntime) -> Result<(), Fail> {
    let opened = [
        (Line(1), Bytes64([0xab; 64])),
        (Line(3), Bytes64([0xcd; 64])),
    ];
    let (answer, bytes) = try_two(rt.alloc(), Version::One, &[], &opened, &[])?;
    assert_eq!(rt; answer, Ok(()));
    assert_eq!(rt; bytes.len(), 62 + 2 * 67);
    assert!(rt; bytes.get(..15) == Some(HEADER));
    assert!(rt; bytes.get(15..18) == Some(b"\xf0\x00\x01".as_slice()));
    assert!(rt; bytes.get(18..82) == Some([0xab; 64].as_slice()));
    assert!(rt; bytes.get(82..85) == Some(b"\xf0\x00\x03".as_slice()));
    assert!(rt; bytes.get(85..149) == Some([0xcd; 64].as_slice()));
    let outcome = read(rt.alloc(), &bytes, &[], 7)?;
    assert_eq!(rt; outcome.end, Ok(2));
    for (item, (line, bytes)) in outcome.items.iter().skip(1).zip(&opened) {
        assert!(rt;
            *item
                == Item::Opened {
                    line: *line,
                    bytes: *bytes
                }
        );
    }
    Ok(())
}

#[test]
fn each_write_that_fails_is_told(rt: HostRuntime) -> Result<(), Fail> {
    let (_, whole) = try_two(rt.alloc(), Version::One, &[], &[], &[])?;
    for k in 0..9u64 {
        let (answer, bytes) = try_two(rt.alloc(), Version::One, &[], &[], &[k])?;
        assert_eq!(rt; answer, Err(TraceWriteRefusal::WriteFault), "at write {k}");
        assert!(rt;
            bytes.as_slice() == whole.get(..7 * k as usize).unwrap_or(&[0]),
            "at write {k}"
        );
    }
    Ok(())
}

#[test]
fn names_are_written_behind_the_header(rt: HostRuntime) -> Result<(), Fail> {
    let cpu: &[u8] = b"cpu";
    let opened = [(Line(1), Bytes64([0xab; 64]))];
    let (answer, bytes) = try_two(rt.alloc(), Version::Two, &[(0, cpu)], &opened, &[])?;
    assert_eq!(rt; answer, Ok(()));
    assert_eq!(rt; bytes.len(), 16 + 6 + 67 + 26 + 16 + 9);
    assert!(rt;
        bytes.get(..16) == Some(b"CXLT\x02\x01\x00\x03\x00\x03\x03\x00\x02\x02\x01\x00".as_slice())
    );
    assert!(rt; bytes.get(16..22) == Some(b"\xf1\x00\x03cpu".as_slice()));
    assert!(rt; bytes.get(22..25) == Some(b"\xf0\x00\x01".as_slice()));
    let outcome = read(rt.alloc(), &bytes, &[], 7)?;
    assert_eq!(rt; outcome.end, Ok(2));
    assert!(rt;
        matches!(outcome.items.get(1), Some(Item::Name { stream: 0, name }) if name.as_slice() == cpu)
    );
    Ok(())
}
