// The second pass over the bytes of a trace: what they have is written in version 2.
ghost use Rattle.std.specs.Prelude.{◌≡◌, ◌+◌, ◌^◌, ◌<◌, ◌≤◌, [], IsErrOf, IsTrue, OnErr, OnOk, length};
ghost use Rattle.std.specs.List.{list_all};
ghost use Rattle.cxl_message.specs.Formed.{well_formed as is_well_formed};
ghost use Rattle.cxl_codec.specs.declared.versions.Version.{Version as AVersion};
ghost use Rattle.outside_io.specs.Counts.{TellsFaults};
ghost use Rattle.trace_stream.specs.Buffers.{Keeps, reach};
ghost use Rattle.trace_stream.specs.Items.{item_of};
ghost use Rattle.trace_stream.specs.Writing.{BreaksOff, GoesOn, IsUnused, event_cost};
ghost use Rattle.trace_stream.specs.declared.progress.Progress.{Progress};
ghost use Rattle.trace_migration.specs.Heads.{IsHeadOf};
ghost use Rattle.trace_migration.specs.Items.{event_part};
ghost use Rattle.trace_migration.specs.Migrations.{IsSomeTrace, Migrates, MigratesFront, PutsEvents, PutsEventsShort};

use crate::heads::Head;
use crate::walks::Walk;
use cxl_codec::Version;
use outside_io::Sink;
use std::alloc::Global;
use trace_stream::{Found, Room, TraceWriteRefusal, TraceWriter};

/// Writes the trace of version 2 that has this head and the events of these bytes, from the first byte to the last.
pub fn write_migrated<K: Sink>(
    alloc: Global,
    bytes: &[u8],
    head: &Head,
    sink: &mut K,
) -> Result<(), TraceWriteRefusal>
    requires short { length bytes.now ≤ 67108864 }
    requires surveyed { IsHeadOf bytes.now head.now }
    requires sink_counts { K.highest_count sink.old < 2 ^ 62 }

    ensures migrated { OnOk result (Migrates (K.gone sink.old) (K.gone sink.new) bytes.now) }
    ensures cut_short { OnErr result (MigratesFront (K.gone sink.old) (K.gone sink.new) bytes.now) }
    ensures faults { TellsFaults (K.faults sink.old) (K.faults sink.new) (IsErrOf result TraceWriteRefusal.WriteFault) }
{
    let Ok(mut writer) = TraceWriter::named(alloc, sink, Version::Two, &head.names) else {
        unreachable!("a new writer is never refused")
    };
    let result = put_trace(alloc, bytes, head, &mut writer);
    writer.into_sink();
    result
}

/// Puts the trace of version 2 that has this head and the events of these bytes.
fn put_trace<K: Sink>(
    alloc: Global,
    bytes: &[u8],
    head: &Head,
    writer: &mut TraceWriter<K>,
) -> Result<(), TraceWriteRefusal>
    requires short { length bytes.now ≤ 67108864 }
    requires surveyed { IsHeadOf bytes.now head.now }
    requires unused { IsUnused writer.old }
    requires version { writer.old.version ≡ AVersion.Two }
    requires names { writer.old.names ≡ head.now.names }
    requires sink_counts { writer.old.out.highest < 2 ^ 62 }

    ensures migrated { OnOk result (Migrates writer.old.out.gone writer.new.out.gone bytes.now) }
    ensures cut_short { OnErr result (MigratesFront writer.old.out.gone writer.new.out.gone bytes.now) }
    ensures faults { TellsFaults writer.old.out.faults writer.new.out.faults (IsErrOf result TraceWriteRefusal.WriteFault) }
    ensures same_sink { writer.new.out.sink ≡ writer.old.out.sink }
{
    writer.begin(&head.setup, &head.opening)?;
    put_events(alloc, bytes, writer)?;
    writer.end()
}

/// Puts the events of a trace, from the first on.
fn put_events<K: Sink>(
    alloc: Global,
    bytes: &[u8],
    writer: &mut TraceWriter<K>,
) -> Result<(), TraceWriteRefusal>
    requires short { length bytes.now ≤ 67108864 }
    requires trace { IsSomeTrace bytes.now }
    requires begun { writer.old.progress ≡ Progress.Begun }
    requires version { writer.old.version ≡ AVersion.Two }
    requires none { writer.old.count ≡ 0 }
    requires counts { reach writer.old.out < 2 ^ 62 + 2 ^ 36 }

    ensures put { OnOk result (PutsEvents bytes.now writer.old writer.new) }
    ensures cut_short { OnErr result (PutsEventsShort bytes.now writer.old writer.new) }
    ensures progress { OnOk result (writer.new.progress ≡ Progress.Begun) }
    ensures faults { TellsFaults writer.old.out.faults writer.new.out.faults (IsErrOf result TraceWriteRefusal.WriteFault) }
    ensures counts { OnOk result (reach writer.new.out < 2 ^ 62 + 2 ^ 37) }
    ensures same_sink { writer.new.out.sink ≡ writer.old.out.sink }
{
    let mut walk = Walk::over(alloc, bytes)?;
    let mut room = Room::new();
    while let Some(found) = walk.next(&mut room) {
        put_item(found, &room, writer)?;
    }
    match walk.finish() {
        Ok(_) => Ok(()),
        Err(_) => unreachable!("the bytes are a trace"),
    }
}

/// Puts an item, if it is an event.
fn put_item<K: Sink>(
    found: Found,
    room: &Room,
    writer: &mut TraceWriter<K>,
) -> Result<(), TraceWriteRefusal>
    requires begun { writer.old.progress ≡ Progress.Begun }
    requires formed { IsTrue (list_all is_well_formed (event_part (item_of room.now found))) }
    requires version { writer.old.version ≡ AVersion.Two }
    requires events { writer.old.count + 1 < 2 ^ 63 }
    requires counts { reach writer.old.out + event_cost < 2 ^ 63 }

    ensures goes_on { OnOk result (GoesOn writer.old writer.new (event_part (item_of room.now found))) }
    ensures progress { OnOk result (writer.new.progress ≡ Progress.Begun) }
    ensures count { OnOk result (writer.new.count ≡ writer.old.count + length (event_part (item_of room.now found))) }
    ensures same_version { writer.new.version ≡ writer.old.version }
    ensures front { OnErr result (BreaksOff writer.old writer.new (event_part (item_of room.now found))) }
    ensures kept { Keeps writer.old.out writer.new.out event_cost result }
{
    match found {
        Found::Event => writer.put_room(&room.event),
        _ => Ok(()),
    }
}
