// Writing a trace record by record.
ghost use Rattle.std.specs.Prelude.{◌≡◌, ◌∷◌, ◌+◌, ◌^◌, ◌<◌, [], length, IsTrue, IsOk, OnOk, OnErr, IfOk};
ghost use Rattle.cxl_message.specs.Formed.{well_formed as is_well_formed};
ghost use Rattle.cxl_message.specs.Opening.{opening_fits};
ghost use Rattle.cxl_codec.specs.Versions.{event_fits, setup_fits};
ghost use Rattle.trace_stream.specs.Buffers.{Keeps, full, reach};
ghost use Rattle.trace_stream.specs.Runs.{NamesFit};
ghost use Rattle.trace_stream.specs.Writing.{BreaksOff, Ends, EndsShort, GoesOn, HasBegunIn, IsUnused, WritesFrontOf, begin_cost_in, end_cost, event_cost, new_writing, new_writing_in};

use crate::buffers::Buffered;
use crate::progress::Progress;
use crate::refusals::TraceWriteRefusal;
use cxl_codec::Version;
use cxl_message::{Event, Names, Opening, Setup};
use event_room::EventRoom;
use outside_io::Sink;
use std::alloc::{AllocError, Global};
use std::marker::Model;

/// A writer of one trace to a sink: the header, the names and the openings, the events, one by one, and the end record. It keeps
/// bytes back until some 64 KiB wait or the trace ends (own rule).
///
/// A contract sees what has gone to the sink, what waits for it, how far the trace is and the number of its events.
/// Where a writer is let go, what waits is lost; whoever wants to know what the sink holds then, takes it back by
/// `into_sink`.
#[derive(Drop)]
pub struct TraceWriter<'a, K: Sink> {
    out: Buffered<'a, K>,
    progress: Progress,
    count: u64,
    version: Version,
    names: Option<&'a Names>,
}

impl<'a, K: Sink> Model for TraceWriter<'a, K> {
    ghost use Rattle.std.specs.Prelude.{[]};
    ghost use Rattle.std.specs.Option.{option_map_or};
    ghost use Rattle.trace_stream.specs.Writing.{Writing};

    ghost Value = { Writing };

    ghost view = { λ w. record { out = w.out; progress = w.progress; count = w.count; version = w.version; names = option_map_or (λ n. n.now) w.names [] } };
}

impl<'a, K: Sink> TraceWriter<'a, K> {
    /// A writer of version 1 to this sink, with no names. It writes nothing yet and takes no memory, so it is never refused
    /// (own rule): `begin` is the first call that asks for memory.
    pub fn new(alloc: Global, sink: &'a mut K) -> Result<TraceWriter<'a, K>, AllocError>
        ensures never_refused { IsOk result }
        ensures new { IfOk result (λ writer. writer ≡ new_writing sink.entry.ghost_name (K.gone sink.old) (K.faults sink.old) (K.highest_count sink.old)) }
    {
        Ok(TraceWriter {
            out: Buffered::new(alloc, sink),
            progress: Progress::New,
            count: 0,
            version: Version::One,
            names: None,
        })
    }

    /// A writer of a version to this sink, with the names of streams, which `begin` writes. It is never refused, as `new`
    /// isn't (own rule).
    pub fn named(
        alloc: Global,
        sink: &'a mut K,
        version: Version,
        names: &'a Names,
    ) -> Result<TraceWriter<'a, K>, AllocError>
        ensures never_refused { IsOk result }
        ensures new { IfOk result (λ writer. writer ≡ new_writing_in version names.now sink.entry.ghost_name (K.gone sink.old) (K.faults sink.old) (K.highest_count sink.old)) }
    {
        Ok(TraceWriter {
            out: Buffered::new(alloc, sink),
            progress: Progress::New,
            count: 0,
            version,
            names: Some(names),
        })
    }

    /// Begins a trace: the header of a setup whose number of tags the version has room for, the names, and the openings,
    /// which name only lines of the setup. In version 1 there are no names, and in version 2 each named stream is one of
    /// the setup's. It comes first, and once, and asks for the memory in which bytes wait. A refusal leaves the first bytes
    /// of the trace in the sink, none where that memory is refused, and ends the use of the writer.
    pub fn begin(&mut self, setup: &Setup, opening: &Opening) -> Result<(), TraceWriteRefusal>
        requires unused { IsUnused self.old }
        requires version { IsTrue (setup_fits self.old.version setup.now) }
        requires named { NamesFit self.old.version (length setup.now.streams) self.old.names }
        requires lines { IsTrue (opening_fits setup.now.lines opening.now) }
        requires counts { reach self.old.out + begin_cost_in self.old.names opening.now < 2 ^ 63 }

        ensures begun { OnOk result (HasBegunIn self.old.out.gone self.new self.old.version setup.now self.old.names opening.now []) }
        ensures progress { OnOk result (self.new.progress ≡ Progress.Begun) }
        ensures bounded { OnOk result (length self.new.out.waiting < full) }
        ensures front { OnErr result (WritesFrontOf self.old.out.gone self.new.out.gone self.old.version setup.now self.old.names opening.now []) }
        ensures kept { Keeps self.old.out self.new.out (begin_cost_in self.old.names opening.now) result }
    {
        self.out.reserve()?;
        self.out
            .put_begin(self.version, setup, self.names, opening)?;
        self.progress = Progress::Begun;
        Ok(())
    }

    /// Puts the next event, which is well formed and whose Tags the version has room for. It comes after `begin`. A refusal
    /// leaves the first bytes of the trace in the sink, and ends the use of the writer.
    pub fn put(&mut self, event: &Event) -> Result<(), TraceWriteRefusal>
        requires begun { self.old.progress ≡ Progress.Begun }
        requires formed { IsTrue (is_well_formed event.now) }
        requires version { IsTrue (event_fits self.old.version event.now) }
        requires events { self.old.count + 1 < 2 ^ 63 }
        requires counts { reach self.old.out + event_cost < 2 ^ 63 }

        ensures goes_on { OnOk result (GoesOn self.old self.new (event.now ∷ [])) }
        ensures progress { OnOk result (self.new.progress ≡ Progress.Begun) }
        ensures count { OnOk result (self.new.count ≡ self.old.count + 1) }
        ensures same_version { self.new.version ≡ self.old.version }
        ensures bounded { OnOk result (length self.new.out.waiting < full) }
        ensures front { OnErr result (BreaksOff self.old self.new (event.now ∷ [])) }
        ensures kept { Keeps self.old.out self.new.out event_cost result }
    {
        self.out.put_event(self.version, event)?;
        self.count += 1;
        Ok(())
    }

    /// Puts the next event, that in a room, as `put` does an event by value; no payload is copied but into what waits.
    pub fn put_room(&mut self, room: &EventRoom) -> Result<(), TraceWriteRefusal>
        requires begun { self.old.progress ≡ Progress.Begun }
        requires formed { IsTrue (is_well_formed room.now) }
        requires version { IsTrue (event_fits self.old.version room.now) }
        requires events { self.old.count + 1 < 2 ^ 63 }
        requires counts { reach self.old.out + event_cost < 2 ^ 63 }

        ensures goes_on { OnOk result (GoesOn self.old self.new (room.now ∷ [])) }
        ensures progress { OnOk result (self.new.progress ≡ Progress.Begun) }
        ensures count { OnOk result (self.new.count ≡ self.old.count + 1) }
        ensures same_version { self.new.version ≡ self.old.version }
        ensures bounded { OnOk result (length self.new.out.waiting < full) }
        ensures front { OnErr result (BreaksOff self.old self.new (room.now ∷ [])) }
        ensures kept { Keeps self.old.out self.new.out event_cost result }
    {
        self.out.put_room(self.version, room)?;
        self.count += 1;
        Ok(())
    }

    /// Ends the trace: the end record, and all that waits is written. It comes after `begin`, and once. What went is then
    /// a trace, which a reader reads as its header, its openings, its events and its end record. A refusal leaves the
    /// first bytes of the trace in the sink.
    pub fn end(&mut self) -> Result<(), TraceWriteRefusal>
        requires begun { self.old.progress ≡ Progress.Begun }
        requires counts { reach self.old.out + end_cost < 2 ^ 63 }

        ensures trace { OnOk result (Ends self.old self.new) }
        ensures progress { OnOk result (self.new.progress ≡ Progress.Ended) }
        ensures all { OnOk result (self.new.out.waiting ≡ []) }
        ensures front { OnErr result (EndsShort self.old self.new) }
        ensures kept { Keeps self.old.out self.new.out end_cost result }
    {
        self.out.put_end(self.count)?;
        self.progress = Progress::Ended;
        Ok(())
    }

    /// Gives the sink back. What waits is lost.
    pub fn into_sink(self) -> &'a mut K
        ensures same_sink { result.ghost_name ≡ self.entry.out.sink }
        ensures gone { K.gone result.now ≡ self.entry.out.gone }
        ensures faults { K.faults result.now ≡ self.entry.out.faults }
        ensures highest { K.highest_count result.now ≡ self.entry.out.highest }
    {
        let TraceWriter {
            out,
            progress: _,
            count: _,
            version: _,
            names: _,
        } = self;
        out.into_sink()
    }
}
