// The bytes that wait for a sink, and the records that are put behind them.
ghost use Rattle.std.specs.Prelude.{◌≡◌, ◌+◌, ◌*◌, ◌^◌, ◌<◌, ◌≤◌, [], length, IsTrue, OnErr, OnOk};
ghost use Rattle.std.specs.List.{flat_map, AllByRecursion};
ghost use Rattle.cxl_message.specs.Formed.{well_formed as is_well_formed};
ghost use Rattle.std.specs.Option.{option_map_or};
ghost use Rattle.cxl_message.specs.Names.{is_name, names_fit};
ghost use Rattle.cxl_message.specs.Opening.{IsOpening, opening_fits};
ghost use Rattle.cxl_message.specs.declared.limits.TheConstants.{MAX_STREAMS};
ghost use Rattle.cxl_codec.specs.EndRecord.{EndFits};
ghost use Rattle.cxl_codec.specs.Events.{EventFitsIn};
ghost use Rattle.cxl_codec.specs.Header.{HeaderFitsIn};
ghost use Rattle.cxl_codec.specs.NameRecord.{NameFits};
ghost use Rattle.cxl_codec.specs.Openings.{OpeningFits};
ghost use Rattle.cxl_codec.specs.Traces.{end_bytes, event_bytes_in, header_bytes_in, name_bytes, opening_bytes};
ghost use Rattle.cxl_codec.specs.Versions.{event_fits, setup_fits};
ghost use Rattle.trace_stream.specs.Buffers.{Gathers, GathersFront, Keeps, empty_buffer, full, reach};
ghost use Rattle.trace_stream.specs.Runs.{NamesFit};
ghost use Rattle.trace_stream.specs.Writing.{begin_bytes_in, begin_cost_in, end_cost, event_cost};

use crate::refusals::TraceWriteRefusal;
use cxl_codec::{
    Version, encode_end, encode_event_in, encode_header_in, encode_name, encode_opening,
    encode_room_in,
};
use cxl_message::{Bytes64, Event, Line, Names, Opening, Setup};
use event_room::EventRoom;
use outside_io::{Sink, write_all};
use std::alloc::{AllocError, Global};
use std::marker::Model;

/// How many bytes wait where all of them are written.
const FULL: usize = 65000;

/// A sink that was lent, with the bytes that wait for it. A contract sees which sink it is, what has gone to it, its
/// faults, its highest count and what waits.
#[derive(Drop)]
pub struct Buffered<'a, K: Sink> {
    sink: &'a mut K,
    waiting: Vec<u8>,
}

impl<'a, K: Sink> Model for Buffered<'a, K> {
    ghost use Rattle.trace_stream.specs.Buffers.{Buffer};

    ghost Value = { Buffer };

    ghost view = { λ b. record { sink = b.sink.ghost_name; gone = K.gone b.sink.now; faults = K.faults b.sink.now; highest = K.highest_count b.sink.now; waiting = b.waiting.items } };
}

impl<'a, K: Sink> Buffered<'a, K> {
    /// A sink for which nothing waits.
    pub fn new(alloc: Global, sink: &'a mut K) -> Buffered<'a, K>
        ensures { result ≡ empty_buffer sink.entry.ghost_name (K.gone sink.old) (K.faults sink.old) (K.highest_count sink.old) }
    {
        Buffered {
            sink,
            waiting: Vec::new(alloc),
        }
    }

    /// The sink. What waits is lost.
    pub fn into_sink(self) -> &'a mut K
        ensures same_sink { result.ghost_name ≡ self.entry.sink }
        ensures gone { K.gone result.now ≡ self.entry.gone }
        ensures faults { K.faults result.now ≡ self.entry.faults }
        ensures highest { K.highest_count result.now ≡ self.entry.highest }
    {
        let Buffered { sink, waiting: _ } = self;
        sink
    }

    /// Asks for the memory in which bytes wait.
    pub fn reserve(&mut self) -> Result<(), AllocError>
        ensures { self.new ≡ self.old }
    {
        self.waiting.try_reserve(FULL)
    }

    /// Puts the header of a setup, whose number of tags the version has room for, the names, which are the version's and
    /// of the setup's streams, and the openings, which name only lines of the setup.
    pub fn put_begin(
        &mut self,
        version: Version,
        setup: &Setup,
        names: Option<&Names>,
        opening: &Opening,
    ) -> Result<(), TraceWriteRefusal>
        requires version { IsTrue (setup_fits version setup.now) }
        requires named { NamesFit version (length setup.now.streams) (option_map_or (λ n. n.now) names []) }
        requires lines { IsTrue (opening_fits setup.now.lines opening.now) }
        requires empty { self.old.waiting ≡ [] }
        requires counts { reach self.old + begin_cost_in (option_map_or (λ n. n.now) names []) opening.now < 2 ^ 63 }

        ensures put { OnOk result (Gathers self.old self.new (begin_bytes_in version setup.now (option_map_or (λ n. n.now) names.entry []) opening.now)) }
        ensures front { OnErr result (GathersFront self.old self.new (begin_bytes_in version setup.now (option_map_or (λ n. n.now) names.entry []) opening.now)) }
        ensures limits { HeaderFitsIn version setup.now }
        ensures ascending { OnOk result (IsOpening opening.now) }
        ensures each_name { OnOk result (AllByRecursion NameFits (option_map_or (λ n. n.now) names.entry [])) }
        ensures fits { OnOk result (AllByRecursion OpeningFits opening.now) }
        ensures bounded { OnOk result (length self.new.waiting < full) }
        ensures kept { Keeps self.old self.new (begin_cost_in (option_map_or (λ n. n.now) names.entry []) opening.now) result }
    {
        self.put_header(version, setup)?;
        self.put_given(names)?;
        self.put_openings(opening.pairs())
    }

    /// Puts the header of a setup, whose number of tags the version has room for.
    fn put_header(&mut self, version: Version, setup: &Setup) -> Result<(), TraceWriteRefusal>
        requires version { IsTrue (setup_fits version setup.now) }

        ensures put { OnOk result (Gathers self.old self.new (header_bytes_in version setup.now)) }
        ensures front { OnErr result (GathersFront self.old self.new (header_bytes_in version setup.now)) }
        ensures limits { HeaderFitsIn version setup.now }
        ensures short { OnOk result (length self.new.waiting ≤ length self.old.waiting + 100) }
        ensures kept { Keeps self.old self.new 200 result }
    {
        encode_header_in(version, setup, &mut self.waiting)?;
        Ok(())
    }

    /// Puts the name records of the names, if there are any, of streams below 64.
    fn put_given(&mut self, names: Option<&Names>) -> Result<(), TraceWriteRefusal>
        requires streams { IsTrue (names_fit 64 (option_map_or (λ n. n.now) names [])) }
        requires bounded { length self.old.waiting < full }
        requires counts { reach self.old + 80 * length (option_map_or (λ n. n.now) names []) < 2 ^ 63 }

        ensures put { OnOk result (Gathers self.old self.new (flat_map name_bytes (option_map_or (λ n. n.now) names.entry []))) }
        ensures front { OnErr result (GathersFront self.old self.new (flat_map name_bytes (option_map_or (λ n. n.now) names.entry []))) }
        ensures fits { OnOk result (AllByRecursion NameFits (option_map_or (λ n. n.now) names.entry [])) }
        ensures bounded { OnOk result (length self.new.waiting < full) }
        ensures kept { Keeps self.old self.new (80 * length (option_map_or (λ n. n.now) names.entry [])) result }
    {
        match names {
            Some(names) => self.put_names(names),
            None => Ok(()),
        }
    }

    /// Puts the name records of these names, of streams below 64.
    fn put_names(&mut self, names: &Names) -> Result<(), TraceWriteRefusal>
        requires streams { IsTrue (names_fit 64 names.now) }
        requires bounded { length self.old.waiting < full }
        requires counts { reach self.old + 80 * length names.now < 2 ^ 63 }

        ensures put { OnOk result (Gathers self.old self.new (flat_map name_bytes names.now)) }
        ensures front { OnErr result (GathersFront self.old self.new (flat_map name_bytes names.now)) }
        ensures fits { OnOk result (AllByRecursion NameFits names.now) }
        ensures bounded { OnOk result (length self.new.waiting < full) }
        ensures kept { Keeps self.old self.new (80 * length names.now) result }
    {
        for place in 0..names.len() {
            let (stream, name) = names.at(place);
            self.put_name(stream, name)?;
        }
        Ok(())
    }

    /// Puts the name record of a stream, which is below 64.
    fn put_name(&mut self, stream: u8, name: &[u8]) -> Result<(), TraceWriteRefusal>
        requires stream { stream < MAX_STREAMS }
        requires spelled { IsTrue (is_name name.now) }
        requires counts { reach self.old + 80 < 2 ^ 63 }

        ensures put { OnOk result (Gathers self.old self.new (name_bytes (stream, name.now))) }
        ensures front { OnErr result (GathersFront self.old self.new (name_bytes (stream, name.now))) }
        ensures fits { OnOk result (NameFits (stream, name.now)) }
        ensures bounded { OnOk result (length self.new.waiting < full) }
        ensures kept { Keeps self.old self.new 80 result }
    {
        encode_name(stream, name, &mut self.waiting)?;
        self.drain()
    }

    /// Puts the opening records of these lines, each below 65,536.
    fn put_openings(&mut self, pairs: &[(Line, Bytes64)]) -> Result<(), TraceWriteRefusal>
        requires lines { IsTrue (opening_fits 65536 pairs.now) }
        requires bounded { length self.old.waiting < full }
        requires counts { reach self.old + 140 * length pairs.now < 2 ^ 63 }

        ensures put { OnOk result (Gathers self.old self.new (flat_map opening_bytes pairs.now)) }
        ensures front { OnErr result (GathersFront self.old self.new (flat_map opening_bytes pairs.now)) }
        ensures fits { OnOk result (AllByRecursion OpeningFits pairs.now) }
        ensures bounded { OnOk result (length self.new.waiting < full) }
        ensures kept { Keeps self.old self.new (140 * length pairs.now) result }
    {
        for (line, bytes) in pairs {
            self.put_opening(*line, bytes)?;
        }
        Ok(())
    }

    /// Puts the opening record of a line, which is below 65,536.
    fn put_opening(&mut self, line: Line, bytes: &Bytes64) -> Result<(), TraceWriteRefusal>
        requires line { line.0 < 65536 }
        requires counts { reach self.old + 140 < 2 ^ 63 }

        ensures put { OnOk result (Gathers self.old self.new (opening_bytes (line, bytes.now))) }
        ensures front { OnErr result (GathersFront self.old self.new (opening_bytes (line, bytes.now))) }
        ensures fits { OnOk result (OpeningFits (line, bytes.now)) }
        ensures bounded { OnOk result (length self.new.waiting < full) }
        ensures kept { Keeps self.old self.new 140 result }
    {
        encode_opening(line, bytes, &mut self.waiting)?;
        self.drain()
    }

    /// Puts the record of an event, which is well formed and whose Tags the version has room for.
    pub fn put_event(&mut self, version: Version, event: &Event) -> Result<(), TraceWriteRefusal>
        requires formed { IsTrue (is_well_formed event.now) }
        requires version { IsTrue (event_fits version event.now) }
        requires counts { reach self.old + event_cost < 2 ^ 63 }

        ensures put { OnOk result (Gathers self.old self.new (event_bytes_in version event.now)) }
        ensures front { OnErr result (GathersFront self.old self.new (event_bytes_in version event.now)) }
        ensures fits { OnOk result (EventFitsIn version event.now) }
        ensures bounded { OnOk result (length self.new.waiting < full) }
        ensures kept { Keeps self.old self.new event_cost result }
    {
        encode_event_in(version, event, &mut self.waiting)?;
        self.drain()
    }

    /// Puts the record of the event in a room, which is well formed and whose Tags the version has room for.
    pub fn put_room(&mut self, version: Version, room: &EventRoom) -> Result<(), TraceWriteRefusal>
        requires formed { IsTrue (is_well_formed room.now) }
        requires version { IsTrue (event_fits version room.now) }
        requires counts { reach self.old + event_cost < 2 ^ 63 }

        ensures put { OnOk result (Gathers self.old self.new (event_bytes_in version room.now)) }
        ensures front { OnErr result (GathersFront self.old self.new (event_bytes_in version room.now)) }
        ensures fits { OnOk result (EventFitsIn version room.now) }
        ensures bounded { OnOk result (length self.new.waiting < full) }
        ensures kept { Keeps self.old self.new event_cost result }
    {
        encode_room_in(version, room, &mut self.waiting)?;
        self.drain()
    }

    /// Puts the end record, and writes all that waits.
    pub fn put_end(&mut self, count: u64) -> Result<(), TraceWriteRefusal>
        requires counts { reach self.old + end_cost < 2 ^ 63 }

        ensures put { OnOk result (Gathers self.old self.new (end_bytes count)) }
        ensures front { OnErr result (GathersFront self.old self.new (end_bytes count)) }
        ensures fits { EndFits count }
        ensures all { OnOk result (self.new.waiting ≡ []) }
        ensures kept { Keeps self.old self.new end_cost result }
    {
        encode_end(count, &mut self.waiting)?;
        self.flush()
    }

    /// Writes all that waits, if it is so much that no more is to wait.
    fn drain(&mut self) -> Result<(), TraceWriteRefusal>
        requires counts { reach self.old + 1 < 2 ^ 63 }

        ensures put { OnOk result (Gathers self.old self.new []) }
        ensures front { OnErr result (GathersFront self.old self.new []) }
        ensures bounded { OnOk result (length self.new.waiting < full) }
        ensures kept { Keeps self.old self.new 1 result }
    {
        if self.waiting.len() < FULL {
            return Ok(());
        }
        self.flush()
    }

    /// Writes all that waits.
    fn flush(&mut self) -> Result<(), TraceWriteRefusal>
        requires counts { reach self.old + 1 < 2 ^ 63 }

        ensures put { OnOk result (Gathers self.old self.new []) }
        ensures front { OnErr result (GathersFront self.old self.new []) }
        ensures all { OnOk result (self.new.waiting ≡ []) }
        ensures kept { Keeps self.old self.new 1 result }
    {
        match write_all(self.sink, &self.waiting) {
            Ok(()) => {
                self.waiting.clear();
                Ok(())
            }
            Err(_) => Err(TraceWriteRefusal::WriteFault),
        }
    }
}
