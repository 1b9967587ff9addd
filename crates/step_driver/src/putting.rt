// The trace of a script, put into a writer as it is driven.
ghost use Rattle.std.specs.Prelude.{◌≡◌, ◌+◌, ◌^◌, ◌<◌, ◌≤◌, [], IfOk, IsErrOf, List, OnErr, OnOk, Option, reverse, ℕ};
ghost use Rattle.cxl_message.specs.declared.events.Event.{Event as AnEvent};
ghost use Rattle.driven_laws.specs.Scripts.{IsDrivable};
ghost use Rattle.machine.specs.Stands.{StandsFor};
ghost use Rattle.outside_io.specs.Counts.{TellsFaults};
ghost use Rattle.step_driver.specs.Outputs.{HasPut, IsNewFor, WritesTarget, WritesTargetFront, trace_with, version_of};
ghost use Rattle.step_driver.specs.Schedules.{target};
ghost use Rattle.step_driver.specs.Summaries.{summary_of};
ghost use Rattle.trace_stream.specs.Buffers.{reach};
ghost use Rattle.trace_stream.specs.Writing.{WritesFront};
ghost use Rattle.trace_stream.specs.declared.progress.Progress.{Progress};

use crate::going::{go_on, left_of};
use crate::journals::Journals;
use crate::schedules::Schedule;
use crate::summary::Summary;
use crate::table::StreamTable;
use event_room::EventRoom;
use machine::Machine;
use outside_io::Sink;
use script_text::Script;
use trace_stream::{TraceWriteRefusal, TraceWriter};

// One turn more than the trace of any script has events: 108 * 16 - 3 for each of 65,536 operations.
const MOST_TURNS: u64 = 113_049_601;

/// Puts the scheduled trace of a script, from the first byte to the last.
pub fn put_trace<K: Sink>(
    schedule: Schedule,
    script: &Script,
    machine: &mut Machine,
    writer: &mut TraceWriter<K>,
) -> Result<Summary, TraceWriteRefusal>
    requires drivable { IsDrivable script.now }
    requires opened { StandsFor machine.old script.now.setup script.now.opening [] }
    requires new { IsNewFor script.now writer.old }
    requires sink_counts { writer.old.out.highest < 2 ^ 62 }

    ensures summary { IfOk result (λ summary. summary ≡ summary_of (target schedule script.now)) }
    ensures written { OnOk result (WritesTarget writer.old.out.gone writer.new.out.gone schedule script.now) }
    ensures cut_short { OnErr result (WritesTargetFront writer.old.out.gone writer.new.out.gone schedule script.now) }
    ensures faults { TellsFaults writer.old.out.faults writer.new.out.faults (IsErrOf result TraceWriteRefusal.WriteFault) }
    ensures same_sink { writer.new.out.sink ≡ writer.old.out.sink }
{
    begin_trace(script, writer)?;
    let summary = put_events(schedule, script, machine, writer)?;
    writer.end()?;
    Ok(summary)
}

/// Begins the trace of a script: its setup, the names of its streams and its opening.
fn begin_trace<K: Sink>(
    script: &Script,
    writer: &mut TraceWriter<K>,
) -> Result<(), TraceWriteRefusal>
    requires drivable { IsDrivable script.now }
    requires new { IsNewFor script.now writer.old }
    requires sink_counts { writer.old.out.highest < 2 ^ 62 }

    ensures begun { OnOk result (HasPut writer.old.out.gone writer.new script.now []) }
    ensures progress { OnOk result (writer.new.progress ≡ Progress.Begun) }
    ensures version { OnOk result (writer.new.version ≡ version_of script.now) }
    ensures none { OnOk result (writer.new.count ≡ 0) }
    ensures cut_short { (events : List AnEvent) → OnErr result (WritesFront writer.old.out.gone writer.new.out.gone (trace_with script.now events)) }
    ensures faults { TellsFaults writer.old.out.faults writer.new.out.faults (IsErrOf result TraceWriteRefusal.WriteFault) }
    ensures counts { OnOk result (reach writer.new.out < 2 ^ 62 + 2 ^ 34) }
    ensures same_sink { writer.new.out.sink ≡ writer.old.out.sink }
{
    writer.begin(script.setup(), script.opening())
}

/// Puts the events of the scheduled trace, from the first on.
fn put_events<K: Sink>(
    schedule: Schedule,
    script: &Script,
    machine: &mut Machine,
    writer: &mut TraceWriter<K>,
) -> Result<Summary, TraceWriteRefusal>
    requires drivable { IsDrivable script.now }
    requires opened { StandsFor machine.old script.now.setup script.now.opening [] }
    requires begun { writer.old.progress ≡ Progress.Begun }
    requires version { writer.old.version ≡ version_of script.now }
    requires none { writer.old.count ≡ 0 }
    requires counts { reach writer.old.out < 2 ^ 62 + 2 ^ 34 }

    ensures summary { IfOk result (λ summary. summary ≡ summary_of (target schedule script.now)) }
    ensures put { (start : Option (List ℕ)) → HasPut start writer.old script.now [] → OnOk result (HasPut start writer.new script.now (reverse (target schedule script.now))) }
    ensures progress { OnOk result (writer.new.progress ≡ Progress.Begun) }
    ensures cut_short { (start : Option (List ℕ)) → HasPut start writer.old script.now [] → OnErr result (WritesTargetFront start writer.new.out.gone schedule script.now) }
    ensures faults { TellsFaults writer.old.out.faults writer.new.out.faults (IsErrOf result TraceWriteRefusal.WriteFault) }
    ensures counts { OnOk result (reach writer.new.out < 2 ^ 62 + 2 ^ 38) }
    ensures same_sink { writer.new.out.sink ≡ writer.old.out.sink }
{
    let mut table = StreamTable::new();
    let mut journals = Journals::new();
    let mut summary = Summary::new();
    let mut made = EventRoom::new();
    let mut picks = schedule.picks(script);
    for _ in 0..MOST_TURNS {
        if !go_on(
            schedule,
            script,
            machine,
            &mut table,
            &mut journals,
            picks,
            &mut made,
        ) {
            return Ok(summary);
        }
        summary.count(&made);
        writer.put_room(&made)?;
        picks = left_of(picks);
    }
    unreachable!("the trace has fewer events")
}
