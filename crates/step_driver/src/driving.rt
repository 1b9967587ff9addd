// The driving of a script.
ghost use Rattle.std.specs.Prelude.{◌≡◌, ◌^◌, ◌<◌, IfOk, IsErrOf, OnErr, OnOk};
ghost use Rattle.coherence_model.specs.Driven.{driven_trace, serial_trace};
ghost use Rattle.outside_io.specs.Counts.{TellsFaults};
ghost use Rattle.step_driver.specs.Outputs.{IsNewFor, WritesDriven, WritesDrivenFront, WritesSerial, WritesSerialFront, WritesTarget, WritesTargetFront};
ghost use Rattle.step_driver.specs.Schedules.{target};
ghost use Rattle.step_driver.specs.Summaries.{summary_of};

use crate::putting::put_trace;
use crate::refusals::DriveRefusal;
use crate::schedules::Schedule;
use crate::summary::Summary;
use machine::{Machine, OpenMachineRefusal};
use outside_io::Sink;
use script_text::Script;
use std::alloc::Global;
use trace_stream::TraceWriter;

/// Writes the driven trace of a script into a new writer of the script's version and names (`writer_for` makes it), from the
/// header to the end record, and answers its summary (own rule: the driven trace takes the choice of each pick, and the first choice once the picks are used up, until all is done). A refusal leaves
/// the first bytes of that trace in the sink: `WriteFault` comes exactly where the sink counted a fault. The sink has counted fewer
/// than 2 to the 62nd.
pub fn drive<K: Sink>(
    alloc: Global,
    script: &Script,
    out: &mut TraceWriter<K>,
) -> Result<Summary, DriveRefusal>
    requires new { IsNewFor script.now out.old }
    requires sink_counts { out.old.out.highest < 2 ^ 62 }

    ensures summary { IfOk result (λ summary. summary ≡ summary_of (driven_trace script.now)) }
    ensures written { OnOk result (WritesDriven out.old.out.gone out.new.out.gone script.now) }
    ensures cut_short { OnErr result (WritesDrivenFront out.old.out.gone out.new.out.gone script.now) }
    ensures faults { TellsFaults out.old.out.faults out.new.out.faults (IsErrOf result DriveRefusal.WriteFault) }
    ensures same_sink { out.new.out.sink ≡ out.old.out.sink }
{
    drive_by(Schedule::Picked, alloc, script, out)
}

/// Writes the serial trace of a script into a new writer, as `drive` writes the driven one (own rule: the serial trace is the driven
/// one without picks, cut before the first event whose agent has as many events before it as the script's room says).
pub fn drive_within<K: Sink>(
    alloc: Global,
    script: &Script,
    out: &mut TraceWriter<K>,
) -> Result<Summary, DriveRefusal>
    requires new { IsNewFor script.now out.old }
    requires sink_counts { out.old.out.highest < 2 ^ 62 }

    ensures summary { IfOk result (λ summary. summary ≡ summary_of (serial_trace script.now)) }
    ensures written { OnOk result (WritesSerial out.old.out.gone out.new.out.gone script.now) }
    ensures cut_short { OnErr result (WritesSerialFront out.old.out.gone out.new.out.gone script.now) }
    ensures faults { TellsFaults out.old.out.faults out.new.out.faults (IsErrOf result DriveRefusal.WriteFault) }
    ensures same_sink { out.new.out.sink ≡ out.old.out.sink }
{
    drive_by(Schedule::Serial, alloc, script, out)
}

/// Writes the scheduled trace of a script into a new writer.
fn drive_by<K: Sink>(
    schedule: Schedule,
    alloc: Global,
    script: &Script,
    out: &mut TraceWriter<K>,
) -> Result<Summary, DriveRefusal>
    requires new { IsNewFor script.now out.old }
    requires sink_counts { out.old.out.highest < 2 ^ 62 }

    ensures summary { IfOk result (λ summary. summary ≡ summary_of (target schedule script.now)) }
    ensures written { OnOk result (WritesTarget out.old.out.gone out.new.out.gone schedule script.now) }
    ensures cut_short { OnErr result (WritesTargetFront out.old.out.gone out.new.out.gone schedule script.now) }
    ensures faults { TellsFaults out.old.out.faults out.new.out.faults (IsErrOf result DriveRefusal.WriteFault) }
    ensures same_sink { out.new.out.sink ≡ out.old.out.sink }
{
    let mut machine = match Machine::open(alloc, script.setup(), script.opening()) {
        Ok(machine) => machine,
        Err(OpenMachineRefusal::BadOpening) => { unreachable!("a script opens lines of its setup") }
        Err(OpenMachineRefusal::Memory) => return Err(DriveRefusal::Memory),
    };
    match put_trace(schedule, script, &mut machine, out) {
        Ok(summary) => Ok(summary),
        Err(refusal) => Err(refusal.into()),
    }
}
