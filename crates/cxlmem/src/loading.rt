// The command `load N`: a large script is made and driven, and its summary is written.
ghost use Rattle.std.specs.Prelude.{◌≡◌, ◌⊎◌, ◌^◌, ◌<◌, ◌≤◌, IfOk};
ghost use Rattle.std.specs.Io.KnownBytes.{Appends};
ghost use Rattle.coherence_model.specs.Driven.{driven_trace};
ghost use Rattle.script_text.specs.Generator.{generated};
ghost use Rattle.script_text.specs.declared.limits.TheConstants.{MAX_OPERATIONS};
ghost use Rattle.step_driver.specs.Summaries.{summary_of};
ghost use Rattle.cxlmem.specs.Loads.{load_text};
ghost use Rattle.cxlmem.specs.Outcomes.{WritesFront};
ghost use Rattle.cxlmem.specs.Statuses.{TellsWriteFault};

use crate::ends::Status;
use crate::summaries::write_summary;
use outside_io::{CountSink, Sink};
use script_text::generate;
use std::alloc::{AllocError, Global};
use step_driver::{DriveRefusal, Summary, writer_for};

// The seed of every script that the command makes.
const SEED: u64 = 1;

/// Drives a script of so many operations, and writes its summary.
pub fn load<K: Sink>(alloc: Global, count: u32, sink: &mut K) -> Status
    requires few { count ≤ MAX_OPERATIONS }
    requires sink_counts { K.highest_count sink.old < 2 ^ 62 }

    ensures written { result ≡ Status.Ok → Appends (K.gone sink.old) (K.gone sink.new) (load_text count) }
    ensures cut_short { result ≡ Status.WriteFault → WritesFront (K.gone sink.old) (K.gone sink.new) (load_text count) }
    ensures nothing { result ≡ Status.Memory → sink.new ≡ sink.old }
    ensures write_fault { TellsWriteFault (K.faults sink.old) (K.faults sink.new) result }
    ensures nothing_else { (result ≡ Status.Ok) ⊎ (result ≡ Status.WriteFault) ⊎ (result ≡ Status.Memory) }
{
    match drive_generated(alloc, count) {
        Ok(summary) => write_summary(sink, &summary),
        Err(AllocError) => Status::Memory,
    }
}

/// Drives a script of so many operations into a sink that only counts.
fn drive_generated(alloc: Global, count: u32) -> Result<Summary, AllocError>
    requires few { count ≤ MAX_OPERATIONS }
    ensures { IfOk result (λ summary. summary ≡ summary_of (driven_trace (generated count 1))) }
{
    let script = generate(alloc, count, SEED)?;
    let mut sink = CountSink::new();
    let mut writer = writer_for(alloc, &script, &mut sink);
    let result = step_driver::drive(alloc, &script, &mut writer);
    writer.into_sink();
    match result {
        Ok(summary) => Ok(summary),
        Err(DriveRefusal::Memory) => Err(AllocError),
        Err(DriveRefusal::WriteFault) => unreachable!("a sink that only counts never fails"),
    }
}
