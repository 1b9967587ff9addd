// The driven trace of a script, written as it is driven.
ghost use Rattle.std.specs.Prelude.{◌≡◌, ◌≢◌, ◌^◌, ◌<◌, ◌⊎◌};
ghost use Rattle.step_driver.specs.Outputs.{WritesDriven, driven_bytes};
ghost use Rattle.cxlmem.specs.Outcomes.{WritesFront};
ghost use Rattle.cxlmem.specs.Statuses.{TellsWriteFault};

use crate::ends::Status;
use outside_io::Sink;
use script_text::Script;
use std::alloc::Global;
use step_driver::{DriveRefusal, writer_for};

/// Writes the driven trace of a script, in pieces, as it is driven.
#[tactic(auto, using(crate::proofs::Fronts::front_of))]
pub fn write_trace<K: Sink>(alloc: Global, script: &Script, sink: &mut K) -> Status
    requires sink_counts { K.highest_count sink.old < 2 ^ 62 }

    ensures written { result ≡ Status.Ok → WritesDriven (K.gone sink.old) (K.gone sink.new) script.now }
    ensures cut_short { result ≢ Status.Ok → WritesFront (K.gone sink.old) (K.gone sink.new) (driven_bytes script.now) }
    ensures write_fault { TellsWriteFault (K.faults sink.old) (K.faults sink.new) result }
    ensures nothing_else { (result ≡ Status.Ok) ⊎ (result ≡ Status.WriteFault) ⊎ (result ≡ Status.Memory) }
{
    let mut writer = writer_for(alloc, script, sink);
    let result = step_driver::drive(alloc, script, &mut writer);
    writer.into_sink();
    match result {
        Ok(_) => Status::Ok,
        Err(DriveRefusal::WriteFault) => Status::WriteFault,
        Err(DriveRefusal::Memory) => Status::Memory,
    }
}
