// The command `drive`: a script in, its driven trace out.
ghost use Rattle.std.specs.Prelude.{◌≡◌, ◌⊎◌, ◌^◌, ◌<◌, ◌≤◌, [], Some, IfSome, length};
ghost use Rattle.std.specs.Io.KnownBytes.{Appends};
ghost use Rattle.outside_io.specs.Counts.{TellsFaults};
ghost use Rattle.cxlmem.specs.Statuses.{IsAnswer, TellsWriteFault};
ghost use Rattle.cxlmem.specs.Texts.{read_fault_text, too_long_text};
ghost use Rattle.cxlmem.specs.Outcomes.{WritesText};
ghost use Rattle.cxlmem.specs.Drives.{Drives, DrivesFront, IsBadScript, IsTooLong, RefusesScript, script_limit};

use crate::ends::{Status, bad_script, read_fault, too_long};
use crate::traces::write_trace;
use outside_io::{ReadAllRefusal, Sink, Source, read_all};
use script_text::{ScriptRefusal, parse_script};
use std::alloc::Global;

// The most bytes that a script has.
const SCRIPT_LIMIT: u64 = 67108864;

/// Reads a script and writes its driven trace.
pub fn drive<S: Source, K: Sink>(alloc: Global, source: &mut S, sink: &mut K) -> Status
    requires source_counts { S.highest_count source.old < 2 ^ 62 }
    requires sink_counts { K.highest_count sink.old < 2 ^ 62 }

    ensures read_whole { result ≡ Status.Ok → IfSome (S.left source.old) (λ input. S.left source.new ≡ Some []) }
    ensures driven { result ≡ Status.Ok → IfSome (S.left source.old) (λ input. Drives input (K.gone sink.old) (K.gone sink.new)) }

    ensures no_usage { result ≡ Status.Usage → ⊥ }
    ensures no_verdict { (result ≡ Status.BadTrace) ⊎ (result ≡ Status.NotARun) → ⊥ }
    ensures read_fault { TellsFaults (S.faults source.old) (S.faults source.new) (result ≡ Status.ReadFault) }
    ensures write_fault { TellsWriteFault (K.faults sink.old) (K.faults sink.new) result }
    ensures bad_script { result ≡ Status.BadScript → RefusesScript (S.left source.old) (K.gone sink.old) (K.gone sink.new) (K.faults sink.old) (K.faults sink.new) }
    ensures too_long { result ≡ Status.TooLong → IfSome (S.left source.old) IsTooLong }
    ensures built { result ≡ Status.NotBuilt → ⊥ }
    ensures nothing_else { IsAnswer result }

    ensures read_fault_text { result ≡ Status.ReadFault → WritesText (K.gone sink.old) (K.gone sink.new) (K.faults sink.old) (K.faults sink.new) read_fault_text }
    ensures too_long_text { result ≡ Status.TooLong → WritesText (K.gone sink.old) (K.gone sink.new) (K.faults sink.old) (K.faults sink.new) too_long_text }
    ensures cut_short { result ≡ Status.WriteFault → IfSome (S.left source.old) (λ input. DrivesFront input (K.gone sink.old) (K.gone sink.new)) }
    ensures unfinished { result ≡ Status.Memory → Appends (K.gone sink.old) (K.gone sink.new) [] ⊎ IfSome (S.left source.old) (λ input. DrivesFront input (K.gone sink.old) (K.gone sink.new)) }
{
    match read_all(alloc, source, SCRIPT_LIMIT) {
        Ok(input) => drive_input(alloc, &input, sink),
        Err(ReadAllRefusal::ReadFault) => read_fault(sink),
        Err(ReadAllRefusal::TooLong) => too_long(sink),
        Err(ReadAllRefusal::Memory) => Status::Memory,
    }
}

/// Writes the driven trace of the script that the input is.
fn drive_input<K: Sink>(alloc: Global, input: &[u8], sink: &mut K) -> Status
    requires within { length input.now ≤ script_limit }
    requires sink_counts { K.highest_count sink.old < 2 ^ 62 }

    ensures driven { result ≡ Status.Ok → Drives input.now (K.gone sink.old) (K.gone sink.new) }
    ensures no_usage { result ≡ Status.Usage → ⊥ }
    ensures no_verdict { (result ≡ Status.BadTrace) ⊎ (result ≡ Status.NotARun) → ⊥ }
    ensures read_well { result ≡ Status.ReadFault → ⊥ }
    ensures not_long { result ≡ Status.TooLong → ⊥ }
    ensures write_fault { TellsWriteFault (K.faults sink.old) (K.faults sink.new) result }
    ensures bad_script { result ≡ Status.BadScript → RefusesScript (Some input.now) (K.gone sink.old) (K.gone sink.new) (K.faults sink.old) (K.faults sink.new) }
    ensures built { result ≡ Status.NotBuilt → ⊥ }
    ensures nothing_else { IsAnswer result }

    ensures cut_short { result ≡ Status.WriteFault → DrivesFront input.now (K.gone sink.old) (K.gone sink.new) }
    ensures unfinished { result ≡ Status.Memory → Appends (K.gone sink.old) (K.gone sink.new) [] ⊎ DrivesFront input.now (K.gone sink.old) (K.gone sink.new) }
{
    match parse_script(alloc, input) {
        Ok(script) => write_trace(alloc, &script, sink),
        Err(ScriptRefusal::Bad { line, reason }) => bad_script(sink, line, reason),
        Err(ScriptRefusal::Memory) => Status::Memory,
    }
}
