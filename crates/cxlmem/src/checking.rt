// The command `check`: a trace in, the verdict on it out.
ghost use Rattle.std.specs.Prelude.{◌≡◌, ◌⊎◌, ◌^◌, ◌<◌, ◌≤◌, [], Some, IfOk, IfSome, IsErrOf, IsOk, Option, List, ℕ};
ghost use Rattle.outside_io.specs.Counts.{TellsFaults};
ghost use Rattle.trace_check.specs.declared.verdicts.Verdict.{Verdict as TheVerdict};
ghost use Rattle.cxlmem.specs.Checks.{Checks, ChecksFront, IsChecked, IsLongTrace, RefusesRun, RefusesTrace};
ghost use Rattle.cxlmem.specs.Outcomes.{WritesText};
ghost use Rattle.cxlmem.specs.Statuses.{IsAnswer, TellsWriteFault};
ghost use Rattle.cxlmem.specs.Texts.{read_fault_text, too_long_text};

use crate::ends::{Status, bad_trace, not_a_run, read_fault, too_long};
use crate::verdicts::write_run;
use outside_io::{ReadAllRefusal, Sink, Source};
use std::alloc::Global;
use trace_check::{Checker, Verdict};

// The most bytes of a trace that are read.
const TRACE_LIMIT: u64 = 1_099_511_627_776;

// How many bytes a read asks for.
const PIECE: usize = 65_536;

/// Reads a trace and writes the verdict on it.
pub fn check<S: Source, K: Sink>(alloc: Global, source: &mut S, sink: &mut K) -> Status
    requires source_counts { S.highest_count source.old < 2 ^ 62 }
    requires sink_counts { K.highest_count sink.old < 2 ^ 62 }

    ensures checked { result ≡ Status.Ok → Checks (S.left source.old) (K.gone sink.old) (K.gone sink.new) }
    ensures read_whole { (result ≡ Status.Ok) ⊎ (result ≡ Status.BadTrace) ⊎ (result ≡ Status.NotARun) → IfSome (S.left source.old) (λ input. S.left source.new ≡ Some []) }

    ensures no_usage { result ≡ Status.Usage → ⊥ }
    ensures no_script { result ≡ Status.BadScript → ⊥ }
    ensures built { result ≡ Status.NotBuilt → ⊥ }
    ensures nothing_else { IsAnswer result }
    ensures read_fault { TellsFaults (S.faults source.old) (S.faults source.new) (result ≡ Status.ReadFault) }
    ensures write_fault { TellsWriteFault (K.faults sink.old) (K.faults sink.new) result }
    ensures bad_trace { result ≡ Status.BadTrace → RefusesTrace (S.left source.old) (K.gone sink.old) (K.gone sink.new) (K.faults sink.old) (K.faults sink.new) }
    ensures not_a_run { result ≡ Status.NotARun → RefusesRun (S.left source.old) (K.gone sink.old) (K.gone sink.new) (K.faults sink.old) (K.faults sink.new) }
    ensures too_long { result ≡ Status.TooLong → IfSome (S.left source.old) IsLongTrace }

    ensures read_fault_text { result ≡ Status.ReadFault → WritesText (K.gone sink.old) (K.gone sink.new) (K.faults sink.old) (K.faults sink.new) read_fault_text }
    ensures too_long_text { result ≡ Status.TooLong → WritesText (K.gone sink.old) (K.gone sink.new) (K.faults sink.old) (K.faults sink.new) too_long_text }
    ensures cut_short { result ≡ Status.WriteFault → ChecksFront (S.left source.old) (K.gone sink.old) (K.gone sink.new) }
    ensures nothing { result ≡ Status.Memory → sink.new ≡ sink.old }
{
    match read_verdict(alloc, source) {
        Ok(verdict) => tell(sink, verdict),
        Err(ReadAllRefusal::ReadFault) => read_fault(sink),
        Err(ReadAllRefusal::TooLong) => too_long(sink),
        Err(ReadAllRefusal::Memory) => Status::Memory,
    }
}

/// Writes what a verdict says, and answers its status.
fn tell<K: Sink>(sink: &mut K, verdict: Verdict) -> Status
    requires sink_counts { K.highest_count sink.old < 2 ^ 62 }

    ensures checked { (input : Option (List ℕ)) → IfSome input (λ bytes. IsChecked bytes verdict) → result ≡ Status.Ok → Checks input (K.gone sink.old) (K.gone sink.new) }
    ensures cut_short { (input : Option (List ℕ)) → IfSome input (λ bytes. IsChecked bytes verdict) → result ≡ Status.WriteFault → ChecksFront input (K.gone sink.old) (K.gone sink.new) }
    ensures bad_trace { (input : Option (List ℕ)) → IfSome input (λ bytes. IsChecked bytes verdict) → result ≡ Status.BadTrace → RefusesTrace input (K.gone sink.old) (K.gone sink.new) (K.faults sink.old) (K.faults sink.new) }
    ensures not_a_run { (input : Option (List ℕ)) → IfSome input (λ bytes. IsChecked bytes verdict) → result ≡ Status.NotARun → RefusesRun input (K.gone sink.old) (K.gone sink.new) (K.faults sink.old) (K.faults sink.new) }
    ensures write_fault { TellsWriteFault (K.faults sink.old) (K.faults sink.new) result }
    ensures nothing_else { (result ≡ Status.Ok) ⊎ (result ≡ Status.WriteFault) ⊎ (result ≡ Status.BadTrace) ⊎ (result ≡ Status.NotARun) }
{
    match verdict {
        Verdict::Run { events, commits } => write_run(sink, events, commits),
        Verdict::Broken { event, rule } => not_a_run(sink, event, rule),
        Verdict::BadBytes { at, reason } => bad_trace(sink, at, reason),
    }
}

/// The verdict on all that is left of a source, which is read in pieces.
fn read_verdict<S: Source>(alloc: Global, source: &mut S) -> Result<Verdict, ReadAllRefusal>
    requires source_counts { S.highest_count source.old < 2 ^ 62 }

    ensures checked { IfOk result (λ verdict. IfSome (S.left source.old) (λ input. IsChecked input verdict)) }
    ensures read_whole { IsOk result → IfSome (S.left source.old) (λ input. S.left source.new ≡ Some []) }
    ensures faults { TellsFaults (S.faults source.old) (S.faults source.new) (IsErrOf result ReadAllRefusal.ReadFault) }
    ensures too_long { IsErrOf result ReadAllRefusal.TooLong → IfSome (S.left source.old) IsLongTrace }
{
    let Ok(mut checker) = Checker::new(alloc) else {
        return Err(ReadAllRefusal::Memory);
    };
    let mut piece = [0u8; PIECE];
    let mut room = TRACE_LIMIT;
    loop {
        let Ok(count) = source.read(&mut piece) else {
            return Err(ReadAllRefusal::ReadFault);
        };
        if count == 0 {
            return checker.finish().map_err(|_| ReadAllRefusal::Memory);
        }
        if count as u64 > room {
            return Err(ReadAllRefusal::TooLong);
        }
        let Ok(()) = checker.feed(&piece[..count]) else {
            return Err(ReadAllRefusal::Memory);
        };
        room -= count as u64;
    }
}
