// The top call: the program's commands.
ghost use Rattle.std.specs.Prelude.{◌≡◌, ◌^◌, ◌<◌, ◌⊎◌, [], Some, IfSome};
ghost use Rattle.std.specs.Io.KnownBytes.{Appends};
ghost use Rattle.outside_io.specs.Counts.{TellsFaults};
ghost use Rattle.cxlmem.specs.Statuses.{IsAnswer, TellsWriteFault};
ghost use Rattle.cxlmem.specs.Texts.{not_built_text, read_fault_text, too_long_text, usage_text};
ghost use Rattle.cxlmem.specs.CommandLine.{IsBuilt, IsCheck, IsDrive, IsForm, IsReader, IsUnbuilt};
ghost use Rattle.cxlmem.specs.Outcomes.{WritesText};
ghost use Rattle.cxlmem.specs.Checks.{Checks, ChecksFront, IsOverLong, RefusesRun, RefusesTrace};
ghost use Rattle.cxlmem.specs.Drives.{Drives, DrivesFront, RefusesScript};
ghost use Rattle.cxlmem.specs.Loads.{Loads, LoadsFront};

use crate::checking::check;
use crate::driving::drive;
use crate::ends::{Status, not_built, usage};
use crate::forms::{is_check, is_drive, is_unbuilt, load_count};
use crate::loading::load;
use outside_io::{Sink, Source};
use std::alloc::Global;

/// Carries out the command that the words name: the words after the program's name. It reads from the source and
/// writes to the sink, texts of refusals included (own rule).
///
/// `drive`, `check` and `load N` are built. All else that is a form of the command line answers `NotBuilt`.
///
/// The causes of `Usage`, `BadScript`, `TooLong` and `NotBuilt` and those of `Ok` exclude one another: an input that fails at
/// a line is spelled by no script (`failures_are_alone` of `script_text`), and any other by one script at most
/// (`texts_spell_one_script`). So each of these comes exactly where its cause holds, but for a read fault, a write fault and
/// want of memory.
///
/// A read fault comes exactly where the source counted one. A write fault comes where the sink counted one, and at `Ok` and
/// `Memory` it counted none; a refusal whose text meets a fault keeps its status.
pub fn command<S: Source, K: Sink>(
    alloc: Global,
    words: &[String],
    source: &mut S,
    sink: &mut K,
) -> Status
    requires source_counts { S.highest_count source.old < 2 ^ 62 }
    requires sink_counts { K.highest_count sink.old < 2 ^ 62 }

    // What was done: a script was read to its end, and its trace is all that was written; or a trace was, and what it is; or the lines of a load are.
    ensures words { result ≡ Status.Ok → IsBuilt words.now }
    ensures read_whole { IsDrive words.now → result ≡ Status.Ok → IfSome (S.left source.old) (λ input. S.left source.new ≡ Some []) }
    ensures driven { IsDrive words.now → result ≡ Status.Ok → IfSome (S.left source.old) (λ input. Drives input (K.gone sink.old) (K.gone sink.new)) }
    ensures trace_read_whole { IsCheck words.now → (result ≡ Status.Ok) ⊎ (result ≡ Status.BadTrace) ⊎ (result ≡ Status.NotARun) → IfSome (S.left source.old) (λ input. S.left source.new ≡ Some []) }
    ensures checked { IsCheck words.now → result ≡ Status.Ok → Checks (S.left source.old) (K.gone sink.old) (K.gone sink.new) }
    ensures loaded { ¬ IsReader words.now → result ≡ Status.Ok → Loads words.now (K.gone sink.old) (K.gone sink.new) }

    // Each other status has its cause, and no fault is passed over.
    ensures read_fault { TellsFaults (S.faults source.old) (S.faults source.new) (result ≡ Status.ReadFault) }
    ensures write_fault { TellsWriteFault (K.faults sink.old) (K.faults sink.new) result }
    ensures usage { result ≡ Status.Usage → ¬ IsForm words.now }
    ensures other_words { ¬ IsForm words.now → result ≡ Status.Usage }
    ensures unbuilt_words { IsUnbuilt words.now → result ≡ Status.NotBuilt }
    ensures bad_script { result ≡ Status.BadScript → IsDrive words.now × RefusesScript (S.left source.old) (K.gone sink.old) (K.gone sink.new) (K.faults sink.old) (K.faults sink.new) }
    ensures bad_trace { result ≡ Status.BadTrace → IsCheck words.now × RefusesTrace (S.left source.old) (K.gone sink.old) (K.gone sink.new) (K.faults sink.old) (K.faults sink.new) }
    ensures not_a_run { result ≡ Status.NotARun → IsCheck words.now × RefusesRun (S.left source.old) (K.gone sink.old) (K.gone sink.new) (K.faults sink.old) (K.faults sink.new) }
    ensures too_long { result ≡ Status.TooLong → IsOverLong words.now (S.left source.old) }
    ensures not_built { result ≡ Status.NotBuilt → IsUnbuilt words.now }
    ensures nothing_else { IsAnswer result }

    // What the source has left and the sink holds after a refusal.
    ensures unread { ¬ IsReader words.now → source.new ≡ source.old }
    ensures read_fault_text { result ≡ Status.ReadFault → WritesText (K.gone sink.old) (K.gone sink.new) (K.faults sink.old) (K.faults sink.new) read_fault_text }
    ensures usage_text { result ≡ Status.Usage → WritesText (K.gone sink.old) (K.gone sink.new) (K.faults sink.old) (K.faults sink.new) usage_text }
    ensures too_long_text { result ≡ Status.TooLong → WritesText (K.gone sink.old) (K.gone sink.new) (K.faults sink.old) (K.faults sink.new) too_long_text }
    ensures not_built_text { result ≡ Status.NotBuilt → WritesText (K.gone sink.old) (K.gone sink.new) (K.faults sink.old) (K.faults sink.new) not_built_text }
    ensures cut_short { IsDrive words.now → result ≡ Status.WriteFault → IfSome (S.left source.old) (λ input. DrivesFront input (K.gone sink.old) (K.gone sink.new)) }
    ensures verdict_cut_short { IsCheck words.now → result ≡ Status.WriteFault → ChecksFront (S.left source.old) (K.gone sink.old) (K.gone sink.new) }
    ensures load_cut_short { ¬ IsReader words.now → result ≡ Status.WriteFault → LoadsFront words.now (K.gone sink.old) (K.gone sink.new) }
    ensures unfinished { IsDrive words.now → result ≡ Status.Memory → Appends (K.gone sink.old) (K.gone sink.new) [] ⊎ IfSome (S.left source.old) (λ input. DrivesFront input (K.gone sink.old) (K.gone sink.new)) }
    ensures nothing { ¬ IsDrive words.now → result ≡ Status.Memory → sink.new ≡ sink.old }
{
    if is_drive(words) {
        return drive(alloc, source, sink);
    }
    if is_check(words) {
        return check(alloc, source, sink);
    }
    if let Some(count) = load_count(words) {
        return load(alloc, count, sink);
    }
    if is_unbuilt(words) {
        return not_built(sink);
    }
    usage(sink)
}
