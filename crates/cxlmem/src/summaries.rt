// The text of a summary.
ghost use Rattle.std.specs.Prelude.{◌≡◌, ◌++◌, ◌+◌, ◌*◌, ◌^◌, ◌<◌, ◌≤◌, ◌⊎◌, length};
ghost use Rattle.std.specs.Io.KnownBytes.{Appends};
ghost use Rattle.cxlmem.specs.Loads.{count_line, summary_text};
ghost use Rattle.cxlmem.specs.Outcomes.{WritesFront};
ghost use Rattle.cxlmem.specs.Statuses.{TellsWriteFault};

use crate::ends::Status;
use arrayvec::ArrayString;
use itoa::Buffer;
use outside_io::{Sink, write_all};
use step_driver::Summary;

/// Writes the nine lines of a summary.
pub fn write_summary<K: Sink>(sink: &mut K, summary: &Summary) -> Status
    requires sink_counts { K.highest_count sink.old < 2 ^ 62 }

    ensures written { result ≡ Status.Ok → Appends (K.gone sink.old) (K.gone sink.new) (summary_text summary.now) }
    ensures cut_short { result ≡ Status.WriteFault → WritesFront (K.gone sink.old) (K.gone sink.new) (summary_text summary.now) }
    ensures write_fault { TellsWriteFault (K.faults sink.old) (K.faults sink.new) result }
    ensures nothing_else { (result ≡ Status.Ok) ⊎ (result ≡ Status.WriteFault) }
{
    write_text(sink, lines_of(summary).as_bytes())
}

/// Writes a text that a command was asked for.
pub fn write_text<K: Sink>(sink: &mut K, text: &[u8]) -> Status
    requires sink_counts { K.highest_count sink.old + 2 * length text.now + 1 < 2 ^ 63 }

    ensures written { result ≡ Status.Ok → Appends (K.gone sink.old) (K.gone sink.new) text.now }
    ensures cut_short { result ≡ Status.WriteFault → WritesFront (K.gone sink.old) (K.gone sink.new) text.now }
    ensures write_fault { TellsWriteFault (K.faults sink.old) (K.faults sink.new) result }
    ensures nothing_else { (result ≡ Status.Ok) ⊎ (result ≡ Status.WriteFault) }
{
    match write_all(sink, text) {
        Ok(()) => Status::Ok,
        Err(_) => Status::WriteFault,
    }
}

/// The nine lines of a summary.
fn lines_of(summary: &Summary) -> ArrayString<512>
    ensures text { result.bytes ≡ summary_text summary.now }
    ensures short { length result.bytes ≤ 512 }
{
    let mut lines = ArrayString::<512>::new();
    push_count(&mut lines, "operations", summary.operations);
    push_count(&mut lines, "events", summary.events);
    push_count(&mut lines, "loads", summary.loads);
    push_count(&mut lines, "words", summary.words);
    push_count(&mut lines, "wholes", summary.wholes);
    push_count(&mut lines, "snoops", summary.snoops);
    push_count(&mut lines, "conflicts", summary.conflicts);
    push_count(&mut lines, "host evictions", summary.host_evictions);
    push_count(&mut lines, "filter evictions", summary.filter_evictions);
    lines
}

/// Appends the line of a number: its name, a space and the number.
fn push_count(lines: &mut ArrayString<512>, name: &str, count: u64)
    requires name { length name.now ≤ 16 }
    requires room { length lines.old.bytes + 38 ≤ 512 }
    ensures line { lines.new.bytes ≡ lines.old.bytes ++ count_line name.now count }
    ensures short { length lines.new.bytes ≤ length lines.old.bytes + 38 }
{
    lines.push_str(name);
    lines.push_str(" ");
    lines.push_str(Buffer::new().format(count));
    lines.push_str("\n");
}
