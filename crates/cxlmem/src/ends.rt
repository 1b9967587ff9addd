// How a command ends: its status, and the text that a refusal writes.
ghost use Rattle.std.specs.Prelude.{◌≡◌, ◌+◌, ◌*◌, ◌^◌, ◌<◌, ◌≤◌, length};
ghost use Rattle.cxlmem.specs.Texts.{bad_script_text, bad_trace_text, not_a_run_text, not_built_text, read_fault_text, reason_word, too_long_text, usage_text};
ghost use Rattle.cxlmem.specs.Outcomes.{WritesText};

use crate::verdicts::{broken_text, fault_text};
use arrayvec::ArrayString;
use cxl_message::RuleNo;
use itoa::Buffer;
use outside_io::{Sink, write_all};
use script_text::ScriptReason;
use trace_stream::Reason;

/// How a command ends. Each status has its cause in the contract of `command` (own rule).
#[derive(Clone, Copy, PartialEq, Eq, Debug)]
pub enum Status {
    /// The command is done.
    Ok,
    /// The words are no command.
    Usage,
    /// A read failed.
    ReadFault,
    /// A write failed.
    WriteFault,
    /// The input isn't a script.
    BadScript,
    /// The input isn't a trace.
    BadTrace,
    /// The trace isn't a run.
    NotARun,
    /// There is no memory.
    Memory,
    /// A journal is full.
    JournalFull,
    /// The input is longer than the limit.
    TooLong,
    /// The command, or this form of it, isn't built yet.
    NotBuilt,
}

impl Status {
    ghost use Rattle.cxlmem.specs.Statuses.{code_of};

    /// The exit status of the process.
    pub fn code(self) -> u8
        ensures { result ≡ code_of self }
    {
        match self {
            Status::Ok => 0,
            Status::Usage => 2,
            Status::ReadFault => 3,
            Status::WriteFault => 4,
            Status::BadScript => 5,
            Status::BadTrace => 6,
            Status::NotARun => 7,
            Status::Memory => 8,
            Status::JournalFull => 9,
            Status::TooLong => 10,
            Status::NotBuilt => 11,
        }
    }
}

/// Writes the text of a failed read, as far as the sink takes it.
pub fn read_fault<K: Sink>(sink: &mut K) -> Status
    requires { K.highest_count sink.old < 2 ^ 62 }
    ensures status { result ≡ Status.ReadFault }
    ensures text { WritesText (K.gone sink.old) (K.gone sink.new) (K.faults sink.old) (K.faults sink.new) read_fault_text }
{
    refuse(sink, b"read fault\n");
    Status::ReadFault
}

/// Writes the text of what isn't built, as far as the sink takes it.
pub fn not_built<K: Sink>(sink: &mut K) -> Status
    requires { K.highest_count sink.old < 2 ^ 62 }
    ensures status { result ≡ Status.NotBuilt }
    ensures text { WritesText (K.gone sink.old) (K.gone sink.new) (K.faults sink.old) (K.faults sink.new) not_built_text }
{
    refuse(sink, b"not built\n");
    Status::NotBuilt
}

/// Writes the text of words that are no form of the command line, as far as the sink takes it.
pub fn usage<K: Sink>(sink: &mut K) -> Status
    requires { K.highest_count sink.old < 2 ^ 62 }
    ensures status { result ≡ Status.Usage }
    ensures text { WritesText (K.gone sink.old) (K.gone sink.new) (K.faults sink.old) (K.faults sink.new) usage_text }
{
    refuse(sink, b"usage: cxlmem drive | check | view | load N | run\n");
    Status::Usage
}

/// Writes the text of too many bytes, as far as the sink takes it.
pub fn too_long<K: Sink>(sink: &mut K) -> Status
    requires { K.highest_count sink.old < 2 ^ 62 }
    ensures status { result ≡ Status.TooLong }
    ensures text { WritesText (K.gone sink.old) (K.gone sink.new) (K.faults sink.old) (K.faults sink.new) too_long_text }
{
    refuse(sink, b"too long\n");
    Status::TooLong
}

/// Writes the line and the reason for which an input is no script, as far as the sink takes it.
pub fn bad_script<K: Sink>(sink: &mut K, line: u32, reason: ScriptReason) -> Status
    requires { K.highest_count sink.old < 2 ^ 62 }
    ensures status { result ≡ Status.BadScript }
    ensures text { WritesText (K.gone sink.old) (K.gone sink.new) (K.faults sink.old) (K.faults sink.new) (bad_script_text line reason) }
{
    let mut text = ArrayString::<64>::new();
    text.push_str("bad script: line ");
    text.push_str(Buffer::new().format(line));
    text.push_str(": ");
    text.push_str(word_of(reason));
    text.push_str("\n");
    refuse(sink, text.as_bytes());
    Status::BadScript
}

/// Writes the event and the rule by which a trace is no run, as far as the sink takes it.
pub fn not_a_run<K: Sink>(sink: &mut K, event: u64, rule: RuleNo) -> Status
    requires { K.highest_count sink.old < 2 ^ 62 }
    ensures status { result ≡ Status.NotARun }
    ensures text { WritesText (K.gone sink.old) (K.gone sink.new) (K.faults sink.old) (K.faults sink.new) (not_a_run_text event rule) }
{
    refuse(sink, broken_text(event, rule).as_bytes());
    Status::NotARun
}

/// Writes the place and the reason for which an input is no trace, as far as the sink takes it.
pub fn bad_trace<K: Sink>(sink: &mut K, at: u64, reason: Reason) -> Status
    requires { K.highest_count sink.old < 2 ^ 62 }
    ensures status { result ≡ Status.BadTrace }
    ensures text { WritesText (K.gone sink.old) (K.gone sink.new) (K.faults sink.old) (K.faults sink.new) (bad_trace_text at reason) }
{
    refuse(sink, fault_text(at, reason).as_bytes());
    Status::BadTrace
}

/// The word of a reason.
fn word_of(reason: ScriptReason) -> &'static str
    ensures word { result.now ≡ reason_word reason }
    ensures short { length result.now ≤ 8 }
{
    match reason {
        ScriptReason::Spelling => "spelling",
        ScriptReason::Range => "range",
        ScriptReason::Order => "order",
        ScriptReason::Many => "many",
        ScriptReason::Missing => "missing",
    }
}

/// Writes the text of a refusal. A fault of the sink ends it and changes no status.
fn refuse<K: Sink>(sink: &mut K, text: &[u8])
    requires { K.highest_count sink.old + 2 * length text.now + 1 < 2 ^ 63 }
    ensures { WritesText (K.gone sink.old) (K.gone sink.new) (K.faults sink.old) (K.faults sink.new) text.now }
{
    let _ = write_all(sink, text);
}
