// The texts of verdicts.
ghost use Rattle.std.specs.Prelude.{◌≡◌, ◌++◌, ◌+◌, ◌^◌, ◌<◌, ◌≤◌, ◌⊎◌, decimal, length};
ghost use Rattle.std.specs.Io.KnownBytes.{Appends};
ghost use Rattle.cxl_codec.specs.Names.{name_of};
ghost use Rattle.cxlmem.specs.Outcomes.{WritesFront};
ghost use Rattle.cxlmem.specs.Statuses.{TellsWriteFault};
ghost use Rattle.cxlmem.specs.Texts.{bad_trace_text, fault_words, not_a_run_text, rule_name as name_of_rule, run_text as text_of_run};

use crate::ends::Status;
use crate::summaries::write_text;
use arrayvec::ArrayString;
use cxl_message::RuleNo;
use itoa::Buffer;
use outside_io::Sink;
use trace_stream::Reason;

/// Writes the text of a run.
pub fn write_run<K: Sink>(sink: &mut K, events: u64, commits: u64) -> Status
    requires sink_counts { K.highest_count sink.old < 2 ^ 62 }

    ensures written { result ≡ Status.Ok → Appends (K.gone sink.old) (K.gone sink.new) (text_of_run events commits) }
    ensures cut_short { result ≡ Status.WriteFault → WritesFront (K.gone sink.old) (K.gone sink.new) (text_of_run events commits) }
    ensures write_fault { TellsWriteFault (K.faults sink.old) (K.faults sink.new) result }
    ensures nothing_else { (result ≡ Status.Ok) ⊎ (result ≡ Status.WriteFault) }
{
    write_text(sink, run_text(events, commits).as_bytes())
}

/// The text of a run.
fn run_text(events: u64, commits: u64) -> ArrayString<128>
    ensures text { result.bytes ≡ text_of_run events commits }
    ensures short { length result.bytes ≤ 128 }
{
    let mut text = ArrayString::<128>::new();
    push_number(&mut text, "run: ", events);
    push_number(&mut text, " events, ", commits);
    text.push_str(" commits\n");
    text
}

/// The text of an event that isn't allowed.
pub fn broken_text(event: u64, rule: RuleNo) -> ArrayString<128>
    ensures text { result.bytes ≡ not_a_run_text event rule }
    ensures short { length result.bytes ≤ 128 }
{
    let mut text = ArrayString::<128>::new();
    push_number(&mut text, "not a run: event ", event);
    text.push_str(": rule ");
    text.push_str(rule_name(rule));
    text.push_str("\n");
    text
}

/// The text of bytes that are no trace.
pub fn fault_text(at: u64, reason: Reason) -> ArrayString<128>
    ensures text { result.bytes ≡ bad_trace_text at reason }
    ensures short { length result.bytes ≤ 128 }
{
    let mut text = ArrayString::<128>::new();
    push_number(&mut text, "bad trace: byte ", at);
    text.push_str(": ");
    push_reason(&mut text, reason);
    text.push_str("\n");
    text
}

/// Appends a word and a number.
fn push_number(text: &mut ArrayString<128>, word: &str, number: u64)
    requires word { length word.now ≤ 20 }
    requires room { length text.old.bytes + 40 ≤ 128 }
    ensures pushed { text.new.bytes ≡ text.old.bytes ++ word.now ++ decimal number }
    ensures short { length text.new.bytes ≤ length text.old.bytes + 40 }
{
    text.push_str(word);
    text.push_str(Buffer::new().format(number));
}

/// Appends the words of a reason.
fn push_reason(text: &mut ArrayString<128>, reason: Reason)
    requires room { length text.old.bytes + 20 ≤ 128 }
    ensures pushed { text.new.bytes ≡ text.old.bytes ++ fault_words reason }
    ensures short { length text.new.bytes ≤ length text.old.bytes + 20 }
{
    match reason {
        Reason::Short => text.push_str("short"),
        Reason::Kind => text.push_str("kind"),
        Reason::Field(field) => {
            text.push_str("field ");
            text.push_str(field.name());
        }
        Reason::Name => text.push_str("name"),
        Reason::Opening => text.push_str("opening"),
        Reason::Count => text.push_str("count"),
        Reason::Trailing => text.push_str("trailing"),
    }
}

/// The name of a rule.
fn rule_name(rule: RuleNo) -> &'static str
    ensures name { result.now ≡ name_of_rule rule }
    ensures short { length result.now ≤ 3 }
{
    match rule {
        RuleNo::P0 => "P0",
        RuleNo::K0 => "K0",
        RuleNo::S0 => "S0",
        RuleNo::H1 => "H1",
        RuleNo::H2 => "H2",
        RuleNo::H3 => "H3",
        RuleNo::H4 => "H4",
        RuleNo::H5 => "H5",
        RuleNo::H6 => "H6",
        RuleNo::H7 => "H7",
        RuleNo::H8 => "H8",
        RuleNo::H9 => "H9",
        RuleNo::H10 => "H10",
        RuleNo::V1 => "V1",
        RuleNo::V2 => "V2",
        RuleNo::V3 => "V3",
        RuleNo::V4 => "V4",
        RuleNo::V5 => "V5",
        RuleNo::V6 => "V6",
        RuleNo::V7 => "V7",
        RuleNo::V8 => "V8",
        RuleNo::V9 => "V9",
    }
}
