// Laws of the verdict. The functions do nothing.
ghost use Rattle.trace_check.specs.Laws.{BrokenSaysSo, OneVerdict, RunSaysSo, RunsAreCoherent, TracesAreJudged, TracesHaveGoodBytes};

use cxl_codec::one_trace;
use trace_stream::{one_reading, traces_are_read};

/// Bytes have at most one verdict, so it doesn't matter how they were cut into pieces (own rule).
pub fn one_verdict()
    ensures { OneVerdict }
{
    one_trace();
    one_reading();
    traces_are_read();
}

/// The verdict on a trace is the one on its events, and never that the bytes aren't one. It is Run exactly where the events are a run,
/// with their number and that of their commits, and Broken at place n with a rule exactly where the first n events are a run and the
/// next one breaks this rule first (own rule).
pub fn traces_are_judged()
    ensures judged { TracesAreJudged }
    ensures good_bytes { TracesHaveGoodBytes }
    ensures run { RunSaysSo }
    ensures broken { BrokenSaysSo }
{
    one_trace();
    traces_are_read();
}

/// The events of a trace whose verdict is Run are a coherent run: their commits form a legal history of a flat memory that begins as
/// the opening says, after each front a writable copy is the only copy of its line, and where some line is Open, Snooped or Busy, or a
/// Req or RwD message is buffered, some step that isn't an operation is allowed next (CXL 3.1, chapter 3: the states of copies; own
/// rule: what is pending).
pub fn runs_are_coherent()
    ensures { RunsAreCoherent }
{
    one_trace();
}
