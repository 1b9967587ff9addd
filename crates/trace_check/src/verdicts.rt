// What a checker answers.
use cxl_message::RuleNo;
use std::fmt;
use trace_stream::Reason;

/// What a checker says of the bytes that it was fed (own rule: `specs/Verdicts.antt` says which of them is theirs).
#[derive(Clone, Copy, PartialEq, Eq, Debug)]
pub enum Verdict {
    /// They are a trace, and its events are a run.
    Run {
        /// How many events the trace has.
        events: u64,
        /// How many of them commit.
        commits: u64,
    },
    /// They are a trace, and its events aren't a run.
    Broken {
        /// The number of the first event that isn't allowed after those before it, counted from 0.
        event: u64,
        /// The first rule that it breaks, in the order P0, K0, S0, the row.
        rule: RuleNo,
    },
    /// They aren't a trace.
    BadBytes {
        /// The number of bytes before the first place where they aren't one.
        at: u64,
        /// Why no trace has the byte that stands there, or ends there.
        reason: Reason,
    },
}

impl fmt::Display for Verdict {
    fn fmt<W: fmt::Write>(&self, f: &mut fmt::Formatter<W>) -> fmt::Result {
        match self {
            Verdict::Run { events, commits } => {
                write!(f, "run: {events} events, {commits} commits")
            }
            Verdict::Broken { event, rule } => write!(f, "not a run: event {event}: rule {rule:?}"),
            Verdict::BadBytes { at, reason } => write!(f, "bad trace: byte {at}: {reason}"),
        }
    }
}
