//! The checker of traces: whether bytes that come in any pieces are a trace, whether its events are a run, and if not, the first
//! byte or the first event that says so. Each event is judged by the machine of all rows while the trace is read.
//!
//! What a trace is, and the order in which rules are tried, are this project's own and no statement about the CXL standard; the rules
//! of the rows are those of CXL 3.1, chapter 3: the flows of HDM-DB.
#![tactic(auto)]

mod checker;
mod judging;
mod laws;
mod reading;
mod runs;
mod verdicts;

pub use checker::Checker;
pub use laws::{one_verdict, runs_are_coherent, traces_are_judged};
pub use verdicts::Verdict;
