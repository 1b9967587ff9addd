//! The definitions of the coherence model, and laws that follow from them by computation.
//!
//! A trace is a list of events, newest first, and every fact is found by looking back over it. The facts of a host or
//! of the device are functions of that agent's own events; only the messages in flight look at the whole trace.
//! The files of `specs/` in the order in which they are read:
//!
//! - the flat memory and legal histories: `FlatMemory`; events and traces: `Traces`;
//! - messages in flight and credits: `Flight`, `Credits`;
//! - a host: `Streams`, `Transactions` (open requests and evictions), `Tags`, `WriteBacks`, `Snoops`, `Stages`,
//!   `Copies`, `Cache` (copies with ways);
//! - the rows H1 to H10: `HostOperations`, `HostTakes`, `HostActs`, together `HostRows`;
//! - the device: `Buffers`, `Memory`, `SentSnoops`, `Tasks`, `Directory`, `DirectoryChanges` (listings with tasks and
//!   entries), `Room`;
//! - the rows V1 to V9: `DeviceTakes`, `DeviceActs`, together `DeviceRows`;
//! - P0, K0 and S0: `Fitting`, `Rules`; when an event is allowed, runs, and the runs of one agent alone:
//!   `Rows`, `Runs`, `OwnRuns`; verdicts: `Verdicts`;
//! - coherence itself: `Coherence`; what is pending, the next steps and the weight: `Pending`, `Next`, `Weight`;
//! - driving a script: `Choices`, `Driven`; the summary: `Summaries`; the refusals of the agents: `Refusals`;
//! - the facts that hold after every run: `CreditFacts`, `EntryFacts`, `RequestFacts`, `OwnerFacts`, `SnoopFacts`,
//!   `ListingFacts`, `ValueFacts`.
#![tactic(auto)]

ghost use Rattle.coherence_model.specs.Laws.{AllowedBreaksNoRule, EmptyTraceIsRun, EventsOfRunAreOwnRun};

/// The empty trace is a run, whatever the setup and the opening.
pub fn empty_trace_is_run()
    ensures { EmptyTraceIsRun }
{}

/// An event is allowed after a trace exactly where it breaks no rule.
#[tactic(auto, using(crate::proofs::Allowed::allowed_breaks_no_rule))]
pub fn allowed_breaks_no_rule()
    ensures { AllowedBreaksNoRule }
{}

/// The events of each agent in a run are such as that agent's own rules allow: profile, stream order and row look at an agent's
/// own events alone (own rule). So what is shown of every list that an agent's own rules allow holds of its events in a run too.
#[tactic(auto, using(crate::proofs::OwnRuns::events_of_run))]
pub fn events_of_run_are_own_run()
    ensures { EventsOfRunAreOwnRun }
{}
