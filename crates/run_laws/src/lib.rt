//! Laws of runs: how a run goes on, what may be cut off it, and what other agents' events leave.
#![tactic(auto)]

ghost use Rattle.run_laws.specs.Laws.{
  AllowedBreaksNoRule,
  AllowedInHalves,
  EmptyTraceIsRun,
  FrontIsRun,
  NumberedAreOwn,
  NumbersArePlaces,
  OldestMayBeTaken,
  OthersKeepAllowed,
  OthersLeaveOwnEvents,
  OthersLeaveOwnHalf,
  ReceiverTookAll,
  RestIsInFlight,
  RunGoesOn,
  SenderSentAll,
};
ghost use Rattle.run_laws.specs.OwnEvents.{
  EventsOfAppend,
  HistoryOfAppend,
  OthersLeaveNumbers,
  RunHasAgents,
  SameNumbersMeanOthers,
  SameOwnMeansOthers,
};

/// The empty trace is a run. A run goes on exactly by an allowed event, and a front of a run is a run: a run's events in the
/// order in which they happened, without the last ones (own rule).
pub fn runs_go_on()
    ensures empty { EmptyTraceIsRun }
    ensures next { RunGoesOn }
    ensures front { FrontIsRun }
{}

/// An event is allowed after a trace exactly where its own half holds for its agent's own events and where a message that it
/// takes may be taken. That is exactly where the first broken rule is none (own rule).
pub fn allowed_in_halves()
    ensures halves { AllowedInHalves }
    ensures no_rule { AllowedBreaksNoRule }
{}

/// Other agents' events leave an agent's own events, and so the own half of each of its events, as they were. An event that is
/// allowed after a run stays allowed after other agents' further events: a message in flight to an agent is taken by no other
/// agent, and what is sent later passes no earlier message that the rules hold before it (own rule; CXL 3.1, chapter 3: the
/// order of BI-ConflictAck).
pub fn others_keep_allowed()
    ensures events { OthersLeaveOwnEvents }
    ensures own { OthersLeaveOwnHalf }
    ensures allowed { OthersKeepAllowed }
{}

/// The numbered events of an agent are its events, each with its place in the trace, counted from the oldest event (own rule).
pub fn own_events_are_numbered()
    ensures events { NumberedAreOwn }
    ensures places { NumbersArePlaces }
{}

/// Other agents' events leave an agent's numbered events as they were, and where its events, or its numbered events, are as they
/// were, only other agents' events came (own rule).
pub fn own_events_stay()
    ensures numbers { OthersLeaveNumbers }
    ensures same_events { SameOwnMeansOthers }
    ensures same_numbers { SameNumbersMeanOthers }
{}

/// Where a trace goes on, an agent's events and the commits are the later ones after the earlier ones (own rule).
pub fn traces_go_on()
    ensures events { EventsOfAppend }
    ensures history { HistoryOfAppend }
{}

/// The agent of each event of a run is the device or a host of the setup (own rule).
pub fn events_have_agents()
    ensures { RunHasAgents }
{}

/// After a run, what was sent on a channel is what its sender sent there, and what was taken from it is what its receiver took,
/// by the own events of each (CXL 3.1, chapter 3: the direction of each channel; own rule: the device has one of each kind for
/// each host).
pub fn channels_have_two_ends()
    ensures sent { SenderSentAll }
    ensures taken { ReceiverTookAll }
{}

/// After a run, where the messages taken from a channel are the first of those sent there, the others are in flight, in the order
/// in which they were sent. The oldest message in flight may always be taken, a BI-ConflictAck too (own rule; CXL 3.1, chapter 3:
/// the order of BI-ConflictAck).
pub fn channels_may_be_taken_in_order()
    ensures rest { RestIsInFlight }
    ensures oldest { OldestMayBeTaken }
{}
