//! The next steps of a run: exactly the events that are allowed and aren't operations, each as often as it should stand there.
#![tactic(auto)]

ghost use Rattle.step_laws.specs.Facts.{BlocksComeFirst, HeldSnoopsAreDisjoint, HeldSnoopsFit, LinesHaveOneAct, RequestsHaveOneAct};
ghost use Rattle.step_laws.specs.Laws.{AllowedStepsAreNext, EmittedEventsAreAllowed, EventsDecide, NextStepsAreAllowed, NextStepsAreCounted};

/// Two events are counted as the same exactly where they are the same: their agents, causes, messages sent and commits
/// (own rule).
pub fn events_decide()
    ensures { EventsDecide }
{}

/// After every run of a setup within its limits, an event that is allowed and isn't an operation stands among the next
/// steps, and nothing else does (own rule). An act stands there once; the take of a message as often as equal messages are
/// in flight on its channel, each a step by itself.
pub fn next_steps_are_the_allowed_ones()
    ensures counted { NextStepsAreCounted }
    ensures sound { NextStepsAreAllowed }
    ensures complete { AllowedStepsAreNext }
{}

/// After every run of a setup within its limits, what a row emits is an allowed event (own rule): where the cause is well
/// formed and names what exists, an operation comes in its stream's order, and a taken message is there to be taken. So no
/// emission breaks the profile.
pub fn emitted_events_are_allowed()
    ensures { EmittedEventsAreAllowed }
{}

/// By each list of a host's own events that its rules allow, in a setup within its limits, each line is left without an answer in
/// one snoop at most of those that the host holds, and each of these snoops is in the profile, of lines that exist, with lines left
/// of its own span alone (own rule).
pub fn held_snoops_are_disjoint()
    ensures disjoint { HeldSnoopsAreDisjoint }
    ensures fit { HeldSnoopsFit }
{}

/// Of Conflict, WriteBack and Answer one row at most holds for a line, credits aside, and none for a line of a block whose
/// AnswerBlock holds, by each list of the host's own events that its rules allow; of Clean, Start and Evict one row at most holds for a request (own rule).
pub fn acts_exclude_one_another()
    ensures lines { LinesHaveOneAct }
    ensures blocks { BlocksComeFirst }
    ensures requests { RequestsHaveOneAct }
{}
