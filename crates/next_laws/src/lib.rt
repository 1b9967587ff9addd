//! Laws of the next steps: they are what the queues of messages and the agents tell, each by its own part of a run.
#![tactic(auto)]

ghost use Rattle.next_laws.specs.Laws.{NextStepsAreAnswered, NextStepsAreTold};

/// After every run of a setup within its limits the next steps are, in their order, the takes of the messages that may be taken, host by
/// host and channel by channel; the acts of each host by its own events; and those of the device by its own. Each is what its agent
/// answers to its cause (own rule: the order).
pub fn next_steps_are_told()
    ensures told { NextStepsAreTold }
    ensures answered { NextStepsAreAnswered }
{}
