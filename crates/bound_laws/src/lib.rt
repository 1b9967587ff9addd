//! Laws of every run on how many messages are in flight and how many steps are next.
#![tactic(auto)]

ghost use Rattle.bound_laws.specs.Laws.{InFlightFits, NextStepsAreFew};

/// After every run no channel has more messages in flight than three times the credits, and where the setup is within its limits
/// at most 1,200,000 steps are next, so 32 bits count them (own rule).
pub fn next_steps_are_few()
    ensures flight { InFlightFits }
    ensures steps { NextStepsAreFew }
{}
