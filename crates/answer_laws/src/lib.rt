//! Laws of the agents' answers for their own events: they are what the rows give, and with P0 and K0 they say which events are allowed
//! after a whole trace.
#![tactic(auto)]

ghost use Rattle.answer_laws.specs.Laws.{
  AllowedIsAnswered,
  AllowedIsEmitted,
  AnswerIsRow,
  FirstBrokenIsAnswered,
  OwnHalfIsAnswered,
};

/// An agent's answer emits what its row emits and its credits reach for, exactly where the cause passes and comes in its stream's
/// order. Each refusal that stands before the row is one where the row gives nothing (own rule: the order of refusals).
#[tactic(auto, using(crate::proofs::Answers::answer_is_row))]
pub fn answers_are_rows()
    ensures { AnswerIsRow }
{}

/// The own half of an event holds exactly where the event keeps P0 and is what its agent answers to its cause: profile, stream order
/// and row look at the agent's own events alone (own rule).
#[tactic(auto, using(crate::proofs::Events::own_half_is_answered))]
pub fn own_halves_are_answered()
    ensures { OwnHalfIsAnswered }
{}

/// An event is allowed after a trace exactly where it keeps P0, what it takes may be taken, and it is what its agent answers after its
/// own events there. Then the agent's answer is what the event sends and commits. The first rule that any event breaks is P0, K0 or S0,
/// tried in this order, or else the row of its cause where it isn't what its agent answers (own rule: the order).
#[tactic(auto, using(crate::proofs::Events::allowed_is_answered, crate::proofs::Events::allowed_is_emitted, crate::proofs::Events::first_broken_is_answered))]
pub fn answers_decide_events()
    ensures allowed { AllowedIsAnswered }
    ensures emitted { AllowedIsEmitted }
    ensures broken { FirstBrokenIsAnswered }
{}
