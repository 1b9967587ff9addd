//! Laws of credits: after every run the credits of each channel add up.
#![tactic(auto)]

ghost use Rattle.credit_laws.specs.Laws.{
  BufferedAndOwedAreHeld,
  CreditsAddUp,
  CreditsOfChannelsAddUp,
  HeldWithinCredits,
  ReturnedAreEarnedOrInFlight,
  ReturnedWereTaken,
  SentAreTakenOrInFlight,
  SentWithinCredits,
};

/// After every run, for each host and each of the six channels that have credits, the credits that are left at the sender, the
/// messages in flight, the messages held at the receiver (buffered or counted as owed) and the Credits in flight add up to the
/// setup's credits (CXL 3.1, chapter 3: flow control by credits; own rule: a Credit is a message).
pub fn credits_add_up()
    ensures channels { CreditsOfChannelsAddUp }
    ensures setup { CreditsAddUp }
{}

/// After every run, each message that was sent on such a channel was taken or is in flight, and each Credit that was sent back
/// was taken or is in flight (own rule).
pub fn nothing_is_lost()
    ensures messages { SentAreTakenOrInFlight }
    ensures credits { ReturnedAreEarnedOrInFlight }
{}

/// After every run, no more was sent on such a channel than the setup's credits and the Credits taken, no more was given back
/// than was taken, the receiver holds no more messages than the setup's credits, and those that it holds are those buffered
/// and those owed (CXL 3.1, chapter 3: flow control by credits).
pub fn credits_bound_messages()
    ensures sent { SentWithinCredits }
    ensures returned { ReturnedWereTaken }
    ensures held { HeldWithinCredits }
    ensures owed { BufferedAndOwedAreHeld }
{}
