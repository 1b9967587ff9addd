//! What a host keeps, against the model: laws of its record over every list of its own events that its rules allow, whatever its
//! peers did, and so after every run too.
#![tactic(auto)]

ghost use Rattle.host_laws.specs.OwnFacts.{HeldWithinCredits, OwedAndBufferedAreHeld, SentWithinCredits, WaysAreExact, WaysAreFew};
ghost use Rattle.host_record.specs.Laws.{
  ActsAreModel,
  OperationsAreModel,
  OwnEventsAreAnswered,
  OwnRunsGoOn,
  OwnRunsOfAnyOpening,
  RecordsAct,
  RecordsAnswer,
  RecordsFollow,
  RecordsOpen,
  RecordsPend,
  RecordsView,
  RecordsWeigh,
};

/// One more event makes of what is kept of a host what is kept with it, at all rows H1 to H10 (own rule).
#[tactic(auto, using(crate::proofs::Laws::records_follow))]
pub fn records_follow()
    ensures { RecordsFollow }
{}

/// What is answered by the record is what the host answers after its own events: an emission, or the first refusal in its
/// order (own rule).
#[tactic(auto, using(crate::proofs::Laws::records_answer))]
pub fn records_answer()
    ensures { RecordsAnswer }
{}

/// The acts by the record are those that the host's rows allow, credits included, in the order of the next steps (own rule).
#[tactic(auto, using(crate::proofs::Laws::records_act))]
pub fn records_act()
    ensures { RecordsAct }
{}

/// All that the rows read of the record is what they read of the events: copies, ways, what is open, conflicts, snoops, stages,
/// the write-back, streams and credits. So are which lines are Open by their tags, what is pending, and the weight (own rule).
#[tactic(auto, using(crate::proofs::Laws::records_view, crate::proofs::Readings::records_open, crate::proofs::Readings::records_pend, crate::proofs::Readings::records_weigh))]
pub fn records_are_read()
    ensures view { RecordsView }
    ensures opened { RecordsOpen }
    ensures pending { RecordsPend }
    ensures weight { RecordsWeigh }
{}

/// The rows of operations and acts over the view of any list of events are the model's rows (CXL 3.1, chapter 3: the opcodes; own
/// rule: the conditions).
#[tactic(auto, using(crate::proofs::ViewsAreModel::operations_are_model, crate::proofs::ViewsAreModel::acts_are_model))]
pub fn rows_are_model()
    ensures operations { OperationsAreModel }
    ensures acts { ActsAreModel }
{}

/// A list of own events that the host's rules allow goes on exactly by what the host answers: an answer that emits is such an
/// event, and such an event is what is answered to its cause. It doesn't depend on the opening: a host's rows don't look at
/// memory (own rule).
#[tactic(auto, using(crate::proofs::Laws::own_runs_go_on, crate::proofs::Laws::own_events_are_answered, crate::proofs::Laws::own_runs_of_any_opening))]
pub fn own_runs_go_on()
    ensures on { OwnRunsGoOn }
    ensures answered { OwnEventsAreAnswered }
    ensures any_opening { OwnRunsOfAnyOpening }
{}

/// A host has a way for exactly the lines with a copy or an open request, and at most the setup's ways (own rule).
#[tactic(auto, using(crate::proofs::OwnFacts::ways_are_exact, crate::proofs::OwnFacts::ways_are_few))]
pub fn ways_are_kept()
    ensures exact { WaysAreExact }
    ensures few { WaysAreFew }
{}

/// On each channel with credits a host sent no more than the credits and the Credits that it took. What it owes and what it has
/// buffered are together what it holds, and that is at most the credits, whatever its peers sent: a take waits for room (CXL 3.1,
/// chapter 3: flow control by credits; own rule: a Credit is a message).
#[tactic(auto, using(crate::proofs::OwnFacts::sent_within_credits, crate::proofs::OwnFacts::owed_and_buffered_are_held, crate::proofs::OwnFacts::held_within_credits))]
pub fn credits_are_kept()
    ensures sent { SentWithinCredits }
    ensures owed { OwedAndBufferedAreHeld }
    ensures held { HeldWithinCredits }
{}
