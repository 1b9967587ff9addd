//! Laws of the verdict on a list of events, oldest first: for a checker, which reads a trace event by event.
#![tactic(auto)]

ghost use Rattle.verdict_laws.specs.Laws.{
  BrokenIsTold,
  BrokenStays,
  CheckBegins,
  CheckBreaks,
  CheckEnds,
  CheckGoesOn,
  OneMoreIsTold,
  RunIsTold,
  VerdictGoesOn,
};

/// The verdict is Run, with the numbers of events and commits, exactly where the list is a run. It is Broken at place n with a
/// rule exactly where the first n events are a run, and the rule is the first that the next event breaks after them (own rule).
pub fn verdicts_tell()
    ensures run { RunIsTold }
    ensures broken { BrokenIsTold }
{}

/// Past a front that is a run the verdict is that on the rest. One more event at the end changes nothing where a rule was broken,
/// and else the verdict is by the first rule that it breaks (own rule).
pub fn verdicts_grow()
    ensures goes_on { VerdictGoesOn }
    ensures stays { BrokenStays }
    ensures one_more { OneMoreIsTold }
{}

/// A check that reads one event after the other keeps this: the verdict on the list is the verdict on what is left of it after
/// what was read. An event that breaks no rule is read; one that breaks a rule ends the check, and so does the end of the list
/// (own rule).
pub fn checks_go_by_event()
    ensures begins { CheckBegins }
    ensures next { CheckGoesOn }
    ensures breaks { CheckBreaks }
    ensures ends { CheckEnds }
{}
