//! Laws of the choices of a script: the next steps, and what the hosts answer to the streams; and of driving by number among them.
#![tactic(auto)]

ghost use Rattle.choice_laws.specs.Laws.{
  AnyPickReaches,
  ChoiceIsAtItsPlace,
  ChoicesAreAnswered,
  ChoicesAreFew,
  WayGoesByNumber,
};

/// For each script that can be driven, after any trace, the choices are the next steps and then what each stream's host answers to its
/// next operation, if one is left and isn't refused. After a run there are at most 1,200,064 (own rule: the choices).
pub fn choices_are_answered()
    ensures answered { ChoicesAreAnswered }
    ensures few { ChoicesAreFew }
{}

/// On the way to the driven trace, as long as it isn't done, the choice whose number is the next pick modulo their count is there, keeps
/// the trace on the way and within the bound. The choice of any number comes to a reached trace. The choice at a place is the next step
/// there, or past the next steps that of a stream (own rule: the picks).
pub fn driving_goes_by_number()
    ensures goes { WayGoesByNumber }
    ensures any { AnyPickReaches }
    ensures place { ChoiceIsAtItsPlace }
{}
