//! Laws of every run on how long it is and how much it weighs.
#![tactic(auto)]

ghost use Rattle.length_laws.specs.Laws.{FollowingIsShort, LengthFits, OperationsAreFew, WeightFits, WeightIsPaid};

/// The weight of a run and its number of events are together at most `(108 * H - 3)` for each of its operations, with H hosts. Each of
/// at most 64 streams has at most 4,294,967,295 operations. So the weight and the number of events are each below 2 ^ 49, and 64 bits
/// hold them (own rule).
pub fn weights_are_small()
    ensures paid { WeightIsPaid }
    ensures operations { OperationsAreFew }
    ensures weight { WeightFits }
    ensures length { LengthFits }
{}

/// A run that follows a script has at most as many events as the script's bound, `(108 * H - 3)` for each of the script's operations
/// (own rule: the bound).
pub fn following_runs_are_short()
    ensures { FollowingIsShort }
{}
