//! Laws of the traces that driving a script comes to, whichever choices are picked.
#![tactic(auto)]

ghost use Rattle.driven_laws.specs.Laws.{
  ChoicesStand,
  DrivenIsCommitted,
  DrivingEnds,
  DrivingReaches,
  EachIsCommitted,
  ReachedAreRuns,
  ReachedAreShort,
  ReachedIsFollowed,
  WayBegins,
  WayEnds,
  WayGoesOn,
};

/// Driving a script comes to traces each event of which was picked from the choices after those before it, and each of
/// them is a run: every choice is an allowed event (own rule: the choices).
pub fn reached_traces_are_runs()
    ensures reached { DrivingReaches }
    ensures runs { ReachedAreRuns }
{}

/// Of a trace that driving came to, the operations that each stream began are the first of the script's. So what holds of every run
/// that follows a script holds of it (own rule: the choices).
pub fn reached_traces_follow()
    ensures { ReachedIsFollowed }
{}

/// A trace that driving came to and that isn't done has a choice: a next step where something is pending, else a next
/// step or the next operation of a stream. It has at most `(108 * H - 3)` events for each operation of the script, with H
/// hosts. So driving ends, and then every stream has begun all of its operations and nothing is pending (own rule: the
/// bound).
pub fn driving_ends()
    ensures choices { ChoicesStand }
    ensures short { ReachedAreShort }
    ensures ends { DrivingEnds }
{}

/// A trace that driving came to and that is done has each operation of the script committed once, under its stream and its
/// index, each stream's in ascending order, and no other commit (own rule: what a script asks for).
pub fn each_operation_is_committed()
    ensures done { EachIsCommitted }
    ensures driven { DrivenIsCommitted }
{}

/// Driving event by event, each time with the choice that the next pick takes, stays on the way to the driven trace, and
/// a trace on the way that is done is the driven trace (own rule: the picks).
pub fn driving_stays_on_its_way()
    ensures begins { WayBegins }
    ensures goes_on { WayGoesOn }
    ensures ends { WayEnds }
{}
