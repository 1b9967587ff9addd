//! Laws of the serial trace of a script: the trace that driving without picks comes to while each agent has room.
#![tactic(auto)]

ghost use Rattle.serial_laws.specs.Laws.{
  SerialBegins,
  SerialCommits,
  SerialEnds,
  SerialFollows,
  SerialGoesOn,
  SerialHasRoom,
  SerialIsCompleteOrFull,
  SerialIsCut,
  SerialIsReached,
  SerialIsRun,
  SerialIsWhole,
  SerialStops,
};

/// The serial trace is the driven trace of the script without its picks, cut before the first event that has no room. So no agent has
/// more events than there is room for; and with room for the script's bound nothing is cut off (own rule: the serial trace).
pub fn serial_traces_are_cut()
    ensures cut { SerialIsCut }
    ensures room { SerialHasRoom }
    ensures whole { SerialIsWhole }
{}

/// The serial trace is a run in which the operations of each stream are the first of the script's, and the commits of each stream name
/// those of them that are done. All are done, or some agent has as many events as there is room for (own rule).
pub fn serial_traces_are_runs()
    ensures reached { SerialIsReached }
    ensures run { SerialIsRun }
    ensures follows { SerialFollows }
    ensures commits { SerialCommits }
    ensures complete { SerialIsCompleteOrFull }
{}

/// Driving without picks, for as long as the next event has room, comes to the serial trace: it stays on the way with each event that
/// has room, and where all is done, or the next event has no room, the trace is the serial one (own rule).
pub fn serial_driving_stops()
    ensures begins { SerialBegins }
    ensures goes_on { SerialGoesOn }
    ensures ends { SerialEnds }
    ensures stops { SerialStops }
{}
