//! Laws of legal histories: lines are apart from one another, lines may be renumbered, and two halves make a whole.
#![tactic(auto)]

ghost use Rattle.history_laws.specs.Laws.{
  EvenGoesOn,
  FlatLineIsKept,
  FlatLineIsOwn,
  JoinedBegins,
  JoinedIsLegal,
  LegalByLines,
  LegalIsKept,
  OddGoesOn,
  PartsAreLegal,
  RenumberedFlatLine,
  RenumberedIsLegal,
};

/// A line of the flat memory depends on its own line's commits alone. A history is legal exactly where its commits on some lines
/// and those on the others are, so a merge of two legal histories over disjoint lines is legal; and it is legal where the commits
/// on each line are (own rule).
pub fn lines_are_apart()
    ensures own { FlatLineIsOwn }
    ensures kept { FlatLineIsKept }
    ensures legal { LegalIsKept }
    ensures parts { PartsAreLegal }
    ensures lines { LegalByLines }
{}

/// Where lines are renumbered, each to one of its own with the same opening bytes, each line holds what it held, and a legal
/// history stays legal, whatever streams and indices its commits then have (own rule).
pub fn histories_are_renumbered()
    ensures flat { RenumberedFlatLine }
    ensures legal { RenumberedIsLegal }
{}

/// A history of the even lines and one of the odd lines join, commit by commit, to a history of all lines. It is legal where both
/// are (own rule: the two halves of a whole memory).
pub fn two_halves_join()
    ensures begins { JoinedBegins }
    ensures even { EvenGoesOn }
    ensures odd { OddGoesOn }
    ensures legal { JoinedIsLegal }
{}
