//! Laws of a host's lines by its own events, whatever its peers did: what is open fits its operation, its grant and its conflict, and
//! no line has a writable copy while it is Open or after it was written back for a snoop.
#![tactic(auto)]

ghost use Rattle.host_line_laws.specs.Laws.{
  AskedRequestsFit,
  OpenGrantsFit,
  OpenLinesAreUnwritable,
  OpenRequestsFit,
  WritingLinesAreGivenUp,
  WrittenLinesAreGivenUp,
};

/// What is open for a line is of its operation, which is on that line and whose request opened it; it was granted only as its kind may
/// be; and where the line is Asked, it has the conflict's Tag and is of a kind that declares conflicts (CXL 3.1, chapter 3: the grants,
/// BIConflict; own rule).
pub fn open_lines_fit()
    ensures requests { OpenRequestsFit }
    ensures grants { OpenGrantsFit }
    ensures asked { AskedRequestsFit }
{}

/// A line that is Open has no writable copy. A snooped line at stage Writing or Written has none either, and isn't Open: its copy was
/// written back (own rule).
pub fn writable_copies_are_idle()
    ensures opened { OpenLinesAreUnwritable }
    ensures writing { WritingLinesAreGivenUp }
    ensures written { WrittenLinesAreGivenUp }
{}
