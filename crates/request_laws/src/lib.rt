//! Laws of every run on where each open request, eviction, write-back and conflict is.
#![tactic(auto)]

ghost use Rattle.request_laws.specs.HostLaws.{
  AskedLinesAreSnooped,
  ConflictTagsAreOwn,
  ConflictsHaveLines,
  NoLineIsSnoopedTwice,
  OpenTagsAreDistinct,
  OpenTagsLeadBack,
  WriteBackIsAlone,
  WriteBacksHaveLines,
  WritingLinesAreSnooped,
};
ghost use Rattle.request_laws.specs.PlaceLaws.{
  AcksMayBeTaken,
  CompletionsMayBeTaken,
  ConflictsArePlaced,
  DataMayBeTaken,
  OpenLinesArePlaced,
  OtherConflictsAreNowhere,
  OtherWriteBacksAreNowhere,
  OwningGrantsMayBeTaken,
  RequestsNameTheirLine,
  TasksHaveRequests,
  UnusedTagsAreNowhere,
  WriteBacksArePlaced,
};

/// The tags of a host's open lines are below the setup's tags and distinct, and each leads back to its line: an operation takes
/// tags that aren't in use (CXL 3.1, chapter 3: Tag; own rule: the lowest free ones).
pub fn open_tags_are_distinct()
    ensures lead_back { OpenTagsLeadBack }
    ensures distinct { OpenTagsAreDistinct }
{}

/// A conflict's tag leads to its line: the tag of a BIConflict whose BI-ConflictAck wasn't taken is exactly that of some snooped
/// line at stage Asked, and nothing else is open with it. So a BI-ConflictAck is taken by its tag alone (CXL 3.1, chapter 3: the
/// conflict handshake; own rule: an Asked line isn't answered, and a tag in use isn't taken again).
pub fn conflicts_have_lines()
    ensures asked { AskedLinesAreSnooped }
    ensures lines { ConflictsHaveLines }
    ensures own { ConflictTagsAreOwn }
{}

/// The write-back tag is in use exactly where a snooped line is at stage Writing, and that is one line (own rule: one write-back
/// tag for each host).
pub fn write_backs_have_lines()
    ensures snooped { WritingLinesAreSnooped }
    ensures lines { WriteBacksHaveLines }
    ensures alone { WriteBackIsAlone }
{}

/// The snoops that a host holds have no line twice, since a snoop is taken only where none of its lines is snooped (own rule).
pub fn buffered_snoops_are_disjoint()
    ensures once { NoLineIsSnoopedTwice }
{}

/// After every run what a host has open for a line is in exactly one place. A MemRd or MemInv is in flight, buffered, in its task,
/// or granted, with MemData for each MemRd; a MemClnEvct or MemWr is in flight, buffered, or its Cmp is in flight. Each step takes
/// it from one place to the next (CXL 3.1, chapter 3: Req, RwD, NDR and DRS; own rule: the places).
pub fn open_lines_are_placed()
    ensures placed { OpenLinesArePlaced }
{}

/// After every run each open conflict of a host is in exactly one place: its BIConflict is in flight or buffered, or its
/// BI-ConflictAck is in flight. No other message of a conflict is under way (CXL 3.1, chapter 3: the conflict handshake).
pub fn conflicts_are_placed()
    ensures placed { ConflictsArePlaced }
    ensures nowhere { OtherConflictsAreNowhere }
{}

/// After every run a host's write-back in progress is in exactly one place: its MemWr, which has the write-back tag, is in flight
/// or buffered, or its Cmp is in flight. Where none is in progress no such message is under way (CXL 3.1, chapter 3: MemWr and
/// Cmp; own rule: the write-back tag).
pub fn write_backs_are_placed()
    ensures placed { WriteBacksArePlaced }
    ensures nowhere { OtherWriteBacksAreNowhere }
{}

/// After every run a Req message under way is of the kind and for the line that are open with its tag. With a tag with which
/// nothing is open no Req, no grant and no MemData is under way (CXL 3.1, chapter 3: the Tag comes back in NDR and DRS).
pub fn requests_have_owners()
    ensures named { RequestsNameTheirLine }
    ensures unused { UnusedTagsAreNowhere }
{}

/// After every run each request task of the device is that of an open request: at its line, with its tag and for its kind
/// (own rule: tasks).
pub fn tasks_have_requests()
    ensures requests { TasksHaveRequests }
{}

/// After every run the row of each Cmp, Cmp-E, MemData and BI-ConflictAck in flight to a host holds at that host, credits and the
/// order of BI-ConflictAck aside: what is in flight belongs to something that waits for it (CXL 3.1, chapter 3: NDR and DRS).
pub fn completions_may_be_taken()
    ensures completions { CompletionsMayBeTaken }
    ensures grants { OwningGrantsMayBeTaken }
    ensures bytes { DataMayBeTaken }
    ensures acks { AcksMayBeTaken }
{}
