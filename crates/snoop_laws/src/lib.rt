//! Laws of every run on where each snooped line is.
#![tactic(auto)]

ghost use Rattle.snoop_laws.specs.Laws.{AnswersMayBeTaken, HeldSnoopsWereSent, SentSnoopsHaveTasks, SnoopsArePlaced, SnoopsMayBeTaken};

/// After every run of a setup within its limits, each line of each snoop of which no answer was taken is in exactly one place:
/// in a BISnp in flight to its host, Snooped there, or in a BIRsp in flight, where BIRspIBlk stands for all lines that are left.
/// A line of a host has at most one such snoop, no other line of the setup is Snooped or under way on these two channels, each BIRsp
/// in flight answers a snoop that was sent, and each such snoop
/// is one of a standing task (CXL 3.1, chapter 3: BISnp and BIRsp; own rule: a take moves a line on, and tasks share no line).
pub fn snoops_are_placed()
    ensures { SnoopsArePlaced }
{}

/// After every run each snoop of which a line has no answer was sent by a task that still stands at its first line, with the
/// opcode and the span of that task: a task is finished only once no host is Asked (own rule).
pub fn sent_snoops_have_tasks()
    ensures { SentSnoopsHaveTasks }
{}

/// After every run of a setup within its limits, the snoop by which a line is Snooped at a host was sent to that host with this
/// first line, opcode and span, and the device has taken no answer for the line: a host takes what was sent, and a line leaves
/// its snoop there before its answer is sent (CXL 3.1, chapter 3: BISnp).
pub fn held_snoops_were_sent()
    ensures { HeldSnoopsWereSent }
{}

/// After every run of a setup within its limits, each BISnp that may be taken has its row's condition, so that it waits for
/// nothing but credits: no line of its span is Snooped, since a line has one snoop at a time. So has each BIRsp: it answers a
/// snoop by which its host is Asked (CXL 3.1, chapter 3: BISnp and BIRsp; own rule: the conditions).
pub fn snoop_messages_may_be_taken()
    ensures snoops { SnoopsMayBeTaken }
    ensures answers { AnswersMayBeTaken }
{}
