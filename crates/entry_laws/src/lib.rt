//! Laws of the device's entries, tasks, evictions and buffered messages. They hold of every list of its own events that its rules
//! allow, whatever the hosts sent, and so after every run.
#![tactic(auto)]

ghost use Rattle.entry_laws.specs.Laws.{
  BufferedMessagesFit,
  BusyLinesAreCovered,
  EntriesAreExact,
  EntriesAreKept,
  EntriesAreOnce,
  EntriesSuffice,
  EvictionsHaveRequests,
  OneTaskEvicts,
  RequestTagsAreDistinct,
  RequestsGoOn,
  RoomsHaveRequests,
  SnoopsHaveTasks,
  TasksAreApart,
  TasksAreNamed,
  TasksArePlaced,
  TasksGoOn,
  VictimsStand,
  WriteTagsAreDistinct,
  WritesGoOn,
};

/// The lines with an entry and the reservations together are at most the filter's entries: a request starts or
/// begins an eviction only where there is room for it, and the end of an eviction leaves one reservation for at least one
/// entry (own rule). After every run it holds with the rest of what is kept of the entries.
pub fn filter_suffices()
    ensures entries { EntriesSuffice }
    ensures kept { EntriesAreKept }
{}

/// The list of entries has each line with an entry once, and no other line: a line has an entry where some
/// host is listed for it or it is Busy (own rule).
pub fn entries_are_exact()
    ensures lines { EntriesAreExact }
    ensures once { EntriesAreOnce }
{}

/// Each task begins at a multiple of its span, within the setup's lines, for a host and a Tag of the setup, and
/// a request's task is over one line. No two tasks have a line in common: a task begins only over lines that aren't Busy. So a
/// line is Busy exactly where a task covers it (own rule).
pub fn tasks_are_apart()
    ensures placed { TasksArePlaced }
    ensures named { TasksAreNamed }
    ensures apart { TasksAreApart }
    ensures busy { BusyLinesAreCovered }
{}

/// The request of an eviction is buffered: it leaves the buffer by Start alone, which waits for the end of the
/// eviction. One task evicts for a request whose eviction is in progress, and none for any other; a request with a
/// reservation is buffered too (own rule).
pub fn evictions_have_requests()
    ensures buffered { EvictionsHaveRequests }
    ensures one { OneTaskEvicts }
    ensures rooms { RoomsHaveRequests }
{}

/// The Tags of the Req messages of a host that the device holds buffered are distinct, and so are those of its
/// RwD messages: the device takes no message whose Tag one of them has (own rule). Each is a message that the device may take
/// from that channel of that host, so the host, the Tag and the line that it names exist (CXL 3.1, chapter 3: the opcodes).
pub fn buffered_messages_are_kept()
    ensures request_tags { RequestTagsAreDistinct }
    ensures write_tags { WriteTagsAreDistinct }
    ensures fit { BufferedMessagesFit }
{}

/// Each snoop of which a line has no answer was sent to a host of the setup by a task that still stands and
/// covers the lines without an answer, none of which stands there twice: a task is finished only once no host is Asked (own
/// rule). Its opcode and span are those of the task (CXL 3.1, chapter 3: BISnp), and it wasn't sent to the host of the task's
/// request, unless the task is an eviction.
pub fn snoops_have_tasks()
    ensures { SnoopsHaveTasks }
{}

/// In a setup within its limits, where no entry is free, there is no reservation and no line is Busy, there is a victim block: the filter has an entry, and its line may be evicted (own rule).
pub fn victims_stand()
    ensures { VictimsStand }
{}

/// Each buffered RwD message may be served, and a task by which no host is Asked may snoop or be finished. In a setup within its
/// limits where no line is Busy and some Req message is buffered, Clean, Start or Evict may be
/// done for one: a request with a reservation may start, and where there is none either an entry is free or there is a victim
/// block. In each case the credits for what is sent are left aside (own rule).
pub fn device_goes_on()
    ensures writes { WritesGoOn }
    ensures tasks { TasksGoOn }
    ensures requests { RequestsGoOn }
{}
