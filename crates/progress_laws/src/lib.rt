//! Laws of progress after every run: what may be taken from a channel has its row's condition, and where something is pending some
//! step is next.
#![tactic(auto)]

ghost use Rattle.cxl_message.specs.declared.channels.Channel.{Channel};
ghost use Rattle.progress_laws.specs.HostFacts.{ConflictTagsOpenNoWrite, LateLinesWereCompleted, OpenLinesWait, SharedGrantsMeetReads};
ghost use Rattle.progress_laws.specs.Laws.{MayBeTaken, OperationsMayBegin, PendingRunsGoOn, StuckRunsAreAtRest};

/// After every run of a setup within its limits, each message in flight that may be taken is taken: its row's condition holds,
/// there is room for it, and a take sends nothing. No Req or RwD message with its Tag is buffered, what a message of NDR or DRS
/// answers is open and not yet answered, a Cmp-S answers a shared MemRd alone, a BISnp finds no line of its span Snooped, a BIRsp
/// answers a snoop by which its host is Asked, and a Credit in flight is one that its taker lacks (CXL 3.1, chapter 3: the
/// messages; own rule: the conditions).
pub fn messages_may_be_taken()
    ensures requests { MayBeTaken Channel.Req }
    ensures writes { MayBeTaken Channel.Rwd }
    ensures answers { MayBeTaken Channel.BiRsp }
    ensures completions { MayBeTaken Channel.Ndr }
    ensures data_sent { MayBeTaken Channel.Drs }
    ensures snoops { MayBeTaken Channel.BiSnp }
    ensures credits_up { MayBeTaken Channel.CreditUp }
    ensures credits_down { MayBeTaken Channel.CreditDown }
{}

/// After every run of a setup within its limits in which some line is Open, Snooped or Busy, or a Req or RwD message is buffered,
/// some step is next, which isn't an operation. So where no step is next, nothing is pending (own rule: what is pending).
pub fn pending_runs_go_on()
    ensures next { PendingRunsGoOn }
    ensures rest { StuckRunsAreAtRest }
{}

/// After every run of a setup within its limits where no step is next, each stream whose last operation has its commit may begin
/// any operation whose line and place exist: it hits, or its request and the eviction that it needs have Tags, a way and credits.
/// The event that its row emits is allowed (own rule: H1 and H2).
pub fn operations_may_begin()
    ensures { OperationsMayBegin }
{}

/// After every run of a setup within its limits, a Cmp-S in flight has the Tag of an open MemRd Shared, where something is open with
/// it: the device grants no other request so (CXL 3.1, chapter 3: Cmp-S). By each list of a host's own events that
/// its rules allow, what is open with the Tag of an open conflict is no MemWr (own rule: a MemWr declares none, and a Tag in use
/// isn't taken again).
pub fn tags_are_used_rightly()
    ensures grants { SharedGrantsMeetReads }
    ensures conflicts { ConflictTagsOpenNoWrite }
{}

/// What a host has open waits for its grant, or is a read that waits for its MemData: with both it is filled. By each list of
/// a host's own events that its rules allow, in a setup within its limits, a snooped line whose conflict ended late has no request that wasn't granted (CXL 3.1, chapter 3: late
/// conflict; own rule: no operation begins for a snooped line).
pub fn open_lines_wait()
    ensures waiting { OpenLinesWait }
    ensures late { LateLinesWereCompleted }
{}
