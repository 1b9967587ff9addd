// What a trace has of operations, events and messages.
ghost use Rattle.std.specs.Prelude.{◌≡◌, ◌+◌, ◌<◌, ◌^◌, [], option_map};
ghost use Rattle.event_room.specs.Parts.{cause_of, commit_of, message_of, sends_of};
ghost use Rattle.step_driver.specs.Summaries.{summary_of, total, with_cause, with_commit, with_event, with_message, with_sends};

use cxl_message::Act;
use event_room::{CauseRef, CommitRef, EventRoom, MessageHead, MessageRef, OpHead, SendsRef};

/// How many operations, events and messages of some kinds a trace has (own rule).
#[derive(Clone, Copy, PartialEq, Eq, Debug)]
pub struct Summary {
    /// Operations that begin.
    pub operations: u64,
    /// Events.
    pub events: u64,
    /// Loads that are committed.
    pub loads: u64,
    /// Stores of one word that are committed.
    pub words: u64,
    /// Stores of a whole line that are committed.
    pub wholes: u64,
    /// BISnp messages that are sent, of one line or of a block.
    pub snoops: u64,
    /// BIConflict messages that are sent.
    pub conflicts: u64,
    /// Operations that send two messages: an eviction and a request.
    pub host_evictions: u64,
    /// Evict acts of the device.
    pub filter_evictions: u64,
}

impl Summary {
    /// The summary of no event.
    pub(crate) fn new() -> Summary
        ensures { result ≡ summary_of [] }
    {
        Summary {
            operations: 0,
            events: 0,
            loads: 0,
            words: 0,
            wholes: 0,
            snoops: 0,
            conflicts: 0,
            host_evictions: 0,
            filter_evictions: 0,
        }
    }

    /// Counts one event more, while all numbers together are below 2 to the 32nd.
    #[tactic(auto, using(crate::proofs::Totals::cause_adds, crate::proofs::Totals::sends_add))]
    pub(crate) fn count(&mut self, event: &EventRoom)
        requires { total self.old < 2 ^ 32 }
        ensures { self.new ≡ with_event event.now self.old }
    {
        self.events += 1;
        self.count_cause(event.cause(), event.sends());
        self.count_sends(event.sends());
        self.count_commit(event.commit());
    }

    /// Counts the cause of an event that sends these messages.
    fn count_cause(&mut self, cause: CauseRef<'_>, sends: SendsRef<'_>)
        requires { total self.old < 2 ^ 33 }
        ensures { self.new ≡ with_cause (cause_of cause.entry) (sends_of sends.entry) self.old }
    {
        match cause {
            CauseRef::Op { .. } => {
                self.operations += 1;
                if let SendsRef::Two(_, _) = sends {
                    self.host_evictions += 1;
                }
            }
            CauseRef::Take { .. } => {}
            CauseRef::Act(Act::Evict { .. }) => self.filter_evictions += 1,
            CauseRef::Act(_) => {}
        }
    }

    /// Counts messages that are sent.
    #[tactic(auto, using(crate::proofs::Totals::message_adds))]
    fn count_sends(&mut self, sends: SendsRef<'_>)
        requires { total self.old < 2 ^ 33 }
        ensures { self.new ≡ with_sends (sends_of sends.entry) self.old }
    {
        match sends {
            SendsRef::Nothing => {}
            SendsRef::One(out) => self.count_message(out.message),
            SendsRef::Two(first, second) => {
                self.count_message(first.message);
                self.count_message(second.message);
            }
        }
    }

    /// Counts one message.
    fn count_message(&mut self, message: MessageRef<'_>)
        requires { total self.old < 2 ^ 33 + 2 }
        ensures { self.new ≡ with_message (message_of message.entry) self.old }
    {
        match message.head {
            MessageHead::BiSnp { .. } => self.snoops += 1,
            MessageHead::BiConflict { .. } => self.conflicts += 1,
            _ => {}
        }
    }

    /// Counts the operation that is committed, if one is.
    fn count_commit(&mut self, commit: Option<CommitRef<'_>>)
        requires { total self.old < 2 ^ 33 }
        ensures { self.new ≡ with_commit (option_map commit_of commit.entry) self.old }
    {
        match commit {
            Some(commit) => match commit.op.head {
                OpHead::Load { .. } => self.loads += 1,
                OpHead::Word { .. } => self.words += 1,
                OpHead::Whole { .. } => self.wholes += 1,
            },
            None => {}
        }
    }
}
