// Making an event in its room: the cause first, then each message sent, and the commit.
ghost use Rattle.std.specs.Prelude.{◌≡◌, IsTrue, false};
ghost use Rattle.cxl_message.specs.declared.events.Cause.{Cause};
ghost use Rattle.cxl_message.specs.Opening.{zero_bytes};
ghost use Rattle.event_room.specs.Heads.{has_payload, with_payload, op_with};
ghost use Rattle.event_room.specs.Parts.{message_of, op_of};
ghost use Rattle.event_room.specs.Made.{begun, may_send, with_send, with_commit};

use crate::messages::{MessageHead, MessageRef};
use crate::operations::OpRef;
use crate::parts::{CauseRef, SendsRef};
use crate::rooms::{CauseHead, CommitHead, EventRoom, OutHead, SendCount};
use cxl_message::{Act, Event};

impl EventRoom {
    /// Begins an event: a stream begins its operation of this index. Nothing is sent and nothing committed yet.
    #[inline(always)]
    pub fn begin_op(&mut self, agent: u8, stream: u8, index: u32, op: OpRef<'_>)
        ensures { self.new ≡ begun agent (Cause.Op stream index (op_of op.entry)) }
    {
        self.agent = agent;
        self.cause = CauseHead::Op {
            stream,
            index,
            op: op.head,
        };
        if op.head.has_payload() {
            self.cause_payload = *op.payload;
        }
        self.count = SendCount::Nothing;
        self.is_commit = false;
    }

    /// Begins an event: the agent takes a message of this host's channels. Nothing is sent and nothing committed yet.
    #[inline(always)]
    pub fn begin_take(&mut self, agent: u8, host: u8, message: MessageRef<'_>)
        ensures { self.new ≡ begun agent (Cause.Take host (message_of message.entry)) }
    {
        self.agent = agent;
        self.cause = CauseHead::Take {
            host,
            head: message.head,
        };
        if message.head.has_payload() {
            self.cause_payload = *message.payload;
        }
        self.count = SendCount::Nothing;
        self.is_commit = false;
    }

    /// Begins an event: the agent acts by itself. Nothing is sent and nothing committed yet.
    #[inline(always)]
    pub fn begin_act(&mut self, agent: u8, act: Act)
        ensures { self.new ≡ begun agent (Cause.Act act) }
    {
        self.agent = agent;
        self.cause = CauseHead::Act(act);
        self.count = SendCount::Nothing;
        self.is_commit = false;
    }

    /// Keeps the agent and the cause, and sends and commits nothing.
    #[inline(always)]
    pub fn clear(&mut self)
        ensures { self.new ≡ begun self.old.agent self.old.cause }
    {
        self.count = SendCount::Nothing;
        self.is_commit = false;
    }

    /// Sends one message more, which has no payload. At most one was sent before.
    #[inline(always)]
    pub fn send(&mut self, host: u8, head: MessageHead)
        requires room { IsTrue (may_send self.old.sends) }
        requires plain { has_payload head ≡ false }
        ensures { self.new ≡ with_send self.old (record { host = host; message = with_payload head zero_bytes }) }
    {
        let sent = OutHead { host, head };
        match self.count {
            SendCount::Nothing => {
                self.first = sent;
                self.count = SendCount::One;
            }
            _ => {
                self.second = sent;
                self.count = SendCount::Two;
            }
        }
    }

    /// Sends one message more. At most one was sent before.
    #[inline(always)]
    pub fn send_message(&mut self, host: u8, message: MessageRef<'_>)
        requires { IsTrue (may_send self.old.sends) }
        ensures { self.new ≡ with_send self.old (record { host = host; message = message_of message.entry }) }
    {
        let sent = OutHead {
            host,
            head: message.head,
        };
        match self.count {
            SendCount::Nothing => {
                self.first = sent;
                if sent.head.has_payload() {
                    self.first_payload = *message.payload;
                }
                self.count = SendCount::One;
            }
            _ => {
                self.second = sent;
                if sent.head.has_payload() {
                    self.second_payload = *message.payload;
                }
                self.count = SendCount::Two;
            }
        }
    }

    /// Commits an operation of a stream, with the line's bytes after it.
    #[inline(always)]
    pub fn set_commit(&mut self, stream: u8, index: u32, op: OpRef<'_>, value: &[u8; 64])
        ensures { self.new ≡ with_commit self.old (record { stream = stream; index = index; op = op_of op.entry; value = record { 0 = value.now } }) }
    {
        self.commit = CommitHead {
            stream,
            index,
            op: op.head,
        };
        if op.head.has_payload() {
            self.op_payload = *op.payload;
        }
        self.value = *value;
        self.is_commit = true;
    }

    /// Takes an event over.
    pub fn set(&mut self, event: &Event)
        ensures { self.new ≡ event.now }
    {
        match CauseRef::of(&event.cause) {
            CauseRef::Op { stream, index, op } => self.begin_op(event.agent, stream, index, op),
            CauseRef::Take { host, message } => self.begin_take(event.agent, host, message),
            CauseRef::Act(act) => self.begin_act(event.agent, act),
        }
        match SendsRef::of(&event.sends) {
            SendsRef::Nothing => {}
            SendsRef::One(first) => self.send_message(first.host, first.message),
            SendsRef::Two(first, second) => {
                self.send_message(first.host, first.message);
                self.send_message(second.host, second.message);
            }
        }
        if let Some(commit) = &event.commit {
            self.set_commit(
                commit.stream,
                commit.index,
                OpRef::of(&commit.op),
                &commit.value.0,
            );
        }
    }
}
