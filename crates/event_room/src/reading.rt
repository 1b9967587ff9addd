// Reading an event in its room, with payloads where they stand.
ghost use Rattle.std.specs.Prelude.{◌≡◌, option_map};
ghost use Rattle.event_room.specs.Parts.{cause_of, sends_of, commit_of, out_of};
ghost use Rattle.event_room.specs.Room.{out_with};

use crate::messages::MessageRef;
use crate::operations::OpRef;
use crate::parts::{CauseRef, CommitRef, OutRef, SendsRef};
use crate::rooms::{CauseHead, EventRoom, OutHead, SendCount};
use cxl_message::Event;

impl EventRoom {
    /// The agent: the number of its host, or 16 for the device.
    #[inline(always)]
    pub fn agent(&self) -> u8
        ensures { result ≡ self.now.agent }
    {
        self.agent
    }

    /// Why the event happens.
    #[inline(always)]
    pub fn cause(&self) -> CauseRef<'_>
        ensures { cause_of result ≡ self.now.cause }
    {
        match self.cause {
            CauseHead::Op { stream, index, op } => CauseRef::Op {
                stream,
                index,
                op: OpRef {
                    head: op,
                    payload: &self.cause_payload,
                },
            },
            CauseHead::Take { host, head } => CauseRef::Take {
                host,
                message: MessageRef {
                    head,
                    payload: &self.cause_payload,
                },
            },
            CauseHead::Act(act) => CauseRef::Act(act),
        }
    }

    /// The messages that the event sends.
    #[inline(always)]
    pub fn sends(&self) -> SendsRef<'_>
        ensures { sends_of result ≡ self.now.sends }
    {
        match self.count {
            SendCount::Nothing => SendsRef::Nothing,
            SendCount::One => SendsRef::One(out(&self.first, &self.first_payload)),
            SendCount::Two => SendsRef::Two(
                out(&self.first, &self.first_payload),
                out(&self.second, &self.second_payload),
            ),
        }
    }

    /// The commit, if there is one.
    #[inline(always)]
    pub fn commit(&self) -> Option<CommitRef<'_>>
        ensures { option_map commit_of result ≡ self.now.commit }
    {
        if !self.is_commit {
            return None;
        }
        Some(CommitRef {
            stream: self.commit.stream,
            index: self.commit.index,
            op: OpRef {
                head: self.commit.op,
                payload: &self.op_payload,
            },
            value: &self.value,
        })
    }

    /// The event by value.
    pub fn event(&self) -> Event
        ensures { result ≡ self.now }
    {
        Event {
            agent: self.agent(),
            cause: self.cause().cause(),
            sends: self.sends().sends(),
            commit: self.commit().map(CommitRef::commit),
        }
    }
}

/// A sent message of a head and a payload.
#[inline(always)]
fn out<'a>(sent: &OutHead, payload: &'a [u8; 64]) -> OutRef<'a>
    ensures { out_of result ≡ out_with sent.now payload.now }
{
    OutRef {
        host: sent.host,
        message: MessageRef {
            head: sent.head,
            payload,
        },
    }
}
