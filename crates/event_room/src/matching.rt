// Whether two rooms' events send and commit the same, without making values.
ghost use Rattle.std.specs.Prelude.{◌≡◌, IsTrue, ◌↔◌};
ghost use Rattle.event_room.specs.Parts.{message_of, op_of, out_of};

use crate::messages::{MessageHead, MessageRef};
use crate::operations::OpRef;
use crate::parts::{OutRef, SendsRef};
use crate::rooms::EventRoom;

impl EventRoom {
    /// Whether another room's event sends the same messages, in the same order.
    pub fn sends_match(&self, other: &EventRoom) -> bool
        ensures { IsTrue result ↔ (self.now.sends ≡ other.now.sends) }
    {
        match (self.sends(), other.sends()) {
            (SendsRef::Nothing, SendsRef::Nothing) => true,
            (SendsRef::One(first), SendsRef::One(other)) => same_out(first, other),
            (SendsRef::Two(first, second), SendsRef::Two(other_first, other_second)) => {
                same_out(first, other_first) && same_out(second, other_second)
            }
            _ => false,
        }
    }

    /// Whether another room's event has the same commit, or none either.
    pub fn commit_matches(&self, other: &EventRoom) -> bool
        ensures { IsTrue result ↔ (self.now.commit ≡ other.now.commit) }
    {
        match (self.commit(), other.commit()) {
            (None, None) => true,
            (Some(commit), Some(other)) => {
                commit.stream == other.stream
                    && commit.index == other.index
                    && same_op(commit.op, other.op)
                    && *commit.value == *other.value
            }
            _ => false,
        }
    }
}

/// Whether two sent messages are the same, hosts included.
fn same_out(first: OutRef<'_>, second: OutRef<'_>) -> bool
    ensures { IsTrue result ↔ (out_of first.entry ≡ out_of second.entry) }
{
    first.host == second.host && same_message(first.message, second.message)
}

/// Whether two messages in parts are the same: the same head, and the same payload where it has one (own rule).
pub fn same_message(first: MessageRef<'_>, second: MessageRef<'_>) -> bool
    ensures { IsTrue result ↔ (message_of first.entry ≡ message_of second.entry) }
{
    if !same_head(&first.head, &second.head) {
        return false;
    }
    if !first.head.has_payload() {
        return true;
    }
    *first.payload == *second.payload
}

/// Whether two heads are the same.
fn same_head(first: &MessageHead, second: &MessageHead) -> bool
    ensures { IsTrue result ↔ (first.now ≡ second.now) }
{
    *first == *second
}

/// Whether two operations are the same.
fn same_op(first: OpRef<'_>, second: OpRef<'_>) -> bool
    ensures { IsTrue result ↔ (op_of first.entry ≡ op_of second.entry) }
{
    first.head == second.head && (!first.head.has_payload() || *first.payload == *second.payload)
}
