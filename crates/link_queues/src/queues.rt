// The queue of one channel.
ghost use Rattle.std.specs.Prelude.{◌≡◌, ◌&&◌, ◌*◌, ◌+◌, ◌<◌, ◌==◌, ◌||◌, ◌≤◌, IfOk, Some, [], false, find, if◌then◌else◌, length, not, option_map, position, slice_get, sum_by};
ghost use Rattle.cxl_message.specs.declared.messages.Message.{Message};
ghost use Rattle.std.specs.List.{list_any};
ghost use Rattle.cxl_message.specs.Messages.{is_conflict_ack, message_eq};
ghost use Rattle.coherence_model.specs.Weight.{message_weight};
ghost use Rattle.coherence_model.specs.Flight.{is_first_of_tag as first_of_tag, is_takeable as message_is_takeable, shares_tag as message_shares_tag};
ghost use Rattle.event_room.specs.Heads.{has_payload};
ghost use Rattle.event_room.specs.Parts.{message_of};
ghost use Rattle.link_queues.specs.Queues.{IsHostCount, takeable_before, takeable_in, with_message, without_message, without_place};

use crate::matching::{is_ack, is_same, message_at, shares_tag};
use crate::weights::weight_of;
use cxl_message::Bytes64;
use event_room::{MessageHead, MessageRef};
use std::alloc::{AllocError, Global};
use std::marker::Model;

/// The messages in flight on one channel, in the order sent. The payloads stand beside the heads, where the channel has any.
/// Only `open` takes memory.
#[derive(Drop)]
pub struct MessageQueue {
    heads: Vec<MessageHead>,
    payloads: Vec<Bytes64>,
    carries: bool,
}

impl Model for MessageQueue {
    ghost use Rattle.std.specs.Prelude.{length, vec_capacity};
    ghost use Rattle.link_queues.specs.Queues.{IsKept, QueueRecord, joined};

    ghost Value = { QueueRecord };

    ghost view = { λ q. record { messages = joined q.heads.items q.payloads.items; room = vec_capacity q.heads; carries = q.carries } };

    ghost invariant = { λ q. IsKept q.carries (length q.heads.items) (length q.payloads.items) (vec_capacity q.heads) (vec_capacity q.payloads) };
}

impl MessageQueue {
    /// An empty queue with room for so many messages, at most 192, which keeps their payloads or not.
    pub fn open(alloc: Global, room: u8, carries: bool) -> Result<MessageQueue, AllocError>
        requires { room ≤ 192 }
        ensures { IfOk result (λ queue. queue ≡ record { messages = []; room = room; carries = carries }) }
    {
        let heads = Vec::with_capacity(alloc, room as usize)?;
        let payloads = Vec::with_capacity(alloc, if carries { room as usize } else { 0 })?;
        Ok(MessageQueue {
            heads,
            payloads,
            carries,
        })
    }

    /// How many messages there are.
    #[tactic(auto, using(crate::proofs::Joined::joined_length))]
    pub fn len(&self) -> usize
        ensures length { result ≡ length self.now.messages }
        ensures most { result ≤ 192 }
    {
        self.heads.len()
    }

    /// For how many messages there is room.
    pub fn room(&self) -> usize
        ensures { result ≡ self.now.room }
    {
        self.heads.capacity()
    }

    /// Whether payloads are kept.
    pub fn carries(&self) -> bool
        ensures { result ≡ self.now.carries }
    {
        self.carries
    }

    /// The message at a place.
    #[tactic(auto, using(crate::proofs::Joined::joined_length))]
    pub fn at(&self, at: usize) -> MessageRef<'_>
        requires { at < length self.now.messages }
        ensures { slice_get self.now.messages at ≡ Some (message_of result) }
    {
        message_at(&self.heads, &self.payloads, at)
    }

    /// The place of the first message that is equal to this one.
    #[tactic(auto, using(crate::proofs::Places::passes, crate::proofs::Places::stops, crate::proofs::Places::none_stops))]
    fn place_of(&self, message: MessageRef<'_>) -> Option<usize>
        ensures { result ≡ position (message_eq (message_of message.entry)) self.now.messages }
    {
        for at in 0..self.len() {
            if is_same(message, self.at(at)) {
                return Some(at);
            }
        }
        None
    }

    /// The first message with this one's Tag.
    #[tactic(auto, using(crate::proofs::Places::passes, crate::proofs::Places::finds, crate::proofs::Places::finds_none))]
    fn first_sharing(&self, message: MessageRef<'_>) -> Option<MessageRef<'_>>
        ensures { option_map message_of result ≡ find (message_shares_tag (message_of message.entry)) self.now.messages }
    {
        for at in 0..self.len() {
            let other = self.at(at);
            if shares_tag(message, other) {
                return Some(other);
            }
        }
        None
    }

    /// Whether a message is among them.
    #[tactic(auto, using(crate::proofs::Places::any_found))]
    fn has(&self, message: MessageRef<'_>) -> bool
        ensures { result ≡ list_any (message_eq (message_of message.entry)) self.now.messages }
    {
        self.place_of(message).is_some()
    }

    /// Whether a message is the first of its Tag.
    fn is_first_of_tag(&self, message: MessageRef<'_>) -> bool
        ensures { result ≡ first_of_tag (message_of message.entry) self.now.messages }
    {
        match self.first_sharing(message) {
            Some(first) => is_same(message, first),
            None => false,
        }
    }

    /// Whether a message that is there may be taken: a BI-ConflictAck is the first of its Tag.
    fn passes_none(&self, message: MessageRef<'_>) -> bool
        ensures { result ≡ (not (is_conflict_ack (message_of message.entry)) || first_of_tag (message_of message.entry) self.now.messages) }
    {
        !is_ack(message) || self.is_first_of_tag(message)
    }

    /// Whether a message may be taken: it is there, and a BI-ConflictAck is the first of its Tag.
    pub fn is_takeable(&self, message: MessageRef<'_>) -> bool
        ensures { result ≡ message_is_takeable (message_of message.entry) self.now.messages }
    {
        self.has(message) && self.passes_none(message)
    }

    /// Whether the message at a place may be taken.
    fn may_go(&self, at: usize) -> bool
        requires { at < length self.now.messages }
        ensures counts { takeable_before self.now.messages (at + 1) ≡ (if result then 1 else 0) + takeable_before self.now.messages at }
        ensures picks { (m : Message) → slice_get self.now.messages at ≡ Some m → result ≡ message_is_takeable m self.now.messages }
    {
        self.passes_none(self.at(at))
    }

    /// How many messages may be taken.
    #[tactic(auto, using(crate::proofs::Picked::none_passed, crate::proofs::Picked::counts_all))]
    pub fn takeable_count(&self) -> u32
        ensures count { result ≡ length (takeable_in self.now.messages) }
        ensures most { result ≤ 192 }
    {
        let mut count = 0u32;
        for at in 0..self.len() {
            count += one_if(self.may_go(at));
        }
        count
    }

    /// The message of a number among those that may be taken.
    #[tactic(auto, using(crate::proofs::Picked::none_passed, crate::proofs::Picked::not_yet, crate::proofs::Picked::wanted_is, crate::proofs::Picked::picks_none))]
    pub fn takeable_at(&self, k: u32) -> Option<MessageRef<'_>>
        ensures { option_map message_of result ≡ slice_get (takeable_in self.now.messages) k }
    {
        let mut passed = 0u32;
        for at in 0..self.len() {
            let goes = self.may_go(at);
            if is_wanted(goes, passed, k) {
                return Some(self.at(at));
            }
            passed += one_if(goes);
        }
        None
    }

    /// What the messages add to the weight, in a setup with so many hosts.
    #[tactic(auto, using(crate::proofs::Picked::no_sum, crate::proofs::Picked::sums_more, crate::proofs::Picked::sums_all))]
    pub fn weight(&self, hosts: u8) -> u64
        requires { IsHostCount hosts }
        ensures weight { result ≡ sum_by (message_weight hosts) self.now.messages }
        ensures most { result ≤ 192 * 1717 }
    {
        let mut sum = 0u64;
        for at in 0..self.len() {
            sum += weight_of(self.at(at), hosts);
        }
        sum
    }

    /// Puts a message at the end, where there is room. One with a payload goes on a channel that keeps payloads.
    #[tactic(auto, using(crate::proofs::Joined::joined_pushed, crate::proofs::Joined::joined_pushed_plain, crate::proofs::Joined::joined_length))]
    pub fn push(&mut self, message: MessageRef<'_>)
        requires room { length self.old.messages < self.old.room }
        requires kept { self.old.carries ≡ false → has_payload message.head ≡ false }
        ensures { self.new ≡ with_message (message_of message.entry) self.old }
    {
        self.heads.push_reserved(message.head);
        if self.carries {
            self.payloads.push_reserved(Bytes64(*message.payload));
        }
    }

    /// Takes the message at a place away.
    #[tactic(auto, using(crate::proofs::Joined::joined_removed, crate::proofs::Joined::joined_removed_plain, crate::proofs::Joined::joined_length))]
    fn remove_at(&mut self, at: usize)
        requires { at < length self.old.messages }
        ensures { self.new ≡ without_place at self.old }
    {
        let _head = self.heads.remove(at);
        if self.carries {
            let _payload = self.payloads.remove(at);
        }
    }

    /// Takes the first message that is equal to this one away.
    #[tactic(auto, using(crate::proofs::Places::first_taken_out, crate::proofs::Places::none_taken_out, crate::proofs::Places::found_within))]
    pub fn take(&mut self, message: MessageRef<'_>)
        ensures { self.new ≡ without_message (message_of message.entry) self.old }
    {
        if let Some(at) = self.place_of(message) {
            self.remove_at(at);
        }
    }
}

/// One where it holds, and else none.
fn one_if(holds: bool) -> u32
    ensures { result ≡ (if holds then 1 else 0) }
{
    if holds { 1 } else { 0 }
}

/// Whether the one after so many goes and is the wanted one.
fn is_wanted(goes: bool, passed: u32, wanted: u32) -> bool
    ensures { result ≡ (goes && (passed == wanted)) }
{
    goes && passed == wanted
}
