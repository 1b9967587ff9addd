// The queues of all hosts.
ghost use Rattle.std.specs.Prelude.{◌≡◌, ◌*◌, ◌↔◌, ◌<◌, ◌≤◌, IfOk, IsTrue, Some, [], length, map, option_map, slice_get, vec_len};
ghost use Rattle.cxl_message.specs.Lists.{below};
ghost use Rattle.cxl_message.specs.Messages.{channel_of};
ghost use Rattle.coherence_model.specs.Flight.{in_flight, is_takeable as message_is_takeable};
ghost use Rattle.coherence_model.specs.Weight.{flight_weight};
ghost use Rattle.event_room.specs.Parts.{message_of};
ghost use Rattle.link_queues.specs.Links.{HasRoom, HoldsFlight, WhereHolds, queue_after, queue_place as place_of_queue, takeable_of, takeable_on, waiting_on, waiting_weight, waiting_weight_of, with_sent, without_taken};

use crate::channels::{CHANNELS, carries_payloads, channel_of_message, queue_place, room_of};
use crate::queues::MessageQueue;
use cxl_message::{Channel, Setup};
use event_room::MessageRef;
use std::alloc::{AllocError, Global};
use std::marker::Model;

/// The messages in flight: a queue for each of the eight channels of each host, in the order sent, with the payloads of RwD and
/// DRS beside the heads. A contract sees the queues, and says what they hold of a trace. Only `open` takes memory.
#[derive(Drop)]
pub struct LinkQueues {
    hosts: u8,
    queues: Vec<MessageQueue>,
}

impl Model for LinkQueues {
    ghost use Rattle.std.specs.Prelude.{length};
    ghost use Rattle.link_queues.specs.Links.{IsLinked, LinkRecord};

    ghost Value = { LinkRecord };

    ghost view = { λ l. record { hosts = l.hosts; queues = l.queues.items } };

    ghost invariant = { λ l. IsLinked l.hosts (length l.queues.items) };
}

impl LinkQueues {
    /// The queues of a setup's hosts before the first event: nothing is in flight. There is room for as many messages as there are
    /// credits, and for the Credits of three channels on each of the two channels of Credits. `Err` is want of memory.
    pub fn open(alloc: Global, setup: &Setup) -> Result<LinkQueues, AllocError>
        ensures holds { IfOk result (λ links. HoldsFlight links setup.now []) }
    {
        let hosts = setup.hosts();
        let queues = open_queues(alloc, setup)?;
        Ok(LinkQueues { hosts, queues })
    }

    /// The queue of a host's channel.
    fn queue(&self, host: u8, channel: Channel) -> &MessageQueue
        requires { host < self.now.hosts }
        ensures there { slice_get self.now.queues (place_of_queue host channel) ≡ Some result.now }
        ensures waits { result.now.messages ≡ waiting_on self.now host channel }
    {
        &self.queues[queue_place(host, channel)]
    }

    /// Whether a message of a host may be taken: it is in flight, and a BI-ConflictAck passes no earlier message of its Tag (CXL
    /// 3.1, chapter 3; own rule: kept by equal Tag). The host is one of the setup's.
    pub fn is_takeable(&self, host: u8, message: MessageRef<'_>) -> bool
        requires { host < self.now.hosts }
        ensures takeable { WhereHolds self.now (λ setup t. result ≡ message_is_takeable (message_of message.entry) (in_flight host (channel_of (message_of message.entry)) t)) }
    {
        self.may_take(host, message)
    }

    /// The same by what waits.
    fn may_take(&self, host: u8, message: MessageRef<'_>) -> bool
        requires { host < self.now.hosts }
        ensures { result ≡ message_is_takeable (message_of message.entry) (waiting_on self.now host (channel_of (message_of message.entry))) }
    {
        let queue = self.queue(host, channel_of_message(message));
        queue.is_takeable(message)
    }

    /// How many messages of a host's channels may be taken (own rule). The host is one of the setup's.
    pub fn takeable_count(&self, host: u8) -> u32
        requires { host < self.now.hosts }
        ensures count { WhereHolds self.now (λ setup t. result ≡ length (takeable_of host t)) }
        ensures waiting { result ≡ length (takeable_on self.now host) }
        ensures most { result ≤ 1536 }
    {
        self.count_on(host)
    }

    /// The same by what waits.
    #[tactic(auto, using(crate::proofs::Parts::none_before, crate::proofs::Parts::one_part_more, crate::proofs::Parts::all_parts))]
    fn count_on(&self, host: u8) -> u32
        requires { host < self.now.hosts }
        ensures count { result ≡ length (takeable_on self.now host) }
        ensures most { result ≤ 1536 }
    {
        let mut count = 0u32;
        for at in 0..CHANNELS.len() {
            let queue = self.queue(host, CHANNELS[at]);
            count += queue.takeable_count();
        }
        count
    }

    /// The message of a number among those of a host's channels that may be taken, channel by channel, each channel's in the order
    /// sent (own rule); `None` exactly where there are no more. The host is one of the setup's.
    pub fn takeable_at(&self, host: u8, k: u32) -> Option<MessageRef<'_>>
        requires { host < self.now.hosts }
        ensures picked { WhereHolds self.now (λ setup t. option_map message_of result ≡ slice_get (takeable_of host t) k) }
    {
        self.pick_on(host, k)
    }

    /// The same by what waits.
    #[tactic(auto, using(crate::proofs::Parts::none_before, crate::proofs::Parts::one_part_more, crate::proofs::Parts::picks_part, crate::proofs::Parts::picks_no_part))]
    fn pick_on(&self, host: u8, k: u32) -> Option<MessageRef<'_>>
        requires { host < self.now.hosts }
        ensures { option_map message_of result ≡ slice_get (takeable_on self.now host) k }
    {
        let mut left = k;
        for at in 0..CHANNELS.len() {
            let queue = self.queue(host, CHANNELS[at]);
            let count = queue.takeable_count();
            if left < count {
                return queue.takeable_at(left);
            }
            left -= count;
        }
        None
    }

    /// What all messages in flight add to the weight (own rule).
    pub fn weight(&self) -> u64
        ensures weight { WhereHolds self.now (λ setup t. result ≡ flight_weight setup t) }
        ensures most { result ≤ 16 * 2637312 }
    {
        self.weight_of_all()
    }

    /// The same by what waits.
    #[tactic(auto, using(crate::proofs::Sums::none_below, crate::proofs::Sums::one_below_more))]
    fn weight_of_all(&self) -> u64
        ensures weight { result ≡ waiting_weight self.now }
        ensures most { result ≤ 16 * 2637312 }
    {
        let mut sum = 0u64;
        for host in 0..self.hosts {
            sum += self.weight_of_host(host);
        }
        sum
    }

    /// What the messages of a host's channels add to the weight.
    #[tactic(auto, using(crate::proofs::Sums::none_of_channels, crate::proofs::Sums::one_channel_more, crate::proofs::Sums::all_channels))]
    fn weight_of_host(&self, host: u8) -> u64
        requires { host < self.now.hosts }
        ensures weight { result ≡ waiting_weight_of self.now host }
        ensures most { result ≤ 2637312 }
    {
        let mut sum = 0u64;
        for at in 0..CHANNELS.len() {
            let queue = self.queue(host, CHANNELS[at]);
            sum += queue.weight(self.hosts);
        }
        sum
    }

    /// Whether there is room for a message of a host: the host is one of the setup's, and fewer messages are in flight on the channel
    /// than may be.
    pub fn has_room(&self, host: u8, message: MessageRef<'_>) -> bool
        ensures { IsTrue result ↔ HasRoom self.now host (message_of message.entry) }
    {
        if host >= self.hosts {
            return false;
        }
        let channel = channel_of_message(message);
        is_free(self.queue(host, channel), carries_payloads(channel))
    }

    /// How many hosts there are, 1 to 16.
    pub fn hosts(&self) -> u8
        ensures hosts { result ≡ self.now.hosts }
        ensures least { 1 ≤ result }
    {
        self.hosts
    }

    /// Takes the first of a host's messages that are equal to this one away (own rule: the first of equal ones). The host is one of
    /// the setup's.
    pub fn take(&mut self, host: u8, message: MessageRef<'_>)
        requires { host < self.old.hosts }
        ensures { self.new ≡ without_taken host (message_of message.entry) self.old }
    {
        let place = queue_place(host, channel_of_message(message));
        self.queues[place].take(message);
    }

    /// Sends a message on a host's channel, where there is room: it is the last there.
    pub fn send(&mut self, host: u8, message: MessageRef<'_>)
        requires { HasRoom self.old host (message_of message) }
        ensures { self.new ≡ with_sent host (message_of message.entry) self.old }
    {
        let place = queue_place(host, channel_of_message(message));
        self.queues[place].push(message);
    }
}

/// Whether a queue has room for one more, of messages with payloads or without.
fn is_free(queue: &MessageQueue, carries: bool) -> bool
    ensures { IsTrue result ↔ ((queue.now.carries ≡ carries) × (length queue.now.messages < queue.now.room)) }
{
    queue.carries() == carries && queue.len() < queue.room()
}

/// Empty queues for each channel of each host.
#[tactic(auto, using(crate::proofs::Tables::map_below_more))]
fn open_queues(alloc: Global, setup: &Setup) -> Result<Vec<MessageQueue>, AllocError>
    ensures queues { IfOk result (λ queues. queues.items ≡ map (queue_after setup.now []) (below (8 * setup.now.hosts))) }
    ensures length { IfOk result (λ queues. vec_len queues ≡ 8 * setup.now.hosts) }
{
    let count = 8 * usize::from(setup.hosts());
    let credits = setup.credits();
    let mut queues = Vec::with_capacity(alloc, count)?;
    for place in 0..count {
        let channel = CHANNELS[place % 8];
        let queue = MessageQueue::open(
            alloc,
            room_of(credits, channel),
            carries_payloads(channel),
        )?;
        queues.push(queue)?;
    }
    Ok(queues)
}
