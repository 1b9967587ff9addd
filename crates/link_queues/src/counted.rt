// The queues of all hosts, with the numbers of what may be taken.
ghost use Rattle.std.specs.Prelude.{◌≡◌, ◌<◌, ◌≤◌, IfOk, [], length};
ghost use Rattle.event_room.specs.Parts.{message_of};
ghost use Rattle.link_queues.specs.Counted.{IsCounted};
ghost use Rattle.link_queues.specs.Links.{HasRoom, HoldsFlight, WhereHolds, takeable_of, with_sent, without_taken};

use crate::links::LinkQueues;
use cxl_message::Setup;
use event_room::MessageRef;
use std::alloc::{AllocError, Global};
use std::marker::Model;

/// The messages in flight, with how many of each host's may be taken: a host's are counted again where one of them is taken or sent. A
/// contract sees the queues. Only `open` takes memory.
#[derive(Drop)]
pub struct CountedLinks {
    queues: LinkQueues,
    takeable: Vec<u32>,
}

impl Model for CountedLinks {
    ghost use Rattle.link_queues.specs.Counted.{IsCounted};
    ghost use Rattle.link_queues.specs.Links.{LinkRecord};

    ghost Value = { LinkRecord };

    ghost view = { λ l. l.queues };

    ghost invariant = { λ l. IsCounted l.queues l.takeable.items };
}

impl CountedLinks {
    /// The queues of a setup's hosts before the first event, as by `LinkQueues::open`. `Err` is want of memory.
    pub fn open(alloc: Global, setup: &Setup) -> Result<CountedLinks, AllocError>
        ensures holds { IfOk result (λ links. HoldsFlight links setup.now []) }
    {
        let queues = LinkQueues::open(alloc, setup)?;
        let takeable = counts(alloc, &queues)?;
        Ok(CountedLinks { queues, takeable })
    }

    /// The queues themselves.
    pub fn queues(&self) -> &LinkQueues
        ensures { result.now ≡ self.now }
    {
        &self.queues
    }

    /// How many messages of a host's channels may be taken (own rule). The host is one of the setup's.
    pub fn takeable_count(&self, host: u8) -> u32
        requires { host < self.now.hosts }
        ensures count { WhereHolds self.now (λ setup t. result ≡ length (takeable_of host t)) }
        ensures most { result ≤ 1536 }
    {
        self.takeable[host as usize]
    }

    /// Takes the first of a host's messages that are equal to this one away (own rule: the first of equal ones). The host is one of
    /// the setup's.
    pub fn take(&mut self, host: u8, message: MessageRef<'_>)
        requires { host < self.old.hosts }
        ensures { self.new ≡ without_taken host (message_of message.entry) self.old }
    {
        self.queues.take(host, message);
        self.takeable[host as usize] = self.queues.takeable_count(host);
    }

    /// Sends a message on a host's channel, where there is room: it is the last there.
    pub fn send(&mut self, host: u8, message: MessageRef<'_>)
        requires { HasRoom self.old host (message_of message) }
        ensures { self.new ≡ with_sent host (message_of message.entry) self.old }
    {
        self.queues.send(host, message);
        self.takeable[host as usize] = self.queues.takeable_count(host);
    }
}

/// How many messages of each host may be taken.
fn counts(alloc: Global, queues: &LinkQueues) -> Result<Vec<u32>, AllocError>
    ensures { IfOk result (λ takeable. IsCounted queues.now takeable.items) }
{
    let mut takeable = Vec::with_capacity(alloc, queues.hosts() as usize)?;
    for host in 0..queues.hosts() {
        takeable.push(queues.takeable_count(host))?;
    }
    Ok(takeable)
}
