// The eight channels of a host, and their places among the queues.
ghost use Rattle.std.specs.Prelude.{◌≡◌, ◌*◌, ◌+◌, ◌<◌, ◌≤◌};
ghost use Rattle.cxl_message.specs.Messages.{channel_of};
ghost use Rattle.event_room.specs.Parts.{message_of};
ghost use Rattle.link_queues.specs.Links.{carries_payloads as channel_carries, channel_number as number_of_channel, queue_place as place_of_queue, room_of as room_of_channel};

use cxl_message::Channel;
use event_room::{MessageHead, MessageRef};

/// The eight channels of a host, in the order of the takes.
pub const CHANNELS: [Channel; 8] = [
    Channel::Req,
    Channel::Rwd,
    Channel::BiRsp,
    Channel::Ndr,
    Channel::Drs,
    Channel::BiSnp,
    Channel::CreditUp,
    Channel::CreditDown,
];

/// The number of a channel among the eight of its host.
fn channel_number(channel: Channel) -> usize
    ensures number { result ≡ number_of_channel channel }
    ensures low { result < 8 }
{
    match channel {
        Channel::Req => 0,
        Channel::Rwd => 1,
        Channel::BiRsp => 2,
        Channel::Ndr => 3,
        Channel::Drs => 4,
        Channel::BiSnp => 5,
        Channel::CreditUp => 6,
        Channel::CreditDown => 7,
    }
}

/// The place of a host's channel among the queues.
pub fn queue_place(host: u8, channel: Channel) -> usize
    ensures place { result ≡ place_of_queue host channel }
    ensures low { result < 8 * host + 8 }
{
    8 * host as usize + channel_number(channel)
}

/// Whether messages of a channel have payloads.
pub fn carries_payloads(channel: Channel) -> bool
    ensures { result ≡ channel_carries channel }
{
    match channel {
        Channel::Req => false,
        Channel::Rwd => true,
        Channel::BiRsp => false,
        Channel::Ndr => false,
        Channel::Drs => true,
        Channel::BiSnp => false,
        Channel::CreditUp => false,
        Channel::CreditDown => false,
    }
}

/// For how many messages of a channel there is room, by the credits.
pub fn room_of(credits: u8, channel: Channel) -> u8
    requires { credits ≤ 64 }
    ensures room { result ≡ room_of_channel credits channel }
    ensures most { result ≤ 192 }
{
    match channel {
        Channel::Req => credits,
        Channel::Rwd => credits,
        Channel::BiRsp => credits,
        Channel::Ndr => credits,
        Channel::Drs => credits,
        Channel::BiSnp => credits,
        Channel::CreditUp => 3 * credits,
        Channel::CreditDown => 3 * credits,
    }
}

/// The channel that a message goes on.
pub fn channel_of_message(message: MessageRef<'_>) -> Channel
    ensures { result ≡ channel_of (message_of message.entry) }
{
    match message.head {
        MessageHead::Req { .. } => Channel::Req,
        MessageHead::MemWr { .. } => Channel::Rwd,
        MessageHead::BiConflict { .. } => Channel::Rwd,
        MessageHead::BiRsp { .. } => Channel::BiRsp,
        MessageHead::Ndr { .. } => Channel::Ndr,
        MessageHead::MemData { .. } => Channel::Drs,
        MessageHead::BiSnp { .. } => Channel::BiSnp,
        MessageHead::Credit { channel } => credit_channel(channel),
    }
}

ghost use Rattle.cxl_message.specs.Channels.{credit_channel as channel_of_credit};

/// The channel that a Credit goes on.
fn credit_channel(channel: Channel) -> Channel
    ensures { result ≡ channel_of_credit channel }
{
    match channel {
        Channel::Req => Channel::CreditDown,
        Channel::Rwd => Channel::CreditDown,
        Channel::BiRsp => Channel::CreditDown,
        Channel::Ndr => Channel::CreditUp,
        Channel::Drs => Channel::CreditUp,
        Channel::BiSnp => Channel::CreditUp,
        Channel::CreditUp => Channel::CreditUp,
        Channel::CreditDown => Channel::CreditUp,
    }
}
