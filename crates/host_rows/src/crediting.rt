// Whether the credits reach for what a host sends.
ghost use Rattle.std.specs.Prelude.{◌≡◌};
ghost use Rattle.host_record.specs.HostRecord.{view_in};
ghost use Rattle.host_record.specs.ViewRows.{is_dirty};
ghost use Rattle.host_record.specs.Ways.{copy_in};
ghost use Rattle.host_rows.specs.Rows.{head_channel, short_of_plan as short_of_planned, short_of_two as short_of_both, short_on as short_of_credits};

use cxl_message::Channel;
use event_room::MessageHead;
use host_plans::Plan;
use host_tables::HostTables;

/// The channel of a message, where none of its credits is left (CXL 3.1, chapter 3: a message that is sent costs a credit of
/// its channel).
pub fn lacking(agent: &HostTables, head: MessageHead) -> Option<Channel>
    ensures { result ≡ short_of_credits (view_in agent.now.kept) 1 (head_channel head) }
{
    short_on(agent, 1, channel_of(head))
}

/// The first channel, in the order of the messages, whose credits don't reach for what a plan sends.
pub(crate) fn short_of_plan(agent: &HostTables, plan: Plan) -> Option<Channel>
    ensures { result ≡ short_of_planned (view_in agent.now.kept) (λ a. is_dirty (copy_in agent.now.kept.ways a)) plan }
{
    match plan {
        Plan::Hit => None,
        Plan::Request { .. } => short_on(agent, 1, Channel::Req),
        Plan::Drop { .. } => short_on(agent, 1, Channel::Req),
        Plan::Replace { victim, .. } => short_of_two(agent, agent.is_dirty(victim)),
    }
}

/// The same for an eviction and a request: that of a modified copy is a MemWr, and else both go on one channel.
fn short_of_two(agent: &HostTables, dirty: bool) -> Option<Channel>
    ensures { result ≡ short_of_both (view_in agent.now.kept) dirty }
{
    let evicting = if dirty {
        short_on(agent, 1, Channel::Rwd)
    } else {
        short_on(agent, 2, Channel::Req)
    };
    match evicting {
        Some(channel) => Some(channel),
        None => short_on(agent, 1, Channel::Req),
    }
}

/// A channel, where fewer than so many of its credits are left.
fn short_on(agent: &HostTables, needed: u8, channel: Channel) -> Option<Channel>
    ensures { result ≡ short_of_credits (view_in agent.now.kept) needed channel }
{
    if channel.has_credits() && agent.left(channel) < needed {
        Some(channel)
    } else {
        None
    }
}

/// The channel of a message.
fn channel_of(head: MessageHead) -> Channel
    ensures { result ≡ head_channel head }
{
    match head {
        MessageHead::Req { .. } => Channel::Req,
        MessageHead::MemWr { .. } => Channel::Rwd,
        MessageHead::BiConflict { .. } => Channel::Rwd,
        MessageHead::BiRsp { .. } => Channel::BiRsp,
        MessageHead::Ndr { .. } => Channel::Ndr,
        MessageHead::MemData { .. } => Channel::Drs,
        MessageHead::BiSnp { .. } => Channel::BiSnp,
        MessageHead::Credit { channel } => match channel {
            Channel::Req | Channel::Rwd | Channel::BiRsp => Channel::CreditDown,
            _ => Channel::CreditUp,
        },
    }
}
