// The buffered requests and the credits of one host among those of all.
ghost use Rattle.std.specs.Prelude.{◌≡◌, ◌<◌, ◌++◌, ◌∷◌, [], length, map};
ghost use Rattle.device_record.specs.BufferChanges.{request_roomed, without_request};
ghost use Rattle.device_record.specs.CreditChanges.{credit_took, credits_paid, one_returned, one_spent};
ghost use Rattle.device_record.specs.Record.{credits_at, request_with, requests_at};
ghost use Rattle.device_record.specs.Tables.{changed_at};
ghost use Rattle.device_changes.specs.Paying.{MayPay};
ghost use Rattle.device_state.specs.Decisions.{heads_sent};
ghost use Rattle.device_tables.specs.Crediting.{HasMore, MayGiveBack, MaySpend};
ghost use Rattle.device_tables.specs.Waiting.{room_seen};

use cxl_message::{Channel, Message, Tag};
use device_state::Decision;
use device_tables::{HostCredits, Progress, Requests, Waiting};

/// Buffers a request of a host. There is room for it.
pub fn buffer_at(requests: &mut Vec<Requests>, host: u8, request: Waiting)
    requires host { host < length requests.old.items }
    requires room { length (requests_at host requests.old.items) < 64 }
    ensures { requests.new.items ≡ changed_at host (λ rs. rs ++ request ∷ []) requests.old.items }
{
    let own = &mut requests[host as usize];
    own.push(request);
}

/// Takes the first request of a host with a tag away.
pub fn remove_at(requests: &mut Vec<Requests>, host: u8, tag: Tag)
    requires host { host < length requests.old.items }
    ensures { requests.new.items ≡ changed_at host (without_request tag.0) requests.old.items }
{
    let own = &mut requests[host as usize];
    own.remove(tag);
}

/// Sets the progress of the requests of a host with a tag.
pub fn progress_at(requests: &mut Vec<Requests>, host: u8, tag: Tag, progress: Progress)
    requires host { host < length requests.old.items }
    ensures { requests.new.items ≡ changed_at host (map (request_roomed tag.0 (room_seen progress))) requests.old.items }
{
    let own = &mut requests[host as usize];
    own.set_progress(tag, progress);
}

/// A message of a host was taken.
pub fn took_at(credits: &mut Vec<HostCredits>, host: u8, message: &Message)
    requires host { host < length credits.old.items }
    requires more { HasMore (credits_at host credits.old.items) }
    ensures { credits.new.items ≡ changed_at host (credit_took message.now) credits.old.items }
{
    let own = &mut credits[host as usize];
    own.take(message);
}

/// A message was sent to a host on a channel, of which a credit is left.
fn spent_at(credits: &mut Vec<HostCredits>, host: u8, channel: Channel)
    requires host { host < length credits.old.items }
    requires left { MaySpend channel (credits_at host credits.old.items) }
    ensures { credits.new.items ≡ changed_at host (one_spent channel) credits.old.items }
{
    let own = &mut credits[host as usize];
    own.spend(channel);
}

/// A Credit for a channel was sent to a host, which it is owed.
fn given_back_at(credits: &mut Vec<HostCredits>, host: u8, channel: Channel)
    requires host { host < length credits.old.items }
    requires owed { MayGiveBack channel (credits_at host credits.old.items) }
    ensures { credits.new.items ≡ changed_at host (one_returned channel) credits.old.items }
{
    let own = &mut credits[host as usize];
    own.give_back(channel);
}

/// What was decided was sent, which credits pay for.
pub fn pay(credits: &mut Vec<HostCredits>, decision: Decision)
    requires { MayPay (heads_sent decision) credits.old.items }
    ensures { credits.new.items ≡ credits_paid (heads_sent decision) credits.old.items }
{
    match decision {
        Decision::Nothing => {}
        Decision::Completion { host, .. } => spent_at(credits, host, Channel::Ndr),
        Decision::Grant { host, .. } => {
            spent_at(credits, host, Channel::Ndr);
            spent_at(credits, host, Channel::Drs);
        }
        Decision::Snoop { host, .. } => spent_at(credits, host, Channel::BiSnp),
        Decision::Credit { host, channel } => given_back_at(credits, host, channel),
    }
}
