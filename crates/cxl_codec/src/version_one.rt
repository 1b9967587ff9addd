//! What version 1 of a trace has room for: tags below 65,536, and at most 64 tags in a setup (own rule).
ghost use Rattle.std.specs.Prelude.{◌≡◌};
ghost use Rattle.std.specs.List.{list_all};
ghost use Rattle.cxl_message.specs.Events.{outs};
ghost use Rattle.cxl_codec.specs.VersionOne.{fits_version_one as event_fits_version_one, cause_fits_version_one, is_short_tag, message_fits_version_one, setup_fits_version_one as header_fits_version_one};

use cxl_message::{Cause, Event, Message, Sends, Setup, Tag};

/// Version 1 has room for at most this many tags in a setup (own rule).
pub const MOST_SHORT_TAGS: u16 = 64;

/// Whether version 1 has room for every Tag of an event: each is below 65,536 (own rule).
pub fn fits_version_one(event: &Event) -> bool
    ensures { result ≡ event_fits_version_one event.now }
{
    cause_fits(&event.cause) && sends_fit(&event.sends)
}

/// Whether version 1 has room for the number of tags of a setup: it is at most 64 (own rule).
pub fn setup_fits_version_one(setup: &Setup) -> bool
    ensures { result ≡ header_fits_version_one setup.now }
{
    setup.tags() <= MOST_SHORT_TAGS
}

/// Whether version 1 has room for the Tag of a cause.
fn cause_fits(cause: &Cause) -> bool
    ensures { result ≡ cause_fits_version_one cause.now }
{
    match cause {
        Cause::Op { .. } => true,
        Cause::Take { message, .. } => message_fits(message),
        Cause::Act(act) => is_short(act.tag()),
    }
}

/// Whether version 1 has room for the Tags of what an event sends.
fn sends_fit(sends: &Sends) -> bool
    ensures { result ≡ list_all (λ o. message_fits_version_one o.message) (outs sends.now) }
{
    match sends {
        Sends::Nothing => true,
        Sends::One(out) => message_fits(&out.message),
        Sends::Two(first, second) => message_fits(&first.message) && message_fits(&second.message),
    }
}

/// Whether version 1 has room for the Tag of a message.
fn message_fits(message: &Message) -> bool
    ensures { result ≡ message_fits_version_one message.now }
{
    is_short(message.tag())
}

ghost use Rattle.std.specs.Prelude.{option_map};

/// Whether version 1 has room for a Tag, if there is one.
fn is_short(tag: Option<Tag>) -> bool
    ensures { result ≡ is_short_tag (option_map (λ t. t.0) tag) }
{
    match tag {
        Some(tag) => tag.0 < 65536,
        None => true,
    }
}
