// The messages that an event moves: the one that it takes, and those that it sends.
ghost use Rattle.std.specs.Prelude.{◌≡◌};
ghost use Rattle.event_room.specs.Parts.{message_of};
ghost use Rattle.link_queues.specs.Links.{HasRoom, HasRoomFor, TakesFromHost, after_cause, after_sends, with_sent};

use cxl_message::Cause;
use event_room::{EventRoom, MessageRef, OutRef, SendsRef};
use link_queues::CountedLinks;

/// Takes the message of a cause away, and sends the messages of the event in a room, in order.
pub fn move_made(links: &mut CountedLinks, cause: &Cause, made: &EventRoom)
    requires takes { TakesFromHost links.old cause.now }
    requires room { HasRoomFor (after_cause cause.now links.old) made.now.sends }
    ensures { links.new ≡ after_sends made.now.sends (after_cause cause.now links.old) }
{
    take_message(links, cause);
    match made.sends() {
        SendsRef::Nothing => {}
        SendsRef::One(out) => send_out(links, out),
        SendsRef::Two(first, second) => {
            send_out(links, first);
            send_out(links, second);
        }
    }
}

/// Sends a message.
fn send_out(links: &mut CountedLinks, out: OutRef<'_>)
    requires { HasRoom links.old out.host (message_of out.message) }
    ensures { links.new ≡ with_sent out.entry.host (message_of out.entry.message) links.old }
{
    links.send(out.host, out.message);
}

/// Takes the message of a cause away, if it takes one.
fn take_message(links: &mut CountedLinks, cause: &Cause)
    requires { TakesFromHost links.old cause.now }
    ensures { links.new ≡ after_cause cause.now links.old }
{
    match cause {
        Cause::Take { host, message } => links.take(*host, MessageRef::of(message)),
        Cause::Op { .. } => {}
        Cause::Act(_) => {}
    }
}
