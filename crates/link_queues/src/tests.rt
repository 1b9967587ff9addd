use super::*;
use cxl_message::{Bytes64, Message, NdrOp, Setup, Tag};
use event_room::MessageRef;
use std::test::Fail;

/// A BI-ConflictAck with tag 0.
const ACK: Message = Message::Ndr {
    op: NdrOp::ConflictAck,
    tag: Tag(0),
};

/// The completion with tag 0.
const DONE: Message = Message::Ndr {
    op: NdrOp::CmpE,
    tag: Tag(0),
};

/// Sends a message to host 0, where there is room.
fn send(links: &mut LinkQueues, message: &Message) -> bool {
    let sent = MessageRef::of(message);
    let free = links.has_room(0, sent);
    if free {
        links.send(0, sent);
    }
    free
}

/// The message of host 0 with a number among those that may be taken.
fn takeable(links: &LinkQueues, k: u32) -> Option<Message> {
    let _hosts = links.hosts();
    match links.takeable_at(0, k) {
        Some(message) => Some(message.message()),
        None => None,
    }
}

/// Takes a message of host 0.
fn take(links: &mut LinkQueues, message: &Message) {
    let _hosts = links.hosts();
    links.take(0, MessageRef::of(message));
}

/// A MemData with tag 1.
fn data(byte: u8) -> Message {
    Message::MemData {
        tag: Tag(1),
        bytes: Bytes64([byte; 64]),
    }
}

/// One host with two credits.
fn opened(rt: &HostRuntime) -> Result<LinkQueues, Fail> {
    let setup = Setup::new(1, 4, 4, 4, 2, 2, &[])?;
    Ok(LinkQueues::open(rt.alloc(), &setup)?)
}

#[test]
fn an_acknowledgement_waits_for_the_earlier_completion(rt: HostRuntime) -> Result<(), Fail> {
    let mut links = opened(&rt)?;
    assert!(rt; send(&mut links, &DONE));
    assert!(rt; send(&mut links, &ACK));
    assert!(rt; !send(&mut links, &DONE));
    assert_eq!(rt; takeable(&links, 0), Some(DONE));
    assert_eq!(rt; takeable(&links, 1), None);
    take(&mut links, &DONE);
    assert_eq!(rt; takeable(&links, 0), Some(ACK));
    assert_eq!(rt; links.weight(), 3);
    Ok(())
}

#[test]
fn the_first_of_equal_messages_is_taken(rt: HostRuntime) -> Result<(), Fail> {
    let mut links = opened(&rt)?;
    assert!(rt; send(&mut links, &data(7)));
    assert!(rt; send(&mut links, &data(9)));
    take(&mut links, &data(7));
    assert!(rt; send(&mut links, &data(7)));
    assert_eq!(rt; takeable(&links, 0), Some(data(9)));
    assert_eq!(rt; takeable(&links, 1), Some(data(7)));
    assert_eq!(rt; takeable(&links, 2), None);
    Ok(())
}
