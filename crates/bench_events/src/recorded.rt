// Events that are known to have a record.
ghost use Rattle.std.specs.Prelude.{◌≡◌, ◌++◌, IfSome, IsTrue, OnOk};
ghost use Rattle.cxl_codec.specs.Traces.{event_bytes};

use cxl_codec::{encode_room, fits_version_one};
use cxl_message::well_formed;
use event_room::EventRoom;
use std::alloc::AllocError;
use std::marker::Model;

/// An event in a room that is well formed and fits version 1 of the records, so that it has one. Clauses see the event.
#[derive(Drop)]
pub struct Recorded {
    room: EventRoom,
}

impl Model for Recorded {
    ghost use Rattle.cxl_message.specs.declared.events.Event.{Event};
    ghost use Rattle.cxl_message.specs.Formed.{well_formed as is_well_formed};
    ghost use Rattle.cxl_codec.specs.VersionOne.{fits_version_one as has_version_one};
    ghost use Rattle.std.specs.Prelude.{IsTrue};

    ghost Value = { Event };

    ghost view = { λ r. r.room };

    ghost invariant = { λ r. IsTrue (is_well_formed r.room) × IsTrue (has_version_one r.room) };
}

impl Recorded {
    /// The event in a room, if it has a record.
    pub fn new(room: EventRoom) -> Option<Recorded>
        ensures { IfSome result (λ recorded. recorded ≡ room) }
    {
        let event = room.event();
        if well_formed(&event) && fits_version_one(&event) {
            Some(Recorded { room })
        } else {
            None
        }
    }

    /// Appends the record of the event. The error is want of memory.
    pub fn encode(&self, out: &mut Vec<u8>) -> Result<(), AllocError>
        ensures { OnOk result (out.new.items ≡ out.old.items ++ event_bytes self.now) }
    {
        encode_room(&self.room, out)
    }
}
