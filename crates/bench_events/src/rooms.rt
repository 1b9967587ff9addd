// Events in rooms.
ghost use Rattle.std.specs.Prelude.{◌≡◌};

use cxl_message::Event;
use event_room::EventRoom;

/// The event in a room of its own.
pub fn room_of(event: &Event) -> EventRoom
    ensures { result ≡ event.now }
{
    let mut room = EventRoom::new();
    room.set(event);
    room
}
