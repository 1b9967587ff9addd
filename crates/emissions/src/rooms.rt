// What the event in a room sends and commits.
ghost use Rattle.std.specs.Prelude.{◌≡◌, ◌↔◌, IsTrue};
ghost use Rattle.emissions.specs.Emitting.{emission_of};

use crate::emitted::Emitted;
use event_room::{CommitRef, EventRoom};

impl Emitted {
    /// What the event in a room sends and commits.
    pub fn of(room: &EventRoom) -> Emitted
        ensures { result ≡ emission_of room.now }
    {
        Emitted {
            sends: room.sends().sends(),
            commit: room.commit().map(CommitRef::commit),
        }
    }
}

/// Whether the events in two rooms send and commit the same.
pub fn emits_same(room: &EventRoom, other: &EventRoom) -> bool
    ensures { IsTrue result ↔ (emission_of room.now ≡ emission_of other.now) }
{
    room.sends_match(other) && room.commit_matches(other)
}
