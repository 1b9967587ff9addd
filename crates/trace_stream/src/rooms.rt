// Where a reader writes what it reads.
use arrayvec::ArrayVec;
use cxl_codec::Version;
use cxl_message::{Bytes64, Line, Setup};
use event_room::EventRoom;

/// Where a reader writes what it reads: of each kind of item the last one, so that no large item passes by value (own
/// rule).
#[derive(Drop)]
pub struct Room {
    /// The version of the last header.
    pub version: Version,
    /// The setup of the last header.
    pub setup: Setup,
    /// The stream of the last name record.
    pub stream: u8,
    /// The name of that stream.
    pub name: ArrayVec<u8, 32>,
    /// The line of the last opening record.
    pub line: Line,
    /// What that line holds at first.
    pub bytes: Bytes64,
    /// The last event.
    pub event: EventRoom,
}

impl Room {
    /// A room to be written over: version 1, a setup of the least numbers, stream 0 with no name, line 0 with all bytes
    /// zero, and an event that sends nothing.
    pub fn new() -> Room {
        Room {
            version: Version::One,
            setup: least_setup(),
            stream: 0,
            name: ArrayVec::new(),
            line: Line(0),
            bytes: Bytes64([0; 64]),
            event: EventRoom::new(),
        }
    }
}

/// The setup of the least numbers.
fn least_setup() -> Setup {
    match Setup::new(1, 1, 1, 1, 2, 2, &[]) {
        Ok(setup) => setup,
        Err(_) => unreachable!("each number is the least of its limits"),
    }
}
