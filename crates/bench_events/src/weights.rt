// What a reader takes from an event.
use event_room::{EventRoom, SendsRef};

/// A number that depends on the parts of an event.
pub fn weight_of(event: &EventRoom) -> u64 {
    let sent: u64 = match event.sends() {
        SendsRef::Nothing => 0,
        SendsRef::One(_) => 1,
        SendsRef::Two(_, _) => 2,
    };
    let seen = match event.commit() {
        None => 0,
        Some(commit) => u64::from(commit.value[63]),
    };
    sent.wrapping_add(seen)
}
