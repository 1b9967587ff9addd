// Rounds over one buffer of mixed event records, each group of eleven as in `bench_events`.
use bench_events::{
    answered, asked, begun, committed, conflicted, granted, group, returned, room_of, snooped,
    started, stored, weight_of, written,
};
use cxl_codec::{decode_room, encode_room};
use event_room::EventRoom;
use std::alloc::{AllocError, Global};

/// What is timed.
#[derive(Clone, Copy)]
pub enum Work {
    Encode,
    Decode,
    Copy,
}

impl Work {
    /// The work of this name.
    pub fn named(name: &str) -> Option<Work> {
        match name {
            "encode" => Some(Work::Encode),
            "decode" => Some(Work::Decode),
            "copy" => Some(Work::Copy),
            _ => None,
        }
    }
}

/// What a run went over. The weight stands for what a reader takes from the events. `same` says whether the last group
/// that was decoded, if any was, is as it was encoded, so that nothing that is decoded goes unread.
#[derive(Clone, Copy)]
pub struct Tally {
    pub records: u64,
    pub bytes: u64,
    pub weight: u64,
    pub same: bool,
}

impl Tally {
    /// Counts one record.
    fn add_record(&mut self, weight: u64) {
        self.records = self.records.wrapping_add(1);
        self.weight = self.weight.wrapping_add(weight);
    }

    /// Counts the bytes of one round.
    fn add_bytes(&mut self, bytes: usize) {
        self.bytes = self.bytes.wrapping_add(bytes as u64);
    }
}

/// Does the work so many rounds over so many groups of records.
pub fn run(alloc: Global, work: Work, groups: u32, rounds: u32) -> Result<Tally, AllocError> {
    let mut buffer = Vec::new(alloc);
    fill(groups, &mut buffer)?;
    let mut copy = Vec::new(alloc);
    copy.extend_from_slice(&buffer)?;
    let mut tally = Tally {
        records: 0,
        bytes: 0,
        weight: 0,
        same: true,
    };
    let mut rooms = Vec::new(alloc);
    for event in &group() {
        rooms.push(room_of(event))?;
    }
    for _ in 0..rounds {
        match work {
            Work::Encode => {
                copy.clear();
                fill(groups, &mut copy)?;
            }
            Work::Decode => decode(groups, &buffer, &mut rooms, &mut tally),
            Work::Copy => {
                copy.clear();
                copy.extend_from_slice(&buffer)?;
            }
        }
        tally.add_bytes(buffer.len());
    }
    tally.same = rooms
        .iter()
        .zip(&group())
        .all(|(room, event)| room.event() == *event);
    Ok(tally)
}

/// Appends so many groups of records.
fn fill(groups: u32, out: &mut Vec<u8>) -> Result<(), AllocError> {
    let begun = room_of(&begun());
    let asked = room_of(&asked());
    let started = room_of(&started());
    let snooped = room_of(&snooped());
    let conflicted = room_of(&conflicted());
    let answered = room_of(&answered());
    let granted = room_of(&granted());
    let committed = room_of(&committed());
    let stored = room_of(&stored());
    let written = room_of(&written());
    let returned = room_of(&returned());
    for _ in 0..groups {
        encode_room(&begun, out)?;
        encode_room(&asked, out)?;
        encode_room(&started, out)?;
        encode_room(&snooped, out)?;
        encode_room(&conflicted, out)?;
        encode_room(&answered, out)?;
        encode_room(&granted, out)?;
        encode_room(&committed, out)?;
        encode_room(&stored, out)?;
        encode_room(&written, out)?;
        encode_room(&returned, out)?;
    }
    Ok(())
}

/// Decodes so many groups of records from the front into the rooms, as far as there are any.
fn decode(groups: u32, bytes: &[u8], rooms: &mut [EventRoom], tally: &mut Tally) {
    let mut rest = bytes;
    for _ in 0..groups {
        for room in rooms.iter_mut() {
            let Ok(length) = decode_room(rest, room) else {
                return;
            };
            tally.add_record(weight_of(room));
            rest = rest.get(length..).unwrap_or(&[]);
        }
    }
}
