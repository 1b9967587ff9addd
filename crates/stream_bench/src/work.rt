// Rounds over one trace of mixed event records, each group of eleven as in `bench_events`.
use crate::reading::{decode, read};
use crate::writing::{encode, trace_of, write};
use bench_events::weight_of;
use event_room::EventRoom;
use std::alloc::{AllocError, Global};

/// What is timed.
#[derive(Clone, Copy)]
pub enum Work {
    Decode,
    Read,
    Encode,
    Write,
}

impl Work {
    /// The work of this name.
    pub fn named(name: &str) -> Option<Work> {
        match name {
            "decode" => Some(Work::Decode),
            "read" => Some(Work::Read),
            "encode" => Some(Work::Encode),
            "write" => Some(Work::Write),
            _ => None,
        }
    }
}

/// How many groups of records a trace has, how many rounds go over it, and the most bytes of a piece.
#[derive(Clone, Copy)]
pub struct Size {
    pub groups: u32,
    pub rounds: u32,
    pub piece: u32,
}

/// What a run went over. The weight stands for what a reader takes from the events. `same` says whether each trace that
/// was read ended with its end record, and each that was written has as many bytes.
#[derive(Clone, Copy)]
pub struct Tally {
    pub records: u64,
    pub bytes: u64,
    pub weight: u64,
    pub same: bool,
}

impl Tally {
    /// Counts one event.
    pub fn add_event(&mut self, event: &EventRoom) {
        self.records = self.records.wrapping_add(1);
        self.weight = self.weight.wrapping_add(weight_of(event));
    }

    /// Counts the records of so many groups.
    pub fn add_groups(&mut self, groups: u32) {
        self.records = self.records.wrapping_add(11 * u64::from(groups));
    }

    /// Counts the bytes of one round.
    pub fn add_bytes(&mut self, bytes: usize) {
        self.bytes = self.bytes.wrapping_add(bytes as u64);
    }
}

/// Does the work so many rounds over a trace of so many groups of records.
pub fn run(alloc: Global, work: Work, size: Size) -> Result<Tally, AllocError> {
    let trace = trace_of(alloc, size.groups)?;
    let mut room = EventRoom::new();
    let mut tally = Tally {
        records: 0,
        bytes: 0,
        weight: 0,
        same: true,
    };
    for _ in 0..size.rounds {
        match work {
            Work::Decode => decode(&trace, &mut room, &mut tally),
            Work::Read => read(alloc, &trace, size.piece, &mut tally)?,
            Work::Encode => encode(alloc, &trace, size.groups, &mut tally)?,
            Work::Write => write(alloc, &trace, size, &mut tally)?,
        }
    }
    Ok(tally)
}
