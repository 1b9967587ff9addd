// Laps of turns: their causes are made, an agent steps by them, or the events of the first lap are encoded.
use crate::agents::{AgentRefusal, AgentTally, AgentWork};
use crate::recorded::Recorded;
use cxl_message::Cause;
use event_room::EventRoom;
use std::alloc::{AllocError, Global};

/// How many turns a lap has.
const TURNS: u32 = 16;

/// An agent that is timed, and the turns that it goes through.
pub trait TimedAgent {
    /// Appends the causes of a turn: the first one has number 0. The error is want of memory.
    fn push_turn(&self, turn: u32, causes: &mut Vec<Cause>) -> Result<(), AllocError>;

    /// Makes the event of a cause in a room, and answers whether the agent takes the cause.
    fn step(&mut self, cause: &Cause, room: &mut EventRoom) -> bool;
}

/// Does the work so many laps. A cause that the agent refuses ends it.
pub fn run_laps<T: TimedAgent>(
    alloc: Global,
    work: AgentWork,
    laps: u32,
    agent: &mut T,
) -> Result<AgentTally, AgentRefusal> {
    let mut causes = Vec::new(alloc);
    match work {
        AgentWork::Causes => make_laps(laps, agent, &mut causes),
        AgentWork::Step => step_laps(laps, agent, &mut causes),
        AgentWork::Encode => {
            push_lap(agent, 0, &mut causes)?;
            let records = records_of(alloc, agent, &causes)?;
            encode_laps(alloc, laps, &records)
        }
    }
}

/// The agent steps by some causes, and makes each event in the same room. A cause that it refuses ends that.
pub fn step_by<T: TimedAgent>(
    agent: &mut T,
    causes: &[Cause],
    tally: &mut AgentTally,
) -> Result<(), AgentRefusal> {
    let mut room = EventRoom::new();
    for (place, cause) in causes.iter().enumerate() {
        if !agent.step(cause, &mut room) {
            return Err(AgentRefusal::Refused(place));
        }
        tally.add_event(&room);
    }
    Ok(())
}

/// Makes the causes of so many laps, and counts nothing.
fn make_laps<T: TimedAgent>(
    laps: u32,
    agent: &T,
    causes: &mut Vec<Cause>,
) -> Result<AgentTally, AgentRefusal> {
    for lap in 0..laps {
        push_lap(agent, lap, causes)?;
    }
    Ok(AgentTally::new())
}

/// The agent steps by the causes of so many laps.
fn step_laps<T: TimedAgent>(
    laps: u32,
    agent: &mut T,
    causes: &mut Vec<Cause>,
) -> Result<AgentTally, AgentRefusal> {
    let mut tally = AgentTally::new();
    for lap in 0..laps {
        push_lap(agent, lap, causes)?;
        step_by(agent, causes, &mut tally)?;
    }
    Ok(tally)
}

/// Encodes the events of a lap so many times, each time into the same buffer.
fn encode_laps(alloc: Global, laps: u32, records: &[Recorded]) -> Result<AgentTally, AgentRefusal> {
    let mut tally = AgentTally::new();
    let mut out = Vec::new(alloc);
    for _ in 0..laps {
        out.clear();
        for record in records {
            record.encode(&mut out)?;
        }
        tally.add_records(records.len(), out.len());
    }
    Ok(tally)
}

/// The causes of a lap, in place of those that were there.
fn push_lap<T: TimedAgent>(agent: &T, lap: u32, causes: &mut Vec<Cause>) -> Result<(), AllocError> {
    causes.clear();
    let first = lap.wrapping_mul(TURNS);
    for turn in 0..TURNS {
        agent.push_turn(first.wrapping_add(turn), causes)?;
    }
    Ok(())
}

/// The events of some causes, each in a room of its own.
fn records_of<T: TimedAgent>(
    alloc: Global,
    agent: &mut T,
    causes: &[Cause],
) -> Result<Vec<Recorded>, AgentRefusal> {
    let mut records = Vec::with_capacity(alloc, causes.len())?;
    for (place, cause) in causes.iter().enumerate() {
        let mut room = EventRoom::new();
        if !agent.step(cause, &mut room) {
            return Err(AgentRefusal::Refused(place));
        }
        let Some(record) = Recorded::new(room) else {
            return Err(AgentRefusal::Unrecorded(place));
        };
        records.push(record)?;
    }
    Ok(records)
}
