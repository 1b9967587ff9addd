// A machine that is led along the events of a row.
use crate::changes::changed;
use crate::lines::line_of;
use crate::rows::Row;
use cxl_message::{Event, Op, Opening, RuleNo, Setup, SetupRefusal};
use event_room::EventRoom;
use machine::{HostRefusal, Machine};
use std::marker::Model;
use std::process::Abort;
use std::test::Fail;

/// The machine of a row, without a word of what it stands for: each call of it is made in a method of its own here, so that the proof of a
/// test needn't carry what the machine's clauses say.
#[derive(Drop)]
pub struct Walk {
    machine: Machine,
}

impl Model for Walk {
    ghost Value = { Unit {0} };

    ghost view = { λ w. tt };
}

impl Walk {
    /// The machine of a row's setup before the first event.
    pub fn new(rt: &impl AllocGlobal, row: &Row<'_>) -> Result<Walk, Fail> {
        let setup = setup_of(row)?;
        let opening = Opening::new(rt.alloc());
        let machine = Machine::open(rt.alloc(), &setup, &opening)?;
        Ok(Walk { machine })
    }

    pub fn choices(&self) -> u32 {
        self.machine.choices()
    }

    /// The next step of a number, if there is one.
    pub fn choice(&self, k: u32) -> Option<Event> {
        if k < self.machine.choices() {
            Some(self.machine.choice(k))
        } else {
            None
        }
    }

    /// Makes the next step of a number, if there is one.
    pub fn perform(&mut self, k: u32) -> Option<Event> {
        if k >= self.machine.choices() {
            return None;
        }
        let mut made = EventRoom::new();
        self.machine.perform(k, &mut made);
        Some(made.event())
    }

    /// What a stream is offered, if the setup has it.
    pub fn offer(&self, stream: u8, op: &Op) -> Option<Result<Event, HostRefusal>> {
        if self.machine.setup().stream_host(stream).is_none() {
            return None;
        }
        Some(self.machine.offer(stream, op))
    }

    pub fn apply(&mut self, event: &Event) -> Result<(), RuleNo> {
        self.machine.apply(event)
    }

    /// Applies an event from a room.
    pub fn judge(&mut self, event: &Event) -> Result<(), RuleNo> {
        let mut room = EventRoom::new();
        room.set(event);
        self.machine.judge(&room)
    }

    pub fn pending(&self) -> bool {
        self.machine.pending()
    }

    pub fn flight_weight(&self) -> u64 {
        self.machine.flight_weight()
    }

    pub fn hosts(&self) -> u8 {
        self.machine.hosts()
    }

    pub fn setup(&self) -> Setup {
        *self.machine.setup()
    }

    /// How many operations a stream began at a host, if there is the host.
    pub fn begun(&self, host: u8, stream: u8) -> Option<u32> {
        if host < self.machine.hosts() {
            Some(self.machine.host(host).stream_next(stream))
        } else {
            None
        }
    }

    pub fn device_pends(&self) -> bool {
        self.machine.device().pending()
    }
}

/// A row's setup.
fn setup_of(row: &Row<'_>) -> Result<Setup, SetupRefusal> {
    let (hosts, lines, entries, ways, tags, credits) = row.limits;
    Setup::new(hosts, lines, entries, ways, tags, credits, row.streams)
}

/// The next step that reads like a line of a row.
fn chosen(rt: &impl AllocGlobal, walk: &Walk, line: &str) -> Result<Event, Fail> {
    for k in 0..walk.choices() {
        let event = walk.choice(k).ok_or("a next step")?;
        if line_of(rt.alloc(), &event)?.as_str() == line {
            return Ok(event);
        }
    }
    Err("a next step that reads like the line")?
}

/// A stream's operation, as it is offered, which reads like a line of a row.
fn offered(rt: &impl AllocGlobal, walk: &Walk, next: (u8, Op), line: &str) -> Result<Event, Fail> {
    let (stream, op) = next;
    let event = walk.offer(stream, &op).ok_or("the stream")??;
    if line_of(rt.alloc(), &event)?.as_str() == line {
        Ok(event)
    } else {
        Err("an operation that reads like the line")?
    }
}

/// The event of this place in a row: an operation that is offered, or a next step.
pub fn event_at(
    rt: &impl AllocGlobal,
    walk: &Walk,
    row: &Row<'_>,
    place: usize,
) -> Result<Event, Fail> {
    let line = row.events.get(place).ok_or("an event")?;
    match row.operation_at(place) {
        Some(next) => offered(rt, walk, next, line),
        None => chosen(rt, walk, line),
    }
}

/// Tries an event of a row with each of its fields changed.
fn refused_with_changes(
    rt: &impl Abort,
    walk: &mut Walk,
    row: &Row<'_>,
    event: &Event,
    place: usize,
) {
    let (_, lines, _, _, tags, _) = row.limits;
    for (wrong, rule) in changed(event, lines, tags) {
        assert_eq!(rt; walk.apply(&wrong), Err(rule), "in place of event {place}");
    }
}

/// Goes on by the event of this place in a row, after the same event with one field changed is refused.
fn stepped(
    rt: &(impl Abort + AllocGlobal),
    walk: &mut Walk,
    row: &Row<'_>,
    place: usize,
) -> Result<(), Fail> {
    let event = event_at(rt, walk, row, place)?;
    refused_with_changes(rt, walk, row, &event, place);
    assert_eq!(rt; walk.apply(&event), Ok(()), "at event {place}");
    Ok(())
}

/// The machine after the first events of a row. Before each of them the same event with one field changed is refused.
pub fn walked(rt: &(impl Abort + AllocGlobal), row: &Row<'_>, count: usize) -> Result<Walk, Fail> {
    let mut walk = Walk::new(rt, row)?;
    for place in 0..count {
        stepped(rt, &mut walk, row, place)?;
    }
    Ok(walk)
}
