// The device agent.
ghost use Rattle.std.specs.Prelude.{◌≡◌, ◌<◌, ◌↔◌, ◌∷◌, [], Err, IfOk, IsTrue, OnErr, OnOk, false, length, slice_get};
ghost use Rattle.cxl_message.specs.Opening.{opening_fits};
ghost use Rattle.coherence_model.specs.Directory.{is_busy as is_busy_in};
ghost use Rattle.coherence_model.specs.DirectoryChanges.{directory};
ghost use Rattle.coherence_model.specs.Memory.{memory as memory_of};
ghost use Rattle.coherence_model.specs.Next.{event_with};
ghost use Rattle.coherence_model.specs.Pending.{device_pending};
ghost use Rattle.coherence_model.specs.Refusals.{Answer, device_answer};
ghost use Rattle.coherence_model.specs.Traces.{device};
ghost use Rattle.coherence_model.specs.Weight.{device_weight};
ghost use Rattle.device_engine.specs.Contract.{IsBy, StandsFor, WhereStands, acts_after, emission_of, made};
ghost use Rattle.device_rows.specs.Answering.{answered};
ghost use Rattle.device_engine.specs.declared.answers.OpenDeviceRefusal.{OpenDeviceRefusal as Refused};

use crate::answers::OpenDeviceRefusal;
use cxl_message::{Act, Bytes64, Cause, Line, Listing, Opening, Setup};
use device_acts::{act_at, act_count, pending, weight};
use device_changes::change;
use device_rows::{DeviceRefusal, answer_into};
use device_state::{Tables, open_tables};
use emissions::{Emitted, emits_same};
use event_room::EventRoom;
use std::alloc::Global;
use std::marker::Model;

/// The device agent (own rule).
///
/// A contract sees its setup and the record of what it keeps, and speaks of each setup, opening and list of own events
/// that it stands for. It stands for some list at any time. Only `open` takes memory.
#[derive(Drop)]
pub struct DeviceAgent {
    tables: Tables,
}

impl Model for DeviceAgent {
    ghost use Rattle.device_state.specs.Agent.{AgentRecord};
    ghost use Rattle.device_engine.specs.Contract.{StandsForSome};

    ghost Value = { AgentRecord };

    ghost view = { λ d. d.tables };

    ghost invariant = { λ d. StandsForSome d.tables };
}

impl DeviceAgent {
    /// The device before its first event, with memory as the opening has it. `BadOpening` is answered exactly where the
    /// opening names a line that the setup hasn't; any other refusal is want of memory, which is all taken here.
    pub fn open(
        alloc: Global,
        setup: &Setup,
        opening: &Opening,
    ) -> Result<DeviceAgent, OpenDeviceRefusal>
        ensures bad_opening { (result ≡ Err Refused.BadOpening) ↔ (opening_fits setup.now.lines opening.now ≡ false) }
        ensures stands { IfOk result (λ agent. StandsFor agent setup.now opening.now []) }
    {
        if !opening.fits(setup) {
            return Err(OpenDeviceRefusal::BadOpening);
        }
        let _within = setup.hosts();
        match open_tables(alloc, setup, opening) {
            Ok(tables) => Ok(DeviceAgent { tables }),
            Err(_) => Err(OpenDeviceRefusal::Memory),
        }
    }

    /// What a cause would bring: rule P0 is tried, then the row, then the credits for what the row sends, NDR before DRS.
    /// Nothing changes.
    pub fn would(&self, cause: &Cause) -> Result<Emitted, DeviceRefusal>
        ensures answer { WhereStands self.now (λ setup opening mine. answered result ≡ device_answer setup opening cause.now mine) }
    {
        let mut room = EventRoom::new();
        match self.would_into(cause, &mut room) {
            Ok(()) => Ok(Emitted::of(&room)),
            Err(refusal) => Err(refusal),
        }
    }

    /// Makes the event of a cause, where it would bring one: the device stands for its list with this event then. A refusal
    /// is the answer of `would`, and changes nothing.
    pub fn step(&mut self, cause: &Cause) -> Result<Emitted, DeviceRefusal>
        ensures answer { WhereStands self.old (λ setup opening mine. answered result ≡ device_answer setup opening cause.now mine) }
        ensures goes_on { IfOk result (λ w. WhereStands self.old (λ setup opening mine. StandsFor self.new setup opening (event_with device cause.now w ∷ mine))) }
        ensures refused { OnErr result (self.new ≡ self.old) }
        ensures setup { self.new.setup ≡ self.old.setup }
    {
        let mut room = EventRoom::new();
        match self.step_into(cause, &mut room) {
            Ok(()) => Ok(Emitted::of(&room)),
            Err(refusal) => Err(refusal),
        }
    }

    /// Makes the event that a cause would bring in a room, as `would` answers it: rule P0 is tried, then the row, then the
    /// credits for what the row sends, NDR before DRS. The device doesn't change, and a refusal leaves the room as it was.
    pub fn would_into(&self, cause: &Cause, room: &mut EventRoom) -> Result<(), DeviceRefusal>
        ensures answer { WhereStands self.now (λ setup opening mine. made result room.new ≡ device_answer setup opening cause.now mine) }
        ensures event { OnOk result (IsBy device cause.now room.new) }
        ensures refused { OnErr result (room.new ≡ room.old) }
    {
        match answer_into(&self.tables, cause, room) {
            Ok(_decision) => Ok(()),
            Err(refusal) => Err(refusal),
        }
    }

    /// Makes the event of a cause in a room, where it would bring one, and goes on by it: the device stands for its list with
    /// the event of the room then. A refusal is the answer of `would_into`; it leaves the device and the room as they were.
    pub fn step_into(&mut self, cause: &Cause, room: &mut EventRoom) -> Result<(), DeviceRefusal>
        ensures answer { WhereStands self.old (λ setup opening mine. made result room.new ≡ device_answer setup opening cause.now mine) }
        ensures event { OnOk result (IsBy device cause.now room.new) }
        ensures goes_on { OnOk result (WhereStands self.old (λ setup opening mine. StandsFor self.new setup opening (room.new ∷ mine))) }
        ensures refused { OnErr result (self.new ≡ self.old) }
        ensures unmade { OnErr result (room.new ≡ room.old) }
        ensures setup { self.new.setup ≡ self.old.setup }
    {
        match answer_into(&self.tables, cause, room) {
            Ok(decision) => {
                change(&mut self.tables, cause, decision);
                Ok(())
            }
            Err(refusal) => Err(refusal),
        }
    }

    /// Makes the event of a cause, where it sends and commits what the event in a room does, and goes on by it: the device stands for its
    /// list with this event then. Else the answer is `false`, and the device doesn't change. The room `made` is written over with the event
    /// that the cause would bring, if it brings one.
    pub fn step_as(&mut self, cause: &Cause, wanted: &EventRoom, made: &mut EventRoom) -> bool
        ensures answer { WhereStands self.old (λ setup opening mine. IsTrue result ↔ (device_answer setup opening cause.now mine ≡ Answer.Emits (emission_of wanted.now))) }
        ensures goes_on { WhereStands self.old (λ setup opening mine. IsTrue result → StandsFor self.new setup opening (event_with device cause.now (emission_of wanted.now) ∷ mine)) }
        ensures refused { result ≡ false → self.new ≡ self.old }
        ensures setup { self.new.setup ≡ self.old.setup }
    {
        match answer_into(&self.tables, cause, made) {
            Ok(decision) => {
                if !emits_same(made, wanted) {
                    return false;
                }
                change(&mut self.tables, cause, decision);
                true
            }
            Err(_) => false,
        }
    }

    /// The first act that the device's rows allow, in the order of the next steps: serves, then what is allowed of Clean,
    /// Start and Evict, then the snoops and the end of each task, then the returns.
    pub fn first_act(&self) -> Option<Act>
        ensures first { WhereStands self.now (λ setup opening mine. result ≡ slice_get (acts_after setup opening mine) 0) }
    {
        self.act_at(0)
    }

    /// How many acts the device's rows allow.
    pub fn act_count(&self) -> u32
        ensures count { WhereStands self.now (λ setup opening mine. result ≡ length (acts_after setup opening mine)) }
    {
        act_count(&self.tables)
    }

    /// The act of a number among those that the device's rows allow, in their order: `None` where there are no more.
    pub fn act_at(&self, k: u32) -> Option<Act>
        ensures act { WhereStands self.now (λ setup opening mine. result ≡ slice_get (acts_after setup opening mine) k) }
    {
        act_at(&self.tables, k)
    }

    /// The bytes of a line of memory, which exists.
    pub fn memory(&self, line: Line) -> Bytes64
        requires line { line.0 < self.now.setup.lines }
        ensures bytes { WhereStands self.now (λ setup opening mine. result ≡ memory_of opening line.0 mine) }
    {
        self.tables.bytes(line)
    }

    /// How a host is listed for a line; both exist.
    pub fn listed(&self, line: Line, host: u8) -> Listing
        requires line { line.0 < self.now.setup.lines }
        requires host { host < self.now.setup.hosts }
        ensures listing { WhereStands self.now (λ setup opening mine. result ≡ (directory setup mine).listed line.0 host) }
    {
        self.tables.listing(line, host)
    }

    /// Whether a line, which exists, is Busy.
    pub fn is_busy(&self, line: Line) -> bool
        requires line { line.0 < self.now.setup.lines }
        ensures busy { WhereStands self.now (λ setup opening mine. result ≡ is_busy_in (directory setup mine) line.0) }
    {
        self.tables.is_held(line)
    }

    /// Whether some line is Busy or a Req or RwD message is buffered.
    pub fn pending(&self) -> bool
        ensures pending { WhereStands self.now (λ setup opening mine. result ≡ device_pending setup mine) }
    {
        pending(&self.tables)
    }

    /// What the device adds to the weight: what it owes, its buffered messages and its tasks.
    pub fn weight(&self) -> u64
        ensures weight { WhereStands self.now (λ setup opening mine. result ≡ device_weight setup mine) }
    {
        weight(&self.tables)
    }
}
