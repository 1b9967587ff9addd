// The event of a cause in a room, and the change that it makes, by what is kept.
ghost use Rattle.std.specs.Prelude.{◌≡◌, ◌↔◌, IfOk, IsTrue, Ok, OnErr, false};
ghost use Rattle.host_home.specs.Contract.{answered_by};
ghost use Rattle.host_rows.specs.Answers.{emission_in, told};
ghost use Rattle.host_tables.specs.Agent.{agent_after, event_of};

use crate::agent::HostAgent;
use cxl_message::Cause;
use emissions::emits_same;
use event_room::EventRoom;
use host_rows::{HostRefusal, answer_into, change};

impl HostAgent {
    /// Writes the event of a cause into a room, by what is kept; else the room is as it was.
    pub(crate) fn answer_cause(
        &self,
        cause: &Cause,
        room: &mut EventRoom,
    ) -> Result<(), HostRefusal>
        ensures answer { told result room.new ≡ answered_by self.now cause.now }
        ensures event { IfOk result (λ u. room.new ≡ event_of self.now.host cause.now (emission_in room.new)) }
        ensures refused { OnErr result (room.new ≡ room.old) }
    {
        match answer_into(&self.tables, cause, room) {
            Ok(_) => Ok(()),
            Err(refusal) => Err(refusal),
        }
    }

    /// Makes the event of a cause in a room where it is allowed, by what is kept; else nothing changes.
    pub(crate) fn step_cause(
        &mut self,
        cause: &Cause,
        room: &mut EventRoom,
    ) -> Result<(), HostRefusal>
        ensures answer { told result room.new ≡ answered_by self.old cause.now }
        ensures event { IfOk result (λ u. room.new ≡ event_of self.old.host cause.now (emission_in room.new)) }
        ensures changed { IfOk result (λ u. self.new ≡ agent_after cause.now (emission_in room.new) self.old) }
        ensures refused { OnErr result (self.new ≡ self.old) }
        ensures room { OnErr result (room.new ≡ room.old) }
    {
        match answer_into(&self.tables, cause, room) {
            Ok(plan) => {
                change(&mut self.tables, cause, plan, room);
                Ok(())
            }
            Err(refusal) => Err(refusal),
        }
    }

    /// Makes the event of a cause where it sends and commits what the event in a room does, by what is kept; else nothing changes.
    pub(crate) fn step_cause_as(
        &mut self,
        cause: &Cause,
        wanted: &EventRoom,
        made: &mut EventRoom,
    ) -> bool
        ensures answer { IsTrue result ↔ (answered_by self.old cause.now ≡ Ok (emission_in wanted.now)) }
        ensures changed { IsTrue result → self.new ≡ agent_after cause.now (emission_in wanted.now) self.old }
        ensures refused { result ≡ false → self.new ≡ self.old }
    {
        match answer_into(&self.tables, cause, made) {
            Ok(plan) => {
                if !emits_same(made, wanted) {
                    return false;
                }
                change(&mut self.tables, cause, plan, made);
                true
            }
            Err(_) => false,
        }
    }
}
