// Applying an event.
ghost use Rattle.std.specs.Prelude.{◌≡◌, ◌∷◌, IsTrue, OnErr, OnOk, false, true};
ghost use Rattle.answer_laws.specs.Answered.{is_answered};
ghost use Rattle.coherence_model.specs.Fitting.{is_device as agent_is_device};
ghost use Rattle.coherence_model.specs.Runs.{first_broken as first_rule_broken};
ghost use Rattle.coherence_model.specs.Traces.{events_of};
ghost use Rattle.machine.specs.Going.{KeepsFirstRules};
ghost use Rattle.machine.specs.Stands.{StandsFor, WhereStands, verdict};

use crate::agents::follow_at_host;
use crate::judging::is_device;
use crate::machine::Machine;
use crate::moving::move_made;
use cxl_message::{Event, RuleNo};
use event_room::EventRoom;

impl Machine {
    /// Applies an event that is allowed after the run that the machine stands for (CXL 3.1, chapter 3: the flows of HDM-DB), and stands
    /// for the run with it then. Any other event is refused by the first rule that it breaks, in the order P0, K0, S0, the row, and
    /// changes nothing (own rule: the order). It takes no memory.
    pub fn apply(&mut self, event: &Event) -> Result<(), RuleNo>
        ensures answer { WhereStands self.old (λ setup opening t. result ≡ verdict (first_rule_broken setup opening t event.now)) }
        ensures goes_on { WhereStands self.old (λ setup opening t. OnOk result (StandsFor self.new setup opening (event.now ∷ t))) }
        ensures refused { OnErr result (self.new ≡ self.old) }
    {
        let mut room = EventRoom::new();
        room.set(event);
        self.judge(&room)
    }

    /// Applies the event in a room, as `apply` does. The row is decided once. It takes no memory.
    pub fn judge(&mut self, event: &EventRoom) -> Result<(), RuleNo>
        ensures answer { WhereStands self.old (λ setup opening t. result ≡ verdict (first_rule_broken setup opening t event.now)) }
        ensures goes_on { WhereStands self.old (λ setup opening t. OnOk result (StandsFor self.new setup opening (event.now ∷ t))) }
        ensures refused { OnErr result (self.new ≡ self.old) }
    {
        let value = event.event();
        if let Some(rule) = self.broken_before_row(&value) {
            return Err(rule);
        }
        if !self.follow(&value, event) {
            return Err(self.row_of(&value));
        }
        Ok(())
    }

    /// Goes on by an event that keeps P0, K0 and S0, where its agent answers its cause with it; else nothing changes. The room has the
    /// event.
    fn follow(&mut self, event: &Event, room: &EventRoom) -> bool
        requires keeps { KeepsFirstRules self.old event.now }
        requires room { room.now ≡ event.now }
        ensures answered { WhereStands self.old (λ setup opening t. result ≡ is_answered setup opening event.now (events_of event.now.agent t)) }
        ensures goes_on { IsTrue result → WhereStands self.old (λ setup opening t. StandsFor self.new setup opening (event.now ∷ t)) }
        ensures refused { result ≡ false → self.new ≡ self.old }
    {
        if is_device(event.agent) {
            self.follow_of_device(event, room)
        } else {
            self.follow_of_host(event, room)
        }
    }

    /// Goes on by an event of the device.
    fn follow_of_device(&mut self, event: &Event, room: &EventRoom) -> bool
        requires keeps { KeepsFirstRules self.old event.now }
        requires room { room.now ≡ event.now }
        requires device { agent_is_device event.now.agent ≡ true }
        ensures answered { WhereStands self.old (λ setup opening t. result ≡ is_answered setup opening event.now (events_of event.now.agent t)) }
        ensures goes_on { IsTrue result → WhereStands self.old (λ setup opening t. StandsFor self.new setup opening (event.now ∷ t)) }
        ensures refused { result ≡ false → self.new ≡ self.old }
    {
        let mut made = EventRoom::new();
        if !self.device.follow(&event.cause, room, &mut made) {
            return false;
        }
        move_made(&mut self.links, &event.cause, room);
        true
    }

    /// Goes on by an event of a host.
    fn follow_of_host(&mut self, event: &Event, room: &EventRoom) -> bool
        requires keeps { KeepsFirstRules self.old event.now }
        requires room { room.now ≡ event.now }
        requires host { agent_is_device event.now.agent ≡ false }
        ensures answered { WhereStands self.old (λ setup opening t. result ≡ is_answered setup opening event.now (events_of event.now.agent t)) }
        ensures goes_on { IsTrue result → WhereStands self.old (λ setup opening t. StandsFor self.new setup opening (event.now ∷ t)) }
        ensures refused { result ≡ false → self.new ≡ self.old }
    {
        let mut made = EventRoom::new();
        if !follow_at_host(&mut self.hosts, event.agent, &event.cause, room, &mut made) {
            return false;
        }
        move_made(&mut self.links, &event.cause, room);
        true
    }
}
