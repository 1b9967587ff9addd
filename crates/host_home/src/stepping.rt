// What an agent answers to a cause, and the step that makes its event.
ghost use Rattle.std.specs.Prelude.{◌≡◌, ◌↔◌, ◌∷◌, IfOk, IsTrue, OnErr, false};
ghost use Rattle.coherence_model.specs.Refusals.{Answer, host_answer};
ghost use Rattle.host_home.specs.Contract.{StandsFor, WhereStands};
ghost use Rattle.host_rows.specs.Answers.{as_result, emission_in, told};
ghost use Rattle.host_tables.specs.Agent.{event_of};

use crate::agent::HostAgent;
use cxl_message::Cause;
use emissions::Emitted;
use event_room::EventRoom;
use host_rows::HostRefusal;

impl HostAgent {
    /// Writes the event that a cause would make into a room: its agent, its cause, and what the host would send and commit. Or it answers
    /// the first refusal, and leaves the room as it was: for an operation NoSuchLine, Again, NoTag, NoWay, NoCredit, Broken(P0),
    /// Broken(S0); for a take or an act Broken(P0), Broken(the row), NoCredit (own rule: the order). It takes no memory.
    #[tactic(auto, using(crate::proofs::Clauses::would_answers))]
    pub fn would_into(&self, cause: &Cause, room: &mut EventRoom) -> Result<(), HostRefusal>
        ensures answer { WhereStands self.now (λ setup h mine. told result room.new ≡ as_result (host_answer setup h cause.now mine)) }
        ensures agent { IfOk result (λ u. room.new.agent ≡ self.now.host) }
        ensures cause { IfOk result (λ u. room.new.cause ≡ cause.now) }
        ensures refused { OnErr result (room.new ≡ room.old) }
    {
        self.answer_cause(cause, room)
    }

    /// Makes the event of a cause where it is allowed, writes it into a room, and stands for the own events with it then; else it is
    /// refused as by `would_into`, and nothing changes, the room neither (own rule). It takes no memory.
    #[tactic(auto, using(crate::proofs::Clauses::would_answers, crate::proofs::Clauses::setup_stays, crate::proofs::Clauses::host_stays))]
    pub fn step_into(&mut self, cause: &Cause, room: &mut EventRoom) -> Result<(), HostRefusal>
        ensures answer { WhereStands self.old (λ setup h mine. told result room.new ≡ as_result (host_answer setup h cause.now mine)) }
        ensures agent { IfOk result (λ u. room.new.agent ≡ self.old.host) }
        ensures cause { IfOk result (λ u. room.new.cause ≡ cause.now) }
        ensures goes_on { WhereStands self.old (λ setup h mine. IfOk result (λ u. StandsFor self.new setup h (room.new ∷ mine))) }
        ensures refused { OnErr result (self.new ≡ self.old) }
        ensures room { OnErr result (room.new ≡ room.old) }
        ensures setup { self.new.setup ≡ self.old.setup }
        ensures host { self.new.host ≡ self.old.host }
    {
        self.step_cause(cause, room)
    }

    /// Makes the event of a cause where it sends and commits what the event in a room does, and stands for the own events with it then;
    /// else the answer is `false`, and nothing changes. The room `made` is written over with the event that the host answers, if it
    /// answers with one (own rule). It takes no memory.
    pub fn step_as(&mut self, cause: &Cause, wanted: &EventRoom, made: &mut EventRoom) -> bool
        ensures answer { WhereStands self.old (λ setup h mine. IsTrue result ↔ (host_answer setup h cause.now mine ≡ Answer.Emits (emission_in wanted.now))) }
        ensures goes_on { WhereStands self.old (λ setup h mine. IsTrue result → StandsFor self.new setup h (event_of h cause.now (emission_in wanted.now) ∷ mine)) }
        ensures refused { result ≡ false → self.new ≡ self.old }
        ensures setup { self.new.setup ≡ self.old.setup }
        ensures host { self.new.host ≡ self.old.host }
    {
        self.step_cause_as(cause, wanted, made)
    }

    /// What the host would send and commit for a cause, or its first refusal: for an operation NoSuchLine, Again, NoTag, NoWay,
    /// NoCredit, Broken(P0), Broken(S0); for a take or an act Broken(P0), Broken(the row), NoCredit (own rule: the order). It changes
    /// nothing and takes no memory.
    pub fn would(&self, cause: &Cause) -> Result<Emitted, HostRefusal>
        ensures answer { WhereStands self.now (λ setup h mine. result ≡ as_result (host_answer setup h cause.now mine)) }
    {
        let mut room = EventRoom::new();
        match self.would_into(cause, &mut room) {
            Ok(()) => Ok(Emitted::of(&room)),
            Err(refusal) => Err(refusal),
        }
    }

    /// Makes the event of a cause where it is allowed, and stands for the own events with it then; else it is refused as by
    /// `would`, and nothing changes (own rule). It takes no memory.
    pub fn step(&mut self, cause: &Cause) -> Result<Emitted, HostRefusal>
        ensures answer { WhereStands self.old (λ setup h mine. result ≡ as_result (host_answer setup h cause.now mine)) }
        ensures goes_on { WhereStands self.old (λ setup h mine. IfOk result (λ w. StandsFor self.new setup h (event_of h cause.now w ∷ mine))) }
        ensures refused { OnErr result (self.new ≡ self.old) }
        ensures setup { self.new.setup ≡ self.old.setup }
        ensures host { self.new.host ≡ self.old.host }
    {
        let mut room = EventRoom::new();
        match self.step_into(cause, &mut room) {
            Ok(()) => Ok(Emitted::of(&room)),
            Err(refusal) => Err(refusal),
        }
    }
}
