// Marks whose condition a machine shows, or the host's own agent.
ghost use Rattle.std.specs.Prelude.{IfErr, IfOk, IsTrue, OnErr, OnOk, length, ◌+◌, ◌<◌, ◌⊎◌, ◌∷◌, ◌≡◌, ◌≤◌};
ghost use Rattle.fabric_rule.specs.Fronts.{HasAllOf};
ghost use Rattle.fabric_rule.specs.Values.{mine};
ghost use Rattle.machine.specs.Stands.{StandsFor};
ghost use Rattle.board_trial.specs.Trial.{CameLater, HasMarked, IsBroken, IsRefusedByHost, ShowsOwn, is_operation};
ghost use Rattle.board_trial.specs.declared.marks.Refused.TheVariants.{Broken, Host, Memory};

use cxl_message::{Cause, Event, RuleNo};
use fabric_rule::{AgentSeat, Board, Note};
use host_home::{HostAgent, HostRefusal};
use machine::Machine;
use std::alloc::AllocError;
use thiserror::Error;

/// Why an event isn't marked, or isn't marked as the next.
#[derive(Clone, Copy, PartialEq, Eq, Debug, Error)]
pub enum Refused {
    /// The machine refuses the event by this rule.
    #[error("broken rule")]
    Broken(RuleNo),
    /// The host's agent refuses the cause.
    #[error("host refuses")]
    Host(HostRefusal),
    /// The host's agent makes another event of the cause.
    #[error("another event of the cause")]
    OtherEvent,
    /// Another event came between.
    #[error("not the next event")]
    NotNext,
    /// No seat is the agent's, or the agents have no room for more events.
    #[error("no seat or no room")]
    NoRoom,
    /// There is no memory.
    #[error("memory")]
    Memory,
}

impl From<RuleNo> for Refused {
    ghost from_gives = { λ rule refused. refused ≡ Broken rule };

    fn from(rule: RuleNo) -> Refused {
        Refused::Broken(rule)
    }
}

impl From<HostRefusal> for Refused {
    ghost from_gives = { λ refusal refused. refused ≡ Host refusal };

    fn from(refusal: HostRefusal) -> Refused {
        Refused::Host(refusal)
    }
}

impl From<AllocError> for Refused {
    ghost from_gives = { λ _ refused. refused ≡ Memory };

    fn from(_: AllocError) -> Refused {
        Refused::Memory
    }
}

/// Marks an event of any kind. The note has the whole run, for which the machine stands, so the machine shows that the event is
/// allowed. Where the event's number is the length of that run, nothing came between.
pub fn mark_next(
    board: &Board,
    machine: &mut Machine,
    note: Note,
    count: u64,
    seat: &mut AgentSeat,
    event: &Event,
) -> Result<Note, Refused>
    requires board { seat.old.board ≡ board.now.id }
    requires note { note.board ≡ board.now.id }
    requires count { length note.seen ≡ count }
    requires stands { StandsFor machine.old board.now.setup board.now.opening note.seen }
    requires own { HasAllOf seat.old.agent seat.old.seen note.seen }
    requires agent { event.now.agent ≡ seat.old.agent }
    requires room { length (mine seat.old) < board.now.room }
    ensures board { seat.new.board ≡ seat.old.board }
    ensures agent { seat.new.agent ≡ seat.old.agent }
    ensures seen { OnOk result (seat.new.seen ≡ event.now ∷ note.seen) }
    ensures note { IfOk result (λ n. (n.board ≡ board.now.id) × (n.seen ≡ event.now ∷ note.seen)) }
    ensures stands { OnOk result (StandsFor machine.new board.now.setup board.now.opening (event.now ∷ note.seen)) }
    ensures refused { IfErr result (λ r. IsBroken board.now note.seen event.now r ⊎ CameLater note.seen event.now seat.new.seen r) }
{
    machine.apply(event)?;
    seat.meet(board, note);
    if seat.mark(board, event) != count {
        return Err(Refused::NotNext);
    }
    Ok(seat.note(board))
}

/// Marks an operation, whatever other agents mark meanwhile. The host's agent stands for the seat's own events and makes one of the
/// operation, so it shows that the event is allowed.
pub fn mark_own(
    board: &Board,
    agent: &mut HostAgent,
    seat: &mut AgentSeat,
    cause: &Cause,
) -> Result<u64, Refused>
    requires board { seat.old.board ≡ board.now.id }
    requires shows { ShowsOwn board.now agent.old seat.old }
    requires operation { IsTrue (is_operation cause.now) }
    requires room { length (mine seat.old) < board.now.room }
    ensures board { seat.new.board ≡ seat.old.board }
    ensures agent { seat.new.agent ≡ seat.old.agent }
    ensures shows { ShowsOwn board.now agent.new seat.new }
    ensures own { IfOk result (λ n. HasMarked board.now cause.now n seat.old seat.new) }
    ensures refused { IfErr result (IsRefusedByHost board.now seat.old cause.now) }
    ensures same { OnErr result ((agent.new ≡ agent.old) × (seat.new ≡ seat.old)) }
{
    let made = agent.step(cause)?;
    let event = Event {
        agent: seat.agent(),
        cause: *cause,
        sends: made.sends,
        commit: made.commit,
    };
    Ok(seat.mark(board, &event))
}
