// The event of a cause in a room, and the change that it makes: what is decided is decided once.
ghost use Rattle.std.specs.Prelude.{◌≡◌, IfOk, OnErr};
ghost use Rattle.cxl_message.specs.declared.events.Cause.{Cause as TheCause};
ghost use Rattle.host_record.specs.HostRecord.{view_in};
ghost use Rattle.host_record.specs.ViewAnswers.{answers_by};
ghost use Rattle.host_rows.specs.Answers.{as_result, emission_in, told};
ghost use Rattle.host_rows.specs.Going.{MayGo};
ghost use Rattle.host_tables.specs.Agent.{agent_after, event_of};
ghost use Rattle.host_tables.specs.Kept.{IsOwed, IsRoomy};

use crate::answers::HostRefusal;
use crate::emitting::{emit_act, emit_take};
use crate::judging::{decide_act, decide_take};
use crate::operating::answer_operation;
use cxl_message::{Act, Cause, Message};
use event_room::EventRoom;
use host_plans::Plan;
use host_tables::HostTables;

/// Writes the event of a cause into a room, and gives the plan of an operation, which a take and an act don't need. Or its first refusal,
/// which leaves the room as it was: for an operation NoSuchLine, Again, NoTag, NoWay, NoCredit, Broken(P0), Broken(S0); for a take or an
/// act Broken(P0), Broken(the row), NoCredit.
pub fn answer_into(
    agent: &HostTables,
    cause: &Cause,
    room: &mut EventRoom,
) -> Result<Option<Plan>, HostRefusal>
    ensures goes { IfOk result (λ plan. MayGo agent.now cause.now plan (emission_in room.new)) }
    ensures answer { told result room.new ≡ as_result (answers_by agent.now.setup agent.now.host cause.now (view_in agent.now.kept)) }
    ensures event { IfOk result (λ plan. room.new ≡ event_of agent.now.host cause.now (emission_in room.new)) }
    ensures refused { OnErr result (room.new ≡ room.old) }
{
    match cause {
        Cause::Op { stream, index, op } => {
            match answer_operation(agent, cause, *stream, *index, op, room) {
                Ok(plan) => Ok(Some(plan)),
                Err(refusal) => Err(refusal),
            }
        }
        Cause::Take { host, message } => {
            match answer_take(agent, cause, *host, message, room) {
                Ok(()) => Ok(None),
                Err(refusal) => Err(refusal),
            }
        }
        Cause::Act(act) => match answer_act(agent, act, room) {
            Ok(()) => Ok(None),
            Err(refusal) => Err(refusal),
        },
    }
}

/// Makes of what the host keeps what is kept after the event in a room, which is of this cause and goes by this plan.
#[tactic(auto, using(crate::proofs::Planned::goes_as))]
pub fn change(agent: &mut HostTables, cause: &Cause, plan: Option<Plan>, room: &EventRoom)
    requires { MayGo agent.old cause.now plan (emission_in room.now) }
    ensures { agent.new ≡ agent_after cause.now (emission_in room.now) agent.old }
{
    match cause {
        Cause::Op { stream, index, op } => {
            let Some(plan) = plan else {
                unreachable!("an operation goes by a plan")
            };
            agent.operate(plan, *stream, *index, op, room.sends(), room.commit());
        }
        Cause::Take { message, .. } => agent.take(message, room.commit()),
        Cause::Act(act) => agent.act(act, room.sends()),
    }
}

/// Writes the event of the take of a message of another agent into a room, or answers its first refusal.
fn answer_take(
    agent: &HostTables,
    cause: &Cause,
    host: u8,
    message: &Message,
    room: &mut EventRoom,
) -> Result<(), HostRefusal>
    requires { cause.now ≡ TheCause.Take host message.now }
    ensures roomy { IfOk result (λ u. IsRoomy agent.now.setup message.now agent.now.kept) }
    ensures answer { told result room.new ≡ as_result (answers_by agent.now.setup agent.now.host (TheCause.Take host message.now) (view_in agent.now.kept)) }
    ensures event { IfOk result (λ u. room.new ≡ event_of agent.now.host (TheCause.Take host message.now) (emission_in room.new)) }
    ensures refused { OnErr result (room.new ≡ room.old) }
{
    match decide_take(agent, cause, host, message) {
        Ok(row) => {
            emit_take(agent, row, host, message, room);
            Ok(())
        }
        Err(refusal) => Err(refusal),
    }
}

/// Writes the event of an act into a room, or answers its first refusal.
fn answer_act(agent: &HostTables, act: &Act, room: &mut EventRoom) -> Result<(), HostRefusal>
    ensures owed { IfOk result (λ u. IsOwed act.now agent.now.kept) }
    ensures answer { told result room.new ≡ as_result (answers_by agent.now.setup agent.now.host (TheCause.Act act.now) (view_in agent.now.kept)) }
    ensures event { IfOk result (λ u. room.new ≡ event_of agent.now.host (TheCause.Act act.now) (emission_in room.new)) }
    ensures refused { OnErr result (room.new ≡ room.old) }
{
    match decide_act(agent, act) {
        Ok(head) => {
            emit_act(agent, act, head, room);
            Ok(())
        }
        Err(refusal) => Err(refusal),
    }
}
