// Rows H1 and H2: the order in which an operation is refused, and the event of one that goes by its plan.
ghost use Rattle.std.specs.Prelude.{◌≡◌, IfOk, None, OnErr, true};
ghost use Rattle.cxl_message.specs.declared.events.Cause.{Cause as TheCause};
ghost use Rattle.coherence_model.specs.Refusals.{cause_passes as passes_profile};
ghost use Rattle.host_plans.specs.Plans.{PlanHolds, planned_emission};
ghost use Rattle.host_record.specs.HostRecord.{view_in};
ghost use Rattle.host_record.specs.ViewAnswers.{in_order, operation_answer_by};
ghost use Rattle.host_record.specs.ViewRows.{is_dirty};
ghost use Rattle.host_record.specs.Ways.{copy_in};
ghost use Rattle.host_rows.specs.Answers.{as_result, emission_in, refused_as, told};
ghost use Rattle.host_rows.specs.Rows.{decided, refusal_of_plan, short_of_plan as short_of_planned};
ghost use Rattle.host_tables.specs.Agent.{event_of};
ghost use Rattle.host_tables.specs.Operating.{GoesOn};

use crate::answers::HostRefusal;
use crate::crediting::short_of_plan;
use crate::emitting::emit_operation;
use cxl_message::{Cause, Op, RuleNo};
use event_room::EventRoom;
use host_plans::{Plan, Unplanned};
use host_tables::HostTables;
use profile_rules::cause_passes;

/// Writes the event of an operation into a room, and gives its plan; or its first refusal, which leaves the room as it was: NoSuchLine,
/// Again, NoTag, NoWay, NoCredit, Broken(P0), Broken(S0).
#[tactic(auto, using(crate::proofs::Planned::goes_as))]
pub(crate) fn answer_operation(
    agent: &HostTables,
    cause: &Cause,
    stream: u8,
    index: u32,
    op: &Op,
    room: &mut EventRoom,
) -> Result<Plan, HostRefusal>
    requires { cause.now ≡ TheCause.Op stream index op.now }
    ensures holds { IfOk result (λ plan. PlanHolds agent.now.setup.ways agent.now.setup.lines agent.now.kept.ways agent.now.kept.busy op.now plan) }
    ensures goes_on { IfOk result (λ plan. GoesOn agent.now.host stream index agent.now.kept op.now plan (emission_in room.new)) }
    ensures answer { told result room.new ≡ as_result (operation_answer_by agent.now.setup agent.now.host stream index op.now (view_in agent.now.kept)) }
    ensures event { IfOk result (λ plan. room.new ≡ event_of agent.now.host (TheCause.Op stream index op.now) (emission_in room.new)) }
    ensures refused { OnErr result (room.new ≡ room.old) }
{
    match decide_operation(agent, cause, stream, index, op) {
        Ok(plan) => {
            emit_operation(agent, plan, stream, index, op, room);
            Ok(plan)
        }
        Err(refusal) => Err(refusal),
    }
}

/// The plan of an operation, made once, or its first refusal.
#[tactic(auto, using(crate::proofs::Planned::plan_goes, crate::proofs::Planned::plan_stays, crate::proofs::Planned::without_plan, crate::proofs::Planned::goes_so))]
fn decide_operation(
    agent: &HostTables,
    cause: &Cause,
    stream: u8,
    index: u32,
    op: &Op,
) -> Result<Plan, HostRefusal>
    requires { cause.now ≡ TheCause.Op stream index op.now }
    ensures holds { IfOk result (λ plan. PlanHolds agent.now.setup.ways agent.now.setup.lines agent.now.kept.ways agent.now.kept.busy op.now plan) }
    ensures goes_on { IfOk result (λ plan. GoesOn agent.now.host stream index agent.now.kept op.now plan (planned_emission agent.now.host stream index agent.now.kept.ways op.now plan)) }
    ensures answer { decided (planned_emission agent.now.host stream index agent.now.kept.ways op.now) result ≡ as_result (operation_answer_by agent.now.setup agent.now.host stream index op.now (view_in agent.now.kept)) }
{
    match agent.plan(op) {
        Ok(plan) => match keeps_back(agent, plan, cause, stream, index) {
            None => Ok(plan),
            Some(refusal) => Err(refusal),
        },
        Err(unplanned) => Err(refusal_of(unplanned)),
    }
}

/// The refusal of an operation that has no plan.
fn refusal_of(unplanned: Unplanned) -> HostRefusal
    ensures { result ≡ refused_as unplanned }
{
    match unplanned {
        Unplanned::NoSuchLine => HostRefusal::NoSuchLine,
        Unplanned::Again => HostRefusal::Again,
        Unplanned::NoTag => HostRefusal::NoTag,
        Unplanned::NoWay => HostRefusal::NoWay,
    }
}

/// Why an operation with a plan is refused, if it is: NoCredit, Broken(P0), Broken(S0).
fn keeps_back(
    agent: &HostTables,
    plan: Plan,
    cause: &Cause,
    stream: u8,
    index: u32,
) -> Option<HostRefusal>
    ensures refusal { result ≡ refusal_of_plan (short_of_planned (view_in agent.now.kept) (λ a. is_dirty (copy_in agent.now.kept.ways a)) plan) (passes_profile agent.now.setup agent.now.host cause.now) (in_order stream index (view_in agent.now.kept)) }
    ensures passes { result ≡ None → passes_profile agent.now.setup agent.now.host cause.now ≡ true }
    ensures next { result ≡ None → in_order stream index (view_in agent.now.kept) ≡ true }
{
    if let Some(channel) = short_of_plan(agent, plan) {
        return Some(HostRefusal::NoCredit(channel));
    }
    if !cause_passes(agent.setup(), agent.host(), cause) {
        return Some(HostRefusal::Broken(RuleNo::P0));
    }
    if !is_next(agent, stream, index) {
        return Some(HostRefusal::Broken(RuleNo::S0));
    }
    None
}

/// Whether an index is the next of its stream, and the stream doesn't wait.
fn is_next(agent: &HostTables, stream: u8, index: u32) -> bool
    ensures { result ≡ in_order stream index (view_in agent.now.kept) }
{
    index == agent.begun(stream) && index < u32::MAX && !agent.waits(stream)
}
