// What a host decides of a take or an act: P0, the row, NoCredit.
ghost use Rattle.std.specs.Prelude.{◌≡◌, IfOk, None, if◌then◌else◌, is_some, option_map, true};
ghost use Rattle.coherence_model.specs.HostRows.{host_act_rule, host_take_rule};
ghost use Rattle.cxl_message.specs.declared.events.Cause.{Cause as TheCause};
ghost use Rattle.host_record.specs.HostRecord.{view_in};
ghost use Rattle.host_record.specs.View.{held_of};
ghost use Rattle.host_record.specs.ViewAnswers.{answers_by, row_or};
ghost use Rattle.host_record.specs.ViewRows.{acts_by, has_room_by, takes_by};
ghost use Rattle.host_rows.specs.Answers.{as_result};
ghost use Rattle.host_rows.specs.Messages.{IsLow};
ghost use Rattle.host_rows.specs.Rows.{act_emission, decided, take_emission};
ghost use Rattle.host_tables.specs.Kept.{IsOwed, IsRoomy};

use crate::acting::act_row;
use crate::answers::HostRefusal;
use crate::crediting::lacking;
use crate::rules::{act_rule, take_rule};
use crate::taking::{TakeRow, take_row};
use cxl_message::{Act, Cause, Message, RuleNo};
use event_room::MessageHead;
use host_tables::HostTables;
use profile_rules::cause_passes;

/// The row of the take of a message of another, or its first refusal: Broken(P0), Broken(the row), NoCredit. A take sends nothing, so
/// that it lacks no credit.
#[tactic(auto, using(crate::proofs::Passing::low_by))]
pub(crate) fn decide_take(
    agent: &HostTables,
    cause: &Cause,
    host: u8,
    message: &Message,
) -> Result<TakeRow, HostRefusal>
    requires { cause.now ≡ TheCause.Take host message.now }
    ensures roomy { IfOk result (λ row. IsRoomy agent.now.setup message.now agent.now.kept) }
    ensures answer { decided (take_emission message.now agent.now.kept) result ≡ as_result (answers_by agent.now.setup agent.now.host (TheCause.Take host message.now) (view_in agent.now.kept)) }
{
    let _lines = agent.setup().lines();
    if !cause_passes(agent.setup(), agent.host(), cause) {
        return Err(HostRefusal::Broken(RuleNo::P0));
    }
    row_of_take(agent, message)
}

/// The head of the message that an act sends, or its first refusal: Broken(P0), Broken(the row), NoCredit.
pub(crate) fn decide_act(agent: &HostTables, act: &Act) -> Result<MessageHead, HostRefusal>
    ensures owed { IfOk result (λ head. IsOwed act.now agent.now.kept) }
    ensures answer { decided (act_emission agent.now.host act.now agent.now.kept) result ≡ as_result (answers_by agent.now.setup agent.now.host (TheCause.Act act.now) (view_in agent.now.kept)) }
{
    if !cause_passes(agent.setup(), agent.host(), &Cause::Act(*act)) {
        return Err(HostRefusal::Broken(RuleNo::P0));
    }
    row_of_act(agent, act)
}

/// The row of a take that passes P0, or Broken(the row).
#[tactic(auto, using(crate::proofs::Deciding::take_goes, crate::proofs::Deciding::row_breaks))]
fn row_of_take(agent: &HostTables, message: &Message) -> Result<TakeRow, HostRefusal>
    requires { IsLow message.now }
    ensures roomy { IfOk result (λ row. IsRoomy agent.now.setup message.now agent.now.kept) }
    ensures answer { decided (take_emission message.now agent.now.kept) result ≡ as_result (row_or (host_take_rule message.now) (view_in agent.now.kept) (if has_room_by agent.now.setup message.now (view_in agent.now.kept) then takes_by agent.now.setup message.now (view_in agent.now.kept) else None)) }
{
    match takes_with_room(agent, message) {
        Some(row) => Ok(row),
        None => Err(HostRefusal::Broken(take_rule(message))),
    }
}

/// The head of what an act that passes P0 sends, or Broken(the row), or NoCredit.
#[tactic(auto, using(crate::proofs::Deciding::act_goes, crate::proofs::Deciding::act_lacks, crate::proofs::Deciding::row_breaks))]
fn row_of_act(agent: &HostTables, act: &Act) -> Result<MessageHead, HostRefusal>
    ensures owed { IfOk result (λ head. IsOwed act.now agent.now.kept) }
    ensures answer { decided (act_emission agent.now.host act.now agent.now.kept) result ≡ as_result (row_or (host_act_rule act.now) (view_in agent.now.kept) (acts_by agent.now.setup agent.now.host act.now (view_in agent.now.kept))) }
{
    match act_row(agent, act) {
        Some(head) => match lacking(agent, head) {
            Some(channel) => Err(HostRefusal::NoCredit(channel)),
            None => Ok(head),
        },
        None => Err(HostRefusal::Broken(act_rule(act))),
    }
}

/// The row of a take, where there is room for the message.
#[tactic(auto, using(crate::proofs::Passing::roomy_some))]
fn takes_with_room(agent: &HostTables, message: &Message) -> Option<TakeRow>
    requires { IsLow message.now }
    ensures roomy { is_some result ≡ true → IsRoomy agent.now.setup message.now agent.now.kept }
    ensures emits { option_map (take_emission message.now agent.now.kept) result ≡ (if has_room_by agent.now.setup message.now (view_in agent.now.kept) then takes_by agent.now.setup message.now (view_in agent.now.kept) else None) }
{
    if has_room(agent, message) {
        take_row(agent, message)
    } else {
        None
    }
}

/// Whether there is room for a message.
fn has_room(agent: &HostTables, message: &Message) -> bool
    ensures { result ≡ has_room_by agent.now.setup message.now (view_in agent.now.kept) }
{
    let channel = message.channel();
    !channel.has_credits() || agent.held_messages(channel) < agent.setup().credits() as usize
}
