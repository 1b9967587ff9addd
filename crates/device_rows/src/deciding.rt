// What the device decides on a cause: rule P0, the row, and then the credits.
ghost use Rattle.std.specs.Prelude.{◌≡◌, ◌+◌, ◌<◌, IfOk, IfSome, IsTrue, false, length, option_map};
ghost use Rattle.std.specs.Option.{option_map_or};
ghost use Rattle.coherence_model.specs.Buffers.{message_with};
ghost use Rattle.coherence_model.specs.DeviceActs.{v3_serve};
ghost use Rattle.coherence_model.specs.Emission.{nothing};
ghost use Rattle.coherence_model.specs.Fitting.{act_fits};
ghost use Rattle.coherence_model.specs.Refusals.{cause_passes as passes};
ghost use Rattle.coherence_model.specs.Traces.{device};
ghost use Rattle.coherence_model.specs.Words.{when};
ghost use Rattle.device_record.specs.Answers.{act_row as act_row_in, answer_in, credit_taken, is_answer_to as is_answer_to_in, lacking_in, row_in, take_row as take_row_in};
ghost use Rattle.device_record.specs.Record.{credits_at, task_at, writes_at};
ghost use Rattle.device_record.specs.Steady.{IsSteady};
ghost use Rattle.device_rows.specs.Answering.{decided};
ghost use Rattle.device_rows.specs.Rows.{short_on};
ghost use Rattle.device_state.specs.Decisions.{HasLine, emission_by};

use crate::answers::DeviceRefusal;
use crate::rows::{clean_row, evict_row, has_room_for, return_row, start_row};
use crate::rules::rule_of;
use crate::task_rows::{finish_row, is_answer_to, snoop_row};
use cxl_message::{Act, Cause, Channel, DEVICE, Message, RspOp, RuleNo, Tag};
use device_state::{Decision, Tables};
use device_tables::HostCredits;
use profile_rules::cause_passes;

/// What the device decides on a cause, by what it keeps: rule P0, then the row, then the credits for what is sent, NDR
/// before DRS.
pub fn decide(tables: &Tables, cause: &Cause) -> Result<Decision, DeviceRefusal>
    requires { IsSteady tables.now.setup tables.now.kept }
    ensures answer { decided tables.now.kept.memory result ≡ answer_in tables.now.setup cause.now tables.now.kept }
    ensures line { IfOk result (HasLine tables.now.kept.memory) }
{
    if !cause_passes(&tables.setup, DEVICE, cause) {
        return Err(DeviceRefusal::Broken(RuleNo::P0));
    }
    match row(tables, cause) {
        Some(decision) => match lacking(tables, decision) {
            Some(channel) => Err(DeviceRefusal::NoCredit(channel)),
            None => Ok(decision),
        },
        None => Err(DeviceRefusal::Broken(rule_of(cause))),
    }
}

/// What a cause that passes rule P0 sends, the credits aside: `None` where its row doesn't hold.
fn row(tables: &Tables, cause: &Cause) -> Option<Decision>
    requires steady { IsSteady tables.now.setup tables.now.kept }
    requires passes { IsTrue (passes tables.now.setup device cause.now) }
    ensures sends { option_map (emission_by tables.now.kept.memory) result ≡ row_in tables.now.setup cause.now tables.now.kept }
    ensures line { IfSome result (HasLine tables.now.kept.memory) }
{
    match cause {
        Cause::Op { .. } => None,
        Cause::Take { host, message } => {
            if !has_room_for(tables, tables.setup.credits(), *host, message.channel()) {
                return None;
            }
            if takes(tables, *host, message) {
                Some(Decision::Nothing)
            } else {
                None
            }
        }
        Cause::Act(act) => act_row(tables, act),
    }
}

/// V1 and V2: whether a message is taken where there is room for it. Nothing is sent then.
fn takes(tables: &Tables, host: u8, message: &Message) -> bool
    requires host { host < length tables.now.kept.writes }
    ensures { when result nothing ≡ take_row_in tables.now.setup host message.now tables.now.kept }
{
    match message {
        Message::Req { tag, .. } => tables.request(host, *tag).is_none(),
        Message::MemWr { tag, .. } => !tables.lines.has_tag(host, *tag),
        Message::BiConflict { tag } => !tables.lines.has_tag(host, *tag),
        Message::BiRsp { op, bitag, low } => {
            answers(tables, host, *op, u32::from(bitag.0), *low)
        }
        Message::Ndr { .. } => false,
        Message::MemData { .. } => false,
        Message::BiSnp { .. } => false,
        Message::Credit { channel } => {
            is_missing(tables.setup.credits(), *channel, tables.credits_of(host))
        }
    }
}

/// V2: whether an answer for the line `low` lines after the first of a task is one to its snoop.
fn answers(tables: &Tables, host: u8, op: RspOp, first: u32, low: u8) -> bool
    ensures { result ≡ option_map_or (is_answer_to_in op host (first + low)) (task_at first tables.now.kept.tasks) false }
{
    match tables.task(first) {
        Some(task) => is_answer_to(op, host, low, task),
        None => false,
    }
}

/// V3 to V9.
fn act_row(tables: &Tables, act: &Act) -> Option<Decision>
    requires steady { IsSteady tables.now.setup tables.now.kept }
    requires passes { IsTrue (act_fits tables.now.setup device act.now) }
    ensures sends { option_map (emission_by tables.now.kept.memory) result ≡ act_row_in tables.now.setup act.now tables.now.kept }
    ensures line { IfSome result (HasLine tables.now.kept.memory) }
{
    match act {
        Act::Conflict(_) => None,
        Act::WriteBack(_) => None,
        Act::Answer(_) => None,
        Act::AnswerBlock(_) => None,
        Act::HostReturn(_) => None,
        Act::Serve { host, tag } => serve_row(tables, *host, *tag),
        Act::Clean { host, tag } => clean_row(tables, *host, *tag),
        Act::Start { host, tag } => start_row(tables, *host, *tag),
        Act::Evict { host, tag } => evict_row(tables, *host, *tag),
        Act::Snoop { host, line } => match tables.task(line.0) {
            Some(task) => snoop_row(tables, *host, task),
            None => None,
        },
        Act::Finish(line) => match tables.task(line.0) {
            Some(task) => finish_row(tables, task),
            None => None,
        },
        Act::DeviceReturn { host, channel } => return_row(tables, *host, *channel),
    }
}

/// V3: a buffered RwD message is answered.
pub fn serve_row(tables: &Tables, host: u8, tag: Tag) -> Option<Decision>
    requires host { host < length tables.now.kept.writes }
    ensures sends { option_map (emission_by tables.now.kept.memory) result ≡ v3_serve host (message_with tag.0 (writes_at host tables.now.kept.writes)) }
    ensures line { IfSome result (HasLine tables.now.kept.memory) }
{
    match tables.lines.completion(host, tag) {
        Some(op) => Some(Decision::Completion { host, op, tag }),
        None => None,
    }
}

/// The first channel whose credits don't reach for what is sent.
pub fn lacking(tables: &Tables, decision: Decision) -> Option<Channel>
    ensures { result ≡ lacking_in (emission_by tables.now.kept.memory decision).sends tables.now.kept.credits }
{
    match decision {
        Decision::Nothing => None,
        Decision::Completion { host, .. } => short(tables, host, Channel::Ndr),
        Decision::Grant { host, .. } => match short(tables, host, Channel::Ndr) {
            Some(channel) => Some(channel),
            None => short(tables, host, Channel::Drs),
        },
        Decision::Snoop { host, .. } => short(tables, host, Channel::BiSnp),
        Decision::Credit { .. } => None,
    }
}

/// A channel with credits, where none of them is left to a host.
fn short(tables: &Tables, host: u8, channel: Channel) -> Option<Channel>
    ensures { result ≡ short_on channel (credits_at host tables.now.kept.credits) }
{
    if tables.credits_of(host).left(channel) < 1 {
        Some(channel)
    } else {
        None
    }
}

/// V1: whether a Credit of a channel to the host is missing, which the host may give back.
fn is_missing(credits: u8, channel: Channel, left: HostCredits) -> bool
    ensures { when result nothing ≡ credit_taken credits channel left }
{
    match channel {
        Channel::Req => false,
        Channel::Rwd => false,
        Channel::BiRsp => false,
        Channel::Ndr => left.left(Channel::Ndr) < credits,
        Channel::Drs => left.left(Channel::Drs) < credits,
        Channel::BiSnp => left.left(Channel::BiSnp) < credits,
        Channel::CreditUp => false,
        Channel::CreditDown => false,
    }
}
