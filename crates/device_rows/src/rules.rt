// The rule that is the row of each cause.
ghost use Rattle.std.specs.Prelude.{◌≡◌};
ghost use Rattle.coherence_model.specs.DeviceRows.{device_act_rule, device_rule, device_take_rule};

use cxl_message::{Act, Cause, Message, RuleNo};

/// The rule that is the row of a cause at the device; P0 where it has none.
pub fn rule_of(cause: &Cause) -> RuleNo
    ensures { result ≡ device_rule cause.now }
{
    match cause {
        Cause::Op { .. } => RuleNo::P0,
        Cause::Take { message, .. } => take_rule(message),
        Cause::Act(act) => act_rule(act),
    }
}

/// The row of a taken message.
fn take_rule(message: &Message) -> RuleNo
    ensures { result ≡ device_take_rule message.now }
{
    match message {
        Message::Req { .. } => RuleNo::V1,
        Message::MemWr { .. } => RuleNo::V1,
        Message::BiConflict { .. } => RuleNo::V1,
        Message::BiRsp { .. } => RuleNo::V2,
        Message::Ndr { .. } => RuleNo::P0,
        Message::MemData { .. } => RuleNo::P0,
        Message::BiSnp { .. } => RuleNo::P0,
        Message::Credit { .. } => RuleNo::V1,
    }
}

/// The row of an act.
fn act_rule(act: &Act) -> RuleNo
    ensures { result ≡ device_act_rule act.now }
{
    match act {
        Act::Conflict(_) => RuleNo::P0,
        Act::WriteBack(_) => RuleNo::P0,
        Act::Answer(_) => RuleNo::P0,
        Act::AnswerBlock(_) => RuleNo::P0,
        Act::HostReturn(_) => RuleNo::P0,
        Act::Serve { .. } => RuleNo::V3,
        Act::Clean { .. } => RuleNo::V4,
        Act::Start { .. } => RuleNo::V5,
        Act::Evict { .. } => RuleNo::V6,
        Act::Snoop { .. } => RuleNo::V7,
        Act::Finish(_) => RuleNo::V8,
        Act::DeviceReturn { .. } => RuleNo::V9,
    }
}
