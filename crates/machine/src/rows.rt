// Which row judges a take or an act.
ghost use Rattle.std.specs.Prelude.{◌≡◌, if◌then◌else◌};
ghost use Rattle.coherence_model.specs.DeviceRows.{device_act_rule, device_take_rule};
ghost use Rattle.coherence_model.specs.Fitting.{is_device as agent_is_device};
ghost use Rattle.coherence_model.specs.HostRows.{host_act_rule, host_take_rule, ndr_rule};

use crate::judging::is_device;
use cxl_message::{Act, Message, NdrOp, RuleNo};

/// The row of a taken message at an agent.
pub fn take_row(agent: u8, message: &Message) -> RuleNo
    ensures { result ≡ (if agent_is_device agent then device_take_rule message.now else host_take_rule message.now) }
{
    if is_device(agent) {
        device_take_row(message)
    } else {
        host_take_row(message)
    }
}

/// The row of an act at an agent.
pub fn act_row(agent: u8, act: &Act) -> RuleNo
    ensures { result ≡ (if agent_is_device agent then device_act_rule act.now else host_act_rule act.now) }
{
    if is_device(agent) {
        device_act_row(act)
    } else {
        host_act_row(act)
    }
}

/// The row of a taken message at the device.
fn device_take_row(message: &Message) -> RuleNo
    ensures { result ≡ device_take_rule message.now }
{
    match message {
        Message::Req { .. } => RuleNo::V1,
        Message::MemWr { .. } => RuleNo::V1,
        Message::BiConflict { .. } => RuleNo::V1,
        Message::BiRsp { .. } => RuleNo::V2,
        Message::Ndr { .. } => RuleNo::P0,
        Message::MemData { .. } => RuleNo::P0,
        Message::BiSnp { .. } => RuleNo::P0,
        Message::Credit { .. } => RuleNo::V1,
    }
}

/// The row of a taken message at a host.
fn host_take_row(message: &Message) -> RuleNo
    ensures { result ≡ host_take_rule message.now }
{
    match message {
        Message::Req { .. } => RuleNo::P0,
        Message::MemWr { .. } => RuleNo::P0,
        Message::BiConflict { .. } => RuleNo::P0,
        Message::BiRsp { .. } => RuleNo::P0,
        Message::Ndr { op, .. } => ndr_row(*op),
        Message::MemData { .. } => RuleNo::H3,
        Message::BiSnp { .. } => RuleNo::H4,
        Message::Credit { .. } => RuleNo::H6,
    }
}

/// The row of a taken NDR message.
fn ndr_row(op: NdrOp) -> RuleNo
    ensures { result ≡ ndr_rule op }
{
    match op {
        NdrOp::Cmp => RuleNo::H3,
        NdrOp::CmpS => RuleNo::H3,
        NdrOp::CmpE => RuleNo::H3,
        NdrOp::ConflictAck => RuleNo::H5,
    }
}

/// The row of an act at the device.
fn device_act_row(act: &Act) -> RuleNo
    ensures { result ≡ device_act_rule act.now }
{
    match act {
        Act::Conflict(_) => RuleNo::P0,
        Act::WriteBack(_) => RuleNo::P0,
        Act::Answer(_) => RuleNo::P0,
        Act::AnswerBlock(_) => RuleNo::P0,
        Act::HostReturn(_) => RuleNo::P0,
        Act::Serve { .. } => RuleNo::V3,
        Act::Clean { .. } => RuleNo::V4,
        Act::Start { .. } => RuleNo::V5,
        Act::Evict { .. } => RuleNo::V6,
        Act::Snoop { .. } => RuleNo::V7,
        Act::Finish(_) => RuleNo::V8,
        Act::DeviceReturn { .. } => RuleNo::V9,
    }
}

/// The row of an act at a host.
fn host_act_row(act: &Act) -> RuleNo
    ensures { result ≡ host_act_rule act.now }
{
    match act {
        Act::Conflict(_) => RuleNo::H7,
        Act::WriteBack(_) => RuleNo::H8,
        Act::Answer(_) => RuleNo::H9,
        Act::AnswerBlock(_) => RuleNo::H9,
        Act::HostReturn(_) => RuleNo::H10,
        Act::Serve { .. } => RuleNo::P0,
        Act::Clean { .. } => RuleNo::P0,
        Act::Start { .. } => RuleNo::P0,
        Act::Evict { .. } => RuleNo::P0,
        Act::Snoop { .. } => RuleNo::P0,
        Act::Finish(_) => RuleNo::P0,
        Act::DeviceReturn { .. } => RuleNo::P0,
    }
}
