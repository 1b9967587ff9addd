// The row of a cause at a host.
ghost use Rattle.std.specs.Prelude.{◌≡◌};
ghost use Rattle.coherence_model.specs.HostRows.{host_act_rule, host_take_rule, ndr_rule};

use cxl_message::{Act, Message, NdrOp, RuleNo};

/// The row of a taken message: H3 to H6. A message that goes to the device breaks P0.
pub fn take_rule(message: &Message) -> RuleNo
    ensures { result ≡ host_take_rule message.now }
{
    match message {
        Message::Ndr { op, .. } => ndr_row(*op),
        Message::MemData { .. } => RuleNo::H3,
        Message::BiSnp { .. } => RuleNo::H4,
        Message::Credit { .. } => RuleNo::H6,
        Message::Req { .. } => RuleNo::P0,
        Message::MemWr { .. } => RuleNo::P0,
        Message::BiConflict { .. } => RuleNo::P0,
        Message::BiRsp { .. } => RuleNo::P0,
    }
}

/// The row of a taken NDR message.
fn ndr_row(op: NdrOp) -> RuleNo
    ensures { result ≡ ndr_rule op }
{
    match op {
        NdrOp::Cmp | NdrOp::CmpS | NdrOp::CmpE => RuleNo::H3,
        NdrOp::ConflictAck => RuleNo::H5,
    }
}

/// The row of an act: H7 to H10. An act of the device breaks P0.
pub fn act_rule(act: &Act) -> RuleNo
    ensures { result ≡ host_act_rule act.now }
{
    match act {
        Act::Conflict(_) => RuleNo::H7,
        Act::WriteBack(_) => RuleNo::H8,
        Act::Answer(_) => RuleNo::H9,
        Act::AnswerBlock(_) => RuleNo::H9,
        Act::HostReturn(_) => RuleNo::H10,
        Act::Serve { .. } => RuleNo::P0,
        Act::Clean { .. } => RuleNo::P0,
        Act::Start { .. } => RuleNo::P0,
        Act::Evict { .. } => RuleNo::P0,
        Act::Snoop { .. } => RuleNo::P0,
        Act::Finish(_) => RuleNo::P0,
        Act::DeviceReturn { .. } => RuleNo::P0,
    }
}
