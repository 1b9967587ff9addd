// Which rule an event breaks first after the run.
ghost use Rattle.std.specs.Prelude.{◌≡◌, ◌<◌, ◌&&◌, ◌==◌, IfSome, IsTrue, None, Some, if◌then◌else◌, nat_le, nat_lt, not, ℕ};
ghost use Rattle.cxl_message.specs.declared.events.Cause.{Cause};
ghost use Rattle.cxl_message.specs.declared.events.Op.{Op};
ghost use Rattle.cxl_message.specs.Codes.{copy_code};
ghost use Rattle.cxl_message.specs.Events.{is_load};
ghost use Rattle.cxl_message.specs.Messages.{channel_of};
ghost use Rattle.coherence_model.specs.Fitting.{is_device as agent_is_device};
ghost use Rattle.coherence_model.specs.Flight.{in_flight, is_takeable};
ghost use Rattle.coherence_model.specs.Rows.{rule_of as rule_of_cause};
ghost use Rattle.coherence_model.specs.Rules.{k0_takeable, most_operations, p0_profile, s0_stream_order};
ghost use Rattle.coherence_model.specs.Runs.{first_broken as first_rule_broken};
ghost use Rattle.coherence_model.specs.Traces.{events_of};
ghost use Rattle.machine.specs.Going.{KeepsFirstRules};
ghost use Rattle.machine.specs.Stands.{WhereStands};

use crate::machine::Machine;
use crate::rows::{act_row, take_row};
use cxl_message::{Cause, CopyState, DEVICE, Event, Message, Op, RuleNo};
use event_room::MessageRef;
use profile_rules::keeps_profile;

/// Whether an agent is the device.
pub fn is_device(agent: u8) -> bool
    ensures { result ≡ agent_is_device agent }
{
    agent == DEVICE
}

impl Machine {
    /// The first of P0, K0 and S0 that an event breaks after the run, if it breaks one.
    pub(crate) fn broken_before_row(&self, event: &Event) -> Option<RuleNo>
        ensures broken { IfSome result (λ rule. WhereStands self.now (λ setup opening t. Some rule ≡ first_rule_broken setup opening t event.now)) }
        ensures kept { result ≡ None → KeepsFirstRules self.now event.now }
    {
        if !keeps_profile(self.setup(), event) {
            return Some(RuleNo::P0);
        }
        self.broken_past_profile(event)
    }

    /// The same for an event that keeps P0.
    fn broken_past_profile(&self, event: &Event) -> Option<RuleNo>
        requires { IsTrue (p0_profile self.now.setup event.now) }
        ensures broken { IfSome result (λ rule. WhereStands self.now (λ setup opening t. Some rule ≡ first_rule_broken setup opening t event.now)) }
        ensures kept { result ≡ None → KeepsFirstRules self.now event.now }
    {
        if !self.may_take(event) {
            return Some(RuleNo::K0);
        }
        if !self.keeps_order(event) {
            return Some(RuleNo::S0);
        }
        None
    }

    /// Rule K0.
    fn may_take(&self, event: &Event) -> bool
        requires { IsTrue (p0_profile self.now.setup event.now) }
        ensures takeable { WhereStands self.now (λ setup opening t. result ≡ k0_takeable event.now.cause t) }
    {
        match &event.cause {
            Cause::Take { host, message } => self.has_takeable(*host, message),
            Cause::Op { .. } => true,
            Cause::Act(_) => true,
        }
    }

    /// Whether a message of a host may be taken.
    fn has_takeable(&self, host: u8, message: &Message) -> bool
        requires { host < self.now.setup.hosts }
        ensures takeable { WhereStands self.now (λ setup opening t. result ≡ is_takeable message.now (in_flight host (channel_of message.now) t)) }
    {
        self.links
            .queues()
            .is_takeable(host, MessageRef::of(message))
    }

    /// Rule S0.
    fn keeps_order(&self, event: &Event) -> bool
        requires { IsTrue (p0_profile self.now.setup event.now) }
        ensures order { WhereStands self.now (λ setup opening t. result ≡ s0_stream_order event.now.cause (events_of event.now.agent t)) }
    {
        match &event.cause {
            Cause::Op { stream, index, .. } => self.is_next_of(event.agent, *stream, *index),
            Cause::Take { .. } => true,
            Cause::Act(_) => true,
        }
    }

    /// Whether an operation with this index may be a stream's next at its host.
    fn is_next_of(&self, host: u8, stream: u8, index: u32) -> bool
        requires { host < self.now.setup.hosts }
        ensures order { WhereStands self.now (λ setup opening t. (op : Op) → result ≡ s0_stream_order (Cause.Op stream index op) (events_of host t)) }
    {
        let agent = self.host(host);
        begins_next(index, agent.stream_next(stream), agent.stream_waits(stream))
    }

    /// The row of an event's cause.
    pub(crate) fn row_of(&self, event: &Event) -> RuleNo
        requires { IsTrue (p0_profile self.now.setup event.now) }
        ensures rule { WhereStands self.now (λ setup opening t. result ≡ rule_of_cause setup event.now.agent event.now.cause (events_of event.now.agent t)) }
    {
        match &event.cause {
            Cause::Op { op, .. } => self.operation_row(event.agent, op),
            Cause::Take { message, .. } => take_row(event.agent, message),
            Cause::Act(act) => act_row(event.agent, act),
        }
    }

    /// The row of an operation at a host: H1 where it hits, else H2.
    fn operation_row(&self, host: u8, op: &Op) -> RuleNo
        requires { host < self.now.setup.hosts }
        ensures rule { WhereStands self.now (λ setup opening t. (s i : ℕ) → result ≡ rule_of_cause setup host (Cause.Op s i op.now) (events_of host t)) }
    {
        let agent = self.host(host);
        row_of_hit(hits_copy(op, agent.copy_of(op.line())))
    }
}

/// Whether an operation of this index comes next where so many are begun, and the last of them waits or doesn't.
fn begins_next(index: u32, begun: u32, waits: bool) -> bool
    ensures { result ≡ ((index == begun) && nat_lt index most_operations && not waits) }
{
    index == begun && index < u32::MAX && !waits
}

/// Whether an operation hits a copy in this state: a Load any copy, a Word or Whole a writable one.
fn hits_copy(op: &Op, state: CopyState) -> bool
    ensures { result ≡ (if is_load op.now then nat_le 1 (copy_code state) else nat_le 2 (copy_code state)) }
{
    match state {
        CopyState::I => false,
        CopyState::S => op.is_load(),
        CopyState::E => true,
        CopyState::M => true,
    }
}

/// The row of an operation that hits, or doesn't.
fn row_of_hit(hits: bool) -> RuleNo
    ensures { result ≡ (if hits then RuleNo.H1 else RuleNo.H2) }
{
    if hits { RuleNo::H1 } else { RuleNo::H2 }
}
