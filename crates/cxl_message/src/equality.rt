//! Equality: the derived `==` of messages, operations and events decides whether both are the same.
ghost use Rattle.std.specs.Prelude.{◌≡◌, ◌↔◌, IsTrue};
ghost use Rattle.std.specs.Option.{option_eq};
ghost use Rattle.cxl_message.specs.Equality.{ChannelsDecide, CommitsDecide, LinesDecide, MessagesDecide, OperationsDecide, OutsDecide, SendsDecide};
ghost use Rattle.cxl_message.specs.Events.{commit_eq, op_eq, out_eq, sends_eq};
ghost use Rattle.cxl_message.specs.Messages.{message_eq};

use crate::events::{Act, Cause, Commit, Op, Out, Sends};
use crate::messages::Message;

/// The model's tests that compare messages, what is sent, operations, commits, channels and the bytes of a line hold
/// exactly where both are the same (own rule: each is compared by its numbers).
pub fn equality_is_decided()
    ensures messages { MessagesDecide }
    ensures sent { OutsDecide }
    ensures sends { SendsDecide }
    ensures operations { OperationsDecide }
    ensures commits { CommitsDecide }
    ensures channels { ChannelsDecide }
    ensures lines { LinesDecide }
{}

/// `==` of two messages: whether they are the same, which is the model's test too.
pub fn same_message(first: &Message, second: &Message) -> bool
    ensures decides { IsTrue result ↔ (first.now ≡ second.now) }
    ensures model { result ≡ message_eq first.now second.now }
{
    is_same_message(first, second)
}

/// `==` of two operations: whether they are the same, which is the model's test too.
#[tactic(auto, using(crate::proofs::Decided::op_decided))]
pub fn same_op(first: &Op, second: &Op) -> bool
    ensures decides { IsTrue result ↔ (first.now ≡ second.now) }
    ensures model { result ≡ op_eq first.now second.now }
{
    *first == *second
}

/// `==` of two sent messages: whether they are the same, hosts included, which is the model's test too.
pub fn same_out(first: &Out, second: &Out) -> bool
    ensures decides { IsTrue result ↔ (first.now ≡ second.now) }
    ensures model { result ≡ out_eq first.now second.now }
{
    is_same_out(first, second)
}

/// `==` of what two events send: whether it is the same messages in the same order, which is the model's test too.
pub fn same_sends(first: &Sends, second: &Sends) -> bool
    ensures decides { IsTrue result ↔ (first.now ≡ second.now) }
    ensures model { result ≡ sends_eq first.now second.now }
{
    is_same_sends(first, second)
}

/// `==` of two commits: whether they are the same, which is the model's test too.
#[tactic(auto, using(crate::proofs::Decided::commit_decided))]
pub fn same_commit(first: &Commit, second: &Commit) -> bool
    ensures decides { IsTrue result ↔ (first.now ≡ second.now) }
    ensures model { result ≡ commit_eq first.now second.now }
{
    *first == *second
}

/// `==` of two commits that may be missing: whether they are the same, which is the model's test too.
#[tactic(auto, using(crate::proofs::Decided::commits_decided))]
pub fn same_commits(first: &Option<Commit>, second: &Option<Commit>) -> bool
    ensures decides { IsTrue result ↔ (first.now ≡ second.now) }
    ensures model { result ≡ option_eq commit_eq first.now second.now }
{
    *first == *second
}

/// `==` of two acts: whether they are the same.
pub fn same_act(first: &Act, second: &Act) -> bool
    ensures decides { IsTrue result ↔ (first.now ≡ second.now) }
{
    *first == *second
}

/// `==` of two causes: whether they are the same.
pub fn same_cause(first: &Cause, second: &Cause) -> bool
    ensures decides { IsTrue result ↔ (first.now ≡ second.now) }
{
    *first == *second
}

/// `==` of two messages.
fn is_same_message(first: &Message, second: &Message) -> bool
    ensures { IsTrue result ↔ (first.now ≡ second.now) }
{
    *first == *second
}

/// `==` of two sent messages.
fn is_same_out(first: &Out, second: &Out) -> bool
    ensures { IsTrue result ↔ (first.now ≡ second.now) }
{
    *first == *second
}

/// `==` of what two events send.
fn is_same_sends(first: &Sends, second: &Sends) -> bool
    ensures { IsTrue result ↔ (first.now ≡ second.now) }
{
    *first == *second
}
