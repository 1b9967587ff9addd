// Events as text.
ghost use Rattle.std.specs.Prelude.{◌≡◌, ◌*◌, ◌+◌, ◌≤◌, ◌++◌, ◌∷◌, [], decimal, OnErr, OnOk, option_map, vec_len, vec_capacity};
ghost use Rattle.std.specs.List.{flat_map};
ghost use Rattle.cxl_message.specs.Events.{outs};
ghost use Rattle.cxl_message.specs.declared.events.Cause.{Cause};
ghost use Rattle.event_room.specs.Parts.{cause_of, commit_of, message_of, op_of, out_of, sends_of};
ghost use Rattle.cxl_view.specs.Events.{agent_text, cause_text, commit_text, event_line, out_text};

use crate::acts::put_act;
use crate::messages::put_message;
use crate::operations::put_op;
use crate::writing::{put, put_host, put_line_bytes, put_number};
use cxl_message::{Act, DEVICE, Event};
use event_room::{CauseRef, CommitRef, EventRoom, MessageRef, OpRef, OutRef, SendsRef};
use std::alloc::AllocError;

/// How many bytes the text of a cause has at most.
const LONGEST_CAUSE: usize = 248;
/// How many bytes the text of a message that is sent has at most.
const LONGEST_OUT: usize = 246;
/// How many bytes the text of a commit has at most.
const LONGEST_COMMIT: usize = 347;
/// How many bytes the line of an event has at most.
const LONGEST_EVENT: usize = 1131;

/// Appends the line of an event with its number, counted from 0: who makes it, why, what it sends and what it commits (own
/// rule). Every event has such a line, well formed or not. The error is want of memory, and `out` is then as before.
pub fn render_event(number: u64, event: &Event, out: &mut Vec<u8>) -> Result<(), AllocError>
    ensures ok { OnOk result (out.new.items ≡ out.old.items ++ event_line number event.now) }
    ensures err { OnErr result (out.new.items ≡ out.old.items) }
{
    out.reserve(LONGEST_EVENT)?;
    put_agent(out, number, event.agent);
    put_cause(out, CauseRef::of(&event.cause));
    put_sends(out, SendsRef::of(&event.sends));
    put_commit(out, event.commit.as_ref().map(CommitRef::of));
    put(out, b"\n");
    Ok(())
}

/// Appends the line of the event in a room, as `render_event` does that of an event.
pub fn render_room(number: u64, room: &EventRoom, out: &mut Vec<u8>) -> Result<(), AllocError>
    ensures ok { OnOk result (out.new.items ≡ out.old.items ++ event_line number room.now) }
    ensures err { OnErr result (out.new.items ≡ out.old.items) }
{
    out.reserve(LONGEST_EVENT)?;
    put_agent(out, number, room.agent());
    put_cause(out, room.cause());
    put_sends(out, room.sends());
    put_commit(out, room.commit());
    put(out, b"\n");
    Ok(())
}

/// Appends the number of an event, its agent, and the spaces behind them. There is room for them.
#[inline(always)]
fn put_agent(out: &mut Vec<u8>, number: u64, agent: u8)
    requires { vec_len out.old + 43 ≤ vec_capacity out.old }
    ensures items { out.new.items ≡ out.old.items ++ (decimal number ++ 32 ∷ agent_text agent ++ 32 ∷ []) }
    ensures len { vec_len out.new ≤ vec_len out.old + 43 }
    ensures capacity { vec_capacity out.old ≤ vec_capacity out.new }
{
    put_number(out, number);
    if agent == DEVICE {
        put(out, b" dev ");
    } else {
        put(out, b" ");
        put_host(out, agent);
        put(out, b" ");
    }
}

/// Appends a cause. There is room for it.
#[inline(always)]
fn put_cause(out: &mut Vec<u8>, cause: CauseRef<'_>)
    requires { vec_len out.old + LONGEST_CAUSE ≤ vec_capacity out.old }
    ensures items { out.new.items ≡ out.old.items ++ cause_text (cause_of cause.entry) }
    ensures len { vec_len out.new ≤ vec_len out.old + LONGEST_CAUSE }
    ensures capacity { vec_capacity out.old ≤ vec_capacity out.new }
{
    match cause {
        CauseRef::Op { stream, index, op } => put_begun(out, stream, index, op),
        CauseRef::Take { host, message } => put_taken(out, host, message),
        CauseRef::Act(act) => put_done(out, act),
    }
}

/// Appends the operation that begins as a cause. There is room for it.
#[inline(always)]
fn put_begun(out: &mut Vec<u8>, stream: u8, index: u32, op: OpRef<'_>)
    requires { vec_len out.old + LONGEST_CAUSE ≤ vec_capacity out.old }
    ensures items { out.new.items ≡ out.old.items ++ cause_text (Cause.Op stream index (op_of op.entry)) }
    ensures len { vec_len out.new ≤ vec_len out.old + LONGEST_CAUSE }
    ensures capacity { vec_capacity out.old ≤ vec_capacity out.new }
{
    put_op(out, stream, index, op);
}

/// Appends the message that is taken as a cause. There is room for it.
#[inline(always)]
fn put_taken(out: &mut Vec<u8>, host: u8, message: MessageRef<'_>)
    requires { vec_len out.old + LONGEST_CAUSE ≤ vec_capacity out.old }
    ensures items { out.new.items ≡ out.old.items ++ cause_text (Cause.Take host (message_of message.entry)) }
    ensures len { vec_len out.new ≤ vec_len out.old + LONGEST_CAUSE }
    ensures capacity { vec_capacity out.old ≤ vec_capacity out.new }
{
    put(out, b"take ");
    put_host(out, host);
    put(out, b" ");
    put_message(out, message);
}

/// Appends the act that is done as a cause. There is room for it.
#[inline(always)]
fn put_done(out: &mut Vec<u8>, act: Act)
    requires { vec_len out.old + LONGEST_CAUSE ≤ vec_capacity out.old }
    ensures items { out.new.items ≡ out.old.items ++ cause_text (Cause.Act act) }
    ensures len { vec_len out.new ≤ vec_len out.old + LONGEST_CAUSE }
    ensures capacity { vec_capacity out.old ≤ vec_capacity out.new }
{
    put(out, b"act ");
    put_act(out, act);
}

/// Appends the messages that an event sends. There is room for them.
#[inline(always)]
fn put_sends(out: &mut Vec<u8>, sends: SendsRef<'_>)
    requires { vec_len out.old + 2 * LONGEST_OUT ≤ vec_capacity out.old }
    ensures items { out.new.items ≡ out.old.items ++ flat_map out_text (outs (sends_of sends.entry)) }
    ensures len { vec_len out.new ≤ vec_len out.old + 2 * LONGEST_OUT }
    ensures capacity { vec_capacity out.old ≤ vec_capacity out.new }
{
    match sends {
        SendsRef::Nothing => {}
        SendsRef::One(first) => put_out(out, first),
        SendsRef::Two(first, second) => {
            put_out(out, first);
            put_out(out, second);
        }
    }
}

/// Appends a message that an event sends. There is room for it.
#[inline(always)]
fn put_out(out: &mut Vec<u8>, sent: OutRef<'_>)
    requires { vec_len out.old + LONGEST_OUT ≤ vec_capacity out.old }
    ensures items { out.new.items ≡ out.old.items ++ out_text (out_of sent.entry) }
    ensures len { vec_len out.new ≤ vec_len out.old + LONGEST_OUT }
    ensures capacity { vec_capacity out.old ≤ vec_capacity out.new }
{
    put(out, b" > ");
    put_host(out, sent.host);
    put(out, b" ");
    put_message(out, sent.message);
}

/// Appends the commit, if there is one. There is room for it.
#[inline(always)]
fn put_commit(out: &mut Vec<u8>, commit: Option<CommitRef<'_>>)
    requires { vec_len out.old + LONGEST_COMMIT ≤ vec_capacity out.old }
    ensures items { out.new.items ≡ out.old.items ++ commit_text (option_map commit_of commit.entry) }
    ensures len { vec_len out.new ≤ vec_len out.old + LONGEST_COMMIT }
    ensures capacity { vec_capacity out.old ≤ vec_capacity out.new }
{
    match commit {
        None => {}
        Some(commit) => {
            put(out, b" = ");
            put_op(out, commit.stream, commit.index, commit.op);
            put_line_bytes(out, b" gives ", commit.value);
        }
    }
}
