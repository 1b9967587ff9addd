// Acts as text.
ghost use Rattle.std.specs.Prelude.{◌≡◌, ◌+◌, ◌≤◌, ◌++◌, length, vec_len, vec_capacity};
ghost use Rattle.cxl_view.specs.Events.{act_text, served_text};
ghost use Rattle.cxl_message.specs.declared.events.Act.{Act};

use crate::words::channel_word;
use crate::writing::{put, put_field, put_host};
use cxl_message::{Act, Channel, Line, Tag};

/// How many bytes the text of an act has at most.
pub const LONGEST_ACT: usize = 53;

/// Appends an act. There is room for it.
pub fn put_act(out: &mut Vec<u8>, act: Act)
    requires { vec_len out.old + LONGEST_ACT ≤ vec_capacity out.old }
    ensures items { out.new.items ≡ out.old.items ++ act_text act }
    ensures len { vec_len out.new ≤ vec_len out.old + LONGEST_ACT }
    ensures capacity { vec_capacity out.old ≤ vec_capacity out.new }
{
    match act {
        Act::Conflict(line) => put_field(out, b"Conflict line=", u64::from(line.0)),
        Act::WriteBack(line) => put_field(out, b"WriteBack line=", u64::from(line.0)),
        Act::Answer(line) => put_field(out, b"Answer line=", u64::from(line.0)),
        Act::AnswerBlock(line) => put_field(out, b"AnswerBlock line=", u64::from(line.0)),
        Act::HostReturn(channel) => {
            put(out, b"Return ");
            put(out, channel_word(channel));
        }
        Act::Serve { host, tag } => put_served(out, b"Serve ", host, tag),
        Act::Clean { host, tag } => put_served(out, b"Clean ", host, tag),
        Act::Start { host, tag } => put_served(out, b"Start ", host, tag),
        Act::Evict { host, tag } => put_served(out, b"Evict ", host, tag),
        Act::Snoop { host, line } => put_snooping(out, host, line),
        Act::Finish(line) => put_field(out, b"Finish line=", u64::from(line.0)),
        Act::DeviceReturn { host, channel } => put_return(out, host, channel),
    }
}

/// Appends an act of the device on a request or a write. There is room for it.
#[inline(always)]
fn put_served(out: &mut Vec<u8>, word: &[u8], host: u8, tag: Tag)
    requires room { vec_len out.old + LONGEST_ACT ≤ vec_capacity out.old }
    requires word { length word.now ≤ 6 }
    ensures items { out.new.items ≡ out.old.items ++ served_text word.now host tag.0 }
    ensures len { vec_len out.new ≤ vec_len out.old + LONGEST_ACT }
    ensures capacity { vec_capacity out.old ≤ vec_capacity out.new }
{
    put(out, word);
    put_host(out, host);
    put_field(out, b" tag=", u64::from(tag.0));
}

/// Appends the act by which the device snoops a host. There is room for it.
#[inline(always)]
fn put_snooping(out: &mut Vec<u8>, host: u8, line: Line)
    requires { vec_len out.old + LONGEST_ACT ≤ vec_capacity out.old }
    ensures items { out.new.items ≡ out.old.items ++ act_text (Act.Snoop host line) }
    ensures len { vec_len out.new ≤ vec_len out.old + LONGEST_ACT }
    ensures capacity { vec_capacity out.old ≤ vec_capacity out.new }
{
    put(out, b"Snoop ");
    put_host(out, host);
    put_field(out, b" line=", u64::from(line.0));
}

/// Appends the act by which the device gives a credit back. There is room for it.
#[inline(always)]
fn put_return(out: &mut Vec<u8>, host: u8, channel: Channel)
    requires { vec_len out.old + LONGEST_ACT ≤ vec_capacity out.old }
    ensures items { out.new.items ≡ out.old.items ++ act_text (Act.DeviceReturn host channel) }
    ensures len { vec_len out.new ≤ vec_len out.old + LONGEST_ACT }
    ensures capacity { vec_capacity out.old ≤ vec_capacity out.new }
{
    put(out, b"Return ");
    put_host(out, host);
    put(out, b" ");
    put(out, channel_word(channel));
}
