// Messages as text.
ghost use Rattle.std.specs.Prelude.{◌≡◌, ◌+◌, ◌≤◌, ◌++◌, ◌∷◌, codes, vec_len, vec_capacity};
ghost use Rattle.cxl_message.specs.declared.messages.Message.{Message};
ghost use Rattle.event_room.specs.Parts.{message_of};
ghost use Rattle.cxl_view.specs.Events.{field, message_text, span_text};
ghost use Rattle.cxl_view.specs.Words as spec;

use crate::words::{
    channel_word, completion_word, meta_word, request_word, response_word, snoop_type_word,
    snoop_word,
};
use crate::writing::{put, put_field, put_line_bytes};
use cxl_message::{BiTag, Line, Meta, ReqOp, RspOp, SnpOp, SnpType, Span, Tag};
use event_room::{MessageHead, MessageRef};

/// How many bytes the text of a message has at most.
pub const LONGEST_MESSAGE: usize = 221;
/// How many bytes the fields of a request or a write have at most.
const LONGEST_REQUEST: usize = 80;

/// Appends a message. There is room for it.
pub fn put_message(out: &mut Vec<u8>, message: MessageRef<'_>)
    requires { vec_len out.old + LONGEST_MESSAGE ≤ vec_capacity out.old }
    ensures items { out.new.items ≡ out.old.items ++ message_text (message_of message.entry) }
    ensures len { vec_len out.new ≤ vec_len out.old + LONGEST_MESSAGE }
    ensures capacity { vec_capacity out.old ≤ vec_capacity out.new }
{
    match message.head {
        MessageHead::Req {
            op,
            meta,
            snp,
            tag,
            line,
        } => put_request(out, op, meta, snp, tag, line),
        MessageHead::MemWr {
            meta,
            snp,
            tag,
            line,
        } => put_write(out, meta, snp, tag, line, message.payload),
        MessageHead::BiConflict { tag } => put_field(out, b"BIConflict tag=", u64::from(tag.0)),
        MessageHead::BiRsp { op, bitag, low } => put_response(out, op, bitag, low),
        MessageHead::Ndr { op, tag } => {
            put(out, completion_word(op));
            put_field(out, b" tag=", u64::from(tag.0));
        }
        MessageHead::MemData { tag } => put_data(out, tag, message.payload),
        MessageHead::BiSnp {
            op,
            bitag,
            line,
            span,
        } => put_snoop(out, op, bitag, line, span),
        MessageHead::Credit { channel } => {
            put(out, b"Credit ");
            put(out, channel_word(channel));
        }
    }
}

/// Appends a request. There is room for it.
#[inline(always)]
fn put_request(out: &mut Vec<u8>, op: ReqOp, meta: Meta, snp: SnpType, tag: Tag, line: Line)
    requires { vec_len out.old + LONGEST_MESSAGE ≤ vec_capacity out.old }
    ensures items { out.new.items ≡ out.old.items ++ message_text (Message.Req op meta snp tag line) }
    ensures len { vec_len out.new ≤ vec_len out.old + LONGEST_MESSAGE }
    ensures capacity { vec_capacity out.old ≤ vec_capacity out.new }
{
    put(out, request_word(op));
    put(out, b" ");
    put_request_fields(out, meta, snp, tag, line);
}

/// Appends the fields of a request or a write. There is room for them.
#[inline(always)]
fn put_request_fields(out: &mut Vec<u8>, meta: Meta, snp: SnpType, tag: Tag, line: Line)
    requires { vec_len out.old + LONGEST_REQUEST ≤ vec_capacity out.old }
    ensures items { out.new.items ≡ out.old.items ++ (spec.meta_word meta ++ 32 ∷ spec.snoop_type_word snp ++ field (codes " tag=") tag.0 ++ field (codes " line=") line.0) }
    ensures len { vec_len out.new ≤ vec_len out.old + LONGEST_REQUEST }
    ensures capacity { vec_capacity out.old ≤ vec_capacity out.new }
{
    put(out, meta_word(meta));
    put(out, b" ");
    put(out, snoop_type_word(snp));
    put_field(out, b" tag=", u64::from(tag.0));
    put_field(out, b" line=", u64::from(line.0));
}

/// Appends a write. There is room for it.
#[inline(always)]
fn put_write(out: &mut Vec<u8>, meta: Meta, snp: SnpType, tag: Tag, line: Line, bytes: &[u8; 64])
    requires { vec_len out.old + LONGEST_MESSAGE ≤ vec_capacity out.old }
    ensures items { out.new.items ≡ out.old.items ++ message_text (Message.MemWr meta snp tag line (record { 0 = bytes.now })) }
    ensures len { vec_len out.new ≤ vec_len out.old + LONGEST_MESSAGE }
    ensures capacity { vec_capacity out.old ≤ vec_capacity out.new }
{
    put(out, b"MemWr ");
    put_request_fields(out, meta, snp, tag, line);
    put_line_bytes(out, b" bytes=", bytes);
}

/// Appends an answer to a snoop. There is room for it.
#[inline(always)]
fn put_response(out: &mut Vec<u8>, op: RspOp, bitag: BiTag, low: u8)
    requires { vec_len out.old + LONGEST_MESSAGE ≤ vec_capacity out.old }
    ensures items { out.new.items ≡ out.old.items ++ message_text (Message.BiRsp op bitag low) }
    ensures len { vec_len out.new ≤ vec_len out.old + LONGEST_MESSAGE }
    ensures capacity { vec_capacity out.old ≤ vec_capacity out.new }
{
    put(out, response_word(op));
    put_field(out, b" bitag=", u64::from(bitag.0));
    put_field(out, b" low=", u64::from(low));
}

/// Appends the bytes of a line that was read. There is room for them.
#[inline(always)]
fn put_data(out: &mut Vec<u8>, tag: Tag, bytes: &[u8; 64])
    requires { vec_len out.old + LONGEST_MESSAGE ≤ vec_capacity out.old }
    ensures items { out.new.items ≡ out.old.items ++ message_text (Message.MemData tag (record { 0 = bytes.now })) }
    ensures len { vec_len out.new ≤ vec_len out.old + LONGEST_MESSAGE }
    ensures capacity { vec_capacity out.old ≤ vec_capacity out.new }
{
    put_field(out, b"MemData tag=", u64::from(tag.0));
    put_line_bytes(out, b" bytes=", bytes);
}

/// Appends a snoop. There is room for it.
#[inline(always)]
fn put_snoop(out: &mut Vec<u8>, op: SnpOp, bitag: BiTag, line: Line, span: Span)
    requires { vec_len out.old + LONGEST_MESSAGE ≤ vec_capacity out.old }
    ensures items { out.new.items ≡ out.old.items ++ message_text (Message.BiSnp op bitag line span) }
    ensures len { vec_len out.new ≤ vec_len out.old + LONGEST_MESSAGE }
    ensures capacity { vec_capacity out.old ≤ vec_capacity out.new }
{
    put(out, snoop_word(op));
    put_field(out, b" bitag=", u64::from(bitag.0));
    put_field(out, b" line=", u64::from(line.0));
    put_span(out, span);
}

/// Appends how many lines a snoop is for, where it is for more than one. There is room for it.
#[inline(always)]
fn put_span(out: &mut Vec<u8>, span: Span)
    requires { vec_len out.old + 7 ≤ vec_capacity out.old }
    ensures items { out.new.items ≡ out.old.items ++ span_text span }
    ensures len { vec_len out.new ≤ vec_len out.old + 7 }
    ensures capacity { vec_capacity out.old ≤ vec_capacity out.new }
{
    match span {
        Span::One => {}
        Span::Two => put(out, b" span=2"),
        Span::Four => put(out, b" span=4"),
    }
}
