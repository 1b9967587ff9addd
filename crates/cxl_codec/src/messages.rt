// The messages inside event records.
ghost use Rattle.std.specs.Prelude.{◌≡◌, ◌<◌, ◌^◌, ◌+◌, ◌∷◌, ◌≤◌, ◌++◌, IsTrue, vec_len, vec_capacity};
ghost use Rattle.std.specs.Int.{w16, w32};
ghost use Rattle.cxl_message.specs.Codes.{meta_code as code_of_meta, snoop_type_code as code_of_snoop_type};
ghost use Rattle.cxl_message.specs.declared.messages.Message.{Message};
ghost use Rattle.event_room.specs.Parts.{message_of};
ghost use Rattle.cxl_codec.specs.declared.fields.FieldName.{FieldName};
ghost use Rattle.cxl_codec.specs.Cells.{bytes_of, kind, field, number};
ghost use Rattle.cxl_codec.specs.Messages.{message_cells, MessageInRange};
ghost use Rattle.cxl_codec.specs.Versions.{message_fits, tag_fits, tag_limit, tag_width};
ghost use Rattle.cxl_codec.specs.Reading.{Gives};
ghost use Rattle.cxl_codec.specs.ReadingEvents.{message_fields_at, message_at};

use crate::faults::Fault;
use crate::fields::FieldName;
use crate::kind_bytes::read_message_kind;
use crate::kinds::MessageKind;
use crate::reading::{
    read_bitag, read_channel, read_line, read_meta, read_payload, read_snoop_type, read_span,
    read_tag, read_within, read_zeros,
};
use crate::versions::Version;
use crate::writing::{put, put_payload, put_tag};
use cxl_message::codes::{BI_CONFLICT, CREDIT, MEM_DATA, MEM_WR};
use cxl_message::{BiTag, Line, MAX_SPAN, Meta, ReqOp, RspOp, SnpOp, SnpType, Span, Tag};
use event_room::{MessageHead, MessageRef};

/// How many bytes a message has at most.
pub const LONGEST_MESSAGE: usize = 75;

/// Appends a message, whose Tag the version has room for. There is room for it.
pub fn put_message(out: &mut Vec<u8>, version: Version, message: MessageRef<'_>)
    requires room { vec_len out.old + LONGEST_MESSAGE ≤ vec_capacity out.old }
    requires fits { IsTrue (message_fits version (message_of message)) }
    ensures items { out.new.items ≡ out.old.items ++ bytes_of (message_cells version (message_of message.entry)) }
    ensures range { MessageInRange version (message_of message.entry) }
    ensures len { vec_len out.new ≤ vec_len out.old + LONGEST_MESSAGE }
    ensures capacity { vec_capacity out.old ≤ vec_capacity out.new }
{
    match message.head {
        MessageHead::Req {
            op,
            meta,
            snp,
            tag,
            line,
        } => put_request(out, version, op.code(), meta, snp, tag, line),
        MessageHead::MemWr {
            meta,
            snp,
            tag,
            line,
        } => put_write(out, version, meta, snp, tag, line, message.payload),
        MessageHead::BiConflict { tag } => put_conflict(out, version, tag),
        MessageHead::BiRsp { op, bitag, low } => put_response(out, version, op, bitag, low),
        MessageHead::Ndr { op, tag } => put_tagged(out, version, op.code(), tag),
        MessageHead::MemData { tag } => put_data(out, version, tag, message.payload),
        MessageHead::BiSnp {
            op,
            bitag,
            line,
            span,
        } => put_snoop(out, version, op, bitag, line, span),
        MessageHead::Credit { channel } => put(out, &[CREDIT, channel.code()]),
    }
}

/// Appends the front of a request or a write: the kind byte and the fields. There is room for it.
#[inline(always)]
fn put_request(
    out: &mut Vec<u8>,
    version: Version,
    code: u8,
    meta: Meta,
    snp: SnpType,
    tag: Tag,
    line: Line,
)
    requires room { vec_len out.old + 11 ≤ vec_capacity out.old }
    requires fits { IsTrue (tag_fits version tag.0) }
    ensures items { out.new.items ≡ out.old.items ++ bytes_of (kind code ∷ field FieldName.Meta (code_of_meta meta) ∷ field FieldName.SnpType (code_of_snoop_type snp) ∷ number (tag_width version) tag.0 ++ number w32 line.0) }
    ensures range { (tag.0 < tag_limit version) × (line.0 < 2 ^ 32) }
    ensures len { vec_len out.new ≤ vec_len out.old + 11 }
    ensures capacity { vec_capacity out.old ≤ vec_capacity out.new }
{
    put(out, &[code, meta.code(), snp.code()]);
    put_tag(out, version, tag);
    put(out, &line.0.to_be_bytes());
}

/// Appends a write. There is room for it.
#[inline(always)]
fn put_write(
    out: &mut Vec<u8>,
    version: Version,
    meta: Meta,
    snp: SnpType,
    tag: Tag,
    line: Line,
    bytes: &[u8; 64],
)
    requires room { vec_len out.old + 75 ≤ vec_capacity out.old }
    requires fits { IsTrue (tag_fits version tag.0) }
    ensures items { out.new.items ≡ out.old.items ++ bytes_of (message_cells version (Message.MemWr meta snp tag line (record { 0 = bytes.now }))) }
    ensures range { MessageInRange version (Message.MemWr meta snp tag line (record { 0 = bytes.now })) }
    ensures len { vec_len out.new ≤ vec_len out.old + 75 }
    ensures capacity { vec_capacity out.old ≤ vec_capacity out.new }
{
    put_request(out, version, MEM_WR, meta, snp, tag, line);
    put_payload(out, bytes);
}

/// Appends a conflict. There is room for it.
#[inline(always)]
fn put_conflict(out: &mut Vec<u8>, version: Version, tag: Tag)
    requires room { vec_len out.old + 69 ≤ vec_capacity out.old }
    requires fits { IsTrue (tag_fits version tag.0) }
    ensures items { out.new.items ≡ out.old.items ++ bytes_of (message_cells version (Message.BiConflict tag)) }
    ensures range { tag.0 < tag_limit version }
    ensures len { vec_len out.new ≤ vec_len out.old + 69 }
    ensures capacity { vec_capacity out.old ≤ vec_capacity out.new }
{
    put_tagged(out, version, BI_CONFLICT, tag);
    put(out, &[0; 64]);
}

/// Appends an answer to a snoop. There is room for it.
#[inline(always)]
fn put_response(out: &mut Vec<u8>, version: Version, op: RspOp, bitag: BiTag, low: u8)
    requires { vec_len out.old + 4 ≤ vec_capacity out.old }
    ensures items { out.new.items ≡ out.old.items ++ bytes_of (message_cells version (Message.BiRsp op bitag low)) }
    ensures range { bitag.0 < 2 ^ 16 }
    ensures len { vec_len out.new ≡ vec_len out.old + 4 }
    ensures capacity { vec_capacity out.old ≤ vec_capacity out.new }
{
    let [t1, t0] = bitag.0.to_be_bytes();
    put(out, &[op.code(), t1, t0, low]);
}

/// Appends a kind byte and a Tag. There is room for it.
#[inline(always)]
fn put_tagged(out: &mut Vec<u8>, version: Version, code: u8, tag: Tag)
    requires room { vec_len out.old + 5 ≤ vec_capacity out.old }
    requires fits { IsTrue (tag_fits version tag.0) }
    ensures items { out.new.items ≡ out.old.items ++ bytes_of (kind code ∷ number (tag_width version) tag.0) }
    ensures range { tag.0 < tag_limit version }
    ensures len { vec_len out.new ≤ vec_len out.old + 5 }
    ensures capacity { vec_capacity out.old ≤ vec_capacity out.new }
{
    put(out, &[code]);
    put_tag(out, version, tag);
}

/// Appends the bytes of a line that was read. There is room for it.
#[inline(always)]
fn put_data(out: &mut Vec<u8>, version: Version, tag: Tag, bytes: &[u8; 64])
    requires room { vec_len out.old + 69 ≤ vec_capacity out.old }
    requires fits { IsTrue (tag_fits version tag.0) }
    ensures items { out.new.items ≡ out.old.items ++ bytes_of (message_cells version (Message.MemData tag (record { 0 = bytes.now }))) }
    ensures range { MessageInRange version (Message.MemData tag (record { 0 = bytes.now })) }
    ensures len { vec_len out.new ≤ vec_len out.old + 69 }
    ensures capacity { vec_capacity out.old ≤ vec_capacity out.new }
{
    put_tagged(out, version, MEM_DATA, tag);
    put_payload(out, bytes);
}

/// Appends a snoop. There is room for it.
#[inline(always)]
fn put_snoop(out: &mut Vec<u8>, version: Version, op: SnpOp, bitag: BiTag, line: Line, span: Span)
    requires { vec_len out.old + 8 ≤ vec_capacity out.old }
    ensures items { out.new.items ≡ out.old.items ++ bytes_of (message_cells version (Message.BiSnp op bitag line span)) }
    ensures range { (bitag.0 < 2 ^ 16) × (line.0 < 2 ^ 32) }
    ensures len { vec_len out.new ≡ vec_len out.old + 8 }
    ensures capacity { vec_capacity out.old ≤ vec_capacity out.new }
{
    let [t1, t0] = bitag.0.to_be_bytes();
    let [l3, l2, l1, l0] = line.0.to_be_bytes();
    put(out, &[op.code(), t1, t0, l3, l2, l1, l0, span.lines()]);
}

/// Reads a message.
#[inline(always)]
#[tactic(auto, unfolding(crate::specs::ReadingEvents::message_at))]
pub fn read_message(version: Version, bytes: &[u8]) -> Result<(MessageRef<'_>, &[u8]), Fault>
    ensures { Gives (λ x. (message_of x.0, x.1.now)) result (message_at version bytes.now) }
{
    let (kind, rest) = read_message_kind(bytes)?;
    read_message_fields(version, kind, rest)
}

/// Reads the fields of a message of this kind.
#[inline(always)]
#[tactic(auto, unfolding(crate::specs::ReadingEvents::message_fields_at))]
fn read_message_fields(
    version: Version,
    kind: MessageKind,
    bytes: &[u8],
) -> Result<(MessageRef<'_>, &[u8]), Fault>
    ensures { Gives (λ x. (message_of x.0, x.1.now)) result (message_fields_at version kind bytes.now) }
{
    match kind {
        MessageKind::Req(op) => read_request(version, op, bytes),
        MessageKind::MemWr => read_write(version, bytes),
        MessageKind::BiConflict => {
            let (tag, rest) = read_tag(version, bytes)?;
            let (_, rest) = read_zeros(rest)?;
            Ok((MessageRef::plain(MessageHead::BiConflict { tag }), rest))
        }
        MessageKind::BiRsp(op) => {
            let (bitag, rest) = read_bitag(bytes)?;
            let (low, rest) = read_within(rest, FieldName::LowAddr, 0, MAX_SPAN - 1)?;
            Ok((
                MessageRef::plain(MessageHead::BiRsp { op, bitag, low }),
                rest,
            ))
        }
        MessageKind::Ndr(op) => {
            let (tag, rest) = read_tag(version, bytes)?;
            Ok((MessageRef::plain(MessageHead::Ndr { op, tag }), rest))
        }
        MessageKind::MemData => read_data(version, bytes),
        MessageKind::BiSnp(op) => read_snoop(op, bytes),
        MessageKind::Credit => {
            let (channel, rest) = read_channel(bytes)?;
            Ok((MessageRef::plain(MessageHead::Credit { channel }), rest))
        }
    }
}

/// Reads the fields of a request.
#[inline(always)]
#[tactic(auto, unfolding(crate::specs::ReadingEvents::message_fields_at))]
fn read_request(version: Version, op: ReqOp, bytes: &[u8]) -> Result<(MessageRef<'_>, &[u8]), Fault>
    ensures { Gives (λ x. (message_of x.0, x.1.now)) result (message_fields_at version (MessageKind.Req op) bytes.now) }
{
    let (meta, rest) = read_meta(bytes)?;
    let (snp, rest) = read_snoop_type(rest)?;
    let (tag, rest) = read_tag(version, rest)?;
    let (line, rest) = read_line(rest)?;
    let head = MessageHead::Req {
        op,
        meta,
        snp,
        tag,
        line,
    };
    Ok((MessageRef::plain(head), rest))
}

/// Reads the fields of a write.
#[inline(always)]
#[tactic(auto, unfolding(crate::specs::ReadingEvents::message_fields_at))]
fn read_write(version: Version, bytes: &[u8]) -> Result<(MessageRef<'_>, &[u8]), Fault>
    ensures { Gives (λ x. (message_of x.0, x.1.now)) result (message_fields_at version MessageKind.MemWr bytes.now) }
{
    let (meta, rest) = read_meta(bytes)?;
    let (snp, rest) = read_snoop_type(rest)?;
    let (tag, rest) = read_tag(version, rest)?;
    let (line, rest) = read_line(rest)?;
    let (payload, rest) = read_payload(rest)?;
    let head = MessageHead::MemWr {
        meta,
        snp,
        tag,
        line,
    };
    Ok((MessageRef { head, payload }, rest))
}

/// Reads the fields of a MemData.
#[inline(always)]
#[tactic(auto, unfolding(crate::specs::ReadingEvents::message_fields_at))]
fn read_data(version: Version, bytes: &[u8]) -> Result<(MessageRef<'_>, &[u8]), Fault>
    ensures { Gives (λ x. (message_of x.0, x.1.now)) result (message_fields_at version MessageKind.MemData bytes.now) }
{
    let (tag, rest) = read_tag(version, bytes)?;
    let (payload, rest) = read_payload(rest)?;
    let head = MessageHead::MemData { tag };
    Ok((MessageRef { head, payload }, rest))
}

/// Reads the fields of a snoop.
#[inline(always)]
#[tactic(auto, unfolding(crate::specs::ReadingEvents::message_fields_at))]
fn read_snoop(op: SnpOp, bytes: &[u8]) -> Result<(MessageRef<'_>, &[u8]), Fault>
    ensures { (version : Version) → Gives (λ x. (message_of x.0, x.1.now)) result (message_fields_at version (MessageKind.BiSnp op) bytes.now) }
{
    let (bitag, rest) = read_bitag(bytes)?;
    let (line, rest) = read_line(rest)?;
    let (span, rest) = read_span(op, rest)?;
    let head = MessageHead::BiSnp {
        op,
        bitag,
        line,
        span,
    };
    Ok((MessageRef::plain(head), rest))
}
