// The acts inside event records.
ghost use Rattle.std.specs.Prelude.{◌≡◌, ◌<◌, ◌^◌, ◌+◌, ◌≤◌, ◌++◌, IsTrue, vec_len, vec_capacity};
ghost use Rattle.cxl_codec.specs.Cells.{bytes_of, kind, field, number};
ghost use Rattle.cxl_codec.specs.Events.{act_cells, ActInRange};
ghost use Rattle.cxl_codec.specs.Reading.{Gives};
ghost use Rattle.cxl_codec.specs.Versions.{act_fits, tag_fits, tag_limit, tag_width};
ghost use Rattle.cxl_codec.specs.ReadingEvents.{act_fields_at, act_at};
ghost use Rattle.std.specs.Prelude.{◌∷◌};
ghost use Rattle.std.specs.Int.{w32};
ghost use Rattle.cxl_codec.specs.declared.fields.FieldName.{FieldName};

use crate::faults::Fault;
use crate::fields::FieldName;
use crate::kind_bytes::read_act_kind;
use crate::kinds::{ActKind, LineActKind, TaggedActKind};
use crate::reading::{read_channel, read_line, read_tag, read_within};
use crate::versions::Version;
use crate::writing::{put, put_tag};
use cxl_message::{Act, Line, MAX_HOSTS, Tag};

/// How many bytes an act has at most.
pub const LONGEST_ACT: usize = 6;

/// Appends an act, whose Tag the version has room for. There is room for it.
pub fn put_act(out: &mut Vec<u8>, version: Version, act: Act)
    requires room { vec_len out.old + LONGEST_ACT ≤ vec_capacity out.old }
    requires fits { IsTrue (act_fits version act) }
    ensures items { out.new.items ≡ out.old.items ++ bytes_of (act_cells version act) }
    ensures range { ActInRange version act }
    ensures len { vec_len out.new ≤ vec_len out.old + LONGEST_ACT }
    ensures capacity { vec_capacity out.old ≤ vec_capacity out.new }
{
    match act {
        Act::Conflict(line) => put_line_act(out, 0x01, line),
        Act::WriteBack(line) => put_line_act(out, 0x02, line),
        Act::Answer(line) => put_line_act(out, 0x03, line),
        Act::AnswerBlock(line) => put_line_act(out, 0x04, line),
        Act::HostReturn(channel) => put(out, &[0x05, channel.code()]),
        Act::Serve { host, tag } => put_tag_act(out, version, 0x11, host, tag),
        Act::Clean { host, tag } => put_tag_act(out, version, 0x12, host, tag),
        Act::Start { host, tag } => put_tag_act(out, version, 0x13, host, tag),
        Act::Evict { host, tag } => put_tag_act(out, version, 0x14, host, tag),
        Act::Snoop { host, line } => {
            let [l3, l2, l1, l0] = line.0.to_be_bytes();
            put(out, &[0x15, host, l3, l2, l1, l0])
        }
        Act::Finish(line) => put_line_act(out, 0x16, line),
        Act::DeviceReturn { host, channel } => put(out, &[0x17, host, channel.code()]),
    }
}

/// Appends an act of this kind that names a line. There is room for it.
#[inline(always)]
fn put_line_act(out: &mut Vec<u8>, code: u8, line: Line)
    requires { vec_len out.old + 5 ≤ vec_capacity out.old }
    ensures items { out.new.items ≡ out.old.items ++ bytes_of (kind code ∷ number w32 line.0) }
    ensures range { line.0 < 2 ^ 32 }
    ensures len { vec_len out.new ≡ vec_len out.old + 5 }
    ensures capacity { vec_capacity out.old ≤ vec_capacity out.new }
{
    let [l3, l2, l1, l0] = line.0.to_be_bytes();
    put(out, &[code, l3, l2, l1, l0]);
}

/// Appends an act of this kind that names a host and a tag. There is room for it.
#[inline(always)]
fn put_tag_act(out: &mut Vec<u8>, version: Version, code: u8, host: u8, tag: Tag)
    requires room { vec_len out.old + 6 ≤ vec_capacity out.old }
    requires fits { IsTrue (tag_fits version tag.0) }
    ensures items { out.new.items ≡ out.old.items ++ bytes_of (kind code ∷ field FieldName.Host host ∷ number (tag_width version) tag.0) }
    ensures range { tag.0 < tag_limit version }
    ensures len { vec_len out.new ≤ vec_len out.old + 6 }
    ensures capacity { vec_capacity out.old ≤ vec_capacity out.new }
{
    put(out, &[code, host]);
    put_tag(out, version, tag);
}

/// Reads an act.
#[tactic(auto, unfolding(crate::specs::ReadingEvents::act_at))]
pub fn read_act(version: Version, bytes: &[u8]) -> Result<(Act, &[u8]), Fault>
    ensures { Gives (λ x. (x.0, x.1.now)) result (act_at version bytes.now) }
{
    let (kind, rest) = read_act_kind(bytes)?;
    read_act_fields(version, kind, rest)
}

/// Reads the fields of an act of this kind.
#[tactic(auto, unfolding(crate::specs::ReadingEvents::act_fields_at))]
fn read_act_fields(version: Version, kind: ActKind, bytes: &[u8]) -> Result<(Act, &[u8]), Fault>
    ensures { Gives (λ x. (x.0, x.1.now)) result (act_fields_at version kind bytes.now) }
{
    match kind {
        ActKind::Line(kind) => read_line_act(kind, bytes),
        ActKind::Tagged(kind) => read_tagged_act(version, kind, bytes),
        ActKind::HostReturn => {
            let (channel, rest) = read_channel(bytes)?;
            Ok((Act::HostReturn(channel), rest))
        }
        ActKind::Snoop => {
            let (host, rest) = read_within(bytes, FieldName::Host, 0, MAX_HOSTS - 1)?;
            let (line, rest) = read_line(rest)?;
            Ok((Act::Snoop { host, line }, rest))
        }
        ActKind::DeviceReturn => {
            let (host, rest) = read_within(bytes, FieldName::Host, 0, MAX_HOSTS - 1)?;
            let (channel, rest) = read_channel(rest)?;
            Ok((Act::DeviceReturn { host, channel }, rest))
        }
    }
}

/// Reads the line of an act of this kind.
#[tactic(auto, unfolding(crate::specs::ReadingEvents::act_fields_at))]
fn read_line_act(kind: LineActKind, bytes: &[u8]) -> Result<(Act, &[u8]), Fault>
    ensures { (version : Version) → Gives (λ x. (x.0, x.1.now)) result (act_fields_at version (ActKind.Line kind) bytes.now) }
{
    let (line, rest) = read_line(bytes)?;
    match kind {
        LineActKind::Conflict => Ok((Act::Conflict(line), rest)),
        LineActKind::WriteBack => Ok((Act::WriteBack(line), rest)),
        LineActKind::Answer => Ok((Act::Answer(line), rest)),
        LineActKind::AnswerBlock => Ok((Act::AnswerBlock(line), rest)),
        LineActKind::Finish => Ok((Act::Finish(line), rest)),
    }
}

/// Reads the host and the tag of an act of this kind.
#[tactic(auto, unfolding(crate::specs::ReadingEvents::act_fields_at))]
fn read_tagged_act(
    version: Version,
    kind: TaggedActKind,
    bytes: &[u8],
) -> Result<(Act, &[u8]), Fault>
    ensures { Gives (λ x. (x.0, x.1.now)) result (act_fields_at version (ActKind.Tagged kind) bytes.now) }
{
    let (host, rest) = read_within(bytes, FieldName::Host, 0, MAX_HOSTS - 1)?;
    let (tag, rest) = read_tag(version, rest)?;
    match kind {
        TaggedActKind::Serve => Ok((Act::Serve { host, tag }, rest)),
        TaggedActKind::Clean => Ok((Act::Clean { host, tag }, rest)),
        TaggedActKind::Start => Ok((Act::Start { host, tag }, rest)),
        TaggedActKind::Evict => Ok((Act::Evict { host, tag }, rest)),
    }
}
