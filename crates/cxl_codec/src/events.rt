// The event records of a trace.
ghost use Rattle.std.specs.Prelude.{◌≡◌, ◌+◌, ◌≤◌, ◌++◌, IsTrue, OnOk, OnErr, IfOk, IfErr, IfSome, option_map, vec_len, vec_capacity};
ghost use Rattle.cxl_message.specs.Formed.{well_formed as is_well_formed};
ghost use Rattle.cxl_message.specs.Events.{outs};
ghost use Rattle.cxl_message.specs.declared.events.Sends.{Sends};
ghost use Rattle.cxl_message.specs.declared.events.Cause.{Cause};
ghost use Rattle.event_room.specs.Parts.{message_of, op_of, cause_of, sends_of, commit_of};
ghost use Rattle.event_room.specs.Made.{may_send};
ghost use Rattle.std.specs.List.{AllByRecursion, list_all};
ghost use Rattle.cxl_codec.specs.Cells.{bytes_of};
ghost use Rattle.cxl_codec.specs.Events.{cause_cells, sends_cells, commit_cells, event_cells, event_cells_in, CauseInRange, CommitInRange, EventFits, EventFitsIn};
ghost use Rattle.cxl_codec.specs.Messages.{MessageInRange};
ghost use Rattle.cxl_codec.specs.Grammar.{BeginsWith, Refuses};
ghost use Rattle.cxl_codec.specs.Traces.{event_bytes, event_bytes_in};
ghost use Rattle.cxl_codec.specs.Reading.{Gives};
ghost use Rattle.cxl_codec.specs.VersionOne.{fits_version_one};
ghost use Rattle.cxl_codec.specs.Versions.{act_fits, cause_fits, event_fits, message_fits};
ghost use Rattle.cxl_codec.specs.declared.kinds.CauseKind.{CauseKind};
ghost use Rattle.cxl_codec.specs.ReadingRooms.{begun_fields_at, begun_at, sent_at, all_sent_at, sends_sent_at, flagged_set_at, commit_set_at, room_event_at};

use crate::acts::{put_act, read_act};
use crate::faults::{Fault, refusal};
use crate::fields::FieldName;
use crate::kind_bytes::read_cause_kind;
use crate::kinds::CauseKind;
use crate::messages::{put_message, read_message};
use crate::operations::{put_op, read_op};
use crate::reading::{read_payload, read_u32, read_within};
use crate::refusals::DecodeRefusal;
use crate::versions::Version;
use crate::writing::{put, put_payload};
use cxl_message::{Act, DEVICE, Event, MAX_HOSTS, MAX_STREAMS};
use event_room::{CauseRef, CommitRef, EventRoom, MessageRef, OpRef, SendsRef};
use std::alloc::AllocError;

/// How many bytes a cause has at most.
const LONGEST_CAUSE: usize = 77;
/// How many bytes the messages of an event have at most.
const LONGEST_SENDS: usize = 153;
/// How many bytes a commit has at most.
const LONGEST_COMMIT: usize = 139;
/// How many bytes an event has at most.
const LONGEST_EVENT: usize = 370;

/// Appends the record of the event in a room, as `encode_room_in` does, in version 1.
pub fn encode_room(room: &EventRoom, out: &mut Vec<u8>) -> Result<(), AllocError>
    requires formed { IsTrue (is_well_formed room.now) }
    requires version_one { IsTrue (fits_version_one room.now) }
    ensures ok { OnOk result (out.new.items ≡ out.old.items ++ event_bytes room.now) }
    ensures fits { OnOk result (EventFits room.now) }
    ensures err { OnErr result (out.new.items ≡ out.old.items) }
{
    encode_room_in(Version::One, room, out)
}

/// Appends the record of an event, as `encode_event_in` does, in version 1.
pub fn encode_event(event: &Event, out: &mut Vec<u8>) -> Result<(), AllocError>
    requires formed { IsTrue (is_well_formed event.now) }
    requires version_one { IsTrue (fits_version_one event.now) }
    ensures ok { OnOk result (out.new.items ≡ out.old.items ++ event_bytes event.now) }
    ensures fits { OnOk result (EventFits event.now) }
    ensures err { OnErr result (out.new.items ≡ out.old.items) }
{
    encode_event_in(Version::One, event, out)
}

/// Appends the record of the event in a room, which is well formed and whose Tags the version has room for: its agent,
/// cause, sends and commit (own rule). The error is want of memory, and `out` is then as before.
pub fn encode_room_in(
    version: Version,
    room: &EventRoom,
    out: &mut Vec<u8>,
) -> Result<(), AllocError>
    requires formed { IsTrue (is_well_formed room.now) }
    requires version { IsTrue (event_fits version room.now) }
    ensures ok { OnOk result (out.new.items ≡ out.old.items ++ event_bytes_in version room.now) }
    ensures fits { OnOk result (EventFitsIn version room.now) }
    ensures err { OnErr result (out.new.items ≡ out.old.items) }
{
    out.reserve(LONGEST_EVENT)?;
    put(out, &[room.agent()]);
    put_cause(out, version, room.cause());
    put_sends(out, version, room.sends());
    put_commit(out, room.commit());
    Ok(())
}

/// Appends the record of an event, as `encode_room_in` does that of the event in a room.
pub fn encode_event_in(version: Version, event: &Event, out: &mut Vec<u8>) -> Result<(), AllocError>
    requires formed { IsTrue (is_well_formed event.now) }
    requires version { IsTrue (event_fits version event.now) }
    ensures ok { OnOk result (out.new.items ≡ out.old.items ++ event_bytes_in version event.now) }
    ensures fits { OnOk result (EventFitsIn version event.now) }
    ensures err { OnErr result (out.new.items ≡ out.old.items) }
{
    out.reserve(LONGEST_EVENT)?;
    put(out, &[event.agent]);
    put_cause(out, version, CauseRef::of(&event.cause));
    put_sends(out, version, SendsRef::of(&event.sends));
    put_commit(out, event.commit.as_ref().map(CommitRef::of));
    Ok(())
}

/// Appends a cause. There is room for it.
#[inline(always)]
fn put_cause(out: &mut Vec<u8>, version: Version, cause: CauseRef<'_>)
    requires room { vec_len out.old + LONGEST_CAUSE ≤ vec_capacity out.old }
    requires fits { IsTrue (cause_fits version (cause_of cause)) }
    ensures items { out.new.items ≡ out.old.items ++ bytes_of (cause_cells version (cause_of cause.entry)) }
    ensures range { CauseInRange version (cause_of cause.entry) }
    ensures len { vec_len out.new ≤ vec_len out.old + LONGEST_CAUSE }
    ensures capacity { vec_capacity out.old ≤ vec_capacity out.new }
{
    match cause {
        CauseRef::Op { stream, index, op } => put_begun(out, version, stream, index, op),
        CauseRef::Take { host, message } => put_taken(out, version, host, message),
        CauseRef::Act(act) => put_done(out, version, act),
    }
}

/// Appends the operation that begins as a cause. There is room for it.
#[inline(always)]
fn put_begun(out: &mut Vec<u8>, version: Version, stream: u8, index: u32, op: OpRef<'_>)
    requires { vec_len out.old + LONGEST_CAUSE ≤ vec_capacity out.old }
    ensures items { out.new.items ≡ out.old.items ++ bytes_of (cause_cells version (Cause.Op stream index (op_of op.entry))) }
    ensures range { CauseInRange version (Cause.Op stream index (op_of op.entry)) }
    ensures len { vec_len out.new ≤ vec_len out.old + LONGEST_CAUSE }
    ensures capacity { vec_capacity out.old ≤ vec_capacity out.new }
{
    let [i3, i2, i1, i0] = index.to_be_bytes();
    put(out, &[0x01, stream, i3, i2, i1, i0]);
    put_op(out, op);
}

/// Appends the message that is taken as a cause. There is room for it.
#[inline(always)]
fn put_taken(out: &mut Vec<u8>, version: Version, host: u8, message: MessageRef<'_>)
    requires room { vec_len out.old + LONGEST_CAUSE ≤ vec_capacity out.old }
    requires fits { IsTrue (message_fits version (message_of message)) }
    ensures items { out.new.items ≡ out.old.items ++ bytes_of (cause_cells version (Cause.Take host (message_of message.entry))) }
    ensures range { CauseInRange version (Cause.Take host (message_of message.entry)) }
    ensures len { vec_len out.new ≤ vec_len out.old + LONGEST_CAUSE }
    ensures capacity { vec_capacity out.old ≤ vec_capacity out.new }
{
    put(out, &[0x02, host]);
    put_message(out, version, message);
}

/// Appends the act that is done as a cause. There is room for it.
#[inline(always)]
fn put_done(out: &mut Vec<u8>, version: Version, act: Act)
    requires room { vec_len out.old + LONGEST_CAUSE ≤ vec_capacity out.old }
    requires fits { IsTrue (act_fits version act) }
    ensures items { out.new.items ≡ out.old.items ++ bytes_of (cause_cells version (Cause.Act act)) }
    ensures range { CauseInRange version (Cause.Act act) }
    ensures len { vec_len out.new ≤ vec_len out.old + LONGEST_CAUSE }
    ensures capacity { vec_capacity out.old ≤ vec_capacity out.new }
{
    put(out, &[0x03]);
    put_act(out, version, act);
}

/// Appends the messages that an event sends. There is room for them.
#[inline(always)]
fn put_sends(out: &mut Vec<u8>, version: Version, sends: SendsRef<'_>)
    requires room { vec_len out.old + LONGEST_SENDS ≤ vec_capacity out.old }
    requires fits { IsTrue (list_all (λ o. message_fits version o.message) (outs (sends_of sends))) }
    ensures items { out.new.items ≡ out.old.items ++ bytes_of (sends_cells version (sends_of sends.entry)) }
    ensures range { AllByRecursion (λ o. MessageInRange version o.message) (outs (sends_of sends.entry)) }
    ensures len { vec_len out.new ≤ vec_len out.old + LONGEST_SENDS }
    ensures capacity { vec_capacity out.old ≤ vec_capacity out.new }
{
    match sends {
        SendsRef::Nothing => put(out, &[0]),
        SendsRef::One(first) => {
            put(out, &[1, first.host]);
            put_message(out, version, first.message)
        }
        SendsRef::Two(first, second) => {
            put(out, &[2, first.host]);
            put_message(out, version, first.message);
            put(out, &[second.host]);
            put_message(out, version, second.message)
        }
    }
}

/// Appends whether there is a commit, and the commit. There is room for it.
#[inline(always)]
fn put_commit(out: &mut Vec<u8>, commit: Option<CommitRef<'_>>)
    requires { vec_len out.old + LONGEST_COMMIT ≤ vec_capacity out.old }
    ensures items { out.new.items ≡ out.old.items ++ bytes_of (commit_cells (option_map commit_of commit.entry)) }
    ensures range { IfSome (option_map commit_of commit.entry) CommitInRange }
    ensures len { vec_len out.new ≤ vec_len out.old + LONGEST_COMMIT }
    ensures capacity { vec_capacity out.old ≤ vec_capacity out.new }
{
    match commit {
        None => put(out, &[0]),
        Some(commit) => {
            let [i3, i2, i1, i0] = commit.index.to_be_bytes();
            put(out, &[1, commit.stream, i3, i2, i1, i0]);
            put_op(out, commit.op);
            put_payload(out, commit.value)
        }
    }
}

/// Reads the event record at the front of the bytes, as `decode_event_in` does, in version 1.
pub fn decode_event(bytes: &[u8]) -> Result<(Event, usize), DecodeRefusal>
    ensures found { IfOk result (λ found. BeginsWith EventFits event_cells bytes.now found.0 found.1) }
    ensures refused { IfErr result (λ refusal. Refuses EventFits event_cells bytes.now refusal) }
{
    decode_event_in(Version::One, bytes)
}

/// Reads the event record at the front of the bytes into a room, as `decode_room_in` does, in version 1.
pub fn decode_room(bytes: &[u8], room: &mut EventRoom) -> Result<usize, DecodeRefusal>
    ensures found { IfOk result (λ length. BeginsWith EventFits event_cells bytes.now room.new length) }
    ensures refused { IfErr result (λ refusal. Refuses EventFits event_cells bytes.now refusal) }
{
    decode_room_in(Version::One, bytes, room)
}

/// Reads the event record at the front of the bytes, and answers the event and how many bytes the record has, as
/// `decode_room_in` does.
pub fn decode_event_in(version: Version, bytes: &[u8]) -> Result<(Event, usize), DecodeRefusal>
    ensures found { IfOk result (λ found. BeginsWith (EventFitsIn version) (event_cells_in version) bytes.now found.0 found.1) }
    ensures refused { IfErr result (λ refusal. Refuses (EventFitsIn version) (event_cells_in version) bytes.now refusal) }
{
    let mut room = EventRoom::new();
    let length = decode_room_in(version, bytes, &mut room)?;
    Ok((room.event(), length))
}

/// Reads the event record of a version at the front of the bytes into a room, and answers how many bytes the record has.
/// It is Short exactly where the bytes are a proper prefix of some event record, and else refused at the first byte that
/// no event record can have after the bytes before it: by Kind where a kind byte stands there, else by the field that
/// stands there (own rule). After a refusal some event is in the room, and which one isn't said.
pub fn decode_room_in(
    version: Version,
    bytes: &[u8],
    room: &mut EventRoom,
) -> Result<usize, DecodeRefusal>
    ensures found { IfOk result (λ length. BeginsWith (EventFitsIn version) (event_cells_in version) bytes.now room.new length) }
    ensures refused { IfErr result (λ refusal. Refuses (EventFitsIn version) (event_cells_in version) bytes.now refusal) }
{
    match read_event(version, bytes, room) {
        Ok(rest) => Ok(bytes.len() - rest.len()),
        Err(fault) => Err(refusal(bytes.len(), fault)),
    }
}

/// Reads an event into a room.
#[inline(always)]
#[tactic(auto, unfolding(crate::specs::ReadingRooms::room_event_at))]
fn read_event<'a>(
    version: Version,
    bytes: &'a [u8],
    room: &mut EventRoom,
) -> Result<&'a [u8], Fault>
    ensures { Gives (λ rest. (room.new, rest.now)) result (room_event_at version bytes.now) }
{
    let (agent, rest) = read_within(bytes, FieldName::Agent, 0, DEVICE)?;
    let rest = read_cause(version, agent, rest, room)?;
    let rest = read_sends(version, rest, room)?;
    let rest = read_commit(rest, room)?;
    Ok(rest)
}

/// Begins the event of an agent in a room by the cause that is read.
#[inline(always)]
#[tactic(auto, unfolding(crate::specs::ReadingRooms::begun_at, crate::specs::ReadingRooms::begun_fields_at, crate::specs::ReadingEvents::cause_at, crate::specs::ReadingEvents::cause_fields_at))]
fn read_cause<'a>(
    version: Version,
    agent: u8,
    bytes: &'a [u8],
    room: &mut EventRoom,
) -> Result<&'a [u8], Fault>
    ensures gives { Gives (λ rest. (room.new, rest.now)) result (begun_at version agent bytes.now) }
    ensures nothing { IfOk result (λ rest. room.new.sends ≡ Sends.Nothing) }
{
    let (kind, rest) = read_cause_kind(bytes)?;
    match kind {
        CauseKind::Op => read_begun(agent, rest, room),
        CauseKind::Take => read_taken(version, agent, rest, room),
        CauseKind::Act => read_done(version, agent, rest, room),
    }
}

/// Begins the event of an agent in a room by the operation that is read.
#[inline(always)]
#[tactic(auto, unfolding(crate::specs::ReadingRooms::begun_fields_at, crate::specs::ReadingEvents::cause_fields_at))]
fn read_begun<'a>(agent: u8, bytes: &'a [u8], room: &mut EventRoom) -> Result<&'a [u8], Fault>
    ensures gives { (version : Version) → Gives (λ rest. (room.new, rest.now)) result (begun_fields_at version agent CauseKind.Op bytes.now) }
    ensures nothing { IfOk result (λ rest. room.new.sends ≡ Sends.Nothing) }
{
    let (stream, rest) = read_within(bytes, FieldName::Stream, 0, MAX_STREAMS - 1)?;
    let (index, rest) = read_u32(rest)?;
    let (op, rest) = read_op(rest)?;
    room.begin_op(agent, stream, index, op);
    Ok(rest)
}

/// Begins the event of an agent in a room by the message that is read.
#[inline(always)]
#[tactic(auto, unfolding(crate::specs::ReadingRooms::begun_fields_at, crate::specs::ReadingEvents::cause_fields_at))]
fn read_taken<'a>(
    version: Version,
    agent: u8,
    bytes: &'a [u8],
    room: &mut EventRoom,
) -> Result<&'a [u8], Fault>
    ensures gives { Gives (λ rest. (room.new, rest.now)) result (begun_fields_at version agent CauseKind.Take bytes.now) }
    ensures nothing { IfOk result (λ rest. room.new.sends ≡ Sends.Nothing) }
{
    let (host, rest) = read_within(bytes, FieldName::Host, 0, MAX_HOSTS - 1)?;
    let (message, rest) = read_message(version, rest)?;
    room.begin_take(agent, host, message);
    Ok(rest)
}

/// Begins the event of an agent in a room by the act that is read.
#[inline(always)]
#[tactic(auto, unfolding(crate::specs::ReadingRooms::begun_fields_at, crate::specs::ReadingEvents::cause_fields_at))]
fn read_done<'a>(
    version: Version,
    agent: u8,
    bytes: &'a [u8],
    room: &mut EventRoom,
) -> Result<&'a [u8], Fault>
    ensures gives { Gives (λ rest. (room.new, rest.now)) result (begun_fields_at version agent CauseKind.Act bytes.now) }
    ensures nothing { IfOk result (λ rest. room.new.sends ≡ Sends.Nothing) }
{
    let (act, rest) = read_act(version, bytes)?;
    room.begin_act(agent, act);
    Ok(rest)
}

/// Sends one message more, which is read.
#[tactic(auto, unfolding(crate::specs::ReadingRooms::sent_at, crate::specs::ReadingEvents::out_at))]
fn read_out<'a>(version: Version, bytes: &'a [u8], room: &mut EventRoom) -> Result<&'a [u8], Fault>
    requires { IsTrue (may_send room.old.sends) }
    ensures gives { Gives (λ rest. (room.new, rest.now)) result (sent_at version room.old bytes.now) }
    ensures one { room.old.sends ≡ Sends.Nothing → IfOk result (λ rest. IsTrue (may_send room.new.sends)) }
{
    let (host, rest) = read_within(bytes, FieldName::Host, 0, MAX_HOSTS - 1)?;
    let (message, rest) = read_message(version, rest)?;
    room.send_message(host, message);
    Ok(rest)
}

/// Reads the messages that an event sends into a room whose event sends nothing.
#[inline(always)]
#[tactic(auto, unfolding(crate::specs::ReadingRooms::sends_sent_at))]
fn read_sends<'a>(
    version: Version,
    bytes: &'a [u8],
    room: &mut EventRoom,
) -> Result<&'a [u8], Fault>
    requires { room.old.sends ≡ Sends.Nothing }
    ensures { Gives (λ rest. (room.new, rest.now)) result (sends_sent_at version room.old bytes.now) }
{
    let (count, rest) = read_within(bytes, FieldName::SendCount, 0, 2)?;
    read_outs(version, count, rest, room)
}

/// Reads so many sent messages, two at most, into a room whose event sends nothing.
#[inline(always)]
#[tactic(auto, unfolding(crate::specs::ReadingRooms::all_sent_at))]
fn read_outs<'a>(
    version: Version,
    count: u8,
    bytes: &'a [u8],
    room: &mut EventRoom,
) -> Result<&'a [u8], Fault>
    requires { room.old.sends ≡ Sends.Nothing }
    ensures { Gives (λ rest. (room.new, rest.now)) result (all_sent_at version count room.old bytes.now) }
{
    match count {
        0 => Ok(bytes),
        1 => read_out(version, bytes, room),
        _ => {
            let rest = read_out(version, bytes, room)?;
            read_out(version, rest, room)
        }
    }
}

/// Reads whether there is a commit, and the commit, into a room whose event has none yet.
#[inline(always)]
#[tactic(auto, unfolding(crate::specs::ReadingRooms::commit_set_at))]
fn read_commit<'a>(bytes: &'a [u8], room: &mut EventRoom) -> Result<&'a [u8], Fault>
    ensures { Gives (λ rest. (room.new, rest.now)) result (commit_set_at room.old bytes.now) }
{
    let (flag, rest) = read_within(bytes, FieldName::CommitFlag, 0, 1)?;
    read_flagged(flag, rest, room)
}

/// Reads the commit behind a flag of 1 into a room whose event has none yet.
#[inline(always)]
#[tactic(auto, unfolding(crate::specs::ReadingRooms::flagged_set_at, crate::specs::ReadingEvents::flagged_at))]
fn read_flagged<'a>(flag: u8, bytes: &'a [u8], room: &mut EventRoom) -> Result<&'a [u8], Fault>
    ensures { Gives (λ rest. (room.new, rest.now)) result (flagged_set_at flag room.old bytes.now) }
{
    match flag {
        0 => Ok(bytes),
        _ => {
            let (stream, rest) = read_within(bytes, FieldName::Stream, 0, MAX_STREAMS - 1)?;
            let (index, rest) = read_u32(rest)?;
            let (op, rest) = read_op(rest)?;
            let (value, rest) = read_payload(rest)?;
            room.set_commit(stream, index, op, value);
            Ok(rest)
        }
    }
}
