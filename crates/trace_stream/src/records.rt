// The record at the front of some bytes, of the kinds that may come there.
ghost use Rattle.std.specs.Prelude.{◌≡◌, true, false, None, ◌+◌, ◌^◌, ◌<◌, ◌≤◌, length, IfOk, OnErr};
ghost use Rattle.cxl_codec.specs.Grammar.{Answers};
ghost use Rattle.cxl_codec.specs.declared.versions.Version.{Version};
ghost use Rattle.trace_stream.specs.declared.rooms.Room.{Room};
ghost use Rattle.trace_stream.specs.Items.{Allows, IsBelow, IsFirst, IsItem, IsLater, IsNamed, IsNext, IsOpen, ReadsAs, Says, cells_at, item_cells, item_of, item_length, answer_of, begins_with, found_of, record_fault, outcome_with};

use crate::items::{Found, Reason, TraceFault};
use crate::rooms::Room;
use crate::stages::{Stage, refused_whole};
use cxl_codec::{
    DecodeRefusal, Version, decode_end, decode_header_in, decode_name, decode_opening,
    decode_room_in,
};

/// Reads a header.
#[inline(never)]
fn first_record(bytes: &[u8], room: &mut Room) -> Result<(Found, usize), DecodeRefusal>
    ensures { (version : Version) → Answers IsFirst (item_cells version) bytes.now (answer_of room.new result) }
{
    match decode_header_in(bytes) {
        Ok((version, setup, length)) => {
            room.version = version;
            room.setup = setup;
            Ok((Found::Header, length))
        }
        Err(refusal) => Err(refusal),
    }
}

/// Reads a name, an opening, an event or an end record of version 2.
#[inline(always)]
fn named_record(bytes: &[u8], room: &mut Room) -> Result<(Found, usize), DecodeRefusal>
    ensures { Answers IsNamed (item_cells Version.Two) bytes.now (answer_of room.new result) }
{
    if begins(bytes, 0xf1) {
        name_record(bytes, room)
    } else {
        next_record(Version::Two, bytes, room)
    }
}

/// Reads a name record at bytes that begin as one.
#[inline(never)]
fn name_record(bytes: &[u8], room: &mut Room) -> Result<(Found, usize), DecodeRefusal>
    requires { begins_with bytes.now 0xf1 ≡ true }
    ensures { Answers IsNamed (item_cells Version.Two) bytes.now (answer_of room.new result) }
{
    match decode_name(bytes) {
        Ok((stream, name, length)) => {
            room.stream = stream;
            room.name = name;
            Ok((Found::Name, length))
        }
        Err(refusal) => Err(refusal),
    }
}

/// Reads an opening, an event or an end record.
#[inline(always)]
fn next_record(
    version: Version,
    bytes: &[u8],
    room: &mut Room,
) -> Result<(Found, usize), DecodeRefusal>
    ensures { Answers (IsNext version) (item_cells version) bytes.now (answer_of room.new result) }
{
    if begins(bytes, 0xf0) {
        opening_record(bytes, room)
    } else {
        later_record(version, bytes, room)
    }
}

/// Reads an opening record at bytes that begin as one.
#[inline(never)]
fn opening_record(bytes: &[u8], room: &mut Room) -> Result<(Found, usize), DecodeRefusal>
    requires { begins_with bytes.now 0xf0 ≡ true }
    ensures { (version : Version) → Answers (IsNext version) (item_cells version) bytes.now (answer_of room.new result) }
{
    match decode_opening(bytes) {
        Ok((line, held, length)) => {
            room.line = line;
            room.bytes = held;
            Ok((Found::Opened, length))
        }
        Err(refusal) => Err(refusal),
    }
}

/// Reads an event or an end record.
#[inline(always)]
fn later_record(
    version: Version,
    bytes: &[u8],
    room: &mut Room,
) -> Result<(Found, usize), DecodeRefusal>
    ensures { Answers (IsLater version) (item_cells version) bytes.now (answer_of room.new result) }
{
    if begins(bytes, 0xff) {
        end_record(bytes)
    } else {
        event_record(version, bytes, room)
    }
}

/// Reads an end record at bytes that begin as one.
fn end_record(bytes: &[u8]) -> Result<(Found, usize), DecodeRefusal>
    requires { begins_with bytes.now 0xff ≡ true }
    ensures { (version : Version) (room : Room) → Answers (IsLater version) (item_cells version) bytes.now (answer_of room result) }
{
    match decode_end(bytes) {
        Ok((count, length)) => Ok((Found::End { count }, length)),
        Err(refusal) => Err(refusal),
    }
}

/// Reads an event record at bytes that don't begin as an end record.
#[inline(always)]
fn event_record(
    version: Version,
    bytes: &[u8],
    room: &mut Room,
) -> Result<(Found, usize), DecodeRefusal>
    requires { begins_with bytes.now 0xff ≡ false }
    ensures { Answers (IsLater version) (item_cells version) bytes.now (answer_of room.new result) }
{
    match decode_room_in(version, bytes, &mut room.event) {
        Ok(length) => Ok((Found::Event, length)),
        Err(refusal) => Err(refusal),
    }
}

/// Whether the first of the bytes is this one.
#[inline(always)]
fn begins(bytes: &[u8], byte: u8) -> bool
    ensures { result ≡ begins_with bytes.now byte }
{
    match bytes {
        [] => false,
        [first, ..] => *first == byte,
    }
}

/// Reads a record of the kinds that may come at a stage.
#[inline(always)]
fn record_at(stage: Stage, bytes: &[u8], room: &mut Room) -> Result<(Found, usize), DecodeRefusal>
    requires { IsOpen stage }
    ensures { Answers (Allows stage) (cells_at stage) bytes.now (answer_of room.new result) }
{
    match stage {
        Stage::Start => first_record(bytes, room),
        Stage::Names { .. } => named_record(bytes, room),
        Stage::Openings { version, .. } => next_record(version, bytes, room),
        Stage::Events { version, .. } => later_record(version, bytes, room),
        Stage::Ended { .. } => unreachable!("no record is read behind the end"),
    }
}

/// What the record at a place of a trace comes to: an item with its length, more to come, or a fault.
#[inline(always)]
fn outcome_at(
    stage: Stage,
    place: u64,
    bytes: &[u8],
    room: &mut Room,
) -> Result<(Found, usize), TraceFault>
    requires open { IsOpen stage }
    requires place { place + length bytes.now < 2 ^ 63 }
    ensures says { ReadsAs stage place bytes.now (outcome_with room.new (found_of result)) }
    ensures length { IfOk result (λ found. found.1 ≡ item_length stage (item_of room.new found.0)) }
    ensures within { IfOk result (λ found. found.1 ≤ length bytes.now) }
    ensures some { IfOk result (λ found. IsItem found.0 → 0 < found.1) }
    ensures below { IfOk result (λ found. IsBelow room.new found.0) }
{
    match record_at(stage, bytes, room) {
        Ok((found, length)) => match refused_whole(stage, found, room) {
            None => Ok((found, length)),
            Some(reason) => Err(TraceFault { at: place, reason }),
        },
        Err(DecodeRefusal::Short) => Ok((Found::More, 0)),
        Err(DecodeRefusal::Kind { at }) => Err(TraceFault {
            at: place + at as u64,
            reason: Reason::Kind,
        }),
        Err(DecodeRefusal::Field { at, which }) => Err(TraceFault {
            at: place + at as u64,
            reason: Reason::Field(which),
        }),
    }
}

/// What the bytes from a place on come to at a stage.
#[inline(always)]
pub fn read_at(
    stage: Stage,
    place: u64,
    bytes: &[u8],
    room: &mut Room,
) -> Result<(Found, usize), TraceFault>
    requires { place + length bytes.now < 2 ^ 63 }
    ensures says { Says stage place bytes.now (outcome_with room.new (found_of result)) }
    ensures length { IfOk result (λ found. found.1 ≡ item_length stage (item_of room.new found.0)) }
    ensures within { IfOk result (λ found. found.1 ≤ length bytes.now) }
    ensures some { IfOk result (λ found. IsItem found.0 → 0 < found.1) }
    ensures below { IfOk result (λ found. IsBelow room.new found.0) }
{
    match stage {
        Stage::Ended { .. } => match bytes {
            [] => Ok((Found::More, 0)),
            _ => Err(TraceFault {
                at: place,
                reason: Reason::Trailing,
            }),
        },
        _ => outcome_at(stage, place, bytes, room),
    }
}
